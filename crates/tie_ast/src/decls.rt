//! Declarations and texts.

ghost use Rattle.std.specs.Prelude.{◌≡◌, ◌+◌, length};
ghost use Rattle.tie_ast.specs.Answers.{Gives};
ghost use Rattle.tie_grammar.specs.Reading.{branch};
ghost use Rattle.tie_grammar.specs.Decls as spec;

use crate::items::{items, maybe_range, names, schedule_items};
use crate::lists::{arguments, links, literals, parameters};
use crate::refusal::Refusal;
use crate::token::{brace, expect, literal, name, number, paren};
use sqlite_items::Items;
use std::alloc::Global;
use tie_grammar::symbol::{Direction, Leaf, Mark, Sign, Symbol};
use tie_grammar::tree::{
    Decl, Format, Function, ImmediateRange, Int, Literal, Operation, Queue, Regfile, Schedule,
    SlotOpcodes, State, Table, Tree,
};

#[tactic(auto, unfolding(tie_grammar::specs::Decls::maybe_literal, tie_grammar::specs::Decls::some_literal))]
fn maybe_literal(alloc: Global, rest: &[Symbol]) -> Result<(Option<Literal>, &[Symbol]), Refusal>
    ensures { Gives (λ x. (x.0, x.1.now)) result (spec.maybe_literal rest.now) }
{
    match rest {
        [Symbol::Number(_) | Symbol::Sized(_), ..] => {
            let (value, rest) = literal(alloc, rest)?;
            Ok((Some(value), rest))
        }
        _ => Ok((None, rest)),
    }
}

#[tactic(auto, unfolding(tie_grammar::specs::Decls::int, tie_grammar::specs::Decls::maybe_minus, tie_grammar::specs::Decls::some_minus))]
fn int(alloc: Global, rest: &[Symbol]) -> Result<(Int, &[Symbol]), Refusal>
    ensures { Gives (λ x. (x.0, x.1.now)) result (spec.int rest.now) }
{
    match rest {
        [Symbol::Sign(Sign::Minus, place), after @ ..] => {
            let (number, after) = number(alloc, after)?;
            Ok((
                Int {
                    minus: Some(*place),
                    number,
                },
                after,
            ))
        }
        _ => {
            let (number, after) = number(alloc, rest)?;
            Ok((
                Int {
                    minus: None,
                    number,
                },
                after,
            ))
        }
    }
}

#[tactic(auto, unfolding(tie_grammar::specs::Decls::state))]
fn state(alloc: Global, rest: &[Symbol]) -> Result<(Decl, &[Symbol]), Refusal>
    ensures { Gives (λ x. (x.0, x.1.now)) result (spec.state rest.now) }
{
    let (name, rest) = name(alloc, rest)?;
    let (width, rest) = number(alloc, rest)?;
    let (reset, rest) = maybe_literal(alloc, rest)?;
    Ok((Decl::State(State { name, width, reset }), rest))
}

#[tactic(auto, unfolding(tie_grammar::specs::Decls::regfile))]
fn regfile(alloc: Global, rest: &[Symbol]) -> Result<(Decl, &[Symbol]), Refusal>
    ensures { Gives (λ x. (x.0, x.1.now)) result (spec.regfile rest.now) }
{
    let (full, rest) = name(alloc, rest)?;
    let (width, rest) = number(alloc, rest)?;
    let (depth, rest) = number(alloc, rest)?;
    let (short, rest) = name(alloc, rest)?;
    Ok((
        Decl::Regfile(Regfile {
            name: full,
            width,
            depth,
            short,
        }),
        rest,
    ))
}

fn queue_end(name: Leaf, width: Leaf, rest: &[Symbol]) -> Result<(Decl, &[Symbol]), Refusal>
    ensures { Gives (λ x. (x.0, x.1.now)) result (branch (spec.queue_of name width) rest.now) }
{
    match rest {
        [Symbol::Direction(Direction::In), after @ ..] => {
            Ok((Decl::QueueIn(Queue { name, width }), after))
        }
        [Symbol::Direction(Direction::Out), after @ ..] => {
            Ok((Decl::QueueOut(Queue { name, width }), after))
        }
        _ => Err(Refusal::Fault(rest.len())),
    }
}

#[tactic(auto, unfolding(tie_grammar::specs::Decls::queue))]
fn queue(alloc: Global, rest: &[Symbol]) -> Result<(Decl, &[Symbol]), Refusal>
    ensures { Gives (λ x. (x.0, x.1.now)) result (spec.queue rest.now) }
{
    let (name, rest) = name(alloc, rest)?;
    let (width, rest) = number(alloc, rest)?;
    queue_end(name, width, rest)
}

#[tactic(auto, unfolding(tie_grammar::specs::Decls::table))]
fn table(alloc: Global, rest: &[Symbol]) -> Result<(Decl, &[Symbol]), Refusal>
    ensures { Gives (λ x. (x.0, x.1.now)) result (spec.table rest.now) }
{
    let (name, rest) = name(alloc, rest)?;
    let (width, rest) = number(alloc, rest)?;
    let (depth, rest) = number(alloc, rest)?;
    let (brace, rest) = brace(rest)?;
    let (entries, rest) = literals(alloc, rest)?;
    let rest = expect(rest, Mark::EndBrace)?;
    Ok((
        Decl::Table(Table {
            name,
            width,
            depth,
            brace,
            entries,
        }),
        rest,
    ))
}

#[tactic(auto, unfolding(tie_grammar::specs::Decls::immediate_range))]
fn immediate_range(alloc: Global, rest: &[Symbol]) -> Result<(Decl, &[Symbol]), Refusal>
    ensures { Gives (λ x. (x.0, x.1.now)) result (spec.immediate_range rest.now) }
{
    let (name, rest) = name(alloc, rest)?;
    let (low, rest) = int(alloc, rest)?;
    let (high, rest) = int(alloc, rest)?;
    let (step, rest) = number(alloc, rest)?;
    Ok((
        Decl::ImmediateRange(ImmediateRange {
            name,
            low,
            high,
            step,
        }),
        rest,
    ))
}

#[tactic(auto, unfolding(tie_grammar::specs::Decls::function))]
fn function(alloc: Global, rest: &[Symbol], size: usize) -> Result<(Decl, &[Symbol]), Refusal>
    ensures { Gives (λ x. (x.0, x.1.now)) result (spec.function size rest.now) }
{
    let (range, rest) = maybe_range(alloc, rest)?;
    let (name, rest) = name(alloc, rest)?;
    let (paren, rest) = paren(rest)?;
    let (parameters, rest) = parameters(alloc, rest)?;
    let rest = expect(rest, Mark::EndParen)?;
    let (brace, rest) = brace(rest)?;
    let (items, rest) = items(alloc, rest, size)?;
    let rest = expect(rest, Mark::EndBrace)?;
    Ok((
        Decl::Function(Function {
            range,
            name,
            paren,
            parameters,
            brace,
            items,
        }),
        rest,
    ))
}

#[tactic(auto, unfolding(tie_grammar::specs::Decls::operation))]
fn operation(alloc: Global, rest: &[Symbol], size: usize) -> Result<(Decl, &[Symbol]), Refusal>
    ensures { Gives (λ x. (x.0, x.1.now)) result (spec.operation size rest.now) }
{
    let (name, rest) = name(alloc, rest)?;
    let (arguments_brace, rest) = brace(rest)?;
    let (arguments, rest) = arguments(alloc, rest)?;
    let rest = expect(rest, Mark::EndBrace)?;
    let (links_brace, rest) = brace(rest)?;
    let (links, rest) = links(alloc, rest)?;
    let rest = expect(rest, Mark::EndBrace)?;
    let (items_brace, rest) = brace(rest)?;
    let (items, rest) = items(alloc, rest, size)?;
    let rest = expect(rest, Mark::EndBrace)?;
    Ok((
        Decl::Operation(Operation {
            name,
            arguments_brace,
            arguments,
            links_brace,
            links,
            items_brace,
            items,
        }),
        rest,
    ))
}

#[tactic(auto, unfolding(tie_grammar::specs::Decls::schedule))]
fn schedule(alloc: Global, rest: &[Symbol]) -> Result<(Decl, &[Symbol]), Refusal>
    ensures { Gives (λ x. (x.0, x.1.now)) result (spec.schedule rest.now) }
{
    let (name, rest) = name(alloc, rest)?;
    let (operations_brace, rest) = brace(rest)?;
    let (operations, rest) = names(alloc, rest)?;
    let rest = expect(rest, Mark::EndBrace)?;
    let (items_brace, rest) = brace(rest)?;
    let (items, rest) = schedule_items(alloc, rest)?;
    let rest = expect(rest, Mark::EndBrace)?;
    Ok((
        Decl::Schedule(Schedule {
            name,
            operations_brace,
            operations,
            items_brace,
            items,
        }),
        rest,
    ))
}

#[tactic(auto, unfolding(tie_grammar::specs::Decls::format))]
fn format(alloc: Global, rest: &[Symbol]) -> Result<(Decl, &[Symbol]), Refusal>
    ensures { Gives (λ x. (x.0, x.1.now)) result (spec.format rest.now) }
{
    let (name, rest) = name(alloc, rest)?;
    let (width, rest) = number(alloc, rest)?;
    let (brace, rest) = brace(rest)?;
    let (slots, rest) = names(alloc, rest)?;
    let rest = expect(rest, Mark::EndBrace)?;
    Ok((
        Decl::Format(Format {
            name,
            width,
            brace,
            slots,
        }),
        rest,
    ))
}

#[tactic(auto, unfolding(tie_grammar::specs::Decls::slot_opcodes))]
fn slot_opcodes(alloc: Global, rest: &[Symbol]) -> Result<(Decl, &[Symbol]), Refusal>
    ensures { Gives (λ x. (x.0, x.1.now)) result (spec.slot_opcodes rest.now) }
{
    let (slot, rest) = name(alloc, rest)?;
    let (brace, rest) = brace(rest)?;
    let (opcodes, rest) = names(alloc, rest)?;
    let rest = expect(rest, Mark::EndBrace)?;
    Ok((
        Decl::SlotOpcodes(SlotOpcodes {
            slot,
            brace,
            opcodes,
        }),
        rest,
    ))
}

fn decl(alloc: Global, rest: &[Symbol], size: usize) -> Result<(Decl, &[Symbol]), Refusal>
    ensures { Gives (λ x. (x.0, x.1.now)) result (spec.decl size rest.now) }
{
    match rest {
        [Symbol::Mark(mark), after @ ..] => match mark {
            Mark::State => state(alloc, after),
            Mark::Regfile => regfile(alloc, after),
            Mark::Queue => queue(alloc, after),
            Mark::Table => table(alloc, after),
            Mark::ImmediateRange => immediate_range(alloc, after),
            Mark::Function => function(alloc, after, size),
            Mark::Operation => operation(alloc, after, size),
            Mark::Schedule => schedule(alloc, after),
            Mark::Format => format(alloc, after),
            Mark::SlotOpcodes => slot_opcodes(alloc, after),
            _ => Err(Refusal::Fault(rest.len())),
        },
        _ => Err(Refusal::Fault(rest.len())),
    }
}

#[tactic(auto, unfolding(tie_grammar::specs::Decls::decls))]
fn decls(alloc: Global, rest: &[Symbol], size: usize) -> Result<(Items<Decl>, &[Symbol]), Refusal>
    ensures { Gives (λ x. (x.0, x.1.now)) result (spec.decls size rest.now) }
{
    let mut rest = rest;
    let mut found = Items::new(alloc);
    let turns = rest.len() + 1;
    for turn in 0..turns {
        if rest.is_empty() {
            return Ok((found, rest));
        }
        let (next, after) = decl(alloc, rest, size)?;
        found.push(next)?;
        rest = after;
    }
    Err(Refusal::Fault(rest.len()))
}

/// A whole text, with expressions nested no deeper than `size`.
#[tactic(auto, unfolding(tie_grammar::specs::Decls::text))]
pub fn text(alloc: Global, rest: &[Symbol], size: usize) -> Result<(Tree, &[Symbol]), Refusal>
    ensures { Gives (λ x. (x.0, x.1.now)) result (spec.text size rest.now) }
{
    let (declarations, rest) = decls(alloc, rest, size)?;
    Ok((Tree { declarations }, rest))
}
