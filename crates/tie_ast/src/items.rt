//! Items of operations, functions and schedules.

ghost use Rattle.std.specs.Prelude.{◌≡◌, ◌+◌, length};
ghost use Rattle.tie_ast.specs.Answers.{Gives};
ghost use Rattle.tie_grammar.specs.Reading.{branch, some_of, more_of, many, name as one_name};
ghost use Rattle.tie_grammar.specs.Items as spec;
ghost use Rattle.tie_grammar.specs.declared.symbol.Mark.TheVariants.{EndBrace};

use crate::expr::expr;
use crate::refusal::Refusal;
use crate::token::{expect, name, number, sees, stage, zero};
use sqlite_items::Items;
use std::alloc::Global;
use tie_grammar::symbol::{Leaf, Mark, Symbol};
use tie_grammar::tree::{Item, Range, ScheduleItem};

#[tactic(auto, unfolding(tie_grammar::specs::Items::range))]
fn range(alloc: Global, rest: &[Symbol]) -> Result<(Option<Range>, &[Symbol]), Refusal>
    ensures { Gives (λ x. (x.0, x.1.now)) result (spec.range rest.now) }
{
    let rest = expect(rest, Mark::Bracket)?;
    let (high, rest) = number(alloc, rest)?;
    let rest = expect(rest, Mark::Colon)?;
    let (zero, rest) = zero(alloc, rest)?;
    let rest = expect(rest, Mark::EndBracket)?;
    Ok((Some(Range { high, zero }), rest))
}

#[tactic(auto, unfolding(tie_grammar::specs::Items::maybe_range))]
pub fn maybe_range(alloc: Global, rest: &[Symbol]) -> Result<(Option<Range>, &[Symbol]), Refusal>
    ensures { Gives (λ x. (x.0, x.1.now)) result (spec.maybe_range rest.now) }
{
    if sees(rest, Mark::Bracket) {
        range(alloc, rest)
    } else {
        Ok((None, rest))
    }
}

/// One name or more, with commas.
#[tactic(auto, unfolding(tie_grammar::specs::Reading::some_of))]
pub fn names(alloc: Global, rest: &[Symbol]) -> Result<(Items<Leaf>, &[Symbol]), Refusal>
    ensures { Gives (λ x. (x.0, x.1.now)) result (some_of one_name rest.now) }
{
    let (first, rest) = name(alloc, rest)?;
    more_names(alloc, first, rest)
}

#[tactic(auto, unfolding(tie_grammar::specs::Reading::more_of))]
fn more_names(
    alloc: Global,
    first: Leaf,
    rest: &[Symbol],
) -> Result<(Items<Leaf>, &[Symbol]), Refusal>
    ensures { Gives (λ x. (x.0, x.1.now)) result (more_of one_name first rest.now) }
{
    let mut found = Items::new(alloc);
    found.push(first)?;
    let mut rest = rest;
    let turns = rest.len() + 1;
    for turn in 0..turns {
        if !sees(rest, Mark::Comma) {
            return Ok((found, rest));
        }
        let after = expect(rest, Mark::Comma)?;
        let (next, after) = name(alloc, after)?;
        found.push(next)?;
        rest = after;
    }
    Err(Refusal::Fault(rest.len()))
}

#[tactic(auto, unfolding(tie_grammar::specs::Items::wire_set))]
fn wire_set(
    alloc: Global,
    range: Option<Range>,
    name: Leaf,
    rest: &[Symbol],
    depth: usize,
) -> Result<(Item, &[Symbol]), Refusal>
    ensures { Gives (λ x. (x.0, x.1.now)) result (spec.wire_set depth range name rest.now) }
{
    let (value, rest) = expr(alloc, rest, depth, 0)?;
    let rest = expect(rest, Mark::Semicolon)?;
    Ok((Item::WireSet(range, name, value.into_inner()), rest))
}

fn wire_end(
    alloc: Global,
    range: Option<Range>,
    name: Leaf,
    rest: &[Symbol],
    depth: usize,
) -> Result<(Item, &[Symbol]), Refusal>
    ensures { Gives (λ x. (x.0, x.1.now)) result (branch (spec.wire_of depth range name) rest.now) }
{
    match rest {
        [Symbol::Mark(Mark::Semicolon), after @ ..] => Ok((Item::Wire(range, name), after)),
        [Symbol::Mark(Mark::Equals), after @ ..] => wire_set(alloc, range, name, after, depth),
        _ => Err(Refusal::Fault(rest.len())),
    }
}

#[tactic(auto, unfolding(tie_grammar::specs::Items::wire))]
fn wire(alloc: Global, rest: &[Symbol], depth: usize) -> Result<(Item, &[Symbol]), Refusal>
    ensures { Gives (λ x. (x.0, x.1.now)) result (spec.wire depth rest.now) }
{
    let (range, rest) = maybe_range(alloc, rest)?;
    let (name, rest) = name(alloc, rest)?;
    wire_end(alloc, range, name, rest, depth)
}

#[tactic(auto, unfolding(tie_grammar::specs::Items::assign))]
fn assign(alloc: Global, rest: &[Symbol], depth: usize) -> Result<(Item, &[Symbol]), Refusal>
    ensures { Gives (λ x. (x.0, x.1.now)) result (spec.assign depth rest.now) }
{
    let (name, rest) = name(alloc, rest)?;
    let rest = expect(rest, Mark::Equals)?;
    let (value, rest) = expr(alloc, rest, depth, 0)?;
    let rest = expect(rest, Mark::Semicolon)?;
    Ok((Item::Assign(name, value.into_inner()), rest))
}

fn item(alloc: Global, rest: &[Symbol], depth: usize) -> Result<(Item, &[Symbol]), Refusal>
    ensures { Gives (λ x. (x.0, x.1.now)) result (spec.item depth rest.now) }
{
    match rest {
        [Symbol::Mark(Mark::Wire), after @ ..] => wire(alloc, after, depth),
        [Symbol::Mark(Mark::Assign), after @ ..] => assign(alloc, after, depth),
        _ => Err(Refusal::Fault(rest.len())),
    }
}

/// The items before a `}`.
#[tactic(auto, unfolding(tie_grammar::specs::Reading::many))]
pub fn items(
    alloc: Global,
    rest: &[Symbol],
    depth: usize,
) -> Result<(Items<Item>, &[Symbol]), Refusal>
    ensures { Gives (λ x. (x.0, x.1.now)) result (many EndBrace (spec.item depth) rest.now) }
{
    let mut rest = rest;
    let mut found = Items::new(alloc);
    let turns = rest.len() + 1;
    for turn in 0..turns {
        if sees(rest, Mark::EndBrace) {
            return Ok((found, rest));
        }
        let (next, after) = item(alloc, rest, depth)?;
        found.push(next)?;
        rest = after;
    }
    Err(Refusal::Fault(rest.len()))
}

#[tactic(auto, unfolding(tie_grammar::specs::Items::used))]
fn used(alloc: Global, rest: &[Symbol]) -> Result<(ScheduleItem, &[Symbol]), Refusal>
    ensures { Gives (λ x. (x.0, x.1.now)) result (spec.used rest.now) }
{
    let (names, rest) = names(alloc, rest)?;
    let (stage, rest) = stage(rest)?;
    let rest = expect(rest, Mark::Semicolon)?;
    Ok((ScheduleItem::Use(names, stage), rest))
}

#[tactic(auto, unfolding(tie_grammar::specs::Items::defined))]
fn defined(alloc: Global, rest: &[Symbol]) -> Result<(ScheduleItem, &[Symbol]), Refusal>
    ensures { Gives (λ x. (x.0, x.1.now)) result (spec.defined rest.now) }
{
    let (names, rest) = names(alloc, rest)?;
    let (stage, rest) = stage(rest)?;
    let rest = expect(rest, Mark::Semicolon)?;
    Ok((ScheduleItem::Def(names, stage), rest))
}

fn schedule_item(alloc: Global, rest: &[Symbol]) -> Result<(ScheduleItem, &[Symbol]), Refusal>
    ensures { Gives (λ x. (x.0, x.1.now)) result (spec.schedule_item rest.now) }
{
    match rest {
        [Symbol::Mark(Mark::Use), after @ ..] => used(alloc, after),
        [Symbol::Mark(Mark::Def), after @ ..] => defined(alloc, after),
        _ => Err(Refusal::Fault(rest.len())),
    }
}

/// The items of a schedule before a `}`.
#[tactic(auto, unfolding(tie_grammar::specs::Reading::many))]
pub fn schedule_items(
    alloc: Global,
    rest: &[Symbol],
) -> Result<(Items<ScheduleItem>, &[Symbol]), Refusal>
    ensures { Gives (λ x. (x.0, x.1.now)) result (many EndBrace spec.schedule_item rest.now) }
{
    let mut rest = rest;
    let mut found = Items::new(alloc);
    let turns = rest.len() + 1;
    for turn in 0..turns {
        if sees(rest, Mark::EndBrace) {
            return Ok((found, rest));
        }
        let (next, after) = schedule_item(alloc, rest)?;
        found.push(next)?;
        rest = after;
    }
    Err(Refusal::Fault(rest.len()))
}
