//! Lists with commas.

ghost use Rattle.std.specs.Prelude.{◌≡◌, ◌+◌, length};
ghost use Rattle.tie_ast.specs.Answers.{Gives};
ghost use Rattle.tie_grammar.specs.Reading.{some_of, more_of, any_of, literal as one_literal};
ghost use Rattle.tie_grammar.specs.Decls as spec;
ghost use Rattle.tie_grammar.specs.declared.symbol.Mark.TheVariants.{EndBrace, EndParen};

use crate::items::maybe_range;
use crate::refusal::Refusal;
use crate::token::{direction, expect, literal, name, sees};
use sqlite_items::Items;
use std::alloc::Global;
use tie_grammar::symbol::{Mark, Symbol};
use tie_grammar::tree::{Argument, Link, Literal, Parameter};

/// One literal or more.
#[tactic(auto, unfolding(tie_grammar::specs::Reading::some_of))]
pub fn literals(alloc: Global, rest: &[Symbol]) -> Result<(Items<Literal>, &[Symbol]), Refusal>
    ensures { Gives (λ x. (x.0, x.1.now)) result (some_of one_literal rest.now) }
{
    let (first, rest) = literal(alloc, rest)?;
    more_literals(alloc, first, rest)
}

#[tactic(auto, unfolding(tie_grammar::specs::Reading::more_of))]
fn more_literals(
    alloc: Global,
    first: Literal,
    rest: &[Symbol],
) -> Result<(Items<Literal>, &[Symbol]), Refusal>
    ensures { Gives (λ x. (x.0, x.1.now)) result (more_of one_literal first rest.now) }
{
    let mut found = Items::new(alloc);
    found.push(first)?;
    let mut rest = rest;
    let turns = rest.len() + 1;
    for turn in 0..turns {
        if !sees(rest, Mark::Comma) {
            return Ok((found, rest));
        }
        let after = expect(rest, Mark::Comma)?;
        let (next, after) = literal(alloc, after)?;
        found.push(next)?;
        rest = after;
    }
    Err(Refusal::Fault(rest.len()))
}

#[tactic(auto, unfolding(tie_grammar::specs::Decls::parameter))]
fn parameter(alloc: Global, rest: &[Symbol]) -> Result<(Parameter, &[Symbol]), Refusal>
    ensures { Gives (λ x. (x.0, x.1.now)) result (spec.parameter rest.now) }
{
    let (range, rest) = maybe_range(alloc, rest)?;
    let (name, rest) = name(alloc, rest)?;
    Ok((Parameter { range, name }, rest))
}

/// The parameters before a `)`.
#[tactic(auto, unfolding(tie_grammar::specs::Reading::any_of, tie_grammar::specs::Reading::some_of))]
pub fn parameters(alloc: Global, rest: &[Symbol]) -> Result<(Items<Parameter>, &[Symbol]), Refusal>
    ensures { Gives (λ x. (x.0, x.1.now)) result (any_of EndParen spec.parameter rest.now) }
{
    if sees(rest, Mark::EndParen) {
        return Ok((Items::new(alloc), rest));
    }
    let (first, rest) = parameter(alloc, rest)?;
    more_parameters(alloc, first, rest)
}

#[tactic(auto, unfolding(tie_grammar::specs::Reading::more_of))]
fn more_parameters(
    alloc: Global,
    first: Parameter,
    rest: &[Symbol],
) -> Result<(Items<Parameter>, &[Symbol]), Refusal>
    ensures { Gives (λ x. (x.0, x.1.now)) result (more_of spec.parameter first rest.now) }
{
    let mut found = Items::new(alloc);
    found.push(first)?;
    let mut rest = rest;
    let turns = rest.len() + 1;
    for turn in 0..turns {
        if !sees(rest, Mark::Comma) {
            return Ok((found, rest));
        }
        let after = expect(rest, Mark::Comma)?;
        let (next, after) = parameter(alloc, after)?;
        found.push(next)?;
        rest = after;
    }
    Err(Refusal::Fault(rest.len()))
}

#[tactic(auto, unfolding(tie_grammar::specs::Decls::argument))]
fn argument(alloc: Global, rest: &[Symbol]) -> Result<(Argument, &[Symbol]), Refusal>
    ensures { Gives (λ x. (x.0, x.1.now)) result (spec.argument rest.now) }
{
    let (direction, rest) = direction(rest)?;
    let (kind, rest) = name(alloc, rest)?;
    let (name, rest) = name(alloc, rest)?;
    Ok((
        Argument {
            direction,
            kind,
            name,
        },
        rest,
    ))
}

/// The arguments of an operation before a `}`.
#[tactic(auto, unfolding(tie_grammar::specs::Reading::any_of, tie_grammar::specs::Reading::some_of))]
pub fn arguments(alloc: Global, rest: &[Symbol]) -> Result<(Items<Argument>, &[Symbol]), Refusal>
    ensures { Gives (λ x. (x.0, x.1.now)) result (any_of EndBrace spec.argument rest.now) }
{
    if sees(rest, Mark::EndBrace) {
        return Ok((Items::new(alloc), rest));
    }
    let (first, rest) = argument(alloc, rest)?;
    more_arguments(alloc, first, rest)
}

#[tactic(auto, unfolding(tie_grammar::specs::Reading::more_of))]
fn more_arguments(
    alloc: Global,
    first: Argument,
    rest: &[Symbol],
) -> Result<(Items<Argument>, &[Symbol]), Refusal>
    ensures { Gives (λ x. (x.0, x.1.now)) result (more_of spec.argument first rest.now) }
{
    let mut found = Items::new(alloc);
    found.push(first)?;
    let mut rest = rest;
    let turns = rest.len() + 1;
    for turn in 0..turns {
        if !sees(rest, Mark::Comma) {
            return Ok((found, rest));
        }
        let after = expect(rest, Mark::Comma)?;
        let (next, after) = argument(alloc, after)?;
        found.push(next)?;
        rest = after;
    }
    Err(Refusal::Fault(rest.len()))
}

#[tactic(auto, unfolding(tie_grammar::specs::Decls::link))]
fn link(alloc: Global, rest: &[Symbol]) -> Result<(Link, &[Symbol]), Refusal>
    ensures { Gives (λ x. (x.0, x.1.now)) result (spec.link rest.now) }
{
    let (direction, rest) = direction(rest)?;
    let (name, rest) = name(alloc, rest)?;
    Ok((Link { direction, name }, rest))
}

/// The states and queues of an operation before a `}`.
#[tactic(auto, unfolding(tie_grammar::specs::Reading::any_of, tie_grammar::specs::Reading::some_of))]
pub fn links(alloc: Global, rest: &[Symbol]) -> Result<(Items<Link>, &[Symbol]), Refusal>
    ensures { Gives (λ x. (x.0, x.1.now)) result (any_of EndBrace spec.link rest.now) }
{
    if sees(rest, Mark::EndBrace) {
        return Ok((Items::new(alloc), rest));
    }
    let (first, rest) = link(alloc, rest)?;
    more_links(alloc, first, rest)
}

#[tactic(auto, unfolding(tie_grammar::specs::Reading::more_of))]
fn more_links(
    alloc: Global,
    first: Link,
    rest: &[Symbol],
) -> Result<(Items<Link>, &[Symbol]), Refusal>
    ensures { Gives (λ x. (x.0, x.1.now)) result (more_of spec.link first rest.now) }
{
    let mut found = Items::new(alloc);
    found.push(first)?;
    let mut rest = rest;
    let turns = rest.len() + 1;
    for turn in 0..turns {
        if !sees(rest, Mark::Comma) {
            return Ok((found, rest));
        }
        let after = expect(rest, Mark::Comma)?;
        let (next, after) = link(alloc, after)?;
        found.push(next)?;
        rest = after;
    }
    Err(Refusal::Fault(rest.len()))
}
