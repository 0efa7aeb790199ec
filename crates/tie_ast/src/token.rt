//! Single symbols.

ghost use Rattle.std.specs.Prelude.{◌≡◌, length, IfOk, Ok};
ghost use Rattle.tie_grammar.specs.Reading as spec;
ghost use Rattle.tie_ast.specs.Answers.{Gives};

use crate::refusal::Refusal;
use sqlite_items::Items;
use std::alloc::Global;
use tie_grammar::symbol::{Direction, Leaf, Mark, StageWord, Symbol};
use tie_grammar::tree::Literal;

#[tactic(auto, unfolding(tie_grammar::specs::Reading::same))]
fn same(a: Mark, b: Mark) -> bool
    ensures { result ≡ spec.same a b }
{
    a == b
}

pub fn is_mark(symbol: &Symbol, mark: Mark) -> bool
    ensures { result ≡ spec.is_mark mark symbol.now }
{
    match symbol {
        Symbol::Mark(found) => same(*found, mark),
        _ => false,
    }
}

pub fn copy(alloc: Global, leaf: &Leaf) -> Result<Leaf, Refusal>
    ensures { Gives (λ x. x) result (Ok leaf.now) }
{
    let bytes = Items::from_slice(alloc, leaf.bytes.as_slice())?;
    Ok(Leaf {
        bytes,
        place: leaf.place,
    })
}

pub fn sees(rest: &[Symbol], mark: Mark) -> bool
    ensures { result ≡ spec.sees mark rest.now }
{
    match rest {
        [Symbol::Mark(first), ..] => same(*first, mark),
        _ => false,
    }
}

pub fn expect(rest: &[Symbol], mark: Mark) -> Result<&[Symbol], Refusal>
    ensures { Gives (λ x. (tt, x.now)) result (spec.expect mark rest.now) }
{
    match rest {
        [Symbol::Mark(first), after @ ..] if same(*first, mark) => Ok(after),
        _ => Err(Refusal::Fault(rest.len())),
    }
}

pub fn name(alloc: Global, rest: &[Symbol]) -> Result<(Leaf, &[Symbol]), Refusal>
    ensures { Gives (λ x. (x.0, x.1.now)) result (spec.name rest.now) }
{
    match rest {
        [Symbol::Name(leaf), after @ ..] => Ok((copy(alloc, leaf)?, after)),
        _ => Err(Refusal::Fault(rest.len())),
    }
}

pub fn number(alloc: Global, rest: &[Symbol]) -> Result<(Leaf, &[Symbol]), Refusal>
    ensures { Gives (λ x. (x.0, x.1.now)) result (spec.number rest.now) }
{
    match rest {
        [Symbol::Number(leaf), after @ ..] => Ok((copy(alloc, leaf)?, after)),
        _ => Err(Refusal::Fault(rest.len())),
    }
}

pub fn literal(alloc: Global, rest: &[Symbol]) -> Result<(Literal, &[Symbol]), Refusal>
    ensures { Gives (λ x. (x.0, x.1.now)) result (spec.literal rest.now) }
{
    match rest {
        [Symbol::Number(leaf), after @ ..] => Ok((Literal::Number(copy(alloc, leaf)?), after)),
        [Symbol::Sized(leaf), after @ ..] => Ok((Literal::Sized(copy(alloc, leaf)?), after)),
        _ => Err(Refusal::Fault(rest.len())),
    }
}

/// The number `0`.
pub fn zero(alloc: Global, rest: &[Symbol]) -> Result<(Leaf, &[Symbol]), Refusal>
    ensures { Gives (λ x. (x.0, x.1.now)) result (spec.nought rest.now) }
{
    match rest {
        [Symbol::Number(leaf), after @ ..] if leaf.bytes.as_slice() == b"0".as_slice() => {
            Ok((copy(alloc, leaf)?, after))
        }
        _ => Err(Refusal::Fault(rest.len())),
    }
}

/// `(`, with its place.
pub fn paren(rest: &[Symbol]) -> Result<(u32, &[Symbol]), Refusal>
    ensures { Gives (λ x. (x.0, x.1.now)) result (spec.paren rest.now) }
{
    match rest {
        [Symbol::Paren(place), after @ ..] => Ok((*place, after)),
        _ => Err(Refusal::Fault(rest.len())),
    }
}

/// `{`, with its place.
pub fn brace(rest: &[Symbol]) -> Result<(u32, &[Symbol]), Refusal>
    ensures { Gives (λ x. (x.0, x.1.now)) result (spec.brace rest.now) }
{
    match rest {
        [Symbol::Brace(place), after @ ..] => Ok((*place, after)),
        _ => Err(Refusal::Fault(rest.len())),
    }
}

pub fn direction(rest: &[Symbol]) -> Result<(Direction, &[Symbol]), Refusal>
    ensures { Gives (λ x. (x.0, x.1.now)) result (spec.direction rest.now) }
{
    match rest {
        [Symbol::Direction(direction), after @ ..] => Ok((*direction, after)),
        _ => Err(Refusal::Fault(rest.len())),
    }
}

pub fn stage(rest: &[Symbol]) -> Result<(StageWord, &[Symbol]), Refusal>
    ensures { Gives (λ x. (x.0, x.1.now)) result (spec.stage rest.now) }
{
    match rest {
        [Symbol::Stage(word), after @ ..] => Ok((*word, after)),
        _ => Err(Refusal::Fault(rest.len())),
    }
}

pub fn sees_paren(rest: &[Symbol]) -> bool
    ensures { result ≡ spec.sees_paren (spec.first rest.now) }
{
    matches!(rest, [Symbol::Paren(_), ..])
}

pub fn sees_brace(rest: &[Symbol]) -> bool
    ensures { result ≡ spec.sees_brace (spec.first rest.now) }
{
    matches!(rest, [Symbol::Brace(_), ..])
}
