//! Expressions, by precedence climbing.
//!
//! Parts are boxed as soon as they are read, so that a level of nesting takes little stack.

ghost use Rattle.std.specs.Prelude.{◌≡◌, ◌+◌, ◌<◌, ◌≤◌, ◌∷◌, [], length, max, Ok};
ghost use Rattle.tie_ast.specs.Answers.{Gives};
ghost use Rattle.tie_grammar.specs.Reading.{list_from, after_comma, some_of, any_of, more_of};
ghost use Rattle.tie_grammar.specs.Exprs as spec;
ghost use Rattle.tie_grammar.specs.Spelling.{level as level_of};
ghost use Rattle.tie_grammar.specs.declared.tree.Expr.TheVariants as tree;
ghost use Rattle.tie_grammar.specs.declared.tree.Literal.TheVariants as literal;

use crate::refusal::Refusal;
use crate::token::{brace, copy, expect, number, paren, sees, sees_brace, sees_paren};
use sqlite_items::{Boxed, Items};
use std::alloc::Global;
use tie_grammar::symbol::{Leaf, Mark, Sign, Symbol, TieWord};
use tie_grammar::tree::{BinaryOp, Expr, Literal, Operator, UnaryOp};

/// How tightly an operator binds.
fn level(op: BinaryOp) -> u8
    ensures value { result ≡ level_of op }
    ensures least { 1 ≤ result }
    ensures small { result < 11 }
{
    match op {
        BinaryOp::LogicalOr => 1,
        BinaryOp::LogicalAnd => 2,
        BinaryOp::Or => 3,
        BinaryOp::Xor => 4,
        BinaryOp::And => 5,
        BinaryOp::Equal | BinaryOp::NotEqual => 6,
        BinaryOp::Less | BinaryOp::LessEqual | BinaryOp::Greater | BinaryOp::GreaterEqual => 7,
        BinaryOp::ShiftLeft | BinaryOp::ShiftRight => 8,
        BinaryOp::Add | BinaryOp::Subtract => 9,
        BinaryOp::Multiply => 10,
    }
}

fn unary_op(sign: Sign) -> Option<UnaryOp>
    ensures { result ≡ spec.unary_op sign }
{
    match sign {
        Sign::Tilde => Some(UnaryOp::Not),
        Sign::Bang => Some(UnaryOp::LogicalNot),
        Sign::Amp => Some(UnaryOp::ReduceAnd),
        Sign::Bar => Some(UnaryOp::ReduceOr),
        Sign::Caret => Some(UnaryOp::ReduceXor),
        _ => None,
    }
}

fn binary_op(sign: Sign) -> Option<BinaryOp>
    ensures { result ≡ spec.binary_op sign }
{
    match sign {
        Sign::BarBar => Some(BinaryOp::LogicalOr),
        Sign::AmpAmp => Some(BinaryOp::LogicalAnd),
        Sign::Bar => Some(BinaryOp::Or),
        Sign::Caret => Some(BinaryOp::Xor),
        Sign::Amp => Some(BinaryOp::And),
        Sign::EqualEqual => Some(BinaryOp::Equal),
        Sign::BangEqual => Some(BinaryOp::NotEqual),
        Sign::Less => Some(BinaryOp::Less),
        Sign::LessEqual => Some(BinaryOp::LessEqual),
        Sign::Greater => Some(BinaryOp::Greater),
        Sign::GreaterEqual => Some(BinaryOp::GreaterEqual),
        Sign::LessLess => Some(BinaryOp::ShiftLeft),
        Sign::GreaterGreater => Some(BinaryOp::ShiftRight),
        Sign::Plus => Some(BinaryOp::Add),
        Sign::Minus => Some(BinaryOp::Subtract),
        Sign::Star => Some(BinaryOp::Multiply),
        Sign::Tilde | Sign::Bang => None,
    }
}

fn operator(rest: &[Symbol]) -> Option<Operator>
    ensures { result ≡ spec.operator rest.now }
{
    match rest {
        [Symbol::Sign(sign, place), ..] => match binary_op(*sign) {
            Some(op) => Some(Operator { op, place: *place }),
            None => None,
        },
        _ => None,
    }
}

/// A number, in a box.
fn number_expr(alloc: Global, leaf: &Leaf) -> Result<Boxed<Expr>, Refusal>
    ensures { Gives (λ x. x) result (Ok (tree.Literal (literal.Number leaf.now))) }
{
    let leaf = copy(alloc, leaf)?;
    Ok(Boxed::new(alloc, Expr::Literal(Literal::Number(leaf)))?)
}

fn sized_expr(alloc: Global, leaf: &Leaf) -> Result<Boxed<Expr>, Refusal>
    ensures { Gives (λ x. x) result (Ok (tree.Literal (literal.Sized leaf.now))) }
{
    let leaf = copy(alloc, leaf)?;
    Ok(Boxed::new(alloc, Expr::Literal(Literal::Sized(leaf)))?)
}

fn name_expr(alloc: Global, name: Leaf) -> Result<Boxed<Expr>, Refusal>
    ensures { Gives (λ x. x) result (Ok (tree.Name name)) }
{
    Ok(Boxed::new(alloc, Expr::Name(name))?)
}

fn call_expr(
    alloc: Global,
    name: Leaf,
    place: u32,
    arguments: Items<Expr>,
) -> Result<Boxed<Expr>, Refusal>
    ensures { Gives (λ x. x) result (Ok (tree.Call name place arguments)) }
{
    Ok(Boxed::new(alloc, Expr::Call(name, place, arguments))?)
}

fn tie_expr(
    alloc: Global,
    word: TieWord,
    place: u32,
    arguments: Items<Expr>,
) -> Result<Boxed<Expr>, Refusal>
    ensures { Gives (λ x. x) result (Ok (tree.Tie word place arguments)) }
{
    Ok(Boxed::new(alloc, Expr::Tie(word, place, arguments))?)
}

fn paren_expr(alloc: Global, place: u32, inner: Boxed<Expr>) -> Result<Boxed<Expr>, Refusal>
    ensures { Gives (λ x. x) result (Ok (tree.Paren place inner)) }
{
    Ok(Boxed::new(alloc, Expr::Paren(place, inner))?)
}

fn concat_expr(alloc: Global, place: u32, parts: Items<Expr>) -> Result<Boxed<Expr>, Refusal>
    ensures { Gives (λ x. x) result (Ok (tree.Concat place parts)) }
{
    Ok(Boxed::new(alloc, Expr::Concat(place, parts))?)
}

fn repeat_expr(
    alloc: Global,
    place: u32,
    count: Leaf,
    inner_place: u32,
    inner: Boxed<Expr>,
) -> Result<Boxed<Expr>, Refusal>
    ensures { Gives (λ x. x) result (Ok (tree.Repeat place count inner_place inner)) }
{
    Ok(Boxed::new(alloc, Expr::Repeat(place, count, inner_place, inner))?)
}

fn unary_expr(
    alloc: Global,
    op: UnaryOp,
    place: u32,
    operand: Boxed<Expr>,
) -> Result<Boxed<Expr>, Refusal>
    ensures { Gives (λ x. x) result (Ok (tree.Unary op place operand)) }
{
    Ok(Boxed::new(alloc, Expr::Unary(op, place, operand))?)
}

fn binary_expr(
    alloc: Global,
    operator: Operator,
    left: Boxed<Expr>,
    right: Boxed<Expr>,
) -> Result<Boxed<Expr>, Refusal>
    ensures { Gives (λ x. x) result (Ok (tree.Binary operator left right)) }
{
    Ok(Boxed::new(alloc, Expr::Binary(operator, left, right))?)
}

fn conditional_expr(
    alloc: Global,
    condition: Boxed<Expr>,
    met: Boxed<Expr>,
    unmet: Boxed<Expr>,
) -> Result<Boxed<Expr>, Refusal>
    ensures { Gives (λ x. x) result (Ok (tree.Conditional condition met unmet)) }
{
    Ok(Boxed::new(alloc, Expr::Conditional(condition, met, unmet))?)
}

#[tactic(auto, unfolding(tie_grammar::specs::Exprs::select))]
fn select(
    alloc: Global,
    name: Leaf,
    high: Leaf,
    rest: &[Symbol],
) -> Result<(Boxed<Expr>, &[Symbol]), Refusal>
    ensures { Gives (λ x. (x.0, x.1.now)) result (spec.select name high rest.now) }
{
    let rest = expect(rest, Mark::Colon)?;
    let (low, rest) = number(alloc, rest)?;
    let rest = expect(rest, Mark::EndBracket)?;
    Ok((Boxed::new(alloc, Expr::Select(name, high, low))?, rest))
}

#[tactic(auto, unfolding(tie_grammar::specs::Exprs::index))]
fn index(
    alloc: Global,
    name: Leaf,
    inner: Expr,
    rest: &[Symbol],
) -> Result<(Boxed<Expr>, &[Symbol]), Refusal>
    ensures { Gives (λ x. (x.0, x.1.now)) result (spec.index name inner rest.now) }
{
    let rest = expect(rest, Mark::EndBracket)?;
    let inner = Boxed::new(alloc, inner)?;
    Ok((Boxed::new(alloc, Expr::Index(name, inner))?, rest))
}

/// What stands behind `name [ inner`: a selection where `inner` is a number and a colon follows.
fn bracket_end(
    alloc: Global,
    name: Leaf,
    inner: Boxed<Expr>,
    rest: &[Symbol],
) -> Result<(Boxed<Expr>, &[Symbol]), Refusal>
    ensures { Gives (λ x. (x.0, x.1.now)) result (spec.bracket_end name inner (spec.bare inner) rest.now) }
{
    let colon = sees(rest, Mark::Colon);
    match inner.into_inner() {
        Expr::Literal(Literal::Number(high)) if colon => select(alloc, name, high, rest),
        inner => index(alloc, name, inner, rest),
    }
}

#[cycle(expr)]
#[tactic(auto, unfolding(tie_grammar::specs::Exprs::bracketed))]
fn bracketed(
    alloc: Global,
    name: Leaf,
    rest: &[Symbol],
    depth: usize,
) -> Result<(Boxed<Expr>, &[Symbol]), Refusal>
    ensures { Gives (λ x. (x.0, x.1.now)) result (spec.bracketed (spec.expr depth) name rest.now) }
{
    let rest = expect(rest, Mark::Bracket)?;
    let (inner, rest) = expr(alloc, rest, depth, 0)?;
    bracket_end(alloc, name, inner, rest)
}

#[cycle(expr)]
#[tactic(auto, unfolding(tie_grammar::specs::Exprs::called, tie_grammar::specs::Reading::any_of))]
fn called(
    alloc: Global,
    name: Leaf,
    rest: &[Symbol],
    depth: usize,
) -> Result<(Boxed<Expr>, &[Symbol]), Refusal>
    ensures { Gives (λ x. (x.0, x.1.now)) result (spec.called (spec.expr depth) name rest.now) }
{
    let (place, rest) = paren(rest)?;
    let (arguments, rest) = if sees(rest, Mark::EndParen) {
        (Items::new(alloc), rest)
    } else {
        exprs(alloc, rest, depth)?
    };
    let rest = expect(rest, Mark::EndParen)?;
    Ok((call_expr(alloc, name, place, arguments)?, rest))
}

#[cycle(expr)]
#[tactic(auto, unfolding(tie_grammar::specs::Exprs::named))]
fn named(
    alloc: Global,
    name: Leaf,
    rest: &[Symbol],
    depth: usize,
) -> Result<(Boxed<Expr>, &[Symbol]), Refusal>
    ensures { Gives (λ x. (x.0, x.1.now)) result (spec.named (spec.expr depth) name rest.now) }
{
    if sees(rest, Mark::Bracket) {
        bracketed(alloc, name, rest, depth)
    } else if sees_paren(rest) {
        called(alloc, name, rest, depth)
    } else {
        Ok((name_expr(alloc, name)?, rest))
    }
}

/// One expression or more, with commas.
#[cycle(expr)]
#[tactic(auto, unfolding(tie_grammar::specs::Reading::some_of))]
fn exprs(alloc: Global, rest: &[Symbol], depth: usize) -> Result<(Items<Expr>, &[Symbol]), Refusal>
    ensures { Gives (λ x. (x.0, x.1.now)) result (some_of (spec.expr depth 0) rest.now) }
{
    let (first, rest) = expr(alloc, rest, depth, 0)?;
    more_exprs(alloc, first, rest, depth)
}

/// The expressions that follow a first one, each behind a comma.
#[cycle(expr)]
#[tactic(auto, unfolding(tie_grammar::specs::Reading::more_of))]
fn more_exprs(
    alloc: Global,
    first: Boxed<Expr>,
    rest: &[Symbol],
    depth: usize,
) -> Result<(Items<Expr>, &[Symbol]), Refusal>
    ensures { Gives (λ x. (x.0, x.1.now)) result (more_of (spec.expr depth 0) first rest.now) }
{
    let mut found = Items::new(alloc);
    found.push(first.into_inner())?;
    let mut rest = rest;
    let turns = rest.len() + 1;
    for turn in 0..turns {
        if !sees(rest, Mark::Comma) {
            return Ok((found, rest));
        }
        let after = expect(rest, Mark::Comma)?;
        let (next, after) = expr(alloc, after, depth, 0)?;
        found.push(next.into_inner())?;
        rest = after;
    }
    Err(Refusal::Fault(rest.len()))
}

#[cycle(expr)]
#[tactic(auto, unfolding(tie_grammar::specs::Exprs::repeated))]
fn repeated(
    alloc: Global,
    place: u32,
    count: Leaf,
    rest: &[Symbol],
    depth: usize,
) -> Result<(Boxed<Expr>, &[Symbol]), Refusal>
    ensures { Gives (λ x. (x.0, x.1.now)) result (spec.repeated (spec.expr depth) place count rest.now) }
{
    let (inner_place, rest) = brace(rest)?;
    let (inner, rest) = expr(alloc, rest, depth, 0)?;
    let rest = expect(rest, Mark::EndBrace)?;
    let rest = expect(rest, Mark::EndBrace)?;
    Ok((repeat_expr(alloc, place, count, inner_place, inner)?, rest))
}

#[cycle(expr)]
#[tactic(auto, unfolding(tie_grammar::specs::Exprs::joined))]
fn joined(
    alloc: Global,
    place: u32,
    first: Boxed<Expr>,
    rest: &[Symbol],
    depth: usize,
) -> Result<(Boxed<Expr>, &[Symbol]), Refusal>
    ensures { Gives (λ x. (x.0, x.1.now)) result (spec.joined (spec.expr depth) place first rest.now) }
{
    let (parts, rest) = more_exprs(alloc, first, rest, depth)?;
    let rest = expect(rest, Mark::EndBrace)?;
    Ok((concat_expr(alloc, place, parts)?, rest))
}

/// The number that an expression is, where it is nothing else.
fn bare_number(alloc: Global, x: &Expr) -> Result<Option<Leaf>, Refusal>
    ensures { Gives (λ x. x) result (Ok (spec.bare x.now)) }
{
    match x {
        Expr::Literal(Literal::Number(leaf)) => Ok(Some(copy(alloc, leaf)?)),
        _ => Ok(None),
    }
}

/// What stands behind a `{`: a replication where a number stands first and a brace follows.
#[cycle(expr)]
#[tactic(auto, unfolding(tie_grammar::specs::Exprs::braced))]
fn braced(
    alloc: Global,
    place: u32,
    rest: &[Symbol],
    depth: usize,
) -> Result<(Boxed<Expr>, &[Symbol]), Refusal>
    ensures { Gives (λ x. (x.0, x.1.now)) result (spec.braced (spec.expr depth) place rest.now) }
{
    let (first, rest) = expr(alloc, rest, depth, 0)?;
    if !sees_brace(rest) {
        return joined(alloc, place, first, rest, depth);
    }
    match bare_number(alloc, first.get())? {
        Some(count) => repeated(alloc, place, count, rest, depth),
        None => joined(alloc, place, first, rest, depth),
    }
}

#[cycle(expr)]
#[tactic(auto, unfolding(tie_grammar::specs::Exprs::primary, tie_grammar::specs::Exprs::grouped, tie_grammar::specs::Exprs::prefixed, tie_grammar::specs::Exprs::tie))]
fn primary(
    alloc: Global,
    rest: &[Symbol],
    depth: usize,
) -> Result<(Boxed<Expr>, &[Symbol]), Refusal>
    ensures { Gives (λ x. (x.0, x.1.now)) result (spec.primary (spec.expr depth) rest.now) }
{
    match rest {
        [Symbol::Number(leaf), after @ ..] => { Ok((number_expr(alloc, leaf)?, after)) }
        [Symbol::Sized(leaf), after @ ..] => { Ok((sized_expr(alloc, leaf)?, after)) }
        [Symbol::Name(leaf), after @ ..] => named(alloc, copy(alloc, leaf)?, after, depth),
        [Symbol::Tie(word), after @ ..] => {
            let (place, after) = paren(after)?;
            let (arguments, after) = exprs(alloc, after, depth)?;
            let after = expect(after, Mark::EndParen)?;
            Ok((tie_expr(alloc, *word, place, arguments)?, after))
        }
        [Symbol::Paren(place), after @ ..] => {
            let (inner, after) = expr(alloc, after, depth, 0)?;
            let after = expect(after, Mark::EndParen)?;
            Ok((paren_expr(alloc, *place, inner)?, after))
        }
        [Symbol::Brace(place), after @ ..] => braced(alloc, *place, after, depth),
        [Symbol::Sign(sign, place), after @ ..] => match unary_op(*sign) {
            Some(op) => {
                let (operand, after) = expr(alloc, after, depth, 11)?;
                Ok((unary_expr(alloc, op, *place, operand)?, after))
            }
            None => Err(Refusal::Fault(rest.len())),
        },
        _ => Err(Refusal::Fault(rest.len())),
    }
}

/// Goes on with operators that bind at least as tightly as `least`.
#[cycle(expr)]
#[tactic(auto, unfolding(tie_grammar::specs::Exprs::climbed))]
fn climb(
    alloc: Global,
    left: Boxed<Expr>,
    rest: &[Symbol],
    depth: usize,
    least: u8,
) -> Result<(Boxed<Expr>, &[Symbol]), Refusal>
    ensures { Gives (λ x. (x.0, x.1.now)) result (spec.climbed (spec.expr depth) least left rest.now) }
{
    let mut left = left;
    let mut rest = rest;
    let turns = rest.len() + 1;
    for turn in 0..turns {
        match operator(rest) {
            Some(found) if least <= level(found.op) => {
                let (right, after) = expr(alloc, &rest[1..], depth, level(found.op) + 1)?;
                left = binary_expr(alloc, found, left, right)?;
                rest = after;
            }
            _ => return Ok((left, rest)),
        }
    }
    Err(Refusal::Fault(rest.len()))
}

/// `? met : unmet` behind a condition.
#[cycle(expr)]
#[tactic(auto, unfolding(tie_grammar::specs::Exprs::arms))]
fn arms(
    alloc: Global,
    condition: Boxed<Expr>,
    rest: &[Symbol],
    depth: usize,
) -> Result<(Boxed<Expr>, &[Symbol]), Refusal>
    ensures { Gives (λ x. (x.0, x.1.now)) result (spec.arms (spec.expr depth) condition rest.now) }
{
    let rest = expect(rest, Mark::Question)?;
    let (met, rest) = expr(alloc, rest, depth, 0)?;
    let rest = expect(rest, Mark::Colon)?;
    let (unmet, rest) = expr(alloc, rest, depth, 0)?;
    Ok((conditional_expr(alloc, condition, met, unmet)?, rest))
}

/// A whole expression at 0, else one whose operators bind at least as tightly as `least`.
#[cycle(expr)]
#[tactic(auto, using(crate::proofs::Steps::expr_deeper, crate::proofs::Steps::expr_bottom, crate::proofs::Steps::not_zero), unfolding(tie_grammar::specs::Exprs::level_from, tie_grammar::specs::Exprs::chosen))]
pub fn expr(
    alloc: Global,
    rest: &[Symbol],
    depth: usize,
    least: u8,
) -> Result<(Boxed<Expr>, &[Symbol]), Refusal>
    ensures { Gives (λ x. (x.0, x.1.now)) result (spec.expr depth least rest.now) }
{
    if depth == 0 {
        return Err(Refusal::Fault(rest.len()));
    }
    let (left, rest) = primary(alloc, rest, depth - 1)?;
    let (whole, rest) = climb(alloc, left, rest, depth - 1, least.max(1))?;
    if least > 0 {
        return Ok((whole, rest));
    }
    if sees(rest, Mark::Question) {
        arms(alloc, whole, rest, depth - 1)
    } else {
        Ok((whole, rest))
    }
}
