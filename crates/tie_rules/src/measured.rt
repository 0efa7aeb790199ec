//! Rule 25: sizes out of range, by one pass over each expression.

ghost use Rattle.std.specs.Prelude.{◌≡◌, ◌*◌, ◌≤◌, nat_lt, sum, []};
ghost use Rattle.std.specs.List.{flat_map};
ghost use Rattle.tie_mean.specs.Values as value;
ghost use Rattle.tie_mean.specs.Sizes as sizes;
ghost use Rattle.tie_rules.specs.Least as spec;
ghost use Rattle.tie_rules.specs.Bodies as rule;
ghost use Rattle.tie_rules.specs.Parts as part;

use crate::declarations::value as number_value;
use crate::least::earlier;
use tie_grammar::symbol::Leaf;
use tie_grammar::tree::{BinaryOp, Expr, Literal, UnaryOp};
use tie_mean::size::{Scope, size};

/// The size from which on sizes aren't told apart.
const SIZE_LIMIT: u64 = 4294967296;

fn literal_start(x: &Literal) -> u32
    ensures { result ≡ rule.literal_start x.now }
{
    match x {
        Literal::Number(leaf) => leaf.place,
        Literal::Sized(leaf) => leaf.place,
    }
}

/// The place of an expression's first token.
fn start(x: &Expr) -> u32
    ensures { result ≡ rule.start x.now }
{
    match x {
        Expr::Literal(literal) => literal_start(literal),
        Expr::Name(n) => n.place,
        Expr::Select(n, _, _) => n.place,
        Expr::Index(n, _) => n.place,
        Expr::Call(n, _, _) => n.place,
        Expr::Tie(word, _, _) => word.place,
        Expr::Paren(place, _) => *place,
        Expr::Concat(place, _) => *place,
        Expr::Repeat(place, _, _, _) => *place,
        Expr::Unary(_, place, _) => *place,
        Expr::Binary(_, left, _) => start(left.get()),
        Expr::Conditional(condition, _, _) => start(condition.get()),
    }
}

// ---- sizes from the sizes of the parts

fn unary_size(op: UnaryOp, operand: u64) -> u64
    requires { operand ≤ 4294967296 }
    ensures { result ≡ sizes.unary_size op operand }
{
    match op {
        UnaryOp::Not => operand,
        _ => 1,
    }
}

fn binary_size(op: BinaryOp, left: u64, right: u64) -> u64
    ensures { result ≡ sizes.binary_size op left right }
{
    match op {
        BinaryOp::Or
        | BinaryOp::Xor
        | BinaryOp::And
        | BinaryOp::Add
        | BinaryOp::Subtract
        | BinaryOp::Multiply => left.max(right),
        BinaryOp::ShiftLeft | BinaryOp::ShiftRight => left,
        _ => 1,
    }
}

#[tactic(auto, using(tie_mean::proofs::Limits::limited_product))]
fn repeat_size(count: &Leaf, part: u64) -> u64
    ensures { result ≡ sizes.limited (sizes.bounded count.now * part) }
{
    let count = number_value(count).min(u128::from(SIZE_LIMIT)) as u64;
    count.saturating_mul(part).min(SIZE_LIMIT)
}

// ---- the pass

/// The self size of an expression, and the least place of what is too wide of it.
#[derive(Clone, Copy)]
pub struct Sizing {
    pub size: u64,
    pub place: Option<u32>,
}

/// Expressions behind each other: their sizes together, and the least place of what is too wide of them.
#[derive(Clone, Copy)]
struct SizingAll {
    total: u64,
    place: Option<u32>,
}

/// An expression with no parts.
fn plain(size: u64) -> Sizing
    ensures size { result.size ≡ size }
    ensures place { result.place ≡ spec.least [] }
{
    Sizing { size, place: None }
}

fn too_wide(size: u64, x: &Expr) -> Option<u32>
    ensures { result ≡ spec.least (spec.when (nat_lt 128 size) (rule.start x.now)) }
{
    if size > 128 { Some(start(x)) } else { None }
}

/// Measures an expression: its place is that of a part that is too wide, or its own.
#[cycle(measured)]
#[tactic(auto, using(tie_mean::proofs::Limits::limits, crate::proofs::Places::places))]
pub fn measured<S: Scope>(scope: &S, x: &Expr) -> Sizing
    ensures size { result.size ≡ sizes.limited (value.size (S.widths scope.now) x.now) }
    ensures place { result.place ≡ spec.least (part.at_parts (rule.size_here (S.widths scope.now)) x.now) }
{
    let below = measured_below(scope, x);
    Sizing {
        size: below.size,
        place: earlier(too_wide(below.size, x), below.place),
    }
}

/// Measures an expression: its place is that of a part that is too wide.
#[cycle(measured)]
#[tactic(auto, using(tie_mean::proofs::Limits::limits, crate::proofs::Places::places))]
fn measured_below<S: Scope>(scope: &S, x: &Expr) -> Sizing
    ensures size { result.size ≡ sizes.limited (value.size (S.widths scope.now) x.now) }
    ensures place { result.place ≡ spec.least (flat_map (rule.size_here (S.widths scope.now)) (part.below x.now)) }
{
    match x {
        Expr::Literal(_) => plain(size(scope, x)),
        Expr::Name(_) => plain(size(scope, x)),
        Expr::Select(_, _, _) => plain(size(scope, x)),
        Expr::Index(_, index) => {
            let one = measured(scope, index.get());
            Sizing {
                size: size(scope, x),
                place: one.place,
            }
        }
        Expr::Call(_, _, arguments) => {
            let all = measured_all(scope, arguments.as_slice());
            Sizing {
                size: size(scope, x),
                place: all.place,
            }
        }
        Expr::Tie(_, _, arguments) => {
            let all = measured_all(scope, arguments.as_slice());
            Sizing {
                size: size(scope, x),
                place: all.place,
            }
        }
        Expr::Paren(_, inner) => measured(scope, inner.get()),
        Expr::Concat(_, parts) => {
            let all = measured_all(scope, parts.as_slice());
            Sizing {
                size: all.total,
                place: all.place,
            }
        }
        Expr::Repeat(_, count, _, part) => {
            let one = measured(scope, part.get());
            Sizing {
                size: repeat_size(count, one.size),
                place: one.place,
            }
        }
        Expr::Unary(op, _, operand) => {
            let one = measured(scope, operand.get());
            Sizing {
                size: unary_size(*op, one.size),
                place: one.place,
            }
        }
        Expr::Binary(operator, left, right) => {
            let first = measured(scope, left.get());
            let second = measured(scope, right.get());
            Sizing {
                size: binary_size(operator.op, first.size, second.size),
                place: earlier(first.place, second.place),
            }
        }
        Expr::Conditional(condition, met, unmet) => {
            let test = measured(scope, condition.get());
            let first = measured(scope, met.get());
            let second = measured(scope, unmet.get());
            Sizing {
                size: first.size.max(second.size),
                place: earlier(test.place, earlier(first.place, second.place)),
            }
        }
    }
}

#[cycle(measured)]
#[tactic(auto, using(tie_mean::proofs::Limits::limits, crate::proofs::Places::places))]
fn measured_all<S: Scope>(scope: &S, parts: &[Expr]) -> SizingAll
    ensures total { result.total ≡ sizes.limited (sum (value.sizes (S.widths scope.now) parts.now)) }
    ensures place { result.place ≡ spec.least (flat_map (part.at_parts (rule.size_here (S.widths scope.now))) parts.now) }
{
    let mut total = 0u64;
    let mut found = None;
    for part in parts {
        let one = measured(scope, part);
        total = SIZE_LIMIT.min(total + one.size);
        found = earlier(found, one.place);
    }
    SizingAll {
        total,
        place: found,
    }
}
