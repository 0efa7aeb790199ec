//! Self sizes of expressions. Sizes beyond 2^32 aren't told apart.

ghost use Rattle.std.specs.Prelude.{◌≡◌, ◌+◌, ◌*◌, ◌-◌, ◌≤◌, ◌<◌, max, min, sum, map, take, drop, length, slice_index};
ghost use Rattle.tie_mean.specs.Sizes as spec;
ghost use Rattle.tie_mean.specs.Values as value;

use crate::literal::{literal_width, number};
use tie_grammar::symbol::{Leaf, TieFunction};
use tie_grammar::tree::{BinaryOp, Expr, UnaryOp};

/// The size from which on sizes aren't told apart.
pub const SIZE_LIMIT: u64 = 4294967296;

/// What the names that an expression sees mean to sizes.
pub trait Scope {
    ghost use Rattle.tie_mean.specs.Scope.{Widths};

    ghost widths: { Self → Widths };

    /// The width of a name that is read.
    fn name_width(&self, name: &Leaf) -> u64
        ensures { result ≡ spec.limited ((widths self.now).name name.now.bytes) };

    /// The width of what a call of a function gives.
    fn function_width(&self, name: &Leaf) -> u64
        ensures { result ≡ spec.limited ((widths self.now).function name.now.bytes) };

    /// The width of the entries of a table.
    fn table_width(&self, name: &Leaf) -> u64
        ensures { result ≡ spec.limited ((widths self.now).table name.now.bytes) };

    /// The name is that of a table.
    fn is_table(&self, name: &Leaf) -> bool
        ensures { result ≡ (widths self.now).is_table name.now.bytes };
}

fn limited(n: u128) -> u64
    ensures { result ≡ spec.limited n }
{
    if n < SIZE_LIMIT as u128 {
        n as u64
    } else {
        SIZE_LIMIT
    }
}

fn bounded_size(n: u64) -> u64
    ensures { result ≡ spec.limited n }
{
    n.min(SIZE_LIMIT)
}

fn select_size(high: &Leaf, low: &Leaf) -> u64
    ensures { result ≡ spec.limited (spec.select_size (spec.bounded high.now) (spec.bounded low.now)) }
{
    let high = number(high.bytes.as_slice());
    let low = number(low.bytes.as_slice());
    bounded_size(limited(high.saturating_sub(low)) + 1)
}

fn unary_size(op: UnaryOp, operand: u64) -> u64
    requires { operand ≤ 4294967296 }
    ensures { result ≡ spec.unary_size op operand }
{
    match op {
        UnaryOp::Not => operand,
        _ => 1,
    }
}

fn binary_size(op: BinaryOp, left: u64, right: u64) -> u64
    ensures { result ≡ spec.binary_size op left right }
{
    match op {
        BinaryOp::Or
        | BinaryOp::Xor
        | BinaryOp::And
        | BinaryOp::Add
        | BinaryOp::Subtract
        | BinaryOp::Multiply => left.max(right),
        BinaryOp::ShiftLeft | BinaryOp::ShiftRight => left,
        _ => 1,
    }
}

#[tactic(auto, using(crate::proofs::Limits::limited_product))]
fn repeat_size(count: &Leaf, part: u64) -> u64
    ensures { result ≡ spec.limited (spec.bounded count.now * part) }
{
    let count = limited(number(count.bytes.as_slice()));
    bounded_size(count.saturating_mul(part))
}

/// The self size of an expression.
#[cycle(size)]
#[tactic(auto, using(crate::proofs::Limits::limits))]
pub fn size<S: Scope>(scope: &S, x: &Expr) -> u64
    ensures { result ≡ spec.limited (value.size (S.widths scope.now) x.now) }
{
    match x {
        Expr::Literal(literal) => limited(literal_width(literal)),
        Expr::Name(name) => scope.name_width(name),
        Expr::Select(_, high, low) => select_size(high, low),
        Expr::Index(name, _) => index_size(scope, name),
        Expr::Call(name, _, _) => scope.function_width(name),
        Expr::Tie(word, _, arguments) => tie_size(scope, word.function, arguments.as_slice()),
        Expr::Paren(_, inner) => size(scope, inner.get()),
        Expr::Concat(_, parts) => total_size(scope, parts.as_slice()),
        Expr::Repeat(_, count, _, part) => repeat_size(count, size(scope, part.get())),
        Expr::Unary(op, _, operand) => unary_size(*op, size(scope, operand.get())),
        Expr::Binary(operator, left, right) => binary_size(
            operator.op,
            size(scope, left.get()),
            size(scope, right.get()),
        ),
        Expr::Conditional(_, met, unmet) => size(scope, met.get()).max(size(scope, unmet.get())),
    }
}

fn index_size<S: Scope>(scope: &S, name: &Leaf) -> u64
    ensures { result ≡ spec.limited (spec.index_size (S.widths scope.now) name.now) }
{
    if scope.is_table(name) {
        scope.table_width(name)
    } else {
        1
    }
}

/// The size of the part of a number, 0 where there is none.
#[cycle(size)]
fn size_at<S: Scope>(scope: &S, parts: &[Expr], at: usize) -> u64
    ensures { result ≡ spec.limited (slice_index (value.sizes (S.widths scope.now) parts.now) at) }
{
    if at < parts.len() {
        size(scope, &parts[at])
    } else {
        0
    }
}

#[cycle(size)]
fn tie_size<S: Scope>(scope: &S, function: TieFunction, arguments: &[Expr]) -> u64
    ensures { result ≡ spec.limited (spec.tie_size function (value.sizes (S.widths scope.now) arguments.now)) }
{
    match function {
        TieFunction::Add => size_at(scope, arguments, 0).max(size_at(scope, arguments, 1)),
        TieFunction::Mul => {
            bounded_size(size_at(scope, arguments, 0) + size_at(scope, arguments, 1))
        }
        TieFunction::Mux => greatest_arm_size(scope, arguments),
    }
}

#[cycle(size)]
fn total_size<S: Scope>(scope: &S, parts: &[Expr]) -> u64
    ensures { result ≡ spec.limited (sum (value.sizes (S.widths scope.now) parts.now)) }
{
    let mut total = 0;
    for part in parts {
        total = bounded_size(total + size(scope, part));
    }
    total
}

/// The greatest size of the parts behind the first.
#[cycle(size)]
fn greatest_arm_size<S: Scope>(scope: &S, parts: &[Expr]) -> u64
    ensures { result ≡ spec.limited (spec.greatest_size (drop 1 (value.sizes (S.widths scope.now) parts.now))) }
{
    let mut greatest = 0;
    for i in 1..parts.len() {
        greatest = size(scope, &parts[i]).max(greatest);
    }
    greatest
}
