//! Operators of a text on typed expressions.

ghost use Rattle.std.specs.Prelude.{◌≡◌, ◌<◌, ◌≤◌, ◌+◌, IfOk};
ghost use Rattle.tie_expr.specs.Size.{node_weight, size_limit};
ghost use Rattle.tie_expr.specs.Tree as typed;
ghost use Rattle.tie_expr.specs.Tree.{meaning};
ghost use Rattle.tie_translate.specs.Bounds.{ReadsBoth};
ghost use Rattle.tie_translate.specs.Translation.{Fit, UnaryFit, binary_typed, unary_typed, widened};
ghost use Rattle.tie_grammar.specs.declared.tree.BinaryOp.TheVariants as op;

use std::alloc::Global;
use tie_expr::{Expr, NoMemory, Op1, Op2};
use tie_grammar::tree::{BinaryOp, UnaryOp};

/// The same value in a greater width.
pub fn widen(alloc: Global, a: Expr, width: u8) -> Result<Expr, NoMemory>
    requires low { (meaning a).width ≤ width }
    requires some { 0 < width }
    requires high { width ≤ 128 }
    requires limit { typed.size a + 100 ≤ size_limit }
    ensures means { IfOk result (λ e. meaning e ≡ widened (meaning a) width) }
    ensures inputs { IfOk result (λ e. typed.inputs e ≡ typed.inputs a) }
    ensures size { IfOk result (λ e. typed.size e ≡ node_weight + typed.size a) }
{
    Expr::resize(alloc, a, width)
}

/// A sign before an operand, in a context of n bits.
pub fn unary(alloc: Global, op: UnaryOp, a: Expr, n: u8) -> Result<Expr, NoMemory>
    requires fits { UnaryFit op n (meaning a).width }
    requires low { 0 < n }
    requires high { n ≤ 128 }
    requires limit { typed.size a + 200 ≤ size_limit }
    ensures means { IfOk result (λ e. meaning e ≡ unary_typed op n (meaning a).width (meaning a)) }
    ensures inputs { IfOk result (λ e. typed.inputs e ≡ typed.inputs a) }
    ensures size { IfOk result (λ e. typed.size e ≤ typed.size a + 64) }
{
    match op {
        UnaryOp::Not => Expr::one(alloc, Op1::Not, a),
        UnaryOp::LogicalNot => widen(alloc, Expr::one(alloc, Op1::IsZero, a)?, n),
        UnaryOp::ReduceAnd => widen(alloc, Expr::one(alloc, Op1::AndAll, a)?, n),
        UnaryOp::ReduceOr => widen(alloc, Expr::one(alloc, Op1::OrAll, a)?, n),
        UnaryOp::ReduceXor => widen(alloc, Expr::one(alloc, Op1::XorAll, a)?, n),
    }
}

/// `a != b`
fn not_equal(alloc: Global, a: Expr, b: Expr, n: u8) -> Result<Expr, NoMemory>
    requires fits { (meaning a).width ≡ (meaning b).width }
    requires low { 0 < n }
    requires high { n ≤ 128 }
    requires limit { typed.size a + typed.size b + 200 ≤ size_limit }
    ensures means { IfOk result (λ e. meaning e ≡ binary_typed op.NotEqual n (meaning a) (meaning b)) }
    ensures inputs { IfOk result (ReadsBoth a b) }
    ensures size { IfOk result (λ e. typed.size e ≤ typed.size a + typed.size b + 64) }
{
    let equal = Expr::two(alloc, Op2::Eq, a, b)?;
    let other = Expr::one(alloc, Op1::IsZero, equal)?;
    widen(alloc, other, n)
}

/// `a <= b`
fn at_most(alloc: Global, a: Expr, b: Expr, n: u8) -> Result<Expr, NoMemory>
    requires fits { (meaning a).width ≡ (meaning b).width }
    requires low { 0 < n }
    requires high { n ≤ 128 }
    requires limit { typed.size a + typed.size b + 200 ≤ size_limit }
    ensures means { IfOk result (λ e. meaning e ≡ binary_typed op.LessEqual n (meaning a) (meaning b)) }
    ensures inputs { IfOk result (ReadsBoth a b) }
    ensures size { IfOk result (λ e. typed.size e ≤ typed.size a + typed.size b + 64) }
{
    let greater = Expr::two(alloc, Op2::Lt, b, a)?;
    let other = Expr::one(alloc, Op1::IsZero, greater)?;
    widen(alloc, other, n)
}

/// `a && b`
fn both(alloc: Global, a: Expr, b: Expr, n: u8) -> Result<Expr, NoMemory>
    requires low { 0 < n }
    requires high { n ≤ 128 }
    requires limit { typed.size a + typed.size b + 200 ≤ size_limit }
    ensures means { IfOk result (λ e. meaning e ≡ binary_typed op.LogicalAnd n (meaning a) (meaning b)) }
    ensures inputs { IfOk result (ReadsBoth a b) }
    ensures size { IfOk result (λ e. typed.size e ≤ typed.size a + typed.size b + 64) }
{
    let left = Expr::one(alloc, Op1::OrAll, a)?;
    let right = Expr::one(alloc, Op1::OrAll, b)?;
    let all = Expr::two(alloc, Op2::And, left, right)?;
    widen(alloc, all, n)
}

/// `a || b`
fn either(alloc: Global, a: Expr, b: Expr, n: u8) -> Result<Expr, NoMemory>
    requires low { 0 < n }
    requires high { n ≤ 128 }
    requires limit { typed.size a + typed.size b + 200 ≤ size_limit }
    ensures means { IfOk result (λ e. meaning e ≡ binary_typed op.LogicalOr n (meaning a) (meaning b)) }
    ensures inputs { IfOk result (ReadsBoth a b) }
    ensures size { IfOk result (λ e. typed.size e ≤ typed.size a + typed.size b + 64) }
{
    let left = Expr::one(alloc, Op1::OrAll, a)?;
    let right = Expr::one(alloc, Op1::OrAll, b)?;
    let some = Expr::two(alloc, Op2::Or, left, right)?;
    widen(alloc, some, n)
}

/// An operator on two sides that were brought to their sizes, in a context of n bits.
pub fn binary(alloc: Global, op: BinaryOp, a: Expr, b: Expr, n: u8) -> Result<Expr, NoMemory>
    requires fits { Fit op n (meaning a).width (meaning b).width }
    requires low { 0 < n }
    requires high { n ≤ 128 }
    requires limit { typed.size a + typed.size b + 200 ≤ size_limit }
    ensures means { IfOk result (λ e. meaning e ≡ binary_typed op n (meaning a) (meaning b)) }
    ensures inputs { IfOk result (ReadsBoth a b) }
    ensures size { IfOk result (λ e. typed.size e ≤ typed.size a + typed.size b + 64) }
{
    match op {
        BinaryOp::LogicalOr => either(alloc, a, b, n),
        BinaryOp::LogicalAnd => both(alloc, a, b, n),
        BinaryOp::Or => Expr::two(alloc, Op2::Or, a, b),
        BinaryOp::Xor => Expr::two(alloc, Op2::Xor, a, b),
        BinaryOp::And => Expr::two(alloc, Op2::And, a, b),
        BinaryOp::Equal => widen(alloc, Expr::two(alloc, Op2::Eq, a, b)?, n),
        BinaryOp::NotEqual => not_equal(alloc, a, b, n),
        BinaryOp::Less => widen(alloc, Expr::two(alloc, Op2::Lt, a, b)?, n),
        BinaryOp::LessEqual => at_most(alloc, a, b, n),
        BinaryOp::Greater => widen(alloc, Expr::two(alloc, Op2::Lt, b, a)?, n),
        BinaryOp::GreaterEqual => at_most(alloc, b, a, n),
        BinaryOp::ShiftLeft => Expr::two(alloc, Op2::Shl, a, b),
        BinaryOp::ShiftRight => Expr::two(alloc, Op2::Shr, a, b),
        BinaryOp::Add => Expr::two(alloc, Op2::Add, a, b),
        BinaryOp::Subtract => Expr::two(alloc, Op2::Sub, a, b),
        BinaryOp::Multiply => Expr::two(alloc, Op2::Mul, a, b),
    }
}
