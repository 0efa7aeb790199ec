//! The weights of nodes, whose sum is the size of an expression.

ghost use Rattle.std.specs.Prelude.{◌≡◌, ◌≤◌, sum_by};
ghost use Rattle.tie_expr.specs.Size.{one_weight, two_weight, wide_weight, size_limit};
ghost use Rattle.tie_expr.specs.Tree.{size};

use crate::node::Node;
use crate::ops::{Op1, Op2};

/// A node of the common kind.
pub const NODE_WEIGHT: u64 = 4;

/// One that is taken apart bit by bit or arm by arm.
pub const WIDE_WEIGHT: u64 = 60;

/// A table.
pub const TABLE_WEIGHT: u64 = 560;

pub fn weight_of_one(op: Op1) -> u64
    ensures is { result ≡ one_weight op }
    ensures most { result ≤ wide_weight }
{
    match op {
        Op1::XorAll => WIDE_WEIGHT,
        _ => NODE_WEIGHT,
    }
}

pub fn weight_of_two(op: Op2) -> u64
    ensures is { result ≡ two_weight op }
    ensures most { result ≤ wide_weight }
{
    match op {
        Op2::Shl | Op2::Shr => WIDE_WEIGHT,
        _ => NODE_WEIGHT,
    }
}

/// The size of a tree.
#[cycle(weigh)]
pub fn weigh(x: &Node) -> u64
    requires { size x.now ≤ size_limit }
    ensures { result ≡ size x.now }
{
    match x {
        Node::Constant(_) => NODE_WEIGHT,
        Node::Input { index: _, width: _ } => NODE_WEIGHT,
        Node::One { op, operand } => weight_of_one(*op) + weigh(operand.get()),
        Node::Two { op, left, right } => weight_of_two(*op)
            + weigh(left.get())
            + weigh(right.get()),
        Node::Choose {
            condition,
            then,
            otherwise,
        } => NODE_WEIGHT + weigh(condition.get()) + weigh(then.get()) + weigh(otherwise.get()),
        Node::Join { high, low } => NODE_WEIGHT + weigh(high.get()) + weigh(low.get()),
        Node::Part {
            of,
            high: _,
            low: _,
        } => NODE_WEIGHT + weigh(of.get()),
        Node::Resize { of, width: _ } => NODE_WEIGHT + weigh(of.get()),
        Node::Lookup {
            index,
            entries: _,
            width: _,
        } => TABLE_WEIGHT + weigh(index.get()),
        Node::Repeat { of, count: _ } => WIDE_WEIGHT + weigh(of.get()),
        Node::Select { number, arms } => WIDE_WEIGHT
            + weigh(number.get())
            + weigh_all(arms.as_slice()),
        Node::Mul {
            left,
            right,
            signed,
        } => WIDE_WEIGHT + weigh(left.get()) + weigh(right.get()) + weigh(signed.get()),
    }
}

#[cycle(weigh)]
fn weigh_all(all: &[Node]) -> u64
    requires { sum_by size all.now ≤ size_limit }
    ensures { result ≡ sum_by size all.now }
{
    let mut total = 0;
    for x in all {
        total += weigh(x);
    }
    total
}
