//! Copies of trees, with other trees in place of their inputs.

ghost use Rattle.std.specs.Prelude.{◌≡◌, IfOk, map};
ghost use Rattle.tie_expr.specs.Substitute.{replaced};

use crate::expr::Expr;
use crate::node::Node;
use sqlite_items::{Boxed, Items};
use std::alloc::{AllocError, Global};

/// The same tree once more.
#[cycle(copy)]
pub fn copy(alloc: Global, x: &Node) -> Result<Node, AllocError>
    ensures { IfOk result (λ y. y ≡ x.now) }
{
    match x {
        Node::Constant(value) => Ok(Node::Constant(*value)),
        Node::Input { index, width } => Ok(Node::Input {
            index: *index,
            width: *width,
        }),
        Node::One { op, operand } => Ok(Node::One {
            op: *op,
            operand: boxed(alloc, operand.get())?,
        }),
        Node::Two { op, left, right } => Ok(Node::Two {
            op: *op,
            left: boxed(alloc, left.get())?,
            right: boxed(alloc, right.get())?,
        }),
        Node::Choose {
            condition,
            then,
            otherwise,
        } => Ok(Node::Choose {
            condition: boxed(alloc, condition.get())?,
            then: boxed(alloc, then.get())?,
            otherwise: boxed(alloc, otherwise.get())?,
        }),
        Node::Join { high, low } => Ok(Node::Join {
            high: boxed(alloc, high.get())?,
            low: boxed(alloc, low.get())?,
        }),
        Node::Part { of, high, low } => Ok(Node::Part {
            of: boxed(alloc, of.get())?,
            high: *high,
            low: *low,
        }),
        Node::Resize { of, width } => Ok(Node::Resize {
            of: boxed(alloc, of.get())?,
            width: *width,
        }),
        Node::Lookup {
            index,
            entries,
            width,
        } => Ok(Node::Lookup {
            index: boxed(alloc, index.get())?,
            entries: Items::from_slice(alloc, entries.as_slice())?,
            width: *width,
        }),
        Node::Repeat { of, count } => Ok(Node::Repeat {
            of: boxed(alloc, of.get())?,
            count: *count,
        }),
        Node::Select { number, arms } => Ok(Node::Select {
            number: boxed(alloc, number.get())?,
            arms: copies(alloc, arms.as_slice())?,
        }),
        Node::Mul {
            left,
            right,
            signed,
        } => Ok(Node::Mul {
            left: boxed(alloc, left.get())?,
            right: boxed(alloc, right.get())?,
            signed: boxed(alloc, signed.get())?,
        }),
    }
}

#[cycle(copy)]
fn boxed(alloc: Global, x: &Node) -> Result<Boxed<Node>, AllocError>
    ensures { IfOk result (λ y. y ≡ x.now) }
{
    Boxed::new(alloc, copy(alloc, x)?)
}

#[cycle(copy)]
fn copies(alloc: Global, all: &[Node]) -> Result<Items<Node>, AllocError>
    ensures { IfOk result (λ ys. ys ≡ all.now) }
{
    let mut made = Items::new(alloc);
    for x in all {
        made.push(copy(alloc, x)?)?;
    }
    Ok(made)
}

/// The tree with a copy of an argument in place of each input.
#[cycle(replace)]
pub fn replace(alloc: Global, x: &Node, arguments: &[Expr]) -> Result<Node, AllocError>
    ensures { IfOk result (λ y. y ≡ replaced arguments.now x.now) }
{
    match x {
        Node::Constant(value) => Ok(Node::Constant(*value)),
        Node::Input { index, width } => argument(alloc, arguments, *index, *width),
        Node::One { op, operand } => Ok(Node::One {
            op: *op,
            operand: replace_in_box(alloc, operand.get(), arguments)?,
        }),
        Node::Two { op, left, right } => Ok(Node::Two {
            op: *op,
            left: replace_in_box(alloc, left.get(), arguments)?,
            right: replace_in_box(alloc, right.get(), arguments)?,
        }),
        Node::Choose {
            condition,
            then,
            otherwise,
        } => Ok(Node::Choose {
            condition: replace_in_box(alloc, condition.get(), arguments)?,
            then: replace_in_box(alloc, then.get(), arguments)?,
            otherwise: replace_in_box(alloc, otherwise.get(), arguments)?,
        }),
        Node::Join { high, low } => Ok(Node::Join {
            high: replace_in_box(alloc, high.get(), arguments)?,
            low: replace_in_box(alloc, low.get(), arguments)?,
        }),
        Node::Part { of, high, low } => Ok(Node::Part {
            of: replace_in_box(alloc, of.get(), arguments)?,
            high: *high,
            low: *low,
        }),
        Node::Resize { of, width } => Ok(Node::Resize {
            of: replace_in_box(alloc, of.get(), arguments)?,
            width: *width,
        }),
        Node::Lookup {
            index,
            entries,
            width,
        } => Ok(Node::Lookup {
            index: replace_in_box(alloc, index.get(), arguments)?,
            entries: Items::from_slice(alloc, entries.as_slice())?,
            width: *width,
        }),
        Node::Repeat { of, count } => Ok(Node::Repeat {
            of: replace_in_box(alloc, of.get(), arguments)?,
            count: *count,
        }),
        Node::Select { number, arms } => Ok(Node::Select {
            number: replace_in_box(alloc, number.get(), arguments)?,
            arms: replace_in_all(alloc, arms.as_slice(), arguments)?,
        }),
        Node::Mul {
            left,
            right,
            signed,
        } => Ok(Node::Mul {
            left: replace_in_box(alloc, left.get(), arguments)?,
            right: replace_in_box(alloc, right.get(), arguments)?,
            signed: replace_in_box(alloc, signed.get(), arguments)?,
        }),
    }
}

#[cycle(replace)]
fn replace_in_box(alloc: Global, x: &Node, arguments: &[Expr]) -> Result<Boxed<Node>, AllocError>
    ensures { IfOk result (λ y. y ≡ replaced arguments.now x.now) }
{
    Boxed::new(alloc, replace(alloc, x, arguments)?)
}

#[cycle(replace)]
fn replace_in_all(
    alloc: Global,
    all: &[Node],
    arguments: &[Expr],
) -> Result<Items<Node>, AllocError>
    ensures { IfOk result (λ ys. ys ≡ map (replaced arguments.now) all.now) }
{
    let mut made = Items::new(alloc);
    for x in all {
        made.push(replace(alloc, x, arguments)?)?;
    }
    Ok(made)
}

/// A copy of the argument of an input, or the input where there is none.
fn argument(alloc: Global, arguments: &[Expr], index: u32, width: u8) -> Result<Node, AllocError>
    ensures { IfOk result (λ y. y ≡ replaced arguments.now (Node.Input index width)) }
{
    match arguments.get(index as usize) {
        Some(argument) => copy(alloc, argument.tree()),
        None => Ok(Node::Input { index, width }),
    }
}
