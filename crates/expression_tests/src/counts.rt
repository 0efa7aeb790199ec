//! Counts and literals worked out by hand.

use sqlite_items::{Boxed, Items};
use std::alloc::Global;
use std::test::Fail;
use tie_grammar::symbol::{Direction, Leaf};
use tie_grammar::tree::{
    Argument, BinaryOp, Expr, Item, Literal, Operation, Operator, Range, Tree,
};
use tie_mean::NoMemory;
use tie_mean::body::{function_counts, operation_count};
use tie_mean::literal::{literal_sound, number, sized_value};

fn leaf(alloc: Global, text: &str) -> Result<Leaf, NoMemory> {
    let bytes = Items::from_slice(alloc, text.as_bytes())?;
    Ok(Leaf { bytes, place: 0 })
}

fn argument(alloc: Global, direction: Direction, name: &str) -> Result<Argument, NoMemory> {
    Ok(Argument {
        direction,
        kind: leaf(alloc, "AR")?,
        name: leaf(alloc, name)?,
    })
}

/// `operation OP {out AR h, in AR a, in AR b} {} {wire [32:0] s = a + b; assign h = s[32:32];}`
fn carry(alloc: Global) -> Result<Operation, NoMemory> {
    let op = Operator {
        op: BinaryOp::Add,
        place: 0,
    };
    let a = Boxed::new(alloc, Expr::Name(leaf(alloc, "a")?))?;
    let b = Boxed::new(alloc, Expr::Name(leaf(alloc, "b")?))?;
    let range = Range {
        high: leaf(alloc, "32")?,
        zero: leaf(alloc, "0")?,
    };
    let mut items = Items::new(alloc);
    items.push(Item::WireSet(Some(range), leaf(alloc, "s")?, Expr::Binary(op, a, b)))?;
    let bit = Expr::Select(leaf(alloc, "s")?, leaf(alloc, "32")?, leaf(alloc, "32")?);
    items.push(Item::Assign(leaf(alloc, "h")?, bit))?;
    let mut arguments = Items::new(alloc);
    arguments.push(argument(alloc, Direction::Out, "h")?)?;
    arguments.push(argument(alloc, Direction::In, "a")?)?;
    arguments.push(argument(alloc, Direction::In, "b")?)?;
    Ok(Operation {
        name: leaf(alloc, "OP")?,
        arguments_brace: 0,
        arguments,
        links_brace: 0,
        links: Items::new(alloc),
        items_brace: 0,
        items,
    })
}

#[test]
fn counts(rt: HostRuntime) -> Result<(), Fail> {
    let alloc = rt.alloc();
    let tree = Tree {
        declarations: Items::new(alloc),
    };
    let operation = carry(alloc)?;
    let functions = function_counts(alloc, &tree)?;
    assert_eq!(rt; operation_count(alloc, &tree, &functions, &operation)?, 5);
    Ok(())
}

#[test]
fn literals(rt: HostRuntime) -> Result<(), Fail> {
    assert_eq!(rt; number(b"4294967296"), 4294967296);
    assert_eq!(rt; number(b"0xfF"), 255);
    assert_eq!(rt; sized_value(b"8'b1_01"), Some(5));
    let whole = Literal::Sized(leaf(rt.alloc(), "128'd340282366920938463463374607431768211455")?);
    assert!(rt; literal_sound(&whole));
    let more = Literal::Sized(leaf(rt.alloc(), "128'd340282366920938463463374607431768211456")?);
    assert!(rt; !literal_sound(&more));
    Ok(())
}
