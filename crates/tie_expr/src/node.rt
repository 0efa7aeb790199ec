//! The tree that an expression keeps.

use crate::bits::Bits;
use crate::ops::{Op1, Op2};
use sqlite_items::{Boxed, Items};

#[derive(Drop)]
pub enum Node {
    Constant(Bits),
    Input {
        index: u32,
        width: u8,
    },
    One {
        op: Op1,
        operand: Boxed<Node>,
    },
    Two {
        op: Op2,
        left: Boxed<Node>,
        right: Boxed<Node>,
    },
    Choose {
        condition: Boxed<Node>,
        then: Boxed<Node>,
        otherwise: Boxed<Node>,
    },
    Join {
        high: Boxed<Node>,
        low: Boxed<Node>,
    },
    Part {
        of: Boxed<Node>,
        high: u8,
        low: u8,
    },
    Resize {
        of: Boxed<Node>,
        width: u8,
    },
    Lookup {
        index: Boxed<Node>,
        entries: Items<u128>,
        width: u8,
    },
    Repeat {
        of: Boxed<Node>,
        count: u8,
    },
    Select {
        number: Boxed<Node>,
        arms: Items<Node>,
    },
    Mul {
        left: Boxed<Node>,
        right: Boxed<Node>,
        signed: Boxed<Node>,
    },
}
