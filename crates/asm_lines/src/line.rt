//! Lines as data.

use crate::word::Word;
use tie_desc::Sequence;
use xt_mnemonics::Mnemonic;

/// What an operand is written as, with its column.
#[derive(Clone, Copy)]
pub enum Operand {
    Word(u32, Word),
    Number(u32, i64),
}

/// What a mnemonic names: a core instruction, or the operation of a number.
#[derive(Clone, Copy, Debug, PartialEq, Eq)]
pub enum Operator {
    Core(Mnemonic),
    Op(u8),
}

/// A mnemonic with its column, what it names if it names something, and its operands.
#[derive(Drop)]
pub struct Operation {
    pub column: u32,
    pub operator: Option<Operator>,
    pub operands: Sequence<Operand>,
}

/// What stands in a line, with the column of its first token.
#[derive(Drop)]
pub enum Statement {
    Nothing,
    Alone(Operation),
    /// Operations in braces, with the format of the word before them, if it is one.
    Wide {
        column: u32,
        format: Option<u8>,
        operations: Sequence<Operation>,
    },
    /// Values of `size` bytes each, 1 or 4.
    Values {
        column: u32,
        size: u8,
        values: Sequence<Operand>,
    },
    /// With the column of its operand, and the number that it is, if it is one.
    Align {
        column: u32,
        place: u32,
        number: Option<i64>,
    },
}

/// A word at a column, as a label or before operands.
#[derive(Clone, Copy)]
pub struct Label {
    pub column: u32,
    pub name: Word,
}

/// A line that has tokens, with its number from 1.
#[derive(Drop)]
pub struct Line {
    pub number: u32,
    pub label: Option<Label>,
    pub statement: Statement,
}
