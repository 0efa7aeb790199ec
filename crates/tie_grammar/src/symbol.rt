//! Tokens as the grammar sees them.

use sqlite_items::Items;

/// A name, a number or a sized number: its bytes, and the place of its first byte in the text.
#[derive(Debug, Drop)]
pub struct Leaf {
    pub bytes: Items<u8>,
    pub place: u32,
}

/// Words and marks whose place no tree keeps.
#[derive(Clone, Copy, Debug, PartialEq, Eq)]
pub enum Mark {
    State,
    Regfile,
    Queue,
    Table,
    ImmediateRange,
    Function,
    Operation,
    Schedule,
    Format,
    SlotOpcodes,
    Wire,
    Assign,
    Use,
    Def,
    EndParen,
    EndBrace,
    Bracket,
    EndBracket,
    Comma,
    Semicolon,
    Colon,
    Question,
    Equals,
}

/// Signs of expressions. `&`, `|` and `^` stand before one operand or between two.
#[derive(Clone, Copy, Debug, PartialEq, Eq)]
pub enum Sign {
    BarBar,
    AmpAmp,
    Bar,
    Caret,
    Amp,
    EqualEqual,
    BangEqual,
    Less,
    LessEqual,
    Greater,
    GreaterEqual,
    LessLess,
    GreaterGreater,
    Plus,
    Minus,
    Star,
    Tilde,
    Bang,
}

/// Whether an operation reads a name, writes it, or both.
#[derive(Clone, Copy, Debug, PartialEq, Eq)]
pub enum Direction {
    In,
    Out,
    Inout,
}

/// The functions that the language has.
#[derive(Clone, Copy, Debug, PartialEq, Eq)]
pub enum TieFunction {
    Add,
    Mul,
    Mux,
}

/// `TIEadd`, `TIEmul` or `TIEmux`, and the word's place.
#[derive(Clone, Copy, Debug, PartialEq, Eq)]
pub struct TieWord {
    pub function: TieFunction,
    pub place: u32,
}

/// The pipeline stages of schedules.
#[derive(Clone, Copy, Debug, PartialEq, Eq)]
pub enum Stage {
    Estage,
    Mstage,
}

/// A pipeline stage, and the word's place.
#[derive(Clone, Copy, Debug, PartialEq, Eq)]
pub struct StageWord {
    pub stage: Stage,
    pub place: u32,
}

/// A token. It has its bytes or its place where a tree keeps them.
#[derive(Debug, Drop)]
pub enum Symbol {
    Name(Leaf),
    Number(Leaf),
    Sized(Leaf),
    /// `(`
    Paren(u32),
    /// `{`
    Brace(u32),
    Sign(Sign, u32),
    Tie(TieWord),
    Stage(StageWord),
    Direction(Direction),
    Mark(Mark),
}
