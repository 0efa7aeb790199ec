//! Trees: a struct for each rule of the grammar, or an enum with a variant for each of its alternatives.
//!
//! The `u32`s are places in the text, of the marks that the rule has there.

use crate::symbol::{Direction, Leaf, StageWord, TieWord};
use sqlite_items::{Boxed, Items};

/// A number, or a sized number.
#[derive(Debug, Drop)]
pub enum Literal {
    Number(Leaf),
    Sized(Leaf),
}

/// `~` `!` `&` `|` `^` before an operand.
#[derive(Clone, Copy, Debug, PartialEq, Eq)]
pub enum UnaryOp {
    Not,
    LogicalNot,
    ReduceAnd,
    ReduceOr,
    ReduceXor,
}

/// The operators between two operands, the loosest first.
#[derive(Clone, Copy, Debug, PartialEq, Eq)]
pub enum BinaryOp {
    LogicalOr,
    LogicalAnd,
    Or,
    Xor,
    And,
    Equal,
    NotEqual,
    Less,
    LessEqual,
    Greater,
    GreaterEqual,
    ShiftLeft,
    ShiftRight,
    Add,
    Subtract,
    Multiply,
}

/// An operator between two operands, and its place.
#[derive(Clone, Copy, Debug, PartialEq, Eq)]
pub struct Operator {
    pub op: BinaryOp,
    pub place: u32,
}

/// An expression.
#[derive(Debug, Drop)]
pub enum Expr {
    Literal(Literal),
    Name(Leaf),
    /// `name [ high : low ]`
    Select(Leaf, Leaf, Leaf),
    /// `name [ index ]`
    Index(Leaf, Boxed<Expr>),
    /// `name ( arguments )`, with the place of the bracket
    Call(Leaf, u32, Items<Expr>),
    /// `TIEadd ( arguments )`, with the place of the bracket
    Tie(TieWord, u32, Items<Expr>),
    /// `( inner )`
    Paren(u32, Boxed<Expr>),
    /// `{ parts }`, the highest first
    Concat(u32, Items<Expr>),
    /// `{ count { part } }`
    Repeat(u32, Leaf, u32, Boxed<Expr>),
    Unary(UnaryOp, u32, Boxed<Expr>),
    /// The operator, and its left and right operands.
    Binary(Operator, Boxed<Expr>, Boxed<Expr>),
    /// `condition ? met : unmet`
    Conditional(Boxed<Expr>, Boxed<Expr>, Boxed<Expr>),
}

/// `[ high : zero ]`
#[derive(Debug, Drop)]
pub struct Range {
    pub high: Leaf,
    pub zero: Leaf,
}

/// A number, which may have a minus in front.
#[derive(Debug, Drop)]
pub struct Int {
    pub minus: Option<u32>,
    pub number: Leaf,
}

/// `wire`, `wire` with a value, or `assign`.
#[derive(Debug, Drop)]
pub enum Item {
    Wire(Option<Range>, Leaf),
    WireSet(Option<Range>, Leaf, Expr),
    Assign(Leaf, Expr),
}

/// `use` or `def`: the operands, and their stage.
#[derive(Debug, Drop)]
pub enum ScheduleItem {
    Use(Items<Leaf>, StageWord),
    Def(Items<Leaf>, StageWord),
}

/// A parameter of a function.
#[derive(Debug, Drop)]
pub struct Parameter {
    pub range: Option<Range>,
    pub name: Leaf,
}

/// An argument of an operation. Its kind is `AR`, a register file or an immediate range.
#[derive(Debug, Drop)]
pub struct Argument {
    pub direction: Direction,
    pub kind: Leaf,
    pub name: Leaf,
}

/// A state or queue that an operation reads or writes.
#[derive(Debug, Drop)]
pub struct Link {
    pub direction: Direction,
    pub name: Leaf,
}

/// `state name width reset`
#[derive(Debug, Drop)]
pub struct State {
    pub name: Leaf,
    pub width: Leaf,
    pub reset: Option<Literal>,
}

/// `regfile name width depth short`
#[derive(Debug, Drop)]
pub struct Regfile {
    pub name: Leaf,
    pub width: Leaf,
    pub depth: Leaf,
    pub short: Leaf,
}

/// `queue name width`, behind which its direction stands
#[derive(Debug, Drop)]
pub struct Queue {
    pub name: Leaf,
    pub width: Leaf,
}

/// `table name width depth { entries }`
#[derive(Debug, Drop)]
pub struct Table {
    pub name: Leaf,
    pub width: Leaf,
    pub depth: Leaf,
    pub brace: u32,
    pub entries: Items<Literal>,
}

/// `immediate_range name low high step`
#[derive(Debug, Drop)]
pub struct ImmediateRange {
    pub name: Leaf,
    pub low: Int,
    pub high: Int,
    pub step: Leaf,
}

/// `function range name ( parameters ) { items }`
#[derive(Debug, Drop)]
pub struct Function {
    pub range: Option<Range>,
    pub name: Leaf,
    pub paren: u32,
    pub parameters: Items<Parameter>,
    pub brace: u32,
    pub items: Items<Item>,
}

/// `operation name { arguments } { links } { items }`
#[derive(Debug, Drop)]
pub struct Operation {
    pub name: Leaf,
    pub arguments_brace: u32,
    pub arguments: Items<Argument>,
    pub links_brace: u32,
    pub links: Items<Link>,
    pub items_brace: u32,
    pub items: Items<Item>,
}

/// `schedule name { operations } { items }`
#[derive(Debug, Drop)]
pub struct Schedule {
    pub name: Leaf,
    pub operations_brace: u32,
    pub operations: Items<Leaf>,
    pub items_brace: u32,
    pub items: Items<ScheduleItem>,
}

/// `format name width { slots }`
#[derive(Debug, Drop)]
pub struct Format {
    pub name: Leaf,
    pub width: Leaf,
    pub brace: u32,
    pub slots: Items<Leaf>,
}

/// `slot_opcodes slot { opcodes }`
#[derive(Debug, Drop)]
pub struct SlotOpcodes {
    pub slot: Leaf,
    pub brace: u32,
    pub opcodes: Items<Leaf>,
}

/// A declaration.
#[derive(Debug, Drop)]
pub enum Decl {
    State(State),
    Regfile(Regfile),
    QueueIn(Queue),
    QueueOut(Queue),
    Table(Table),
    ImmediateRange(ImmediateRange),
    Function(Function),
    Operation(Operation),
    Schedule(Schedule),
    Format(Format),
    SlotOpcodes(SlotOpcodes),
}

/// A TIE text.
#[derive(Debug, Drop)]
pub struct Tree {
    pub declarations: Items<Decl>,
}
