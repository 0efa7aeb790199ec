//! Trees as text, for the tests.

use std::alloc::{AllocError, Global};
use tie_grammar::symbol::{Direction, Leaf, Stage, StageWord, TieFunction};
use tie_grammar::tree::{
    BinaryOp, Decl, Expr, Function, Int, Item, Literal, Operation, Range, ScheduleItem, UnaryOp,
};

/// A tree as text: `<x>` is an `x` in round brackets, and operators have round brackets of their own.
#[derive(Drop)]
pub struct Shown {
    pub out: Vec<u8>,
    pub places: bool,
    pub alloc: Global,
}

impl Shown {
    pub fn text(&mut self, text: &[u8]) -> Result<(), AllocError> {
        self.out.extend_from_slice(text)?;
        Ok(())
    }

    fn place(&mut self, place: u32) -> Result<(), AllocError> {
        if self.places {
            let shown = format!(in self.alloc; "@{}", place)?;
            self.text(shown.as_bytes())?;
        }
        Ok(())
    }

    fn leaf(&mut self, leaf: &Leaf) -> Result<(), AllocError> {
        self.text(leaf.bytes.as_slice())?;
        self.place(leaf.place)
    }

    fn literal(&mut self, literal: &Literal) -> Result<(), AllocError> {
        match literal {
            Literal::Number(leaf) => self.leaf(leaf),
            Literal::Sized(leaf) => {
                self.text(b"'")?;
                self.leaf(leaf)
            }
        }
    }

    #[cycle(show)]
    fn exprs(&mut self, all: &[Expr]) -> Result<(), AllocError> {
        for x in all {
            self.expr(x)?;
            self.text(b",")?;
        }
        Ok(())
    }

    #[cycle(show)]
    fn expr(&mut self, x: &Expr) -> Result<(), AllocError> {
        match x {
            Expr::Literal(literal) => self.literal(literal),
            Expr::Name(name) => self.leaf(name),
            Expr::Select(name, high, low) => {
                self.leaf(name)?;
                self.text(b"[")?;
                self.leaf(high)?;
                self.text(b":")?;
                self.leaf(low)?;
                self.text(b"]")
            }
            Expr::Index(name, inner) => {
                self.leaf(name)?;
                self.text(b"[")?;
                self.expr(inner.get())?;
                self.text(b"]")
            }
            Expr::Call(name, place, given) => {
                self.leaf(name)?;
                self.text(b"(")?;
                self.place(*place)?;
                self.exprs(given.as_slice())?;
                self.text(b")")
            }
            Expr::Tie(word, place, given) => {
                self.text(tie(word.function))?;
                self.place(word.place)?;
                self.text(b"(")?;
                self.place(*place)?;
                self.exprs(given.as_slice())?;
                self.text(b")")
            }
            Expr::Paren(place, inner) => {
                self.text(b"<")?;
                self.place(*place)?;
                self.expr(inner.get())?;
                self.text(b">")
            }
            Expr::Concat(place, parts) => {
                self.text(b"{")?;
                self.place(*place)?;
                self.exprs(parts.as_slice())?;
                self.text(b"}")
            }
            Expr::Repeat(place, count, inner_place, inner) => {
                self.text(b"{")?;
                self.place(*place)?;
                self.leaf(count)?;
                self.text(b"*")?;
                self.place(*inner_place)?;
                self.expr(inner.get())?;
                self.text(b"}")
            }
            Expr::Unary(op, place, operand) => {
                self.text(b"(")?;
                self.text(unary(*op))?;
                self.place(*place)?;
                self.expr(operand.get())?;
                self.text(b")")
            }
            Expr::Binary(operator, left, right) => {
                self.text(b"(")?;
                self.expr(left.get())?;
                self.text(binary(operator.op))?;
                self.place(operator.place)?;
                self.expr(right.get())?;
                self.text(b")")
            }
            Expr::Conditional(condition, met, unmet) => {
                self.text(b"(")?;
                self.expr(condition.get())?;
                self.text(b"?")?;
                self.expr(met.get())?;
                self.text(b":")?;
                self.expr(unmet.get())?;
                self.text(b")")
            }
        }
    }

    fn range(&mut self, range: &Option<Range>) -> Result<(), AllocError> {
        if let Some(range) = range {
            self.text(b"[")?;
            self.leaf(&range.high)?;
            self.text(b":")?;
            self.leaf(&range.zero)?;
            self.text(b"]")?;
        }
        Ok(())
    }

    fn names(&mut self, names: &[Leaf]) -> Result<(), AllocError> {
        for name in names {
            self.leaf(name)?;
            self.text(b",")?;
        }
        Ok(())
    }

    fn items(&mut self, items: &[Item]) -> Result<(), AllocError> {
        for item in items {
            self.item(item)?;
        }
        Ok(())
    }

    fn item(&mut self, item: &Item) -> Result<(), AllocError> {
        match item {
            Item::Wire(range, name) => {
                self.text(b"wire ")?;
                self.range(range)?;
                self.leaf(name)?;
            }
            Item::WireSet(range, name, value) => {
                self.text(b"wire ")?;
                self.range(range)?;
                self.leaf(name)?;
                self.text(b"=")?;
                self.expr(value)?;
            }
            Item::Assign(name, value) => {
                self.leaf(name)?;
                self.text(b"=")?;
                self.expr(value)?;
            }
        }
        self.text(b";")
    }

    fn stage(&mut self, word: StageWord) -> Result<(), AllocError> {
        self.text(match word.stage {
            Stage::Estage => b"E",
            Stage::Mstage => b"M",
        })?;
        self.place(word.place)?;
        self.text(b";")
    }

    fn schedule_items(&mut self, items: &[ScheduleItem]) -> Result<(), AllocError> {
        for item in items {
            match item {
                ScheduleItem::Use(names, stage) => {
                    self.text(b"use ")?;
                    self.names(names.as_slice())?;
                    self.stage(*stage)?;
                }
                ScheduleItem::Def(names, stage) => {
                    self.text(b"def ")?;
                    self.names(names.as_slice())?;
                    self.stage(*stage)?;
                }
            }
        }
        Ok(())
    }

    fn int(&mut self, int: &Int) -> Result<(), AllocError> {
        if let Some(place) = int.minus {
            self.text(b"-")?;
            self.place(place)?;
        }
        self.leaf(&int.number)?;
        self.text(b" ")
    }

    fn direction(&mut self, direction: Direction) -> Result<(), AllocError> {
        self.text(match direction {
            Direction::In => b"in ".as_slice(),
            Direction::Out => b"out ".as_slice(),
            Direction::Inout => b"inout ".as_slice(),
        })
    }

    fn function(&mut self, function: &Function) -> Result<(), AllocError> {
        self.text(b"function ")?;
        self.range(&function.range)?;
        self.leaf(&function.name)?;
        self.text(b"(")?;
        self.place(function.paren)?;
        for parameter in function.parameters.as_slice() {
            self.range(&parameter.range)?;
            self.leaf(&parameter.name)?;
            self.text(b",")?;
        }
        self.text(b"){")?;
        self.place(function.brace)?;
        self.items(function.items.as_slice())?;
        self.text(b"}")
    }

    fn operation(&mut self, operation: &Operation) -> Result<(), AllocError> {
        self.text(b"operation ")?;
        self.leaf(&operation.name)?;
        self.text(b"{")?;
        self.place(operation.arguments_brace)?;
        for argument in operation.arguments.as_slice() {
            self.direction(argument.direction)?;
            self.leaf(&argument.kind)?;
            self.text(b" ")?;
            self.leaf(&argument.name)?;
            self.text(b",")?;
        }
        self.text(b"}{")?;
        self.place(operation.links_brace)?;
        for link in operation.links.as_slice() {
            self.direction(link.direction)?;
            self.leaf(&link.name)?;
            self.text(b",")?;
        }
        self.text(b"}{")?;
        self.place(operation.items_brace)?;
        self.items(operation.items.as_slice())?;
        self.text(b"}")
    }

    /// A word, and names or numbers after it.
    fn plain(&mut self, word: &[u8], leaves: &[&Leaf]) -> Result<(), AllocError> {
        self.text(word)?;
        for leaf in leaves {
            self.text(b" ")?;
            self.leaf(leaf)?;
        }
        Ok(())
    }

    fn listed(&mut self, brace: u32, names: &[Leaf]) -> Result<(), AllocError> {
        self.text(b"{")?;
        self.place(brace)?;
        self.names(names)?;
        self.text(b"}")
    }

    pub fn decl(&mut self, decl: &Decl) -> Result<(), AllocError> {
        match decl {
            Decl::State(x) => {
                self.plain(b"state", &[&x.name, &x.width])?;
                if let Some(reset) = &x.reset {
                    self.text(b" ")?;
                    self.literal(reset)?;
                }
                Ok(())
            }
            Decl::Regfile(x) => self.plain(b"regfile", &[&x.name, &x.width, &x.depth, &x.short]),
            Decl::QueueIn(x) => self.plain(b"pops", &[&x.name, &x.width]),
            Decl::QueueOut(x) => self.plain(b"pushes", &[&x.name, &x.width]),
            Decl::Table(x) => {
                self.plain(b"table", &[&x.name, &x.width, &x.depth])?;
                self.text(b"{")?;
                self.place(x.brace)?;
                for entry in x.entries.as_slice() {
                    self.literal(entry)?;
                    self.text(b",")?;
                }
                self.text(b"}")
            }
            Decl::ImmediateRange(x) => {
                self.plain(b"immediate_range", &[&x.name])?;
                self.text(b" ")?;
                self.int(&x.low)?;
                self.int(&x.high)?;
                self.leaf(&x.step)
            }
            Decl::Function(x) => self.function(x),
            Decl::Operation(x) => self.operation(x),
            Decl::Schedule(x) => {
                self.plain(b"schedule", &[&x.name])?;
                self.listed(x.operations_brace, x.operations.as_slice())?;
                self.text(b"{")?;
                self.place(x.items_brace)?;
                self.schedule_items(x.items.as_slice())?;
                self.text(b"}")
            }
            Decl::Format(x) => {
                self.plain(b"format", &[&x.name, &x.width])?;
                self.listed(x.brace, x.slots.as_slice())
            }
            Decl::SlotOpcodes(x) => {
                self.plain(b"slot_opcodes", &[&x.slot])?;
                self.listed(x.brace, x.opcodes.as_slice())
            }
        }
    }
}

fn tie(function: TieFunction) -> &'static [u8] {
    match function {
        TieFunction::Add => b"add",
        TieFunction::Mul => b"mul",
        TieFunction::Mux => b"mux",
    }
}

fn unary(op: UnaryOp) -> &'static [u8] {
    match op {
        UnaryOp::Not => b"~",
        UnaryOp::LogicalNot => b"!",
        UnaryOp::ReduceAnd => b"&",
        UnaryOp::ReduceOr => b"|",
        UnaryOp::ReduceXor => b"^",
    }
}

fn binary(op: BinaryOp) -> &'static [u8] {
    match op {
        BinaryOp::LogicalOr => b"||",
        BinaryOp::LogicalAnd => b"&&",
        BinaryOp::Or => b"|",
        BinaryOp::Xor => b"^",
        BinaryOp::And => b"&",
        BinaryOp::Equal => b"==",
        BinaryOp::NotEqual => b"!=",
        BinaryOp::Less => b"<",
        BinaryOp::LessEqual => b"<=",
        BinaryOp::Greater => b">",
        BinaryOp::GreaterEqual => b">=",
        BinaryOp::ShiftLeft => b"<<",
        BinaryOp::ShiftRight => b">>",
        BinaryOp::Add => b"+",
        BinaryOp::Subtract => b"-",
        BinaryOp::Multiply => b"*",
    }
}
