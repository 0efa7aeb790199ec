//! What an extension declares, but for its formats.

use crate::name::Name;
use crate::sequence::Sequence;
use tie_expr::Expr;

/// A state: one value, its reset value at the start.
#[derive(Clone, Copy)]
pub struct StateDecl {
    pub name: Name,
    /// In bits, 1 to 128.
    pub width: u8,
    pub reset: u128,
}

/// A register file.
#[derive(Clone, Copy)]
pub struct FileDecl {
    pub name: Name,
    /// What assembly writes before the number of a register.
    pub short: Name,
    /// Of each register, in bits, 1 to 128.
    pub width: u8,
    /// The count of registers, 1 to 16.
    pub depth: u8,
}

/// A range of immediates: `count` values from `low` on, each `step` above the one before.
#[derive(Clone, Copy)]
pub struct RangeDecl {
    pub name: Name,
    pub low: i32,
    pub step: u32,
    /// 1 to 16.
    pub count: u8,
}

/// A queue, of one direction.
#[derive(Clone, Copy)]
pub struct QueueDecl {
    pub name: Name,
    /// Of each item, in bits, 1 to 128.
    pub width: u8,
}

/// What an operand is: a register of the core, or the number of a declaration.
#[derive(Clone, Copy, Debug, PartialEq, Eq)]
pub enum Kind {
    Ar,
    File(u8),
    Range(u8),
    State(u8),
    InQueue(u8),
    OutQueue(u8),
}

/// An operand of an operation. M is the late stage, E the early one.
#[derive(Clone, Copy)]
pub struct Operand {
    pub name: Name,
    pub kind: Kind,
    pub reads: bool,
    pub writes: bool,
    /// Whether it is used at M.
    pub use_m: bool,
    /// Whether it is defined at M.
    pub def_m: bool,
}

/// An operand without its name, which operands of core operations have none of.
#[derive(Clone, Copy, Debug, PartialEq, Eq)]
pub struct Access {
    pub kind: Kind,
    pub reads: bool,
    pub writes: bool,
    /// Whether it is used at M.
    pub use_m: bool,
    /// Whether it is defined at M.
    pub def_m: bool,
}

/// An operation. Its expressions read its read operands, numbered from 0, arguments before links, and there is one for
/// each written operand, in the same order.
#[derive(Drop)]
pub struct OpDecl {
    pub name: Name,
    /// What its bundle names by a field each.
    pub args: Sequence<Operand>,
    /// The states and queues that it always uses.
    pub links: Sequence<Operand>,
    pub results: Sequence<Expr>,
}

impl Default for Kind {
    ghost use Rattle.std.specs.Prelude.{◌≡◌};
    ghost use Rattle.tie_desc.specs.declared.declarations.Kind.TheVariants.{Ar};

    ghost is_default = { λ kind. kind ≡ Ar };

    fn default() -> Kind {
        Kind::Ar
    }
}

impl Default for Access {
    ghost use Rattle.std.specs.Prelude.{◌≡◌};
    ghost use Rattle.tie_desc.specs.Slots.{core_read};

    ghost is_default = { λ access. access ≡ core_read };

    fn default() -> Access {
        Access {
            kind: Kind::Ar,
            reads: true,
            writes: false,
            use_m: false,
            def_m: false,
        }
    }
}
