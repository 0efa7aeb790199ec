//! Formats of wide bundles.

use crate::name::Name;
use crate::sequence::Sequence;

/// A core operation that a slot may list. Each but NOP has the fields r, s and t.
#[derive(Clone, Copy, Debug, PartialEq, Eq)]
pub enum SlotCore {
    Add,
    Addx2,
    Addx4,
    Addx8,
    Sub,
    Subx2,
    Subx4,
    Subx8,
    And,
    Or,
    Xor,
    Min,
    Max,
    Minu,
    Maxu,
    Mull,
    Nop,
}

/// What a slot may hold: a core operation, or the operation of a number.
#[derive(Clone, Copy, Debug, PartialEq, Eq)]
pub enum Code {
    Core(SlotCore),
    Op(u8),
}

impl Default for Code {
    ghost use Rattle.std.specs.Prelude.{◌≡◌};
    ghost use Rattle.tie_desc.specs.declared.formats.SlotCore.TheVariants.{Nop};
    ghost use Rattle.tie_desc.specs.declared.formats.Code.TheVariants.{Core};

    ghost is_default = { λ code. code ≡ Core Nop };

    fn default() -> Code {
        Code::Core(SlotCore::Nop)
    }
}

/// A slot, with the codes that it may hold.
#[derive(Drop)]
pub struct SlotDecl {
    pub name: Name,
    pub codes: Sequence<Code>,
}

/// A format of wide bundles.
#[derive(Drop)]
pub struct FormatDecl {
    pub name: Name,
    /// In bits, 32 or 64.
    pub width: u8,
    /// Among the formats of its width, from 0.
    pub number: u8,
    pub slots: Sequence<SlotDecl>,
}
