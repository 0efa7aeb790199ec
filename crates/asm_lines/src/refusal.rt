//! Why a source has no image.

ghost use Rattle.std.specs.Prelude.{◌≡◌};
ghost use Rattle.asm_lines.specs.declared.refusal.AsmRefusal.TheVariants.{NoMemory};

use std::alloc::{AllocError, AllocFailed};

/// The rules of a source, in their order: the least one that is broken is answered.
#[derive(Clone, Copy, Debug, PartialEq, Eq)]
pub enum AsmRule {
    /// No token begins at a byte, or a token is malformed.
    BadToken,
    /// A line that is none.
    Syntax,
    /// A word that is no mnemonic where one stands, or no format.
    UnknownMnemonic,
    /// More or fewer operands than the mnemonic has.
    OperandCount,
    /// A label that stands on an earlier line too.
    DoubledLabel,
    /// An operand of another form than its place wants.
    OperandKind,
    /// A register or a number that its place doesn't have.
    OperandRange,
    /// A label that stands on no line.
    UnknownLabel,
    /// More or fewer parts than the format has slots.
    SlotCount,
    /// A part that its slot doesn't list.
    SlotOpcode,
    /// A register that is written twice.
    SameDest,
    /// An image of more than 65,536 bytes.
    TooLong,
    /// A target that the instruction can't reach.
    Reach,
}

/// The first fault of a source, with line and column from 1, or want of memory.
#[derive(Debug, Drop)]
pub enum AsmRefusal {
    Fault {
        rule: AsmRule,
        line: u32,
        column: u32,
    },
    NoMemory,
}

impl From<AllocError> for AsmRefusal {
    ghost from_gives = { λ _ e. e ≡ NoMemory };

    fn from(_error: AllocError) -> AsmRefusal {
        AsmRefusal::NoMemory
    }
}

impl<T: Drop> From<AllocFailed<T>> for AsmRefusal {
    ghost from_gives = { λ _ e. e ≡ NoMemory };

    fn from(_error: AllocFailed<T>) -> AsmRefusal {
        AsmRefusal::NoMemory
    }
}
