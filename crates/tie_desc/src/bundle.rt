//! Bundles, and what a processor fetches.

use crate::desc::Desc;
use crate::formats::Code;
use crate::sequence::Sequence;
use arrayvec::ArrayVec;
use xt_isa::Inst;

/// An operation with the numbers in its fields; a field that it doesn't have is 0.
#[derive(Clone, Copy, Debug, Default, PartialEq, Eq)]
pub struct Part {
    pub code: Code,
    pub fields: [u8; 3],
}

/// What a processor does at once.
#[derive(Drop)]
pub enum Bundle {
    /// A core instruction.
    Core(Inst),
    /// An operation alone.
    One(Part),
    /// The format of a number, with a part for each of its slots.
    Wide {
        format: u8,
        parts: ArrayVec<Part, 4>,
    },
}

/// A bundle, and how many bytes it has.
#[derive(Drop)]
pub struct Fetched {
    pub bundle: Bundle,
    pub length: u8,
}

/// Of each place of a text the bundle that stands there, None where there is none.
#[derive(Drop)]
pub struct Image {
    pub at: Sequence<Option<Fetched>>,
}

/// A processor's extension and program.
#[derive(Drop)]
pub struct Kit {
    pub desc: Desc,
    pub image: Image,
}

/// A place that a bundle reads or writes.
#[derive(Clone, Copy, Debug, PartialEq, Eq)]
pub enum Spot {
    Ar(u8),
    Sar,
    State(u8),
    /// The file, and the register in it.
    File(u8, u8),
    /// The input queue of a number.
    In(u8),
    /// The output queue of a number.
    Out(u8),
}
