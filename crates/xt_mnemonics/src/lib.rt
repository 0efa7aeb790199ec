//! The mnemonics of the core instructions: their words, what stands in their operands' places, and the instruction of a
//! mnemonic with its operands.
//!
//! Assembler and listing share this table: `specs/Names.antt` has the words, `specs/Shapes.antt` the operands,
//! `specs/Build.antt` the instructions.
#![tactic(auto)]

mod laws;
mod mnemonic;
mod names;
mod numbers;
mod operands;
mod shape;

pub use laws::{named_again, rebuilt, words_fit};
pub use mnemonic::Mnemonic;
pub use names::{mnemonic_named, name_of};
pub use numbers::{distance, fits_shape};
pub use operands::{build, mnemonic_of, values_of};
pub use shape::{Scale, Shape, Way, shapes};
