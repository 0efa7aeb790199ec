//! What one part of a bundle does, as a function of what it reads.
//!
//! The definition is `operate_of` of `specs/Operate.antt`: core instructions and core operations of slots act as
//! `xt_core` says, operations as their expressions give.
#![tactic(auto)]

mod bounds;
mod instructions;
mod parts;
mod values;
mod words;

pub use bounds::{Bound, Bounds, bounds_of};
pub use instructions::action_values;
pub use parts::{Reads, Writes, operate, operation_values, slot_instruction, width_of};
pub use values::Values;
pub use words::{Words, immediate};
