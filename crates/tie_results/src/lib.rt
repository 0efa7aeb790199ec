//! The results of the operations of a TIE text as typed expressions over the operands that they read.
#![tactic(auto)]

mod body;
mod callees;
mod frame;
mod memory;
mod needed;
mod operation;
mod text;
mod uses;
mod widths;

pub use callees::{Functions, functions_of};
pub use memory::NoMemory;
pub use operation::results;
