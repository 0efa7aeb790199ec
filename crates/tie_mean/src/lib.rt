//! What the expressions and operations of a TIE text mean: literals, self sizes, values, and the nodes that its results have.
#![tactic(auto)]

pub mod body;
pub mod count;
pub mod kept;
pub mod literal;
mod memory;
pub mod names;
pub mod scope;
pub mod size;

pub use memory::NoMemory;
