//! What a core instruction does, as a function of what it reads, and why a processor stops.
#![tactic(auto)]

mod action;
mod ending;
mod families;
mod numbers;
mod registers;

pub use action::{Access, Action};
pub use ending::{Ending, Trap};
pub use families::action_of;
pub use registers::Registers;
