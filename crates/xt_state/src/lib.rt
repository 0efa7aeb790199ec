//! The state of a processor.
#![tactic(auto)]

mod arch;
mod bank;
mod memory;

pub use arch::Arch;
pub use memory::NoMemory;
pub use xt_core::{Ending, Registers, Trap};
