//! The interpreter: one step of a processor, the run to its stop, and its first state.
//!
//! What a step does stands in `specs/Step.antt`, by cases on its answer.
#![tactic(auto)]

mod answer;
mod bytes;
mod effects;
mod gathered;
mod laws;
mod places;
mod queues;
mod reach;
mod running;
mod starting;
mod stepping;

pub use answer::Step;
pub use laws::{one_step, one_stop};
pub use queues::Needs;
pub use running::run;
pub use starting::start;
pub use stepping::{needs, step};
pub use xt_operate;
pub use xt_state::{Arch, Ending, NoMemory, Trap};
