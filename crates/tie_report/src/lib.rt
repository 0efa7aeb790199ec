//! The report of a network at the end of a run: its processors, queues and collectors, and how the run ended.
//!
//! `docs/REPORT.md` describes it for a user, `specs/Report.antt` has it as one list of bytes, `specs/Standing.antt` says
//! how a processor stands.
#![tactic(auto)]

mod collectors;
mod cores;
mod outcome;
mod queues;
mod standing;
mod waiting;
mod whole;
mod words;

pub use net_ref;
pub use net_ref::{NoMemory, net_parts, xt_exec};
pub use outcome::word;
pub use standing::Standing;
pub use whole::report;
