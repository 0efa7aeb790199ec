//! The lines of a processor in a report, and the digits of numbers.
//!
//! `docs/REPORT.md` describes reports for a user, `specs/Core.antt` has the lines as one list of bytes.
#![tactic(auto)]

mod digits;
mod memory;
mod text;

pub use digits::{digit_count, push_hex};
pub use memory::push_memory;
pub use text::push_core;
