//! Files of a shelf, read and judged: TIE texts, sources, hexadecimal texts; and why a command has no report.
//!
//! `specs/Files.antt` says what a file is, and how it is refused.
#![tactic(auto)]

mod reading;
mod refusal;
mod texts;

pub use net_toml::Text;
pub use reading::{read_file, read_hex_file, read_source_file, read_tie_file};
pub use refusal::Refusal;
pub use tie_front;
