//! The rules of an assembly source's lines: the first one that is broken, at its least line and column.
//!
//! `specs/Rules.antt` has the rules, `specs/Operands.antt` what operands stand for, `specs/Labels.antt` addresses and labels.
#![tactic(auto)]

mod breach;
mod expected;
mod judge;
mod labels;
mod listed;
mod meaning;
mod parts;
mod rules;
mod sizes;
mod written;

pub use expected::{Expected, expected_at, expected_count};
pub use labels::{Labels, labels_of};
pub use meaning::{meant, target};
pub use parts::{code_in, fields};
pub use rules::{check_lines, check_reach, lay_out};
pub use sizes::{alignment, filling};
