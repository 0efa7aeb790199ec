//! The words of a command: which are accepted, and the first wrong one.
//!
//! `specs/Words.antt` has each command with its words.
#![tactic(auto)]

mod command;

pub use command::{Command, command_of};
