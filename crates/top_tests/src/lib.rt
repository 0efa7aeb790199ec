//! The commands of one processor through the top call.
//!
//! This crate has tests alone: it stands on the top call, and runs it over files and sinks in memory.
#![tactic(auto)]

#[cfg(test)]
mod tests;
