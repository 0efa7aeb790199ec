//! Hexadecimal texts, words of a command, shelves and sinks, network files, and networks of tiny machines.
//!
//! This crate has tests alone: those of crates that need no processor to run. What is wanted was worked by hand.
#![tactic(auto)]

#[cfg(test)]
mod hexadecimal;
#[cfg(test)]
mod plain;
#[cfg(test)]
mod plans;
#[cfg(test)]
mod shelves;
#[cfg(test)]
mod words;
