//! Networks of files, from the words of a command to what it writes.
//!
//! This crate has tests alone: it stands on the top call, and runs it over a shelf in memory. What is wanted was worked
//! by hand.
#![tactic(auto)]

#[cfg(test)]
mod blocked;
#[cfg(test)]
mod case;
#[cfg(test)]
mod long;
#[cfg(test)]
mod refused;
#[cfg(test)]
mod whole;
