//! Networks of processors: from their files to the report, and the lines of the report and of the commands.
//!
//! This crate has tests alone: it calls the crates of networks, each with small networks. What is wanted was worked by hand.
#![tactic(auto)]

#[cfg(test)]
mod command_lines;
#[cfg(test)]
mod core_lines;
#[cfg(test)]
mod loading;
#[cfg(test)]
mod references;
#[cfg(test)]
mod reports;
#[cfg(test)]
mod wiring;
