//! TIE texts with their descriptions, or with the first rule that each breaks.
//!
//! This crate has tests alone: it runs the front end, and crates below it where a row needs one of them alone.
#![tactic(auto)]

#[cfg(test)]
mod declared;
#[cfg(test)]
mod descriptions;
#[cfg(test)]
mod rulebook;
#[cfg(test)]
mod texts;
