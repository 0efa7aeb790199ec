//! Core instructions, the state of a processor, bundles, steps and runs, by rows worked by hand.
//!
//! This crate has tests alone, a module for each crate that they test. Descriptions are read from TIE texts.
#![tactic(auto)]

#[cfg(test)]
mod actions;
#[cfg(test)]
mod bundles;
#[cfg(test)]
mod core_words;
#[cfg(test)]
mod machine;
#[cfg(test)]
mod operations;
#[cfg(test)]
mod parts;
#[cfg(test)]
mod runs;
#[cfg(test)]
mod states;
