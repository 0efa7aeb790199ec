//! Mnemonics, lines and rules of assembly sources, images and listings, by rows worked by hand.
//!
//! This crate has tests alone, a module for each crate that they test. Descriptions are read from TIE texts.
#![tactic(auto)]

#[cfg(test)]
mod images;
#[cfg(test)]
mod listings;
#[cfg(test)]
mod mnemonics;
#[cfg(test)]
mod refusals;
#[cfg(test)]
mod round_trips;
#[cfg(test)]
mod source_lines;
#[cfg(test)]
mod source_rules;
