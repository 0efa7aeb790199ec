//! Values of typed expressions, and the literals and counts of expressions of TIE texts, worked out by hand.
//!
//! This crate has tests alone: it runs what `tie_expr` and `tie_mean` give.
#![tactic(auto)]

#[cfg(test)]
mod counts;
#[cfg(test)]
mod values;
