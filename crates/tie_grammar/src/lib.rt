//! The grammar of TIE texts: what its rules are as trees, and what symbols a tree spells.
#![tactic(auto)]

pub mod symbol;
pub mod tree;
