//! TIE texts with their tokens and their trees, or with their first fault of tokens or of form.
//!
//! This crate has tests alone: it runs the lexer and the parser.
#![tactic(auto)]

#[cfg(test)]
mod lexer;
#[cfg(test)]
mod parser;
#[cfg(test)]
mod shown;
