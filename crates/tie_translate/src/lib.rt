//! Expressions of a TIE text as typed expressions.
#![tactic(auto)]

pub mod bindings;
mod leaf;
mod operate;
mod parts;
pub mod translate;

pub use bindings::Bindings;
pub use tie_expr::NoMemory;
