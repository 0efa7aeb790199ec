//! Values of 1 to 128 bits, and typed expressions over them.
//!
//! An expression is built from its parts by the constructors of `Expr`. Its width is fixed when it is
//! built, and `Expr::eval` gives its value where the values of its inputs are given.
#![tactic(auto)]

mod bits;
mod eval;
mod expr;
mod memory;
mod node;
mod operate;
mod ops;
mod replace;
mod weight;
mod words;

pub use bits::Bits;
pub use expr::Expr;
pub use memory::NoMemory;
pub use ops::{Op1, Op2};
