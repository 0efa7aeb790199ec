//! The listing of bytes: a line for each bundle, in the form in which assembly writes it.
//!
//! What a listing is stands in `specs/Listing.antt`, the operands in `specs/Operands.antt`.
#![tactic(auto)]

mod instructions;
mod laws;
mod listing;
mod operations;
mod text;

pub use laws::one_listing;
pub use listing::disassemble;
