//! Words, numbers and lines of a listing, as the assembler reads them.
//!
//! `specs/Printed.antt` has what a listing prints, and `specs/Chunks.antt` what its pieces are read as.
#![tactic(auto)]

mod laws;

pub use laws::numbers_read_back;
