//! Hexadecimal text: bytes written as pairs of digits.
//!
//! `docs/HEXADECIMAL-TEXT.md` describes it for a user, `specs/Hexadecimal.antt` states it on the whole text.
#![tactic(auto)]

mod hexadecimal;

pub use hexadecimal::{HexRefusal, HexRule, read_hex};
