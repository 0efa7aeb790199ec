//! What the commands without a processor print.
//!
//! `specs/Lines.antt` has each text as one list of bytes.
#![tactic(auto)]

mod text;

pub use core_text;
pub use text::{check_text, image_text};
