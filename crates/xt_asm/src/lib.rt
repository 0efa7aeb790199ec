//! The assembler: the image of a source, or the first rule that it breaks.
//!
//! `docs/ASSEMBLER.md` describes the language for a user. `specs/Assembly.antt` says what the image of a source is.
#![tactic(auto)]

mod assembly;
mod bundles;
mod statements;
mod values;

pub use asm_lines::{AsmRefusal, AsmRule};
pub use asm_rules;
pub use assembly::assemble;
