//! Where sources are refused.

use asm_lines::{AsmRefusal, AsmRule};

/// The rule that a source breaks, with the line and the column.
pub fn fault(refusal: Option<AsmRefusal>) -> Option<(AsmRule, u32, u32)> {
    match refusal? {
        AsmRefusal::Fault { rule, line, column } => Some((rule, line, column)),
        _ => None,
    }
}
