//! Refusals of a text.

/// Why a text isn't accepted.
#[derive(Clone, Copy, Debug, PartialEq, Eq)]
pub enum CheckRefusal {
    /// The number of the rule, 1 to 31, and the place in the text.
    Rule { rule: u8, place: u32 },
    NoMemory,
}
