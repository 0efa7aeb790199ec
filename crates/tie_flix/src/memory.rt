//! Want of memory.

use std::alloc::AllocError;

/// Memory ran out. What was passed by value is gone.
#[derive(Clone, Copy, Debug, PartialEq, Eq)]
pub struct NoMemory;

impl From<AllocError> for NoMemory {
    fn from(_e: AllocError) -> NoMemory {
        NoMemory
    }
}
