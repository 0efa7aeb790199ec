//! Want of memory.

use std::alloc::{AllocError, AllocFailed};

/// There is no memory left.
#[derive(Debug, PartialEq, Eq, Clone, Copy)]
pub struct NoMemory;

impl From<AllocError> for NoMemory {
    fn from(_error: AllocError) -> NoMemory {
        NoMemory
    }
}

impl<T: Drop> From<AllocFailed<T>> for NoMemory {
    fn from(_error: AllocFailed<T>) -> NoMemory {
        NoMemory
    }
}

impl From<tie_expr::NoMemory> for NoMemory {
    fn from(_error: tie_expr::NoMemory) -> NoMemory {
        NoMemory
    }
}

impl From<tie_mean::NoMemory> for NoMemory {
    fn from(_error: tie_mean::NoMemory) -> NoMemory {
        NoMemory
    }
}
