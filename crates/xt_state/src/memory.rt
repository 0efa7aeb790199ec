//! Memory, of the processor and of this program.

ghost use Rattle.std.specs.Prelude.{◌≡◌, ◌≤◌, IfOk, length};
ghost use Rattle.xt_state.specs.State.{loaded};

use std::alloc::{AllocError, AllocFailed, Global};

/// Memory ran out. What was passed by value is gone.
#[derive(Clone, Copy, Debug, PartialEq, Eq)]
pub struct NoMemory;

impl From<AllocError> for NoMemory {
    fn from(_e: AllocError) -> NoMemory {
        NoMemory
    }
}

impl<T: Drop> From<AllocFailed<T>> for NoMemory {
    fn from(_e: AllocFailed<T>) -> NoMemory {
        NoMemory
    }
}

/// The text from address 0 on, and zeros behind it.
#[tactic(auto, unfolding(crate::specs::State::loaded))]
pub fn memory_of(alloc: Global, size: usize, text: &[u8]) -> Result<Vec<u8>, NoMemory>
    requires { length text.now ≤ size }
    ensures bytes { IfOk result (λ memory. memory.items ≡ loaded size text.now) }
    ensures size { IfOk result (λ memory. length memory.items ≡ size) }
{
    let mut memory = Vec::from_slice(alloc, text)?;
    memory.resize(size, 0)?;
    Ok(memory)
}
