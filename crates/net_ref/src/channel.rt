//! A queue during a run.

ghost use Rattle.std.specs.Prelude.{◌≡◌, ◌+◌, ◌-◌, ◌<◌, ◌≤◌, ◌↔◌, ◌++◌, [], ◌∷◌, IfOk, IsTrue, OnOk, length, min, slice_get};

use std::alloc::Global;
use xt_exec::NoMemory;

/// All items that were pushed to a queue, and how many of them were consumed.
#[derive(Drop)]
pub struct Channel {
    pub history: Vec<u128>,
    pub consumed: usize,
    ghost within: { consumed ≤ length history.items },
}

impl Channel {
    pub fn new(alloc: Global) -> Channel
        ensures history { result.history.items ≡ [] }
        ensures consumed { result.consumed ≡ 0 }
    {
        Channel {
            history: Vec::new(alloc),
            consumed: 0,
        }
    }

    /// The first item that isn't consumed.
    pub fn head(&self) -> Option<u128>
        ensures { result ≡ slice_get self.now.history.items self.now.consumed }
    {
        self.history.get(self.consumed).copied()
    }

    /// Whether fewer items wait than a queue has room for.
    pub fn has_room(&self, capacity: u32) -> bool
        ensures { IsTrue result ↔ (length self.now.history.items < self.now.consumed + capacity) }
    {
        self.history.len() - self.consumed < capacity as usize
    }

    /// Consumes the first item that isn't consumed, if there is one.
    pub fn take(&mut self)
        ensures history { self.new.history ≡ self.old.history }
        ensures consumed { self.new.consumed ≡ min (self.old.consumed + 1) (length self.old.history.items) }
    {
        if self.consumed < self.history.len() {
            self.consumed += 1;
        }
    }

    /// Adds an item at the end.
    pub fn push(&mut self, item: u128) -> Result<(), NoMemory>
        ensures history { OnOk result (self.new.history.items ≡ self.old.history.items ++ item ∷ []) }
        ensures consumed { self.new.consumed ≡ self.old.consumed }
    {
        self.history.push(item)?;
        Ok(())
    }
}
