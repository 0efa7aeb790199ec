// A shelf and a sink in memory, whose calls of chosen numbers fail.
ghost use Rattle.std.specs.Prelude.{◌≡◌, ◌≢◌, ◌≤◌, ◌<◌, ◌^◌, ◌↔◌, Some, List, ℕ, [], length, OnOk, OnErr, IsErrOf, IsTrue, string_bytes};
ghost use Rattle.tie_io.specs.Counts.{Rose};
ghost use Rattle.tie_io.specs.Reading.{IsRead};
ghost use Rattle.tie_io.specs.Writing.{IsPut};

use crate::{PutFault, ReadFault, Shelf, Sink};
use std::alloc::Global;
use std::collections::BTreeMap;
use std::marker::Model;

/// There was no memory.
#[derive(Clone, Copy, Debug, PartialEq, Eq)]
pub struct NoMemory;

/// Files in memory.
///
/// Reads are numbered from 0, and those whose number stands in the list given to `new` fail. So does a read of a name
/// that was not added.
#[derive(Drop)]
pub struct MemShelf {
    alloc: Global,
    entries: BTreeMap<String, Vec<u8>>,
    fail: Vec<u64>,
    calls: u64,
    faults: u64,
}

impl Model for MemShelf {
    ghost use Rattle.std.specs.Prelude.{map, string_bytes};
    ghost use Rattle.tie_io.specs.Memory.{ShelfState};

    ghost Value = { ShelfState };

    ghost view = { λ s. record {
      files = map (λ e. (string_bytes e.0, e.1.items)) s.entries.entries;
      fail = s.fail.items;
      calls = s.calls;
      faults = s.faults;
    } };
}

impl MemShelf {
    ghost use Rattle.tie_io.specs.Memory.{held};

    /// A shelf without files. It takes no memory.
    pub fn new(alloc: Global, fail: Vec<u64>) -> MemShelf
        ensures { result ≡ record { files = []; fail = fail.items; calls = 0; faults = 0 } }
    {
        MemShelf {
            alloc,
            entries: BTreeMap::new(alloc),
            fail,
            calls: 0,
            faults: 0,
        }
    }

    /// Puts a file under a name, in place of what was there.
    pub fn add(&mut self, name: &str, bytes: &[u8]) -> Result<(), NoMemory>
        ensures added { OnOk result (held self.new.files name.now ≡ Some bytes.now) }
        ensures others { (other : List ℕ) → other ≢ name.now → held self.new.files other ≡ held self.old.files other }
        ensures kept { self.new ≡ record self.old { files = self.new.files } }
        ensures err { OnErr result (self.new ≡ self.old) }
    {
        let Ok(key) = String::from_str(self.alloc, name) else {
            return Err(NoMemory);
        };
        let Ok(copy) = Vec::from_slice(self.alloc, bytes) else {
            return Err(NoMemory);
        };
        match self.entries.insert(key, copy) {
            Ok(_) => Ok(()),
            Err(_) => Err(NoMemory),
        }
    }

    /// How many reads have failed. The count stands still at the last value of a `u64`.
    pub fn faults(&self) -> u64
        ensures { result ≡ self.now.faults }
    {
        self.faults
    }
}

// Copies the bytes, or the first `limit + 1` of them where there are more.
fn copy_up_to(bytes: &[u8], limit: usize, into: &mut Vec<u8>) -> Result<(), ReadFault>
    requires { into.old.items ≡ [] }
    ensures read { IsRead (Some bytes.now) limit into.new.items result }
    ensures failed { IsErrOf result ReadFault.Failed → ⊥ }
{
    let is_longer = bytes.len() > limit;
    let front = if is_longer {
        &bytes[..limit + 1]
    } else {
        bytes
    };
    match into.extend_from_slice(front) {
        Err(_) => Err(ReadFault::NoMemory),
        Ok(()) if is_longer => Err(ReadFault::TooLong),
        Ok(()) => Ok(()),
    }
}

impl Shelf for MemShelf {
    ghost use Rattle.tie_io.specs.Memory.{held, read_fails, after_read};

    ghost holds = { λ s name. held s.files name };

    ghost faults = { λ s name. s.faults };

    fn read(&mut self, name: &str, limit: usize, into: &mut Vec<u8>) -> Result<(), ReadFault>
        requires empty { into.old.items ≡ [] }
        requires small { limit < 2 ^ 31 }
        ensures bytes { IsRead (held self.old.files name.now) limit into.new.items result }
        ensures same { (other : List ℕ) → held self.new.files other ≡ held self.old.files other }
        ensures later { (other : List ℕ) → self.old.faults ≤ self.new.faults }
        ensures failed { IsErrOf result ReadFault.Failed → Rose self.old.faults self.new.faults }
        ensures fails { IsErrOf result ReadFault.Failed ↔ IsTrue (read_fails self.old name.now) }
        ensures state { self.new ≡ after_read self.old result }
    {
        let is_planned = self.fail.contains(&self.calls);
        self.calls = self.calls.saturating_add(1);
        if is_planned {
            self.faults = self.faults.saturating_add(1);
            return Err(ReadFault::Failed);
        }
        let Some(file) = self.entries.get(name) else {
            self.faults = self.faults.saturating_add(1);
            return Err(ReadFault::Failed);
        };
        copy_up_to(file, limit, into)
    }
}

/// A sink in memory.
///
/// Puts are numbered from 0, and those whose number stands in the list given to `new` fail and take nothing.
#[derive(Drop)]
pub struct MemSink {
    taken: Vec<u8>,
    fail: Vec<u64>,
    calls: u64,
    faults: u64,
}

impl Model for MemSink {
    ghost use Rattle.tie_io.specs.Memory.{SinkState};

    ghost Value = { SinkState };

    ghost view = { λ s. record {
      written = s.taken.items;
      fail = s.fail.items;
      calls = s.calls;
      faults = s.faults;
    } };
}

impl MemSink {
    /// A sink that has taken nothing. It takes no memory.
    pub fn new(alloc: Global, fail: Vec<u64>) -> MemSink
        ensures { result ≡ record { written = []; fail = fail.items; calls = 0; faults = 0 } }
    {
        MemSink {
            taken: Vec::new(alloc),
            fail,
            calls: 0,
            faults: 0,
        }
    }

    /// All that was written.
    pub fn written(&self) -> &[u8]
        ensures { result.now ≡ self.now.written }
    {
        &self.taken
    }

    /// How many puts have failed. The count stands still at the last value of a `u64`.
    pub fn faults(&self) -> u64
        ensures { result ≡ self.now.faults }
    {
        self.faults
    }
}

impl Sink for MemSink {
    ghost use Rattle.tie_io.specs.Memory.{is_planned, after_put};

    ghost written = { λ s. Some s.written };

    ghost faults = { λ s. s.faults };

    fn put(&mut self, piece: &[u8]) -> Result<(), PutFault>
        requires { 0 < length piece.now }
        ensures bytes { IsPut (Some self.old.written) (Some self.new.written) piece.now result }
        ensures later { self.old.faults ≤ self.new.faults }
        ensures failed { IsErrOf result PutFault.Failed → Rose self.old.faults self.new.faults }
        ensures fails { IsErrOf result PutFault.Failed ↔ IsTrue (is_planned self.old.fail self.old.calls) }
        ensures state { self.new ≡ after_put self.old piece.now result }
    {
        let is_planned = self.fail.contains(&self.calls);
        self.calls = self.calls.saturating_add(1);
        if is_planned {
            self.faults = self.faults.saturating_add(1);
            return Err(PutFault::Failed);
        }
        if self.taken.extend_from_slice(piece).is_err() {
            return Err(PutFault::NoMemory);
        }
        Ok(())
    }
}
