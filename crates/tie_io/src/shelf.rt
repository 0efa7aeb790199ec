ghost use Rattle.std.specs.Prelude.{◌≡◌, ◌≤◌, ◌<◌, ◌^◌, List, [], ℕ, Option, IsErrOf};
ghost use Rattle.tie_io.specs.Counts.{Rose};
ghost use Rattle.tie_io.specs.Reading.{IsRead};

/// Why a file was not read whole.
#[derive(Clone, Copy, Debug, PartialEq, Eq)]
pub enum ReadFault {
    /// The shelf failed.
    Failed,
    /// The file has more bytes than the limit.
    TooLong,
    /// There was no memory for the bytes.
    NoMemory,
}

/// Files by their names.
pub trait Shelf {
    /// The bytes of a name, where the shelf tells them.
    ghost holds: { Self → List ℕ → Option (List ℕ) };

    /// How often reading a name has failed. A shelf may have one count for all names.
    ghost faults: { Self → List ℕ → ℕ };

    /// Reads the file of this name into an empty buffer.
    ///
    /// After `Ok` the buffer has the whole file, after `TooLong` its first `limit + 1` bytes, and else nothing.
    fn read(&mut self, name: &str, limit: usize, into: &mut Vec<u8>) -> Result<(), ReadFault>
        requires empty { into.old.items ≡ [] }
        requires small { limit < 2 ^ 31 }
        ensures bytes { IsRead (holds self.old name.now) limit into.new.items result }
        ensures same { (other : List ℕ) → holds self.new other ≡ holds self.old other }
        ensures later { (other : List ℕ) → faults self.old other ≤ faults self.new other }
        ensures failed { IsErrOf result ReadFault.Failed → Rose (faults self.old name.now) (faults self.new name.now) };
}
