ghost use Rattle.std.specs.Prelude.{◌≡◌, ◌≤◌, ◌<◌, List, ℕ, Option, length, IsErrOf};
ghost use Rattle.tie_io.specs.Counts.{Rose};
ghost use Rattle.tie_io.specs.Writing.{IsPut};

/// Why a piece was not written whole.
#[derive(Clone, Copy, Debug, PartialEq, Eq)]
pub enum PutFault {
    /// The sink failed, and may have taken a first part of the piece.
    Failed,
    /// There was no memory, and nothing was taken.
    NoMemory,
}

/// Where text goes.
pub trait Sink {
    /// All that was written, where the sink tells it.
    ghost written: { Self → Option (List ℕ) };

    /// How often writing has failed.
    ghost faults: { Self → ℕ };

    /// Writes one piece, behind all that was written before.
    fn put(&mut self, piece: &[u8]) -> Result<(), PutFault>
        requires { 0 < length piece.now }
        ensures bytes { IsPut (written self.old) (written self.new) piece.now result }
        ensures later { faults self.old ≤ faults self.new }
        ensures failed { IsErrOf result PutFault.Failed → Rose (faults self.old) (faults self.new) };
}
