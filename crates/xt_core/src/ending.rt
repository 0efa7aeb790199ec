/// Why a processor can't take the bundle at its pc.
#[derive(Clone, Copy, Debug, PartialEq, Eq)]
pub enum Trap {
    /// No bundle begins at the pc within the text.
    Illegal,
    /// A 16-bit access at an odd address, or a 32-bit access at one that isn't a multiple of four.
    Unaligned,
    /// An access with a byte at or above the memory's size.
    BadAddress,
    /// A store with a byte below the text's end.
    StoreText,
}

/// Whether a processor goes on, and if not, why.
#[derive(Clone, Copy, Debug, PartialEq, Eq)]
pub enum Ending {
    /// It goes on.
    Running,
    /// It has retired a SIMCALL.
    Halted,
    /// It has met a bundle that traps.
    Trapped(Trap),
}
