//! Why a bundle has no bytes.

/// The first of these that holds, at its first slot; 0 outside formats.
#[derive(Clone, Copy, Debug, PartialEq, Eq)]
pub enum BundleFault {
    /// A field is out of its range, or isn't 0 where the code has none; or a core instruction doesn't fit.
    Field { slot: u8 },
    /// The slot doesn't list the code.
    NotListed { slot: u8 },
    /// The count of parts isn't that of the format's slots.
    SlotCount,
    /// The slot writes a register that the bundle has written before.
    SameDest { slot: u8 },
}
