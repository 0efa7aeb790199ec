//! Why a network is refused.

ghost use Rattle.std.specs.Prelude.{◌≡◌};
ghost use Rattle.net_toml.specs.declared.refusal.NetRefusal.TheVariants.{NoMemory};

use crate::text::Text;
use std::alloc::{AllocError, AllocFailed};

/// A rule of networks.
#[derive(Clone, Copy, Debug, PartialEq, Eq)]
pub enum NetRule {
    /// The file is no text in TOML.
    Toml,
    /// A key is missing, unknown or of a wrong type.
    Key,
    /// The version isn't 1.
    Version,
    /// A number is out of its limit.
    Range,
    /// There are too many processors, workers or queues.
    TooMany,
    /// A name is no word, or an earlier one of its kind has it.
    Name,
    /// A file isn't hexadecimal text.
    Hex,
    /// An image is longer than memory, or than 65,536 bytes.
    Image,
    /// There is no such end, or it is of the wrong direction, or a queue doesn't join two workers as queues do.
    End,
    /// An earlier queue has the end.
    Twice,
    /// The two ends are of different widths.
    Width,
    /// A worker has an end that no queue has.
    Unwired,
    /// A source's bytes aren't items of its queue.
    Item,
    /// There is no such processor.
    Core,
}

/// Why a network is refused: the first rule that it breaks, with the key.
#[derive(Drop)]
pub enum NetRefusal {
    Fault { rule: NetRule, key: Text },
    NoMemory,
}

impl From<AllocError> for NetRefusal {
    ghost from_gives = { λ _ refusal. refusal ≡ NoMemory };

    fn from(_: AllocError) -> NetRefusal {
        NetRefusal::NoMemory
    }
}

impl<T: Drop> From<AllocFailed<T>> for NetRefusal {
    ghost from_gives = { λ _ refusal. refusal ≡ NoMemory };

    fn from(_: AllocFailed<T>) -> NetRefusal {
        NetRefusal::NoMemory
    }
}
