ghost use Rattle.std.specs.Prelude.{◌≡◌};
ghost use Rattle.tie_files.specs.declared.refusal.Refusal.TheVariants.{NoMemory};

use asm_lines::AsmRule;
use hex_text::HexRule;
use net_toml::{NetRule, Text};
use std::alloc::{AllocError, AllocFailed};
use tie_front::TieRule;

/// Why there is no report. A name is that of a file, as it was given.
#[derive(Drop)]
pub enum Refusal {
    Usage {
        word: u32,
    },
    ReadFault {
        name: Text,
    },
    TooLong {
        name: Text,
    },
    TieRefused {
        name: Text,
        rule: TieRule,
        place: u32,
    },
    AsmRefused {
        name: Text,
        rule: AsmRule,
        line: u32,
        column: u32,
    },
    HexRefused {
        name: Text,
        rule: HexRule,
        place: u32,
    },
    /// A network file, or a file that it names, breaks a rule of networks at a key of the network file.
    NetRefused {
        name: Text,
        rule: NetRule,
        key: Text,
    },
    NoMemory,
}

impl From<AllocError> for Refusal {
    ghost from_gives = { λ _ refusal. refusal ≡ NoMemory };

    fn from(_: AllocError) -> Self {
        Refusal::NoMemory
    }
}

impl<T: Drop> From<AllocFailed<T>> for Refusal {
    ghost from_gives = { λ _ refusal. refusal ≡ NoMemory };

    fn from(_: AllocFailed<T>) -> Self {
        Refusal::NoMemory
    }
}
