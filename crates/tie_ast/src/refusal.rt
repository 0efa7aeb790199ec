//! Why a rule could not be read.

ghost use Rattle.std.specs.Prelude.{◌≡◌};
ghost use Rattle.tie_ast.specs.declared.refusal.Refusal.TheVariants.{NoMemory};

use std::alloc::{AllocError, AllocFailed};

#[derive(Debug, Drop)]
pub enum Refusal {
    NoMemory,
    /// With how many symbols are left at the fault.
    Fault(usize),
}

impl From<AllocError> for Refusal {
    ghost from_gives = { λ _ e. e ≡ NoMemory };

    fn from(_error: AllocError) -> Refusal {
        Refusal::NoMemory
    }
}

impl<T: Drop> From<AllocFailed<T>> for Refusal {
    ghost from_gives = { λ _ e. e ≡ NoMemory };

    fn from(_error: AllocFailed<T>) -> Refusal {
        Refusal::NoMemory
    }
}
