//! The faults that calls of several crates share.
ghost use Rattle.std.specs.Prelude.{⊤};

use std::alloc::{AllocError, AllocFailed};

/// Out of memory, the one fault that no clause ties to a cause.
#[derive(Clone, Copy, Debug, PartialEq, Eq)]
pub struct NoMemory;

impl From<AllocError> for NoMemory {
    fn from(_error: AllocError) -> NoMemory {
        NoMemory
    }
}

impl<T: Drop> From<AllocFailed<T>> for NoMemory {
    fn from(_error: AllocFailed<T>) -> NoMemory {
        NoMemory
    }
}

/// Why a call that asks for pages gave up.
#[derive(Clone, Copy, Debug, PartialEq, Eq)]
pub enum RunErr {
    /// The store failed.
    Store,
    /// Memory ran out.
    NoMemory,
}

impl From<NoMemory> for RunErr {
    ghost use Rattle.std.specs.Prelude.{◌≡◌};
    ghost use Rattle.wap_base.specs.declared.fault.RunErr.TheVariants.{NoMemory};

    ghost from_gives = { λ _ fault. fault ≡ NoMemory };

    fn from(_error: NoMemory) -> RunErr {
        RunErr::NoMemory
    }
}
