//! Why a call of a function came to nothing.
ghost use Rattle.std.specs.Prelude.{◌≡◌};
ghost use Rattle.wap_libs.specs.declared.fault.LibFault.TheVariants.{NoMemory as OutOfMemory};

use std::alloc::{AllocError, AllocFailed};
use wap_base::NoMemory;

/// Why a call of a function came to nothing.
#[derive(Clone, Copy, Debug, PartialEq, Eq)]
pub enum LibFault {
    /// The result would be a String of `bytes` bytes in UTF-8, which are more than the limit. A
    /// number past 2^64 - 1 is given as 2^64 - 1.
    TooLong { bytes: usize },
    NoMemory,
}

impl From<NoMemory> for LibFault {
    ghost from_gives = { λ _ fault. fault ≡ OutOfMemory };

    fn from(_error: NoMemory) -> LibFault {
        LibFault::NoMemory
    }
}

impl From<AllocError> for LibFault {
    ghost from_gives = { λ _ fault. fault ≡ OutOfMemory };

    fn from(_error: AllocError) -> LibFault {
        LibFault::NoMemory
    }
}

impl<T: Drop> From<AllocFailed<T>> for LibFault {
    ghost from_gives = { λ _ fault. fault ≡ OutOfMemory };

    fn from(_error: AllocFailed<T>) -> LibFault {
        LibFault::NoMemory
    }
}
