//! Why a line can't be played.
use std::alloc::{AllocError, AllocFailed};
use wap_base::NoMemory;

/// Why a line can't be played.
#[derive(Clone, Copy)]
pub enum CaseFault {
    /// It is none of the lines that are known.
    Line,
    /// It may stand once, and stands again.
    Again,
    /// Bytes, a text or a number in it are misspelled.
    Spelling,
    /// An argument is missing, isn't what the call takes, or is one more.
    Argument,
    NoMemory,
}

impl CaseFault {
    /// What to tell of it.
    pub fn message(self) -> &'static str {
        match self {
            CaseFault::Line => "no line or call is like this",
            CaseFault::Again => "such a line may stand once",
            CaseFault::Spelling => "bytes, a text or a number are misspelled",
            CaseFault::Argument => "an argument is missing, one more, or not what the call takes",
            CaseFault::NoMemory => "out of memory",
        }
    }
}

impl From<NoMemory> for CaseFault {
    fn from(_error: NoMemory) -> CaseFault {
        CaseFault::NoMemory
    }
}

impl From<AllocError> for CaseFault {
    fn from(_error: AllocError) -> CaseFault {
        CaseFault::NoMemory
    }
}

impl<T: Drop> From<AllocFailed<T>> for CaseFault {
    fn from(_error: AllocFailed<T>) -> CaseFault {
        CaseFault::NoMemory
    }
}
