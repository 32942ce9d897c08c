//! Why the program stops.
use std::alloc::AllocError;
use std::io;
use wap_base::NoMemory;
use wap_session::SessionFault;

/// Why nothing more is shown.
pub enum Stopped {
    /// Names that stand twice, or a page that is missing or too long.
    NoSite,
    /// A page couldn't be fetched, or memory ran out.
    Session,
    /// The lines couldn't be written.
    Output,
}

impl From<NoMemory> for Stopped {
    fn from(_fault: NoMemory) -> Stopped {
        Stopped::Session
    }
}

impl From<SessionFault> for Stopped {
    fn from(_fault: SessionFault) -> Stopped {
        Stopped::Session
    }
}

impl From<io::Error> for Stopped {
    fn from(_error: io::Error) -> Stopped {
        Stopped::Output
    }
}

impl From<AllocError> for Stopped {
    fn from(_error: AllocError) -> Stopped {
        Stopped::Session
    }
}
