//! Why a session gives no lines.
use thiserror::Error;
use wap_base::{NoMemory, RunErr};

/// Why a key gave no lines. After each of these a session is over.
#[derive(Clone, Copy, Debug, PartialEq, Eq, Error)]
pub enum SessionFault {
    /// The store failed at a page.
    #[error("store fault")]
    Store,
    /// The session was over before.
    #[error("session over")]
    Ended,
    #[error("no memory")]
    NoMemory,
}

impl From<RunErr> for SessionFault {
    ghost use Rattle.std.specs.Prelude.{◌≡◌};
    ghost use Rattle.wap_session.specs.inside.Turns.{fault_of};

    ghost from_gives = { λ cause fault. fault ≡ fault_of cause };

    fn from(fault: RunErr) -> SessionFault {
        match fault {
            RunErr::Store => SessionFault::Store,
            RunErr::NoMemory => SessionFault::NoMemory,
        }
    }
}

impl From<NoMemory> for SessionFault {
    ghost use Rattle.std.specs.Prelude.{◌≡◌};
    ghost use Rattle.wap_session.specs.declared.fault.SessionFault.TheVariants as session;

    ghost from_gives = { λ _ fault. fault ≡ session.NoMemory };

    fn from(_error: NoMemory) -> SessionFault {
        SessionFault::NoMemory
    }
}
