//! Why a variable isn't set.
ghost use Rattle.std.specs.Prelude.{◌≡◌};

use crate::{TEXT_LIMIT, VAR_LIMIT};
use std::alloc::AllocFailed;
use thiserror::Error;
use wap_base::{NameFault, NoMemory};

/// Why a variable isn't set. Where several faults apply, the one that is listed first is reported.
#[derive(Clone, Copy, Debug, PartialEq, Eq, Error)]
pub enum VarFault {
    #[error("a variable's name is a letter or `_`, and then letters, digits and `_`")]
    BadName,
    /// The text has `bytes` bytes in UTF-8, which are more than 65,535.
    #[error("the text has {bytes} bytes, more than {TEXT_LIMIT}")]
    TooLong { bytes: usize },
    /// 1,024 variables are kept, and this would be another.
    #[error("{VAR_LIMIT} variables are kept")]
    Full,
    #[error("out of memory")]
    NoMemory,
}

impl From<NameFault> for VarFault {
    ghost use Rattle.wap_vars.specs.Setting.{fault_of_name};

    ghost from_gives = { λ fault_of fault. fault ≡ fault_of_name fault_of };

    fn from(fault: NameFault) -> VarFault {
        match fault {
            NameFault::BadName => VarFault::BadName,
            NameFault::NoMemory => VarFault::NoMemory,
        }
    }
}

impl From<NoMemory> for VarFault {
    ghost use Rattle.wap_vars.specs.declared.fault.VarFault.TheVariants as fault_variants;

    ghost from_gives = { λ _ fault. fault ≡ fault_variants.NoMemory };

    fn from(_error: NoMemory) -> VarFault {
        VarFault::NoMemory
    }
}

impl<T: Drop> From<AllocFailed<T>> for VarFault {
    ghost use Rattle.wap_vars.specs.declared.fault.VarFault.TheVariants as fault_variants;

    ghost from_gives = { λ _ fault. fault ≡ fault_variants.NoMemory };

    fn from(_error: AllocFailed<T>) -> VarFault {
        VarFault::NoMemory
    }
}
