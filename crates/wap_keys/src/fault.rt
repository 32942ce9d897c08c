//! Why a line is no key line.
ghost use Rattle.std.specs.Prelude.{◌≡◌};

use crate::LINE_LIMIT;
use thiserror::Error;
use wap_base::NoMemory;

/// Why a line is no key line. Where several faults apply, the one that is listed first is reported;
/// but each argument, from the left, is looked at for `Missing` and then for `BadNumber`.
#[derive(Clone, Copy, Debug, PartialEq, Eq, Error)]
pub enum KeyFault {
    #[error("the line has more than {LINE_LIMIT} bytes")]
    TooLong,
    #[error("the line isn't UTF-8")]
    NotText,
    #[error("the line doesn't begin with the word of a form")]
    UnknownWord,
    #[error("an argument is missing")]
    Missing,
    #[error("an argument isn't a number in its range or, for bytes, pairs of hexadecimal digits")]
    BadNumber,
    #[error("something follows the last argument")]
    Surplus,
    #[error("out of memory")]
    NoMemory,
}

impl From<NoMemory> for KeyFault {
    ghost use Rattle.wap_keys.specs.declared.fault.KeyFault.TheVariants as fault_variants;

    ghost from_gives = { λ _ fault. fault ≡ fault_variants.NoMemory };

    fn from(_error: NoMemory) -> KeyFault {
        KeyFault::NoMemory
    }
}
