//! Why an operation gave no value.
ghost use Rattle.std.specs.Prelude.{◌≡◌};
ghost use Rattle.wap_value.specs.declared.fault.ValueFault.TheVariants.{NoMemory as OutOfMemory};

use wap_base::NoMemory;

/// Why an operation gave no value.
#[derive(Clone, Copy, Debug, PartialEq, Eq)]
pub enum ValueFault {
    /// The result would be a String of `bytes` bytes in UTF-8, which are more than it may have.
    TooLong { bytes: usize },
    NoMemory,
}

impl From<NoMemory> for ValueFault {
    ghost from_gives = { λ _ fault. fault ≡ OutOfMemory };

    fn from(_error: NoMemory) -> ValueFault {
        ValueFault::NoMemory
    }
}
