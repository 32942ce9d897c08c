//! What code is made of before it has places.
ghost use Rattle.std.specs.Prelude.{◌≡◌};
ghost use Rattle.wap_asm.specs.declared.form.PlaceFault.TheVariants.{NoMemory};

use wap_unit::{Instr, OpName};

/// A piece of code: an instruction, a jump, or a place that jumps lead to. It names an operation,
/// by any of its spellings.
#[derive(Clone, Copy)]
pub enum Form {
    /// An instruction that is no jump. Where it ends isn't looked at.
    Op(Instr),
    /// A jump to the label of this number.
    Jump(OpName, u32),
    /// The place of the label of this number.
    Label(u32),
}

/// Why forms aren't placed.
#[derive(Clone, Copy, Debug, PartialEq, Eq)]
pub enum PlaceFault {
    /// In their longest spellings they have more than 65,535 bytes: so many.
    TooFar { bytes: u64 },
    NoMemory,
}

impl From<wap_base::NoMemory> for PlaceFault {
    ghost from_gives = { λ _ fault. fault ≡ NoMemory };

    fn from(_error: wap_base::NoMemory) -> PlaceFault {
        PlaceFault::NoMemory
    }
}

impl From<std::alloc::AllocError> for PlaceFault {
    ghost from_gives = { λ _ fault. fault ≡ NoMemory };

    fn from(_error: std::alloc::AllocError) -> PlaceFault {
        PlaceFault::NoMemory
    }
}

impl<T: Drop> From<std::alloc::AllocFailed<T>> for PlaceFault {
    ghost from_gives = { λ _ fault. fault ≡ NoMemory };

    fn from(_error: std::alloc::AllocFailed<T>) -> PlaceFault {
        PlaceFault::NoMemory
    }
}
