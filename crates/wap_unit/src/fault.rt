//! Why bytes are no unit.
ghost use Rattle.std.specs.Prelude.{◌≡◌};
ghost use Rattle.wap_unit.specs.declared.fault.UnitFault.TheVariants.{NoMemory};

/// Why bytes are no unit: the first fault from the left. Its place is the first byte of what is
/// refused.
#[derive(Clone, Copy, Debug, PartialEq, Eq)]
pub enum UnitFault {
    /// The version byte is none of 00 to 0F.
    Version { at: usize },
    /// The input ends inside an item; the place is the input's length.
    Short { at: usize },
    /// A number of several bytes is past 2^32 - 1.
    Number { at: usize },
    /// The size isn't the number of the bytes after it, or bytes stand after the last function.
    Size { at: usize },
    /// A constant of no known kind.
    ConstantKind { at: usize },
    /// A pragma of no known kind.
    PragmaKind { at: usize },
    /// A string or a name that is no text.
    Text { at: usize },
    /// A string in a character set that isn't read.
    Charset { at: usize },
    /// There is no function.
    NoFunction { at: usize },
    /// A name of a function that isn't there.
    NameIndex { at: usize },
    NoMemory,
}

impl From<wap_base::NoMemory> for UnitFault {
    ghost from_gives = { λ _ fault. fault ≡ NoMemory };

    fn from(_error: wap_base::NoMemory) -> UnitFault {
        UnitFault::NoMemory
    }
}
