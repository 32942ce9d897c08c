//! Why a source has no tokens.
use wap_base::NoMemory;

/// The first fault from the left, at the place of its first byte; `NotText` comes before the
/// others.
#[derive(Clone, Copy, Debug, PartialEq, Eq)]
pub enum LexFault {
    /// The source isn't UTF-8.
    NotText,
    /// A character with which no token, white space or comment begins.
    BadChar { at: usize },
    /// The quote of a string that a line's end or the end of the source ends.
    OpenString { at: usize },
    /// The `/` of a comment that the end of the source ends.
    OpenComment { at: usize },
    /// A backslash in a string that begins no escape.
    BadEscape { at: usize },
    /// An integer past 2147483647.
    IntRange { at: usize },
    NoMemory,
}

impl From<NoMemory> for LexFault {
    ghost use Rattle.std.specs.Prelude.{◌≡◌};
    ghost use Rattle.wap_lex.specs.declared.fault.LexFault.TheVariants.{NoMemory};

    ghost from_gives = { λ _ fault. fault ≡ NoMemory };

    fn from(_error: NoMemory) -> LexFault {
        LexFault::NoMemory
    }
}
