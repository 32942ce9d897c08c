//! Why no program is answered for tokens.
use wap_base::NoMemory;

/// Why no program is answered, with a place in the source.
#[derive(Clone, Copy, Debug, PartialEq, Eq)]
pub enum ParseFault {
    /// No program spells the tokens. The place is where reading stopped: where a token begins, or
    /// the source ends. That it is the first at which no program can go on isn't promised.
    Syntax { at: usize },
    /// Where a program spells the tokens, the first byte of its first part deeper than
    /// `LEVEL_LIMIT`; else a place after that many tokens or more.
    Nested { at: usize },
    /// Memory ran out before the answer.
    NoMemory,
}

impl From<NoMemory> for ParseFault {
    ghost use Rattle.std.specs.Prelude.{◌≡◌};
    ghost use Rattle.wap_grammar.specs.declared.fault.ParseFault.TheVariants.{NoMemory};

    ghost from_gives = { λ _ fault. fault ≡ NoMemory };

    fn from(_error: NoMemory) -> ParseFault {
        ParseFault::NoMemory
    }
}
