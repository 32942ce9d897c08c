//! Why a source isn't compiled.
ghost use Rattle.std.specs.Prelude.{◌≡◌};
ghost use Rattle.wap_codegen.specs.Turned.{lex_fault, parse_fault, scope_fault};
ghost use Rattle.wap_codegen.specs.declared.fault.CompileFault.TheVariants.{NoMemory};

use wap_grammar::ParseFault;
use wap_lex::LexFault;
use wap_scope::ScopeFault;

/// Why a source isn't compiled. No fault in it says that memory ran out.
#[derive(Clone, Copy, Debug, PartialEq, Eq)]
pub enum CompileFault {
    /// It has no tokens.
    Lex(LexFault),
    /// Its tokens spell no program, or one that is too deep.
    Parse(ParseFault),
    /// The names of its program aren't in order.
    Scope(ScopeFault),
    /// Its unit would have more than 65,536 constants: so many.
    TooManyConstants { count: u64 },
    /// In the longest spellings the code of this function has more than 65,535 bytes: so many.
    CodeTooLong { function: u8, wide: u64 },
    NoMemory,
}

impl From<wap_base::NoMemory> for CompileFault {
    ghost from_gives = { λ _ fault. fault ≡ NoMemory };

    fn from(_error: wap_base::NoMemory) -> CompileFault {
        CompileFault::NoMemory
    }
}

impl From<LexFault> for CompileFault {
    ghost from_gives = { λ fault turned. turned ≡ lex_fault fault };

    fn from(fault: LexFault) -> CompileFault {
        if fault == LexFault::NoMemory {
            return CompileFault::NoMemory;
        }
        CompileFault::Lex(fault)
    }
}

impl From<ParseFault> for CompileFault {
    ghost from_gives = { λ fault turned. turned ≡ parse_fault fault };

    fn from(fault: ParseFault) -> CompileFault {
        if fault == ParseFault::NoMemory {
            return CompileFault::NoMemory;
        }
        CompileFault::Parse(fault)
    }
}

impl From<ScopeFault> for CompileFault {
    ghost from_gives = { λ fault turned. turned ≡ scope_fault fault };

    fn from(fault: ScopeFault) -> CompileFault {
        if fault == ScopeFault::NoMemory {
            return CompileFault::NoMemory;
        }
        CompileFault::Scope(fault)
    }
}
