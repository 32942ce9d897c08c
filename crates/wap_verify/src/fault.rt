//! Why a unit may not be run.
ghost use Rattle.std.specs.Prelude.{◌≡◌};
ghost use Rattle.wap_verify.specs.declared.fault.VerifyFault.TheVariants.{NoMemory};

/// Why a unit may not be run: in which function, and at which byte of its code.
#[derive(Clone, Copy, Debug, PartialEq, Eq)]
pub enum VerifyFault {
    /// The index of a pragma that names no string.
    Pragma {
        index: u32,
    },
    /// The byte is no code of an instruction.
    Opcode {
        function: u8,
        at: usize,
    },
    /// The operands end past the code.
    Operand {
        function: u8,
        at: usize,
    },
    /// There is no such variable.
    Variable {
        function: u8,
        at: usize,
    },
    /// There is no such constant, or it is no string where one has to be.
    Constant {
        function: u8,
        at: usize,
    },
    /// There is no such function.
    Function {
        function: u8,
        at: usize,
    },
    /// There is no such function of a library.
    Library {
        function: u8,
        at: usize,
    },
    /// A short-circuit with no conditional jump forward after it.
    LoneShort {
        function: u8,
        at: usize,
    },
    /// A jump to where no instruction begins.
    Target {
        function: u8,
        at: usize,
    },
    /// Fewer values than the instruction takes.
    Underflow {
        function: u8,
        at: usize,
    },
    /// Two numbers of values at one place.
    Depths {
        function: u8,
        at: usize,
        found: u32,
        other: u32,
    },
    NoMemory,
}

impl From<wap_base::NoMemory> for VerifyFault {
    ghost from_gives = { λ _ fault. fault ≡ NoMemory };

    fn from(_error: wap_base::NoMemory) -> VerifyFault {
        VerifyFault::NoMemory
    }
}

impl From<std::alloc::AllocError> for VerifyFault {
    ghost from_gives = { λ _ fault. fault ≡ NoMemory };

    fn from(_error: std::alloc::AllocError) -> VerifyFault {
        VerifyFault::NoMemory
    }
}

impl<T: Drop> From<std::alloc::AllocFailed<T>> for VerifyFault {
    ghost from_gives = { λ _ fault. fault ≡ NoMemory };

    fn from(_error: std::alloc::AllocFailed<T>) -> VerifyFault {
        VerifyFault::NoMemory
    }
}
