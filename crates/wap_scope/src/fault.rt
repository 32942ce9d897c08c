//! Why the names of a program aren't in order.
use wap_base::NoMemory;
use wap_grammar::program::Span;

/// A fault of a program's names, with the place of the name at which it is seen.
#[derive(Clone, Copy, Debug, PartialEq, Eq)]
pub enum ScopeFault {
    /// A variable isn't declared before it is used, in the same function.
    NoVariable { span: Span },
    /// A variable or a parameter is declared again in its function.
    TwoVariables { span: Span },
    /// The program has no such function.
    NoFunction { span: Span },
    /// An earlier function has this name.
    TwoFunctions { span: Span },
    /// The function is called with a number of arguments that it doesn't take, or one of another
    /// unit with more than `ARGUMENT_LIMIT`.
    Arguments { span: Span },
    /// No pragma names this unit.
    NoUnit { span: Span },
    /// An earlier pragma has this name.
    TwoUnits { span: Span },
    /// There is no such library, or no such function in it. The place is the library's.
    NoLibrary { span: Span },
    /// A `break` or `continue` stands in no loop.
    LoneBreak { span: Span },
    /// An earlier pragma says who may call the unit. The place is the whole pragma's.
    TwoAccess { span: Span },
    /// The function has `VARIABLE_LIMIT` variables before this one.
    TooManyLocals { span: Span },
    /// The program has `FUNCTION_LIMIT` functions before this one.
    TooManyFunctions { span: Span },
    NoMemory,
}

impl From<NoMemory> for ScopeFault {
    ghost use Rattle.std.specs.Prelude.{◌≡◌};
    ghost use Rattle.wap_scope.specs.declared.fault.ScopeFault.TheVariants.{NoMemory};

    ghost from_gives = { λ _ fault. fault ≡ NoMemory };

    fn from(_error: NoMemory) -> ScopeFault {
        ScopeFault::NoMemory
    }
}
