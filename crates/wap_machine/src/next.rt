//! What is to be done after an instruction.
ghost use Rattle.std.specs.Prelude.{◌≡◌};
ghost use Rattle.wap_machine.specs.inside.InstructionParts.{next_of};

use wap_base::Text;
use wap_execution::Fatal;
use wap_value::Value;

/// What is called.
#[derive(Drop)]
pub enum Callee {
    /// A function of the unit.
    Local(u8),
    /// A function of a library, by the library's number and its own.
    Library(u16, u8),
    /// A function of another unit, by its URL and name.
    External(Text, Text),
}

/// What is to be done after an instruction. The frame stands where it goes on.
#[derive(Drop)]
pub enum Next {
    /// The frame goes on.
    Onward,
    /// The frame goes on, after a jump back.
    Back,
    /// The frame goes on when the call with these arguments has given a value.
    Call(Callee, Vec<Value>),
    /// The function ends with a value.
    Return(Value),
    /// The script ends.
    End(Fatal),
}

/// What is to be done after an instruction that neither calls nor returns. The frame stands where
/// it goes on.
#[derive(Clone, Copy)]
pub enum Course {
    /// The frame goes on.
    Onward,
    /// The frame goes on, after a jump back.
    Back,
    /// The script ends, since a String would be too long.
    TooLong,
}

impl Course {
    /// What is to be done by it.
    pub(crate) fn next(self) -> Next
        ensures { result ≡ next_of self }
    {
        match self {
            Course::Onward => Next::Onward,
            Course::Back => Next::Back,
            Course::TooLong => Next::End(Fatal::TooLong),
        }
    }
}
