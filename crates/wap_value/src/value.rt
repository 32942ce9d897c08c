//! The values of scripts.
ghost use Rattle.std.specs.Prelude.{◌≡◌, IfOk};

use std::alloc::Global;
use wap_base::{NoMemory, Text};

/// A value of a script. A String is a text of any length; operators refuse to make one that is too
/// long, but what comes from outside is taken as it is. There are no Floats.
#[derive(Debug, Drop, PartialEq, Eq)]
pub enum Value {
    Int(i32),
    Bool(bool),
    Str(Text),
    Invalid,
}

impl Value {
    /// A copy of the value.
    #[inline(always)]
    pub fn copy(&self, alloc: Global) -> Result<Value, NoMemory>
        ensures { IfOk result (λ copy. copy ≡ self.now) }
    {
        Ok(match self {
            Value::Int(number) => Value::Int(*number),
            Value::Bool(truth) => Value::Bool(*truth),
            Value::Str(text) => Value::Str(text.copy(alloc)?),
            Value::Invalid => Value::Invalid,
        })
    }
}
