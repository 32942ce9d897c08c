//! The operator `+` on Strings.
ghost use Rattle.std.specs.Prelude.{◌≡◌, ◌++◌, IfOk};
ghost use Rattle.wap_value.specs.declared.value.Value.TheVariants.{Str};
ghost use Rattle.wap_base.specs.Outcome.{Meets};
ghost use Rattle.wap_value.specs.TooLong.{kept_within};

use crate::{Value, ValueFault};
use std::alloc::Global;
use wap_base::{NoMemory, Text};

/// The two texts, one after the other. A String has at most `string` bytes.
pub(crate) fn concatenation(
    alloc: Global,
    left: &Text,
    right: &Text,
    string: u32,
) -> Result<Value, ValueFault>
    ensures { Meets ValueFault.NoMemory (λ value. value) result
        (kept_within string (Str (left.now ++ right.now))) }
{
    let bytes = left.as_str().len() + right.as_str().len();
    let limit = string as usize;
    if bytes > limit {
        return Err(ValueFault::TooLong { bytes });
    }
    Ok(Value::Str(concatenate(alloc, left, right, bytes)?))
}

/// The two texts, one after the other, in room of so many bytes.
fn concatenate(alloc: Global, left: &Text, right: &Text, bytes: usize) -> Result<Text, NoMemory>
    ensures { IfOk result (λ text. text ≡ left.now ++ right.now) }
{
    let mut text = Text::from_string(String::with_capacity(alloc, bytes)?);
    text.add(left.as_str())?;
    text.add(right.as_str())?;
    Ok(text)
}
