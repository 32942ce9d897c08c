//! What a value becomes where an operator wants an Integer, a Boolean or a String (WAP-193,
//! "Automatic Data Type Conversion Rules").
ghost use Rattle.std.specs.Prelude.{◌≡◌, IfOk, codes, if◌then◌else◌};
ghost use Rattle.std.specs.Fmt.{signed_decimal};
ghost use Rattle.std.specs.Str.{chars};
ghost use Rattle.wap_value.specs.Numeral.{integer_of_text};
ghost use Rattle.wap_value.specs.Conversion.{integer_of, boolean_of, text_of};

use crate::Value;
use std::alloc::Global;
use wap_base::{NoMemory, Text};

/// The value as an Integer: 1 and 0 for the Booleans, and for a String the number that it spells,
/// which is an optional sign and decimal digits and nothing else.
#[inline(always)]
pub fn to_int(value: &Value) -> Option<i32>
    ensures { result ≡ integer_of value.now }
{
    match value {
        Value::Int(number) => Some(*number),
        Value::Bool(truth) => Some(i32::from(*truth)),
        Value::Str(text) => spelled_integer(text),
        Value::Invalid => None,
    }
}

// A call, so that Integers are taken where they stand.
#[inline(never)]
#[tactic(auto, using(crate::proofs::NumberLaws::spelled_is_read))]
fn spelled_integer(text: &Text) -> Option<i32>
    ensures { result ≡ integer_of_text text.now }
{
    text.as_str().parse().ok()
}

/// The value as a Boolean: 0 and the empty String are false.
pub fn to_bool(value: &Value) -> Option<bool>
    ensures { result ≡ boolean_of value.now }
{
    match value {
        Value::Int(number) => Some(*number != 0),
        Value::Bool(truth) => Some(*truth),
        Value::Str(text) => Some(!text.is_empty()),
        Value::Invalid => None,
    }
}

/// The value as a String: an Integer in decimal, and `true` or `false`.
pub fn to_str(alloc: Global, value: &Value) -> Result<Option<Text>, NoMemory>
    ensures { IfOk result (λ text. text ≡ text_of value.now) }
{
    Ok(match value {
        Value::Int(number) => Some(decimal(alloc, *number)?),
        Value::Bool(truth) => Some(Text::of(alloc, truth_name(*truth))?),
        Value::Str(text) => Some(text.copy(alloc)?),
        Value::Invalid => None,
    })
}

#[tactic(auto, using(crate::proofs::Names::decimal_is_itself))]
fn decimal(alloc: Global, number: i32) -> Result<Text, NoMemory>
    ensures { IfOk result (λ text. text ≡ signed_decimal number) }
{
    Ok(Text::from_string(number.to_string(alloc)?))
}

#[tactic(auto, using(wap_base::proofs::Plain::words))]
fn truth_name(truth: bool) -> &'static str
    ensures { chars result.now ≡ (if truth then codes "true" else codes "false") }
{
    if truth { "true" } else { "false" }
}
