//! Arguments as they are converted, and values as they are given.
ghost use Rattle.std.specs.Prelude.{◌≡◌, ◌<◌, length, IfOk, unwrap_or, codes};
ghost use Rattle.std.specs.Str.{chars};
ghost use Rattle.wap_value.specs.Conversion.{text_of, integer_value, text_value};
ghost use Rattle.wap_libs.specs.Arguments.{number, from_zero};
ghost use Rattle.wap_libs.specs.Lang.{shown};
ghost use Rattle.wap_libs.specs.Outcome.{kept_within};
ghost use Rattle.wap_libs.specs.Row.{argument};

use crate::LibFault;
use std::alloc::Global;
use wap_base::{NoMemory, Rows, Text};
use wap_value::{Value, to_str};

/// One of the arguments of a call, counted from 0.
pub fn argument(args: &[Value], at: usize) -> &Value
    requires { at < length args.now }
    ensures { result.now ≡ argument args.now at }
{
    &args[at]
}

/// The characters of a value that is a String, or becomes one.
pub fn characters_of(alloc: Global, value: &Value) -> Result<Option<Rows<char>>, NoMemory>
    ensures { IfOk result (λ characters. characters ≡ text_of value.now) }
{
    match to_str(alloc, value)? {
        Some(text) => Ok(Some(characters(alloc, &text)?)),
        None => Ok(None),
    }
}

/// The characters of a text.
pub fn characters(alloc: Global, text: &Text) -> Result<Rows<char>, NoMemory>
    ensures { IfOk result (λ characters. characters ≡ text.now) }
{
    Ok(Rows::from_vec(collect_characters(alloc, text.as_str())?))
}

fn collect_characters(alloc: Global, text: &str) -> Result<Vec<char>, NoMemory>
    ensures { IfOk result (λ characters. characters.items ≡ chars text.now) }
{
    Ok(text.chars().collect(alloc)?)
}

/// The text of these characters.
pub fn text(alloc: Global, characters: &[char]) -> Result<Text, NoMemory>
    ensures { IfOk result (λ text. text ≡ characters.now) }
{
    let mut text = Text::new(alloc);
    for character in characters {
        text.push(*character)?;
    }
    Ok(text)
}

/// How many characters a text has.
pub fn length(text: &Text) -> usize
    ensures { result ≡ length text.now }
{
    count(text.as_str())
}

/// How many characters there are.
#[tactic(auto, using(std::proofs::lemmas::Str::chars_from_encodes))]
pub fn count(text: &str) -> usize
    ensures { result ≡ length (chars text.now) }
{
    text.chars().count()
}

/// The value as a String, `invalid` for invalid.
#[tactic(auto, using(wap_base::proofs::Plain::words))]
pub fn show(alloc: Global, value: &Value) -> Result<Text, NoMemory>
    ensures { IfOk result (λ text. text ≡ shown value.now) }
{
    match to_str(alloc, value)? {
        Some(text) => Ok(text),
        None => Text::of(alloc, "invalid"),
    }
}

/// A count or a place as a value.
pub fn number(count: usize) -> Value
    ensures { result ≡ number count }
{
    integer_value(i32::try_from(count).ok())
}

/// An Integer, or invalid where there is none.
pub fn integer_value(number: Option<i32>) -> Value
    ensures { result ≡ integer_value number }
{
    number.map_or(Value::Invalid, Value::Int)
}

/// A String, or invalid where there is none.
pub fn text_value(text: Option<Text>) -> Value
    ensures { result ≡ text_value text }
{
    text.map_or(Value::Invalid, Value::Str)
}

/// An Integer as a count or a place.
pub fn from_zero(number: i32) -> usize
    ensures { result ≡ from_zero number }
{
    if number < 0 { 0 } else { number as usize }
}

/// The value, unless it is a String past the limit.
pub fn keep_within(value: Value, limit: u32) -> Result<Value, LibFault>
    ensures { result ≡ kept_within limit value }
{
    match value {
        Value::Int(number) => Ok(Value::Int(number)),
        Value::Bool(truth) => Ok(Value::Bool(truth)),
        Value::Str(text) => keep_text(text, limit),
        Value::Invalid => Ok(Value::Invalid),
    }
}

fn keep_text(text: Text, limit: u32) -> Result<Value, LibFault>
    ensures { result ≡ kept_within limit (Value.Str text) }
{
    let bytes = text.len();
    if bytes > limit as usize {
        return Err(LibFault::TooLong { bytes });
    }
    Ok(Value::Str(text))
}
