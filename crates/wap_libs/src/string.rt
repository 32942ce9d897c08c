//! The library String.
ghost use Rattle.std.specs.Prelude.{◌≡◌, ◌<◌, length, IfOk, IfSome};
ghost use Rattle.std.specs.Str.{chars};
ghost use Rattle.wap_base.specs.Outcome.{Meets};
ghost use Rattle.wap_libs.specs.Outcome.{kept_within};
ghost use Rattle.wap_libs.specs.Row.{value_given, values_taken};
ghost use Rattle.wap_libs.specs.String.{formula_of_string, some_text_of, separator_of};
ghost use Rattle.wap_libs.specs.String.{string_length, string_is_empty, string_char_at};
ghost use Rattle.wap_libs.specs.String.{string_sub_string, string_find, string_replace};
ghost use Rattle.wap_libs.specs.String.{string_elements, string_element_at, string_remove_at};
ghost use Rattle.wap_libs.specs.String.{string_replace_at, string_insert_at, string_squeeze};
ghost use Rattle.wap_libs.specs.String.{string_trim, string_compare, string_to_string};
ghost use Rattle.wap_libs.specs.String.{string_format, character_at, place_value, order_value};

use crate::texts::argument::{
    argument, characters_of, from_zero, keep_within, length, number, show, text_value,
};
use crate::texts::characters::{squeeze, trim};
use crate::texts::elements::{
    count_elements, element_at, with_element, with_element_before, without_element,
};
use crate::texts::format::format_value;
use crate::texts::occurrences::{place_of, replace};
use crate::texts::walks::part;
use crate::{LibFault, StringFunction};
use std::alloc::Global;
use std::cmp::Ordering;
use wap_base::{NoMemory, Text};
use wap_value::{Value, to_int, to_str};

/// Calls a function of String.
pub(crate) fn call_string(
    alloc: Global,
    function: StringFunction,
    args: &[Value],
    limit: u32,
) -> Result<Value, LibFault>
    requires { length args.now ≡ values_taken (formula_of_string function) }
    ensures { Meets LibFault.NoMemory (λ value. value) result
        (kept_within limit (value_given (formula_of_string function) args.now)) }
{
    let first = argument(args, 0);
    let value = match function {
        StringFunction::Length => string_length(alloc, first),
        StringFunction::IsEmpty => string_is_empty(alloc, first),
        StringFunction::CharAt => string_char_at(alloc, first, argument(args, 1)),
        StringFunction::Find => string_find(alloc, first, argument(args, 1)),
        StringFunction::Replace => {
            return string_replace(alloc, first, argument(args, 1), argument(args, 2), limit);
        }
        StringFunction::Squeeze => string_squeeze(alloc, first),
        StringFunction::Trim => string_trim(alloc, first),
        StringFunction::Compare => string_compare(alloc, first, argument(args, 1)),
        StringFunction::ToString => string_to_string(alloc, first),
        StringFunction::Format => string_format(alloc, first, argument(args, 1)),
        StringFunction::SubString => {
            string_sub_string(alloc, first, argument(args, 1), argument(args, 2))
        }
        StringFunction::Elements => string_elements(alloc, first, argument(args, 1)),
        StringFunction::ElementAt => {
            string_element_at(alloc, first, argument(args, 1), argument(args, 2))
        }
        StringFunction::RemoveAt => {
            string_remove_at(alloc, first, argument(args, 1), argument(args, 2))
        }
        StringFunction::ReplaceAt => {
            let (new, place) = (argument(args, 1), argument(args, 2));
            string_replace_at(alloc, first, new, place, argument(args, 3))
        }
        StringFunction::InsertAt => {
            let (new, place) = (argument(args, 1), argument(args, 2));
            string_insert_at(alloc, first, new, place, argument(args, 3))
        }
    };
    keep_within(value?, limit)
}

fn string_length(alloc: Global, value: &Value) -> Result<Value, NoMemory>
    ensures { IfOk result (λ answer. answer ≡ string_length value.now) }
{
    if let Value::Str(text) = value {
        return Ok(number(length(text)));
    }
    match to_str(alloc, value)? {
        Some(text) => Ok(number(length(&text))),
        None => Ok(Value::Invalid),
    }
}

fn string_is_empty(alloc: Global, value: &Value) -> Result<Value, NoMemory>
    ensures { IfOk result (λ answer. answer ≡ string_is_empty value.now) }
{
    if let Value::Str(text) = value {
        return Ok(Value::Bool(text.is_empty()));
    }
    match to_str(alloc, value)? {
        Some(text) => Ok(Value::Bool(text.is_empty())),
        None => Ok(Value::Invalid),
    }
}

fn string_char_at(alloc: Global, value: &Value, place: &Value) -> Result<Value, NoMemory>
    ensures { IfOk result (λ answer. answer ≡ string_char_at value.now place.now) }
{
    let Some(text) = to_str(alloc, value)? else {
        return Ok(Value::Invalid);
    };
    match to_int(place) {
        Some(place) => {
            let found = character_at(text.as_str(), place);
            Text::of(alloc, found).map(Value::Str)
        }
        None => Ok(Value::Invalid),
    }
}

/// The character at a place, if there is one.
fn character_at(text: &str, place: i32) -> &str
    ensures { chars result.now ≡ character_at (chars text.now) place }
{
    if place < 0 {
        return part(text, 0, 0);
    }
    part(text, place as usize, 1)
}

fn string_sub_string(
    alloc: Global,
    value: &Value,
    start: &Value,
    count: &Value,
) -> Result<Value, NoMemory>
    ensures { IfOk result (λ answer. answer ≡ string_sub_string value.now start.now count.now) }
{
    let Some(text) = to_str(alloc, value)? else {
        return Ok(Value::Invalid);
    };
    match (to_int(start), to_int(count)) {
        (Some(start), Some(count)) => {
            let found = part(text.as_str(), from_zero(start), from_zero(count));
            Text::of(alloc, found).map(Value::Str)
        }
        _ => Ok(Value::Invalid),
    }
}

/// The String that a value becomes, where that isn't empty.
fn some_text_of(alloc: Global, value: &Value) -> Result<Option<Text>, NoMemory>
    ensures exact { IfOk result (λ text. text ≡ some_text_of value.now) }
    ensures some { IfOk result (λ text. IfSome text (λ s. 0 < length s)) }
{
    match to_str(alloc, value)? {
        Some(text) if !text.is_empty() => Ok(Some(text)),
        _ => Ok(None),
    }
}

fn string_find(alloc: Global, value: &Value, part: &Value) -> Result<Value, NoMemory>
    ensures { IfOk result (λ answer. answer ≡ string_find value.now part.now) }
{
    let Some(text) = to_str(alloc, value)? else {
        return Ok(Value::Invalid);
    };
    match some_text_of(alloc, part)? {
        Some(part) => Ok(place_value(place_of(part.as_str(), text.as_str()))),
        None => Ok(Value::Invalid),
    }
}

/// A place, or -1.
fn place_value(place: Option<usize>) -> Value
    ensures { result ≡ place_value place }
{
    match place {
        Some(place) => number(place),
        None => Value::Int(-1),
    }
}

fn string_replace(
    alloc: Global,
    value: &Value,
    old: &Value,
    new: &Value,
    limit: u32,
) -> Result<Value, LibFault>
    ensures { Meets LibFault.NoMemory (λ value. value) result
        (kept_within limit (string_replace value.now old.now new.now)) }
{
    let Some(text) = to_str(alloc, value)? else {
        return Ok(Value::Invalid);
    };
    let Some(old) = some_text_of(alloc, old)? else {
        return Ok(Value::Invalid);
    };
    let Some(new) = to_str(alloc, new)? else {
        return Ok(Value::Invalid);
    };
    replace(alloc, old.as_str(), new.as_str(), text.as_str(), limit)
}

/// The separator that a value gives: the first character of its String.
fn separator_of(alloc: Global, value: &Value) -> Result<Option<char>, NoMemory>
    ensures { IfOk result (λ separator. separator ≡ separator_of value.now) }
{
    match to_str(alloc, value)? {
        Some(text) => Ok(text.as_str().chars().next()),
        None => Ok(None),
    }
}

fn string_elements(alloc: Global, value: &Value, separator: &Value) -> Result<Value, NoMemory>
    ensures { IfOk result (λ answer. answer ≡ string_elements value.now separator.now) }
{
    let Some(text) = to_str(alloc, value)? else {
        return Ok(Value::Invalid);
    };
    match separator_of(alloc, separator)? {
        Some(separator) => Ok(number(count_elements(separator, &text))),
        None => Ok(Value::Invalid),
    }
}

fn string_element_at(
    alloc: Global,
    value: &Value,
    place: &Value,
    separator: &Value,
) -> Result<Value, NoMemory>
    ensures { IfOk result (λ answer. answer ≡ string_element_at value.now place.now separator.now) }
{
    let Some(text) = to_str(alloc, value)? else {
        return Ok(Value::Invalid);
    };
    match (to_int(place), separator_of(alloc, separator)?) {
        (Some(place), Some(separator)) => {
            let place = from_zero(place);
            element_at(alloc, separator, place, &text).map(Value::Str)
        }
        _ => Ok(Value::Invalid),
    }
}

fn string_remove_at(
    alloc: Global,
    value: &Value,
    place: &Value,
    separator: &Value,
) -> Result<Value, NoMemory>
    ensures { IfOk result (λ answer. answer ≡ string_remove_at value.now place.now separator.now) }
{
    let Some(text) = to_str(alloc, value)? else {
        return Ok(Value::Invalid);
    };
    match (to_int(place), separator_of(alloc, separator)?) {
        (Some(place), Some(separator)) => {
            let place = from_zero(place);
            without_element(alloc, separator, place, &text).map(Value::Str)
        }
        _ => Ok(Value::Invalid),
    }
}

fn string_replace_at(
    alloc: Global,
    value: &Value,
    new: &Value,
    place: &Value,
    separator: &Value,
) -> Result<Value, NoMemory>
    ensures { IfOk result (λ answer.
        answer ≡ string_replace_at value.now new.now place.now separator.now) }
{
    let Some(text) = to_str(alloc, value)? else {
        return Ok(Value::Invalid);
    };
    let Some(new) = to_str(alloc, new)? else {
        return Ok(Value::Invalid);
    };
    match (to_int(place), separator_of(alloc, separator)?) {
        (Some(place), Some(separator)) => {
            let place = from_zero(place);
            with_element(alloc, separator, place, &new, &text).map(Value::Str)
        }
        _ => Ok(Value::Invalid),
    }
}

fn string_insert_at(
    alloc: Global,
    value: &Value,
    new: &Value,
    place: &Value,
    separator: &Value,
) -> Result<Value, NoMemory>
    ensures { IfOk result (λ answer.
        answer ≡ string_insert_at value.now new.now place.now separator.now) }
{
    let Some(text) = to_str(alloc, value)? else {
        return Ok(Value::Invalid);
    };
    let Some(new) = to_str(alloc, new)? else {
        return Ok(Value::Invalid);
    };
    match (to_int(place), separator_of(alloc, separator)?) {
        (Some(place), Some(separator)) => {
            let place = from_zero(place);
            with_element_before(alloc, separator, place, &new, &text).map(Value::Str)
        }
        _ => Ok(Value::Invalid),
    }
}

fn string_squeeze(alloc: Global, value: &Value) -> Result<Value, NoMemory>
    ensures { IfOk result (λ answer. answer ≡ string_squeeze value.now) }
{
    match to_str(alloc, value)? {
        Some(text) => squeeze(alloc, text.as_str()).map(Value::Str),
        None => Ok(Value::Invalid),
    }
}

fn string_trim(alloc: Global, value: &Value) -> Result<Value, NoMemory>
    ensures { IfOk result (λ answer. answer ≡ string_trim value.now) }
{
    match to_str(alloc, value)? {
        Some(text) => Text::of(alloc, trim(text.as_str())).map(Value::Str),
        None => Ok(Value::Invalid),
    }
}

fn string_compare(alloc: Global, left: &Value, right: &Value) -> Result<Value, NoMemory>
    ensures { IfOk result (λ answer. answer ≡ string_compare left.now right.now) }
{
    let Some(left) = to_str(alloc, left)? else {
        return Ok(Value::Invalid);
    };
    match to_str(alloc, right)? {
        Some(right) => Ok(order_value(left.cmp(&right))),
        None => Ok(Value::Invalid),
    }
}

fn order_value(order: Ordering) -> Value
    ensures { result ≡ order_value order }
{
    match order {
        Ordering::Less => Value::Int(-1),
        Ordering::Equal => Value::Int(0),
        Ordering::Greater => Value::Int(1),
    }
}

fn string_to_string(alloc: Global, value: &Value) -> Result<Value, NoMemory>
    ensures { IfOk result (λ answer. answer ≡ string_to_string value.now) }
{
    show(alloc, value).map(Value::Str)
}

fn string_format(alloc: Global, format: &Value, value: &Value) -> Result<Value, NoMemory>
    ensures { IfOk result (λ answer. answer ≡ string_format format.now value.now) }
{
    match characters_of(alloc, format)? {
        Some(format) if !matches!(value, Value::Invalid) => {
            Ok(text_value(format_value(alloc, format.as_slice(), value)?))
        }
        _ => Ok(Value::Invalid),
    }
}
