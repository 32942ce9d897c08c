//! The library Lang.
ghost use Rattle.std.specs.Prelude.{◌≡◌, ◌≢◌, ◌+◌, ◌%◌, ◌^◌, ◌<◌, pos, length, IfOk, Some, Err};
ghost use Rattle.wap_base.specs.Outcome.{Meets};
ghost use Rattle.wap_libs.specs.Lang.{row_of_lang, lang_abs, lang_min, lang_max, lang_parse_int};
ghost use Rattle.wap_libs.specs.Lang.{lang_is_int, lang_random, lang_seed, random_up_to};
ghost use Rattle.wap_libs.specs.Lang.{leading_integer, numeral};
ghost use Rattle.wap_libs.specs.Outcome.{limited};
ghost use Rattle.wap_libs.specs.Row.{applied, arguments};

use crate::texts::argument::{argument, characters_of, integer_value, keep_within, show, text};
use crate::texts::characters::{behind_blanks, digits};
use crate::{Gen, LangFunction, LibFault, LibOut};
use std::alloc::Global;
use wap_base::{NoMemory, Rows, Text};
use wap_value::{Value, to_int};

/// The number of UTF-8 in the list of character sets (IANA, MIBenum).
const UTF_8: i32 = 106;

/// Calls a function of Lang.
pub(crate) fn call_lang(
    alloc: Global,
    function: LangFunction,
    args: &[Value],
    generator: &mut Gen,
    limit: u32,
) -> Result<LibOut, LibFault>
    requires { length args.now ≡ arguments (row_of_lang function) }
    ensures outcome { Meets LibFault.NoMemory (λ out. out) result
        (limited limit (applied (row_of_lang function) args.now generator.old).0) }
    ensures generator { result ≢ Err LibFault.NoMemory
        → generator.new ≡ (applied (row_of_lang function) args.now generator.old).1 }
    ensures kept { result ≡ Err LibFault.NoMemory → generator.new ≡ generator.old }
{
    let value = match function {
        LangFunction::Abs => absolute(argument(args, 0)),
        LangFunction::Min => least(argument(args, 0), argument(args, 1)),
        LangFunction::Max => greatest(argument(args, 0), argument(args, 1)),
        LangFunction::ParseInt => parse_integer(alloc, argument(args, 0))?,
        LangFunction::IsInt => is_integer(alloc, argument(args, 0))?,
        LangFunction::ParseFloat | LangFunction::IsFloat => Value::Invalid,
        LangFunction::MaxInt => Value::Int(i32::MAX),
        LangFunction::MinInt => Value::Int(i32::MIN),
        LangFunction::Float => Value::Bool(false),
        LangFunction::CharacterSet => Value::Int(UTF_8),
        LangFunction::Random => random(argument(args, 0), generator),
        LangFunction::Seed => seed(alloc, argument(args, 0), generator),
        LangFunction::Exit => return Ok(LibOut::Exit(argument(args, 0).copy(alloc)?)),
        LangFunction::Abort => return Ok(LibOut::Abort(show(alloc, argument(args, 0))?)),
    };
    Ok(LibOut::Value(keep_within(value, limit)?))
}

fn absolute(value: &Value) -> Value
    ensures { result ≡ lang_abs value.now }
{
    integer_value(to_int(value).and_then(|number| number.checked_abs()))
}

fn least(left: &Value, right: &Value) -> Value
    ensures { result ≡ lang_min left.now right.now }
{
    match (to_int(left), to_int(right)) {
        (Some(left), Some(right)) => Value::Int(left.min(right)),
        _ => Value::Invalid,
    }
}

fn greatest(left: &Value, right: &Value) -> Value
    ensures { result ≡ lang_max left.now right.now }
{
    match (to_int(left), to_int(right)) {
        (Some(left), Some(right)) => Value::Int(left.max(right)),
        _ => Value::Invalid,
    }
}

fn parse_integer(alloc: Global, value: &Value) -> Result<Value, NoMemory>
    ensures { IfOk result (λ value_given. value_given ≡ lang_parse_int value.now) }
{
    match characters_of(alloc, value)? {
        Some(characters) => Ok(integer_value(leading_integer(alloc, &characters)?)),
        None => Ok(Value::Invalid),
    }
}

fn is_integer(alloc: Global, value: &Value) -> Result<Value, NoMemory>
    ensures { IfOk result (λ value_given. value_given ≡ lang_is_int value.now) }
{
    match characters_of(alloc, value)? {
        Some(characters) => Ok(Value::Bool(leading_integer(alloc, &characters)?.is_some())),
        None => Ok(Value::Invalid),
    }
}

/// The Integer that a text begins with, after white space.
fn leading_integer(alloc: Global, characters: &Rows<char>) -> Result<Option<i32>, NoMemory>
    ensures { IfOk result (λ number. number ≡ leading_integer characters.now) }
{
    let numeral = numeral(behind_blanks(characters.as_slice()));
    Ok(to_int(&Value::Str(text(alloc, numeral)?)))
}

/// The sign, if there is one, and the longest run of digits after it.
fn numeral(characters: &[char]) -> &[char]
    ensures { result.now ≡ numeral characters.now }
{
    match characters {
        ['+' | '-', behind @ ..] => &characters[..1 + digits(behind)],
        _ => &characters[..digits(characters)],
    }
}

/// A word of the generator, modulo the Integer and one more.
fn random(most: &Value, generator: &mut Gen) -> Value
    ensures value { result ≡ (lang_random most.now generator.old).0 }
    ensures after { generator.new ≡ (lang_random most.now generator.old).1 }
{
    match to_int(most) {
        Some(most) => random_up_to(most, generator),
        None => Value::Invalid,
    }
}

fn random_up_to(most: i32, generator: &mut Gen) -> Value
    ensures value { result ≡ (random_up_to (Some most) generator.old).0 }
    ensures after { generator.new ≡ (random_up_to (Some most) generator.old).1 }
{
    if most < 0 {
        return Value::Invalid;
    }
    Value::Int(remainder(generator.next_word(), most as u32))
}

fn remainder(word: u32, most: u32) -> i32
    requires { most < 2 ^ 31 }
    ensures { result ≡ pos (word % (most + 1)) }
{
    (word % (most + 1)) as i32
}

/// The generator begins anew.
fn seed(alloc: Global, start: &Value, generator: &mut Gen) -> Value
    ensures value { result ≡ (lang_seed start.now generator.old).0 }
    ensures after { generator.new ≡ (lang_seed start.now generator.old).1 }
{
    match to_int(start) {
        Some(start) if start >= 0 => generator.restart_from(start.cast_unsigned()),
        Some(_) => generator.restart(),
        None => return Value::Invalid,
    }
    Value::Str(Text::new(alloc))
}
