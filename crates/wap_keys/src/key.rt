//! Reading a key from its line.
ghost use Rattle.std.specs.Prelude.{◌≡◌, ◌≢◌, ◌<◌, ◌≤◌, ◌+◌, ◌++◌, ◌∷◌, length, take, drop};
ghost use Rattle.std.specs.Prelude.{Ok, Err, IfOk, IfErr, IfSome, IfNone};
ghost use Rattle.std.specs.Option.{option_map};
ghost use Rattle.wap_base.specs.Ascii.{space};
ghost use Rattle.wap_base.specs.Outcome.{Meets};
ghost use Rattle.wap_base.specs.declared.key.Key.{Key};
ghost use Rattle.wap_keys.specs.declared.fault.KeyFault.{KeyFault};
ghost use Rattle.wap_keys.specs.declared.fault.KeyFault.TheVariants.{NoMemory};
ghost use Rattle.wap_keys.specs.declared.word.Word.TheVariants as word;
ghost use Rattle.wap_keys.specs.Forms.{prefix_of, rest_of, form_of, text_at};
ghost use Rattle.wap_keys.specs.Hexadecimal.{bytes_of};
ghost use Rattle.wap_keys.specs.Forms.{text_or_none_at, nothing_at, value_in, number_in, number_at};
ghost use Rattle.wap_keys.specs.Forms.{ReadsNumber, greatest_u16, key_by, key_at};
ghost use Rattle.wap_keys.specs.Spelling.{spaced, HasNoSpace, IsKeyLine, IsNoKeyLine};
ghost use Rattle.wap_keys.specs.inside.Wording.{IsRestText, key_of_rest, unknown_fault};

use crate::decimal::decimal_of;
use crate::word::Word;
use crate::{Key, KeyFault, LINE_LIMIT};
use hex::FromHexError;
use std::alloc::Global;
use std::str;
use wap_base::{Bytes, NoMemory as OutOfMemory, Text};

/// What stands before the first space, and what stands after it.
fn split(text: &str) -> (&str, Option<&str>)
    ensures prefix { result.0.now ≡ prefix_of text.now }
    ensures rest { option_map (λ rest. rest.now) result.1 ≡ rest_of text.now }
{
    match text.split_once(' ') {
        Some((prefix, rest)) => (prefix, Some(rest)),
        None => (text, None),
    }
}

fn read_text(alloc: Global, rest: Option<&str>) -> Result<Text, KeyFault>
    ensures { Meets NoMemory (λ text. text) result (text_at
        (option_map (λ rest. rest.now) rest.entry)) }
{
    match rest {
        Some(text) if !text.is_empty() => Ok(Text::of(alloc, text)?),
        _ => Err(KeyFault::Missing),
    }
}

fn read_text_or_none(alloc: Global, rest: Option<&str>) -> Result<Text, OutOfMemory>
    ensures { IfOk result (λ text. text ≡ text_or_none_at
        (option_map (λ rest. rest.now) rest.entry)) }
{
    match rest {
        Some(text) => Text::of(alloc, text),
        None => Ok(Text::new(alloc)),
    }
}

fn read_nothing(key: Key, rest: Option<&str>) -> Result<Key, KeyFault>
    ensures { result ≡ nothing_at key (option_map (λ rest. rest.now) rest.entry) }
{
    match rest {
        Some(_) => Err(KeyFault::Surplus),
        None => Ok(key),
    }
}

/// The number that an argument is.
fn number_in(argument: &str, greatest: u32) -> Result<u32, KeyFault>
    ensures is { result ≡ number_in greatest argument.now }
    ensures small { IfOk result (λ number. number ≤ greatest) }
{
    if argument.is_empty() {
        return Err(KeyFault::Missing);
    }
    match decimal_of(argument.as_bytes(), greatest) {
        Some(number) => Ok(number),
        None => Err(KeyFault::BadNumber),
    }
}

/// A number, and what follows it.
fn read_number(rest: Option<&str>, greatest: u32) -> Result<(u32, Option<&str>), KeyFault>
    ensures is { ReadsNumber result (number_at greatest (option_map
        (λ rest. rest.now) rest.entry)) }
    ensures small { IfOk result (λ read. read.0 ≤ greatest) }
{
    let Some(text) = rest else {
        return Err(KeyFault::Missing);
    };
    let (argument, rest) = split(text);
    Ok((number_in(argument, greatest)?, rest))
}

/// A number of at most 65,535, and what follows it.
fn read_u16(rest: Option<&str>) -> Result<(u16, Option<&str>), KeyFault>
    ensures { ReadsNumber result (number_at greatest_u16
        (option_map (λ rest. rest.now) rest.entry)) }
{
    let (number, rest) = read_number(rest, u32::from(u16::MAX))?;
    Ok((number as u16, rest))
}

fn read_open(alloc: Global, rest: Option<&str>) -> Result<Key, KeyFault>
    ensures { Meets NoMemory (λ key. key) result (key_by (form_of word.Open)
        (option_map (λ rest. rest.now) rest.entry)) }
{
    Ok(Key::Open(read_text(alloc, rest)?))
}

fn read_do(alloc: Global, rest: Option<&str>) -> Result<Key, KeyFault>
    ensures { Meets NoMemory (λ key. key) result (key_by (form_of word.Do)
        (option_map (λ rest. rest.now) rest.entry)) }
{
    Ok(Key::Do(read_text(alloc, rest)?))
}

fn read_answer(alloc: Global, rest: Option<&str>) -> Result<Key, KeyFault>
    ensures { Meets NoMemory (λ key. key) result (key_by (form_of word.Answer)
        (option_map (λ rest. rest.now) rest.entry)) }
{
    Ok(Key::Answer(read_text_or_none(alloc, rest)?))
}

/// The key of a word and its arguments.
fn read_form(alloc: Global, word: Word, rest: Option<&str>) -> Result<Key, KeyFault>
    ensures { Meets NoMemory (λ key. key) result (key_by (form_of word)
        (option_map (λ rest. rest.now) rest.entry)) }
{
    match word {
        Word::Open => read_open(alloc, rest),
        Word::Do => read_do(alloc, rest),
        Word::Pick => read_pick(rest),
        Word::Type => read_type(alloc, rest),
        Word::Choose => read_choose(rest),
        Word::Back => read_nothing(Key::Back, rest),
        Word::Tick => read_tick(rest),
        Word::Ok => read_nothing(Key::Ok, rest),
        Word::Cancel => read_nothing(Key::Cancel, rest),
        Word::Answer => read_answer(alloc, rest),
        Word::Stop => read_nothing(Key::Stop, rest),
        Word::Vars => read_nothing(Key::Vars, rest),
        Word::Push => read_push(alloc, rest),
        Word::Inbox => read_nothing(Key::Inbox, rest),
        Word::Follow => read_follow(rest),
    }
}

fn read_pick(rest: Option<&str>) -> Result<Key, KeyFault>
    ensures { result ≡ key_by (form_of word.Pick) (option_map (λ rest. rest.now) rest.entry) }
{
    let (number, rest) = read_u16(rest)?;
    read_nothing(Key::Pick(number), rest)
}

fn read_type(alloc: Global, rest: Option<&str>) -> Result<Key, KeyFault>
    ensures { Meets NoMemory (λ key. key) result (key_by (form_of word.Type)
        (option_map (λ rest. rest.now) rest.entry)) }
{
    let (number, rest) = read_u16(rest)?;
    Ok(Key::Enter(number, read_text_or_none(alloc, rest)?))
}

fn read_choose(rest: Option<&str>) -> Result<Key, KeyFault>
    ensures { result ≡ key_by (form_of word.Choose) (option_map (λ rest. rest.now) rest.entry) }
{
    let (field, rest) = read_u16(rest)?;
    let (option, rest) = read_u16(rest)?;
    read_nothing(Key::Choose(field, option), rest)
}

fn read_tick(rest: Option<&str>) -> Result<Key, KeyFault>
    ensures { result ≡ key_by (form_of word.Tick) (option_map (λ rest. rest.now) rest.entry) }
{
    let (count, rest) = read_number(rest, u32::MAX)?;
    read_nothing(Key::Tick(count), rest)
}

/// The bytes that an argument is.
fn read_bytes(alloc: Global, argument: &str) -> Result<Bytes, KeyFault>
    ensures { Meets NoMemory (λ bytes. bytes) result (value_in bytes_of argument.now) }
{
    if argument.is_empty() {
        return Err(KeyFault::Missing);
    }
    match hex::decode(alloc, argument.as_bytes()) {
        Ok(bytes) => Ok(Bytes::from_vec(bytes)),
        Err(FromHexError::OutOfMemory) => Err(KeyFault::NoMemory),
        Err(
            FromHexError::InvalidHexCharacter { .. }
            | FromHexError::OddLength
            | FromHexError::InvalidStringLength,
        ) => Err(KeyFault::BadNumber),
    }
}

fn read_push(alloc: Global, rest: Option<&str>) -> Result<Key, KeyFault>
    ensures { Meets NoMemory (λ key. key) result (key_by (form_of word.Push)
        (option_map (λ rest. rest.now) rest.entry)) }
{
    let Some(text) = rest else {
        return Err(KeyFault::Missing);
    };
    let (argument, rest) = split(text);
    read_nothing(Key::Push(read_bytes(alloc, argument)?), rest)
}

fn read_follow(rest: Option<&str>) -> Result<Key, KeyFault>
    ensures { result ≡ key_by (form_of word.Follow) (option_map (λ rest. rest.now) rest.entry) }
{
    let (number, rest) = read_u16(rest)?;
    read_nothing(Key::Follow(number), rest)
}

/// Where the first space stands.
fn space_at(bytes: &[u8]) -> Option<usize>
    ensures none { IfNone result (HasNoSpace bytes.now) }
    ensures within { IfSome result (λ place. place < length bytes.now) }
    ensures some { IfSome result (λ place. HasNoSpace (take place bytes.now)) }
    ensures here { IfSome result (λ place. bytes.now ≡ take place bytes.now ++ space
        ∷ drop (place + 1) bytes.now) }
{
    for (place, byte) in bytes.iter().enumerate() {
        if *byte == b' ' {
            return Some(place);
        }
    }
    None
}

/// The word of a line, and what follows it after a space.
fn split_word(line: &[u8]) -> (&[u8], Option<&[u8]>)
    ensures is { line.now ≡ spaced result.0.now (option_map (λ rest. rest.now) result.1) }
    ensures word { HasNoSpace result.0.now }
{
    match space_at(line) {
        Some(place) => (line.split_at(place).0, Some(line.split_at(place + 1).1)),
        None => (line, None),
    }
}

/// What follows a word, as text.
fn rest_text(rest: Option<&[u8]>) -> Result<Option<&str>, KeyFault>
    ensures { IsRestText (option_map (λ rest. rest.now) rest.entry) result }
{
    let Some(bytes) = rest else {
        return Ok(None);
    };
    match str::from_utf8(bytes) {
        Ok(text) => Ok(Some(text)),
        Err(_) => Err(KeyFault::NotText),
    }
}

/// The key of a word and what follows it.
fn read_rest(alloc: Global, word: Word, rest: Option<&[u8]>) -> Result<Key, KeyFault>
    ensures { Meets NoMemory (λ key. key) result (key_of_rest word
        (option_map (λ rest. rest.now) rest.entry)) }
{
    read_form(alloc, word, rest_text(rest)?)
}

/// Why a line is no key line that begins with no word of a form.
fn unknown_fault(line: &[u8]) -> KeyFault
    ensures { result ≡ unknown_fault line.now }
{
    match str::from_utf8(line) {
        Ok(_) => KeyFault::UnknownWord,
        Err(_) => KeyFault::NotText,
    }
}

/// The key of a line. Only what follows its word is looked at as UTF-8, where it has one.
fn read_line(alloc: Global, line: &[u8]) -> Result<Key, KeyFault>
    ensures { Meets NoMemory (λ key. key) result (key_at line.now) }
{
    if line.len() > LINE_LIMIT {
        return Err(KeyFault::TooLong);
    }
    let (prefix, rest) = split_word(line);
    match Word::of(prefix) {
        Some(word) => read_rest(alloc, word, rest),
        None => Err(unknown_fault(line)),
    }
}

/// The key of a line that is neither empty nor a comment, without its line feed.
pub fn read_key(alloc: Global, line: &[u8]) -> Result<Key, KeyFault>
    ensures found { IfOk result (IsKeyLine line.now) }
    ensures only { (key : Key) → IsKeyLine line.now key → Meets NoMemory (λ key. key) result
        (Ok key) }
    ensures refused { IfErr result (λ fault. fault ≢ NoMemory → IsNoKeyLine line.now fault) }
    ensures first { (fault : KeyFault) → IsNoKeyLine line.now fault
        → Meets NoMemory (λ key. key) result (Err fault) }
    ensures exact { Meets NoMemory (λ key. key) result (key_at line.now) }
{
    read_line(alloc, line)
}
