//! The text that a string stands for (WAP-193, section 6.1.5.3).
ghost use Rattle.std.specs.Prelude.{◌≡◌, ◌≤◌, ℕ, ◌++◌, [], ◌∷◌, List, IfOk, OnOk};
ghost use Rattle.std.specs.Char.{is_ascii_hexdigit};
ghost use Rattle.std.specs.Str.{chars};
ghost use Rattle.wap_lex.specs.Numbers.{with_digit, digit_value};
ghost use Rattle.wap_lex.specs.Characters.{is_octal_digit};
ghost use Rattle.wap_grammar.specs.Strings.{named_by};
ghost use Rattle.wap_grammar.specs.Unescaping.{goes_on, unescaped, escaped, numbered, string_of};
ghost use Rattle.wap_parse.specs.expressions.inside.Escapes.{left_of};

use std::alloc::Global;
use wap_base::{NoMemory, Text};

/// Where reading stands among the characters of a string.
#[derive(Clone, Copy)]
enum Place {
    Plain,
    /// After a backslash.
    Backslash,
    /// Inside an escape by a number: its base, how many digits may follow, and its value so far.
    Number(u8, u8, u16),
}

/// The text that a string stands for, from its bytes with their quotes. Bytes that stand for no
/// text, since they are not UTF-8 or escape a surrogate, are answered as `NoMemory`; a string in a
/// source has no such bytes.
#[tactic(auto, unfolding(wap_grammar::specs::Unescaping::string_of))]
pub(crate) fn string_of(alloc: Global, bytes: &[u8]) -> Result<Text, NoMemory>
    ensures { IfOk result (λ text. text ≡ string_of bytes.now) }
{
    let (_, inside) = bytes.split_at(bytes.len().min(1));
    let (inside, _) = inside.split_at(bytes.len().saturating_sub(2));
    match str::from_utf8(inside) {
        Ok(inside) => unescape(alloc, inside),
        Err(_) => Err(NoMemory),
    }
}

/// What the characters between quotes stand for.
fn unescape(alloc: Global, inside: &str) -> Result<Text, NoMemory>
    ensures { IfOk result (λ text. text ≡ unescaped (chars inside.now)) }
{
    let mut text = Text::new(alloc);
    let mut place = Place::Plain;
    for character in inside.chars() {
        place = add_character(&mut text, place, character)?;
    }
    add_end(&mut text, place)?;
    Ok(text)
}

/// Adds what the end of a string leaves to add.
fn add_end(text: &mut Text, place: Place) -> Result<(), NoMemory>
    ensures { OnOk result (text.new ≡ text.old ++ left_of place []) }
{
    match place {
        Place::Plain | Place::Backslash => Ok(()),
        Place::Number(_, _, value) => add_value(text, value),
    }
}

/// Goes on by a character.
fn add_character(text: &mut Text, place: Place, character: char) -> Result<Place, NoMemory>
    ensures { IfOk result (λ to. (rest : List ℕ) →
        text.old ++ left_of place (character ∷ rest) ≡ text.new ++ left_of to rest) }
{
    match place {
        Place::Plain => add_plain(text, character),
        Place::Backslash => add_escaped(text, character),
        Place::Number(base, left, value) => add_numbered(text, base, left, value, character),
    }
}

/// Goes on by a character that stands outside escapes.
fn add_plain(text: &mut Text, character: char) -> Result<Place, NoMemory>
    ensures { IfOk result (λ to. (rest : List ℕ) →
        text.old ++ unescaped (character ∷ rest) ≡ text.new ++ left_of to rest) }
{
    if character == '\\' {
        return Ok(Place::Backslash);
    }
    text.push(character)?;
    Ok(Place::Plain)
}

/// Goes on by a character after a backslash.
fn add_escaped(text: &mut Text, character: char) -> Result<Place, NoMemory>
    ensures { IfOk result (λ to. (rest : List ℕ) →
        text.old ++ escaped (character ∷ rest) ≡ text.new ++ left_of to rest) }
{
    match character {
        'x' => Ok(Place::Number(16, 2, 0)),
        'u' => Ok(Place::Number(16, 4, 0)),
        '0'..='7' => Ok(Place::Number(8, 2, character as u16 - 48)),
        _ => {
            text.push(named_by(character))?;
            Ok(Place::Plain)
        }
    }
}

/// The character that one after a backslash names.
fn named_by(character: char) -> char
    ensures { result ≡ named_by character }
{
    match character {
        'b' => '\u{8}',
        'f' => '\u{c}',
        'n' => '\n',
        'r' => '\r',
        't' => '\t',
        _ => character,
    }
}

/// Goes on by a character inside an escape by a number.
fn add_numbered(
    text: &mut Text,
    base: u8,
    left: u8,
    value: u16,
    character: char,
) -> Result<Place, NoMemory>
    ensures { IfOk result (λ to. (rest : List ℕ) →
        text.old ++ numbered base left value (character ∷ rest) ≡ text.new ++ left_of to rest) }
{
    if left > 0 && goes_on(base, value, character) {
        return match u16::try_from(with_digit(base, value, character)) {
            Ok(value) => Ok(Place::Number(base, left - 1, value)),
            Err(_) => Err(NoMemory),
        };
    }
    add_value(text, value)?;
    add_plain(text, character)
}

/// Whether a character is a digit that an escape by a number goes on with.
fn goes_on(base: u8, value: u16, character: char) -> bool
    ensures { result ≡ goes_on base value character }
{
    if base == 8 {
        matches!(character, '0'..='7') && with_digit(8, value, character) <= 255
    } else {
        matches!(character, '0'..='9' | 'A'..='F' | 'a'..='f')
    }
}

/// A number with one more digit.
fn with_digit(base: u8, value: u16, digit: char) -> u32
    ensures { result ≡ with_digit base value digit }
{
    u32::from(value) * u32::from(base) + digit_value(digit)
}

/// The value of a digit.
fn digit_value(digit: char) -> u32
    ensures value { result ≡ digit_value digit }
    ensures small { result ≤ 1114111 }
{
    let code = digit as u32;
    if code <= 57 {
        code.saturating_sub(48)
    } else if code <= 70 {
        code.saturating_sub(55)
    } else {
        code.saturating_sub(87)
    }
}

/// Adds the character of a number.
fn add_value(text: &mut Text, value: u16) -> Result<(), NoMemory>
    ensures { OnOk result (text.new ≡ text.old ++ value ∷ []) }
{
    match char::from_u32(u32::from(value)) {
        Some(character) => text.push(character),
        None => Err(NoMemory),
    }
}
