//! The pieces of a format.
ghost use Rattle.std.specs.Prelude.{◌≡◌, ℕ, ◌+◌, ◌*◌, ◌<◌, List, ◌∷◌, length, IfOk, option_map};
ghost use Rattle.std.specs.Char.{is_ascii_digit, digit_value};
ghost use Rattle.std.specs.Int.{IsInRange};
ghost use Rattle.std.specs.List.{AllPass};
ghost use Rattle.std.specs.Str.Parse.{digits_value};
ghost use Rattle.wap_libs.specs.FormatGrammar.{conversion_of};
ghost use Rattle.wap_libs.specs.FormatReading.{up_to_65535, number_at, behind_digits};
ghost use Rattle.wap_libs.specs.FormatReading.{precision_at, conversion_at, specifier_at};
ghost use Rattle.wap_libs.specs.FormatReading.{piece_behind_percent, piece_at, pieces_of};
ghost use Rattle.wap_libs.specs.texts.Read.{with_rest};

use crate::texts::characters::digits;
use crate::{Conversion, Piece, Specifier};
use std::alloc::Global;
use wap_base::{NoMemory, Rows};

/// The pieces of a format, if it is well formed.
pub(crate) fn pieces_of(alloc: Global, format: &[char]) -> Result<Option<Rows<Piece>>, NoMemory>
    ensures { IfOk result (λ pieces. pieces ≡ pieces_of format.now) }
{
    let mut pieces = Rows::new(alloc);
    let mut rest = format;
    while !rest.is_empty() {
        match next_piece(rest) {
            Some((piece, behind)) => {
                pieces.add(piece)?;
                rest = behind;
            }
            None => return Ok(None),
        }
    }
    Ok(Some(pieces))
}

/// The piece that a text begins with, and what follows it.
fn next_piece(text: &[char]) -> Option<(Piece, &[char])>
    requires { 0 < length text.now }
    ensures { (c : ℕ) (s : List ℕ) → text.now ≡ c ∷ s → option_map with_rest result ≡ piece_at c s }
{
    piece_at(text[0], &text[1..])
}

/// The piece that begins with a character, and what follows it.
fn piece_at(character: char, behind: &[char]) -> Option<(Piece, &[char])>
    ensures { option_map with_rest result ≡ piece_at character behind.now }
{
    if character == '%' {
        piece_behind_percent(behind)
    } else {
        Some((Piece::Character(character), behind))
    }
}

fn piece_behind_percent(text: &[char]) -> Option<(Piece, &[char])>
    ensures { option_map with_rest result ≡ piece_behind_percent text.now }
{
    match text {
        [] => None,
        ['%', behind @ ..] => Some((Piece::Character('%'), behind)),
        [_, ..] => {
            let (specifier, behind) = specifier_at(text)?;
            Some((Piece::Specifier(specifier), behind))
        }
    }
}

fn specifier_at(text: &[char]) -> Option<(Specifier, &[char])>
    ensures { option_map with_rest result ≡ specifier_at text.now }
{
    let width = number_at(text)?;
    let (precision, behind) = precision_at(behind_digits(text))?;
    let (conversion, behind) = conversion_at(behind)?;
    let specifier = Specifier {
        width,
        precision,
        conversion,
    };
    Some((specifier, behind))
}

fn precision_at(text: &[char]) -> Option<(Option<u16>, &[char])>
    ensures { option_map with_rest result ≡ precision_at text.now }
{
    match text {
        ['.', behind @ ..] => {
            if digits(behind) == 0 {
                return None;
            }
            let precision = number_at(behind)?;
            Some((Some(precision), behind_digits(behind)))
        }
        _ => Some((None, text)),
    }
}

fn conversion_at(text: &[char]) -> Option<(Conversion, &[char])>
    ensures { option_map with_rest result ≡ conversion_at text.now }
{
    match text {
        [] => None,
        [character, behind @ ..] => Some((conversion_of(*character)?, behind)),
    }
}

fn conversion_of(character: char) -> Option<Conversion>
    ensures { result ≡ conversion_of character }
{
    match character {
        'd' => Some(Conversion::Decimal),
        'f' => Some(Conversion::Float),
        's' => Some(Conversion::String),
        _ => None,
    }
}

fn behind_digits(text: &[char]) -> &[char]
    ensures { result.now ≡ behind_digits text.now }
{
    &text[digits(text)..]
}

/// The number of the digits that a text begins with, up to 65535.
fn number_at(text: &[char]) -> Option<u16>
    ensures { result ≡ number_at text.now }
{
    number_of(&text[..digits(text)])
}

fn number_of(digits: &[char]) -> Option<u16>
    requires { AllPass is_ascii_digit digits.now }
    ensures { result ≡ up_to_65535 (digits_value 10 digits.now) }
{
    let mut number: u16 = 0;
    for digit in digits {
        match with_digit(number, *digit) {
            Some(longer) => number = longer,
            None => return None,
        }
    }
    Some(number)
}

/// The number with one digit more.
fn with_digit(number: u16, digit: char) -> Option<u16>
    requires { IsInRange 48 57 digit }
    ensures { result ≡ up_to_65535 (number * 10 + digit_value digit) }
{
    let value = digit as u32 - '0' as u32;
    u16::try_from(u32::from(number) * 10 + value).ok()
}
