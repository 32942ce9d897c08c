//! A value that is written into a format.
ghost use Rattle.std.specs.Prelude.{◌≡◌, ◌++◌, IfOk, OnOk, option_map, replicate};
ghost use Rattle.std.specs.Fmt.{decimal};
ghost use Rattle.std.specs.Str.{chars};
ghost use Rattle.wap_value.specs.Conversion.{integer_of, text_of};
ghost use Rattle.wap_libs.specs.Format.{own_digits, digits_of, signed_digits, least_digits, cut};
ghost use Rattle.wap_libs.specs.Format.{filled, converted, written, plain, filled_in, formatted};

use crate::texts::argument::length;
use crate::texts::pieces::pieces_of;
use crate::texts::walks::part;
use crate::{Conversion, Piece, Specifier};
use std::alloc::Global;
use wap_base::{NoMemory, Text};
use wap_value::{Value, to_int, to_str};

/// The format with the value at its first specifier, if it is well formed and the value can be
/// written so.
pub fn format_value(alloc: Global, format: &[char], value: &Value) -> Result<Option<Text>, NoMemory>
    ensures { IfOk result (λ text. text ≡ formatted format.now value.now) }
{
    match pieces_of(alloc, format)? {
        Some(pieces) => fill_in(alloc, value, pieces.as_slice()),
        None => Ok(None),
    }
}

fn fill_in(alloc: Global, value: &Value, pieces: &[Piece]) -> Result<Option<Text>, NoMemory>
    ensures { IfOk result (λ text. text ≡ filled_in value.now pieces.now) }
{
    let mut text = Text::new(alloc);
    let mut rest = pieces;
    while let [piece, behind @ ..] = rest {
        match piece {
            Piece::Character(character) => text.push(*character)?,
            Piece::Specifier(specifier) => {
                let Some(written) = write_value(alloc, *specifier, value)? else {
                    return Ok(None);
                };
                text.add(written.as_str())?;
                add_plain(&mut text, behind)?;
                return Ok(Some(text));
            }
        }
        rest = behind;
    }
    Ok(Some(text))
}

/// Adds the characters alone.
fn add_plain(text: &mut Text, pieces: &[Piece]) -> Result<(), NoMemory>
    ensures { OnOk result (text.new ≡ text.old ++ plain pieces.now) }
{
    let mut rest = pieces;
    while let [piece, behind @ ..] = rest {
        if let Piece::Character(character) = piece {
            text.push(*character)?;
        }
        rest = behind;
    }
    Ok(())
}

/// What a specifier writes of a value.
fn write_value(alloc: Global, specifier: Specifier, value: &Value) -> Result<Option<Text>, NoMemory>
    ensures { IfOk result (λ text. text ≡ written specifier value.now) }
{
    match convert(alloc, specifier.conversion, specifier.precision, value)? {
        Some(text) => Ok(Some(fill_to_width(alloc, specifier.width, &text)?)),
        None => Ok(None),
    }
}

fn convert(
    alloc: Global,
    conversion: Conversion,
    precision: Option<u16>,
    value: &Value,
) -> Result<Option<Text>, NoMemory>
    ensures { IfOk result (λ text. text ≡ converted conversion precision value.now) }
{
    match conversion {
        Conversion::Decimal => match to_int(value) {
            Some(number) => Ok(Some(signed_digits(alloc, least_digits(precision), number)?)),
            None => Ok(None),
        },
        Conversion::Float => Ok(None),
        Conversion::String => match to_str(alloc, value)? {
            Some(text) => Ok(Some(Text::of(alloc, cut(precision, text.as_str()))?)),
            None => Ok(None),
        },
    }
}

fn least_digits(precision: Option<u16>) -> u16
    ensures { result ≡ least_digits precision }
{
    precision.unwrap_or(1)
}

/// A String is cut at the precision.
fn cut(precision: Option<u16>, text: &str) -> &str
    ensures { chars result.now ≡ cut precision (chars text.now) }
{
    match precision {
        Some(most) => part(text, 0, usize::from(most)),
        None => text,
    }
}

fn signed_digits(alloc: Global, least: u16, number: i32) -> Result<Text, NoMemory>
    ensures { IfOk result (λ text. text ≡ signed_digits least number) }
{
    let mut text = Text::new(alloc);
    if number < 0 {
        text.push('-')?;
    }
    add_digits(alloc, &mut text, least, number.unsigned_abs())?;
    Ok(text)
}

/// Adds zeros and the digits, so many together at least.
fn add_digits(alloc: Global, text: &mut Text, least: u16, number: u32) -> Result<(), NoMemory>
    ensures { OnOk result (text.new ≡ text.old ++ digits_of least number) }
{
    let digits = own_digits(alloc, number)?;
    add_times(
        text,
        usize::from(least).saturating_sub(length(&digits)),
        '0',
    )?;
    text.add(digits.as_str())
}

/// The number in decimal, where 0 has no digit.
#[tactic(auto, using(crate::proofs::TextsLemmas::Names::own_digits_are))]
fn own_digits(alloc: Global, number: u32) -> Result<Text, NoMemory>
    ensures { IfOk result (λ text. text ≡ own_digits number) }
{
    if number == 0 {
        return Ok(Text::new(alloc));
    }
    Ok(Text::from_string(number.to_string(alloc)?))
}

/// Spaces and the text, so many characters together at least.
fn fill_to_width(alloc: Global, width: u16, written: &Text) -> Result<Text, NoMemory>
    ensures { IfOk result (λ text. text ≡ filled width written.now) }
{
    let mut text = Text::new(alloc);
    add_times(
        &mut text,
        usize::from(width).saturating_sub(length(written)),
        ' ',
    )?;
    text.add(written.as_str())?;
    Ok(text)
}

/// Adds a character so many times.
#[tactic(auto, using(std::proofs::lemmas::List::replicate_more))]
fn add_times(text: &mut Text, times: usize, character: char) -> Result<(), NoMemory>
    ensures { OnOk result (text.new ≡ text.old ++ replicate times character) }
{
    for _ in 0..times {
        text.push(character)?;
    }
    Ok(())
}
