//! Parts of a text, by its characters.
ghost use Rattle.std.specs.Prelude.{◌≡◌, ◌≤◌, length, IfOk};
ghost use Rattle.std.specs.Char.{is_ascii_digit};
ghost use Rattle.std.specs.List.{prefix_len};
ghost use Rattle.std.specs.Str.{chars};
ghost use Rattle.wap_libs.specs.Characters.{is_blank, begins_blank, squeezed};
ghost use Rattle.wap_libs.specs.Characters.{behind_blanks, before_blanks, trimmed};

use crate::texts::walks::{first_of, last_of};
use std::alloc::Global;
use wap_base::{NoMemory, Text};

/// Whether a character is white space.
pub fn is_blank(character: char) -> bool
    ensures { result ≡ is_blank character }
{
    character == ' ' || ('\t'..='\r').contains(&character)
}

/// How many digits the text begins with.
pub fn digits(characters: &[char]) -> usize
    ensures exact { result ≡ prefix_len is_ascii_digit characters.now }
    ensures within { result ≤ length characters.now }
{
    for (i, character) in characters.iter().enumerate() {
        if !character.is_ascii_digit() {
            return i;
        }
    }
    characters.len()
}

/// How many characters of white space the text begins with.
fn blanks(characters: &[char]) -> usize
    ensures exact { result ≡ prefix_len is_blank characters.now }
    ensures within { result ≤ length characters.now }
{
    for (i, character) in characters.iter().enumerate() {
        if !is_blank(*character) {
            return i;
        }
    }
    characters.len()
}

/// The text without the white space at its beginning.
pub fn behind_blanks(characters: &[char]) -> &[char]
    ensures { result.now ≡ behind_blanks characters.now }
{
    &characters[blanks(characters)..]
}

/// The same of a text by its bytes.
fn trim_start(text: &str) -> &str
    ensures { chars result.now ≡ behind_blanks (chars text.now) }
{
    let mut rest = text;
    while let Some((character, behind)) = first_of(rest) {
        if !is_blank(character) {
            return rest;
        }
        rest = behind;
    }
    rest
}

/// The text without the white space at its end.
fn trim_end(text: &str) -> &str
    ensures { chars result.now ≡ before_blanks (chars text.now) }
{
    let mut rest = text;
    while let Some((character, before)) = last_of(rest) {
        if !is_blank(character) {
            return rest;
        }
        rest = before;
    }
    rest
}

/// The text without the white space around it.
pub fn trim(text: &str) -> &str
    ensures { chars result.now ≡ trimmed (chars text.now) }
{
    trim_end(trim_start(text))
}

/// The text with one space for each run of white space.
pub fn squeeze(alloc: Global, text: &str) -> Result<Text, NoMemory>
    ensures { IfOk result (λ made. made ≡ squeezed (chars text.now)) }
{
    let mut made = Text::new(alloc);
    let mut rest = text;
    while let Some((character, behind)) = first_of(rest) {
        if !is_blank(character) {
            made.push(character)?;
        } else if !begins_blank(behind) {
            made.push(' ')?;
        }
        rest = behind;
    }
    Ok(made)
}

fn begins_blank(text: &str) -> bool
    ensures { result ≡ begins_blank (chars text.now) }
{
    match first_of(text) {
        Some((first, _)) => is_blank(first),
        None => false,
    }
}
