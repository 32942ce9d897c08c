//! Texts of bytes.
ghost use Rattle.std.specs.Prelude.{◌≡◌, IfOk, map};
ghost use Rattle.std.specs.Char.{to_ascii_lowercase};
ghost use Rattle.std.specs.Option.{option_copied, option_map};

use std::alloc::Global;
use wap_base::{NoMemory, Text};

/// The text whose characters have the numbers of these bytes, in lower case. US-ASCII is copied
/// before it is put in lower case.
pub(crate) fn lowered_text(alloc: Global, bytes: &[u8]) -> Result<Text, NoMemory>
    ensures { IfOk result (λ text. text ≡ map to_ascii_lowercase bytes.now) }
{
    if bytes.is_ascii() {
        let mut lowered = String::from_utf8_lossy(alloc, bytes)?;
        lowered.make_ascii_lowercase();
        return Ok(Text::from_string(lowered));
    }
    let mut text = Text::new(alloc);
    for byte in bytes {
        text.push(char::from(byte.to_ascii_lowercase()))?;
    }
    Ok(text)
}

/// The text whose characters have the numbers of these bytes. US-ASCII is copied as it is.
pub(crate) fn text_of(alloc: Global, bytes: &[u8]) -> Result<Text, NoMemory>
    ensures { IfOk result (λ text. text ≡ bytes.now) }
{
    if bytes.is_ascii() {
        return Ok(Text::from_string(String::from_utf8_lossy(alloc, bytes)?));
    }
    Text::from_latin1(alloc, bytes)
}

/// The text of a part, if it is given.
pub(crate) fn text_of_part(alloc: Global, part: Option<&[u8]>) -> Result<Option<Text>, NoMemory>
    ensures { IfOk result (λ text. text ≡ option_copied part.entry) }
{
    match part {
        Some(bytes) => Ok(Some(text_of(alloc, bytes)?)),
        None => Ok(None),
    }
}

/// The text of a part in lower case, if it is given.
pub(crate) fn lowered_part(alloc: Global, part: Option<&[u8]>) -> Result<Option<Text>, NoMemory>
    ensures { IfOk result
        (λ text. text ≡ option_map (map to_ascii_lowercase) (option_copied part.entry)) }
{
    match part {
        Some(bytes) => Ok(Some(lowered_text(alloc, bytes)?)),
        None => Ok(None),
    }
}
