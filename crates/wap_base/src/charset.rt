//! The character sets in which strings are read.
ghost use Rattle.std.specs.Prelude.{◌≡◌, IfOk, MatchOption};
ghost use Rattle.std.specs.List.{list_all};
ghost use Rattle.std.specs.Str.{is_utf8, IsUtf8};
ghost use Rattle.wap_base.specs.Charsets.{charset_of, is_ascii, is_text, text_in};

use crate::{NoMemory, Text};
use simdutf8::basic::from_utf8;
use std::alloc::Global;

/// A character set in which strings are read.
#[derive(Clone, Copy)]
pub enum Charset {
    /// US-ASCII.
    Ascii,
    /// ISO-8859-1.
    Latin1,
    /// UTF-8.
    Utf8,
}

impl Charset {
    /// The character set of a number (IANA's MIBenum), where it is one that is read.
    pub fn of_number(number: u32) -> Option<Charset>
        ensures { result ≡ charset_of number }
    {
        match number {
            3 => Some(Charset::Ascii),
            4 => Some(Charset::Latin1),
            0 | 106 => Some(Charset::Utf8),
            _ => None,
        }
    }

    /// Whether the bytes spell a text.
    pub fn is_text(self, bytes: &[u8]) -> bool
        ensures { result ≡ is_text self bytes.now }
    {
        match self {
            Charset::Ascii => is_ascii(bytes),
            Charset::Latin1 => true,
            Charset::Utf8 => is_utf8(bytes),
        }
    }

    /// The text that the bytes spell, or `None` where they spell none.
    pub fn text(self, alloc: Global, bytes: &[u8]) -> Result<Option<Text>, NoMemory>
        ensures { IfOk result (λ text. text ≡ text_in self bytes.now) }
    {
        match self {
            Charset::Ascii if !is_ascii(bytes) => Ok(None),
            Charset::Ascii | Charset::Latin1 => Ok(Some(Text::from_latin1(alloc, bytes)?)),
            Charset::Utf8 => utf8_text(alloc, bytes),
        }
    }
}

/// Whether all bytes are of US-ASCII. No byte ends the loop, so many are looked at in one step.
fn is_ascii(bytes: &[u8]) -> bool
    ensures { result ≡ list_all is_ascii bytes.now }
{
    let mut all = true;
    for byte in bytes {
        all &= *byte < 128;
    }
    all
}

/// The bytes as UTF-8, where they are that. Most are of US-ASCII, which is tested first.
fn as_utf8(bytes: &[u8]) -> Option<&str>
    ensures { MatchOption result (¬ (IsUtf8 bytes.now))
        (λ text. (text.now ≡ bytes.now) × IsUtf8 bytes.now) }
{
    if is_ascii(bytes) {
        return Some(unsafe { str::from_utf8_unchecked(bytes) });
    }
    match from_utf8(bytes) {
        Ok(text) => Some(text),
        Err(_) => None,
    }
}

fn is_utf8(bytes: &[u8]) -> bool
    ensures { result ≡ is_utf8 bytes.now }
{
    match as_utf8(bytes) {
        Some(_) => true,
        None => false,
    }
}

fn utf8_text(alloc: Global, bytes: &[u8]) -> Result<Option<Text>, NoMemory>
    ensures { IfOk result (λ text. text ≡ text_in Charset.Utf8 bytes.now) }
{
    match as_utf8(bytes) {
        Some(text) => Ok(Some(Text::of(alloc, text)?)),
        None => Ok(None),
    }
}
