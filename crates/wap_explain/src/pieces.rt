//! Pieces of which what is shown is made.
use std::fmt;
use wap_base::{NoMemory, shown_character};

/// What adding to a text gives: it takes memory, and else it can't fail.
pub(crate) type Added = Result<(), NoMemory>;

/// How a character is shown: the ends of lines and tabs as a space, any other control character as
/// a dot.
pub(crate) fn shown_on_line(character: char) -> char {
    match character {
        '\t' | '\n' | '\r' => ' ',
        _ => shown_character(character),
    }
}

/// A text as it is shown, on one line.
#[derive(Clone, Copy)]
pub(crate) struct Shown<'a>(pub(crate) &'a str);

impl fmt::Display for Shown<'_> {
    fn fmt<W: fmt::Write>(&self, f: &mut fmt::Formatter<W>) -> fmt::Result {
        for character in self.0.chars() {
            write!(f, "{}", shown_on_line(character))?;
        }
        Ok(())
    }
}

/// Bytes that are no text: those of US-ASCII as they are shown, each other one as a dot.
#[derive(Clone, Copy)]
pub(crate) struct ShownBytes<'a>(pub(crate) &'a [u8]);

impl fmt::Display for ShownBytes<'_> {
    fn fmt<W: fmt::Write>(&self, f: &mut fmt::Formatter<W>) -> fmt::Result {
        for byte in self.0 {
            let character = if byte.is_ascii() {
                char::from(*byte)
            } else {
                '.'
            };
            write!(f, "{}", shown_on_line(character))?;
        }
        Ok(())
    }
}

/// What a line begins with: a mark, where it is the one that is meant.
pub(crate) fn margin(marked: bool) -> &'static str {
    if marked { "> " } else { "  " }
}
