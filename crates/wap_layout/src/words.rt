//! Words, as slices of a text.
ghost use Rattle.std.specs.Prelude.{◌≡◌, ◌++◌, ◌<◌, ◌≤◌, OnOk, MatchOption, length, slice_index};
ghost use Rattle.std.specs.Prelude.{Some, IfSome, false, ⊤};
ghost use Rattle.std.specs.Bool.{MatchBool};
ghost use Rattle.std.specs.List.{list_any, position};
ghost use Rattle.std.specs.Str.{chars, IsAscii};
ghost use Rattle.wap_layout.specs.Blanks.{is_blank, is_line_feed, words_of, unless_empty};
ghost use Rattle.wap_layout.specs.inside.Slices.{IsCutAtBlank, IsCutAtFeed, ends_word};

use crate::buffer::Lines;
use wap_base::NoMemory;

/// Whether a character separates words.
pub(crate) fn is_blank(character: char) -> bool
    ensures { result ≡ is_blank character }
{
    matches!(character, ' ' | '\t' | '\r' | '\n')
}

/// Adds a line that is not empty.
#[tactic(auto, using(crate::proofs::Slices::some_shown))]
pub(crate) fn add_unless_empty(lines: &mut Lines, line: &str) -> Result<(), NoMemory>
    ensures { OnOk result (lines.new ≡ lines.old ++ unless_empty (chars line.now)) }
{
    if !line.is_empty() {
        lines.add(line)?;
    }
    Ok(())
}

/// Whether a byte is that of a blank, or of a character past US-ASCII.
fn ends_word(byte: u8) -> bool
    ensures { result ≡ ends_word byte }
{
    is_blank(char::from(byte)) || 128 <= byte
}

/// The place of the first byte that is a blank's, or of a character past US-ASCII.
pub(crate) fn word_end(bytes: &[u8]) -> Option<usize>
    ensures place { result ≡ position ends_word bytes.now }
    ensures within { IfSome result (λ at. at < length bytes.now) }
{
    bytes.iter().position(|byte| ends_word(*byte))
}

/// Whether a text is known to be US-ASCII, since no byte of it ends a word.
fn is_plain(text: &str) -> bool
    ensures { MatchBool result (IsAscii text.now) ⊤ }
{
    match word_end(text.as_bytes()) {
        None => true,
        Some(_) => false,
    }
}

/// How many columns a text takes.
pub(crate) fn columns_of(text: &str) -> usize
    ensures { result ≡ length (chars text.now) }
{
    if is_plain(text) {
        return text.len();
    }
    text.chars().count()
}

/// A text that is cut at its first blank, before which all is US-ASCII: what stands before it, its
/// columns, and what follows the blank.
fn cut_at(text: &str, at: usize) -> (&str, usize, &str)
    requires first { position ends_word text.now ≡ Some at }
    requires blank { slice_index text.now at < 128 }
    ensures cut { IsCutAtBlank text.now result.0.now result.2.now }
    ensures columns { result.1 ≡ length (chars result.0.now) }
{
    (&text[..at], at, &text[at + 1..])
}

/// What stands before the first blank of a text, and what follows that blank.
fn split_at_blank(text: &str) -> Option<(&str, &str)>
    ensures { MatchOption result (words_of (chars text.now) ≡ unless_empty (chars text.now))
        (λ cut. IsCutAtBlank text.now cut.0.now cut.1.now) }
{
    text.split_once(is_blank)
}

/// The first word of a text, as `first_word` gives it, found character by character.
fn word_by_characters(text: &str) -> (&str, usize, &str)
    requires { 1 ≤ length text.now }
    ensures cut { IsCutAtBlank text.now result.0.now result.2.now }
    ensures columns { result.1 ≡ length (chars result.0.now) }
{
    match split_at_blank(text) {
        None => (text, columns_of(text), ""),
        Some((word, after)) => (word, columns_of(word), after),
    }
}

/// What stands before the first blank of a text, its columns, and what follows that blank; all of
/// the text where it has no blank.
pub(crate) fn first_word(text: &str) -> (&str, usize, &str)
    requires { 1 ≤ length text.now }
    ensures cut { IsCutAtBlank text.now result.0.now result.2.now }
    ensures columns { result.1 ≡ length (chars result.0.now) }
{
    let bytes = text.as_bytes();
    match word_end(bytes) {
        None => (text, text.len(), ""),
        Some(at) if bytes[at] < 128 => cut_at(text, at),
        Some(_) => word_by_characters(text),
    }
}

/// The place of the first byte that is a line feed's.
fn feed_place(bytes: &[u8]) -> Option<usize>
    ensures place { result ≡ position is_line_feed bytes.now }
    ensures within { IfSome result (λ at. at < length bytes.now) }
{
    bytes.iter().position(|byte| *byte == b'\n')
}

/// A text that is cut at its first line feed.
fn cut_at_place(text: &str, at: usize) -> (&str, &str)
    requires { position is_line_feed text.now ≡ Some at }
    ensures { IsCutAtFeed text.now result.0.now result.1.now }
{
    (&text[..at], &text[at + 1..])
}

/// What stands before the first line feed of a text, and what follows it.
pub(crate) fn cut_at_feed(text: &str) -> Option<(&str, &str)>
    ensures { MatchOption result (list_any is_line_feed (chars text.now) ≡ false)
        (λ cut. IsCutAtFeed text.now cut.0.now cut.1.now) }
{
    match feed_place(text.as_bytes()) {
        None => None,
        Some(at) => Some(cut_at_place(text, at)),
    }
}
