//! A text's first line, as a slice of the text.
ghost use Rattle.std.specs.Prelude.{◌≡◌, ◌≤◌, IfSome, Some, slice_index};
ghost use Rattle.std.specs.List.{position};
ghost use Rattle.wap_layout.specs.inside.Slices.{IsFirstLine, IsPlainWord, ends_word};

use crate::words::word_end;

/// A text that is cut at the space after its first word.
fn cut_at_space(text: &str, at: usize) -> (&str, &str)
    requires first { position ends_word text.now ≡ Some at }
    requires space { slice_index text.now at ≡ 32 }
    requires some { 1 ≤ at }
    ensures { IsPlainWord text.now result.0.now result.1.now }
{
    (&text[..at], &text[at + 1..])
}

/// The first word of a text, and what follows the space after it, where the text begins with that
/// word, which is of US-ASCII, and no other blank ends it.
fn plain_word(text: &str) -> Option<(&str, &str)>
    ensures { IfSome result (λ cut. IsPlainWord text.now cut.0.now cut.1.now) }
{
    let bytes = text.as_bytes();
    match word_end(bytes) {
        Some(at) if 0 < at && bytes[at] == b' ' => Some(cut_at_space(text, at)),
        Some(_) => None,
        None if text.is_empty() => None,
        None => Some((text, "")),
    }
}

/// The words that a text's first line begins with, what follows them, and whether they are all of
/// that line. They are plain, with one space between any two; `None` where the text doesn't begin
/// with a plain word that fits on a line.
pub(crate) fn first_line(text: &str, width: usize) -> Option<(&str, &str, bool)>
    requires { 1 ≤ width }
    ensures { IfSome result (λ cut. IsFirstLine width text.now cut.0.now cut.1.now cut.2) }
{
    let (mut line, mut rest) = plain_word(text)?;
    if width < line.len() {
        return None;
    }
    while let Some((word, after)) = plain_word(rest) {
        if width - line.len() <= word.len() {
            return Some((line, rest, true));
        }
        line = &text[..line.len() + 1 + word.len()];
        rest = after;
    }
    Some((line, rest, rest.is_empty()))
}
