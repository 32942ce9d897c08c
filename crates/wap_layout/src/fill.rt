//! Words on lines of a width.
ghost use Rattle.std.specs.Prelude.{◌≡◌, ◌≤◌, ◌<◌, ◌++◌, List, ℕ, IfOk, OnOk, [], length};
ghost use Rattle.std.specs.List.{flat_map};
ghost use Rattle.std.specs.Str.{chars, IsAscii, IsUtf8};
ghost use Rattle.wap_layout.specs.Blanks.{words_of, unless_empty};
ghost use Rattle.wap_layout.specs.Calculation.{cut_word, fill, filled, has_room};
ghost use Rattle.wap_layout.specs.inside.Slices.{fill_text};

use crate::buffer::Lines;
use crate::first::first_line;
use crate::words::{add_unless_empty, columns_of, first_word};
use std::alloc::Global;
use wap_base::{NoMemory, Text};

/// An empty line, with room for so many characters of US-ASCII.
fn empty_line(alloc: Global, columns: usize) -> Result<Text, NoMemory>
    ensures { IfOk result (λ line. line ≡ []) }
{
    Ok(Text::from_string(String::with_capacity(alloc, columns)?))
}

/// A line that begins with a word, with room for so many characters of US-ASCII.
fn begin_line(alloc: Global, word: &str, columns: usize) -> Result<Text, NoMemory>
    ensures { IfOk result (λ line. line ≡ chars word.now) }
{
    let mut line = empty_line(alloc, columns)?;
    line.add(word)?;
    Ok(line)
}

/// Adds the parts of a word of US-ASCII that are as long as the width, and gives what is left of
/// it.
fn add_parts<'a>(lines: &mut Lines, word: &'a str, width: usize) -> Result<&'a str, NoMemory>
    requires width { 1 ≤ width }
    requires ascii { IsAscii word.now }
    ensures parts { IfOk result (λ rest. (more : List (List ℕ)) →
        lines.new ++ fill width [] (cut_word width (chars rest.now) ++ more)
        ≡ lines.old ++ fill width [] (cut_word width (chars word.now) ++ more)) }
    ensures short { IfOk result (λ rest. length (chars rest.now) ≤ width) }
{
    let mut rest = word;
    while width < rest.len() {
        let (part, after) = rest.split_at(width);
        lines.add(part)?;
        rest = after;
    }
    Ok(rest)
}

/// Adds the parts of a word that are as long as the width, character by character, and gives what
/// is left of it, which begins the next line. A word that is longer than the width has room for a
/// line.
fn add_characters(
    alloc: Global,
    lines: &mut Lines,
    word: &str,
    width: usize,
) -> Result<Text, NoMemory>
    requires { 1 ≤ width }
    ensures { IfOk result (λ last. (more : List (List ℕ)) → lines.new ++ fill width last more
        ≡ lines.old ++ fill width [] (cut_word width (chars word.now) ++ more)) }
{
    let mut part = empty_line(alloc, width)?;
    let mut columns = 0;
    for character in word.chars() {
        if columns == width {
            lines.add(part.as_str())?;
            part = empty_line(alloc, width)?;
            columns = 0;
        }
        part.push(character)?;
        columns += 1;
    }
    Ok(part)
}

/// Adds the parts of a word of so many columns that are as long as the width, and gives what is
/// left of it, which begins the next line.
fn add_cut(
    alloc: Global,
    lines: &mut Lines,
    word: &str,
    columns: usize,
    width: usize,
) -> Result<Text, NoMemory>
    requires width { 1 ≤ width }
    requires columns { columns ≡ length (chars word.now) }
    ensures { IfOk result (λ last. (more : List (List ℕ)) → lines.new ++ fill width last more
        ≡ lines.old ++ fill width [] (cut_word width (chars word.now) ++ more)) }
{
    if columns == word.len() {
        let rest = add_parts(lines, word, width)?;
        return begin_line(alloc, rest, width);
    }
    add_characters(alloc, lines, word, width)
}

/// Whether a line that takes so many columns has room for a word that needs so many.
fn has_room(width: usize, columns: usize, needed: usize) -> bool
    ensures { result ≡ has_room width columns needed }
{
    0 < columns && columns < width && needed < width - columns
}

/// The width of lines, and the bytes of US-ASCII that one of them has at most.
#[derive(Clone, Copy)]
struct Frame {
    width: usize,
    room: usize,
}

/// Begins a line with a word of so many columns, where there is one, after adding the parts of the
/// word that are lines of their own, and gives the columns of the line.
fn begin_word(
    alloc: Global,
    lines: &mut Lines,
    line: &mut Text,
    word: &str,
    needed: usize,
    frame: Frame,
) -> Result<usize, NoMemory>
    requires width { 1 ≤ frame.width }
    requires empty { line.old ≡ [] }
    requires needed { needed ≡ length (chars word.now) }
    ensures columns { IfOk result (λ columns. columns ≡ length line.new) }
    ensures added { OnOk result ((more : List (List ℕ)) →
        lines.new ++ fill frame.width line.new more
        ≡ lines.old ++ fill frame.width []
        (flat_map (cut_word frame.width) (unless_empty (chars word.now)) ++ more)) }
{
    if needed == 0 {
        return Ok(0);
    }
    if needed <= frame.width {
        let begun = begin_line(alloc, word, frame.room)?;
        *line = begun;
        return Ok(needed);
    }
    *line = add_cut(alloc, lines, word, needed, frame.width)?;
    Ok(columns_of(line.as_str()))
}

/// Adds the first line of a text, or begins a line with the words that are found at once, and gives
/// the columns of the line so far and what of the text is left.
fn begin<'a>(
    alloc: Global,
    lines: &mut Lines,
    line: &mut Text,
    text: &'a str,
    frame: Frame,
) -> Result<(usize, &'a str), NoMemory>
    requires width { 1 ≤ frame.width }
    requires empty { line.old ≡ [] }
    requires some { 1 ≤ length text.now }
    ensures columns { IfOk result (λ left. left.0 ≡ length line.new) }
    ensures text { IfOk result (λ left. IsUtf8 left.1.now) }
    ensures shorter { IfOk result (λ left. length left.1.now < length text.now) }
    ensures added { IfOk result (λ left. lines.new ++ fill_text frame.width line.new left.1.now
        ≡ lines.old ++ fill_text frame.width [] text.now) }
{
    if let Some((begun, rest, is_whole)) = first_line(text, frame.width) {
        if is_whole {
            lines.add(begun)?;
            return Ok((0, rest));
        }
        *line = begin_line(alloc, begun, frame.room)?;
        return Ok((begun.len(), rest));
    }
    let (word, needed, rest) = first_word(text);
    let columns = begin_word(alloc, lines, line, word, needed, frame)?;
    Ok((columns, rest))
}

/// Adds the first word of a text to a line of so many columns, or ends the line and begins another,
/// and gives the columns of the line so far and what of the text is left.
fn go_on<'a>(
    alloc: Global,
    lines: &mut Lines,
    line: &mut Text,
    columns: usize,
    text: &'a str,
    frame: Frame,
) -> Result<(usize, &'a str), NoMemory>
    requires width { 1 ≤ frame.width }
    requires columns { columns ≡ length line.old }
    requires some { 1 ≤ length text.now }
    ensures columns { IfOk result (λ left. left.0 ≡ length line.new) }
    ensures text { IfOk result (λ left. IsUtf8 left.1.now) }
    ensures shorter { IfOk result (λ left. length left.1.now < length text.now) }
    ensures added { IfOk result (λ left. lines.new ++ fill_text frame.width line.new left.1.now
        ≡ lines.old ++ fill_text frame.width line.old text.now) }
{
    if columns == 0 {
        return begin(alloc, lines, line, text, frame);
    }
    let (word, needed, rest) = first_word(text);
    if needed == 0 {
        return Ok((columns, rest));
    }
    if has_room(frame.width, columns, needed) {
        line.push(' ')?;
        line.add(word)?;
        return Ok((columns + 1 + needed, rest));
    }
    lines.add(line.as_str())?;
    *line = Text::new(alloc);
    // Only a plain word can be one of several that are taken as a slice.
    if needed == word.len() {
        return begin(alloc, lines, line, text, frame);
    }
    let columns = begin_word(alloc, lines, line, word, needed, frame)?;
    Ok((columns, rest))
}

/// Adds the lines of a text's words, each cut where it is longer than the width.
pub(crate) fn add_filled(
    alloc: Global,
    lines: &mut Lines,
    text: &str,
    width: usize,
) -> Result<(), NoMemory>
    requires { 1 ≤ width }
    ensures { OnOk result (lines.new ≡ lines.old ++ filled width (words_of (chars text.now))) }
{
    let frame = Frame {
        width,
        room: width.min(text.len()),
    };
    let mut line = Text::new(alloc);
    let mut columns = 0;
    let mut rest = text;
    while !rest.is_empty() {
        let (begun, after) = go_on(alloc, lines, &mut line, columns, rest, frame)?;
        columns = begun;
        rest = after;
    }
    add_unless_empty(lines, line.as_str())
}
