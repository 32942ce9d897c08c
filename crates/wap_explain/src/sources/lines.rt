//! The lines of a source, and a mark under a place. Lines end in a line feed.
use crate::pieces::{Added, Shown, ShownBytes, margin};
use crate::sources::places::{place_of, width_of};
use std::fmt::Write;
use std::str;

/// How many lines stand before the one with the mark, and after it.
const AROUND: usize = 2;

/// Adds a line with its number.
fn add_line(out: &mut String, line: &[u8], number: usize, marked: bool) -> Added {
    write!(out, "{}{number:>4} | ", margin(marked))?;
    Ok(match str::from_utf8(line) {
        Ok(text) => write!(out, "{}\n", Shown(text))?,
        Err(_) => write!(out, "{}\n", ShownBytes(line))?,
    })
}

/// Adds a line whose marks, one at least, stand under the characters after some others.
fn add_mark(out: &mut String, before: usize, width: usize) -> Added {
    out.push_str("         ")?;
    for _ in 0..before {
        out.push_str(" ")?;
    }
    for _ in 0..width.max(1) {
        out.push_str("^")?;
    }
    Ok(out.push_str("\n")?)
}

/// Adds the lines around a place, with marks from there up to another.
pub(crate) fn add_lines_around(out: &mut String, source: &[u8], from: usize, to: usize) -> Added {
    let place = place_of(source, from);
    let width = width_of(source.get(from..to).unwrap_or(&[]));
    let text = match source.strip_suffix(b"\n") {
        Some(text) if from < source.len() => text,
        _ => source,
    };
    for (index, line) in text.split(|byte| *byte == b'\n').enumerate() {
        let number = index.saturating_add(1);
        if number.abs_diff(place.line) <= AROUND {
            add_line(out, line, number, number == place.line)?;
        }
        if number == place.line {
            add_mark(out, place.before, width)?;
        }
    }
    Ok(())
}

/// Adds all lines.
pub(crate) fn add_all_lines(out: &mut String, source: &[u8]) -> Added {
    let source = source.strip_suffix(b"\n").unwrap_or(source);
    for (index, line) in source.split(|byte| *byte == b'\n').enumerate() {
        add_line(out, line, index.saturating_add(1), false)?;
    }
    Ok(())
}

/// Adds where bytes are no UTF-8, if they aren't.
pub(crate) fn add_text_fault(out: &mut String, bytes: &[u8]) -> Added {
    let Err(error) = str::from_utf8(bytes) else {
        return Ok(());
    };
    let at = error.valid_up_to();
    let place = place_of(bytes, at);
    write!(
        out,
        "at {place}\nThis byte is of no character in UTF-8. Save the text as UTF-8.\n\n"
    )?;
    add_lines_around(out, bytes, at, at)
}
