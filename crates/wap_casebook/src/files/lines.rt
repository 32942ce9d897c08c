//! The lines of a case.
use crate::files::Case;
use crate::files::case::{add_both, add_spelled, read_mark};
use crate::files::numbers::Subject;
use crate::{CaseFault, Pieces};
use std::alloc::Global;

/// What a line says.
#[derive(Clone, Copy)]
enum Line {
    Case,
    Page,
    Pages,
    Deck,
    Source,
    Word,
    Argument,
    Key,
    Keys,
    Ended,
    Out,
    Bytes,
    Status,
    Unprinted,
    Number(Subject),
    Numbers(Subject),
}

/// What lines begin with.
static LINES: [(&str, Line); 24] = [
    ("case", Line::Case),
    ("pages", Line::Pages),
    ("page", Line::Page),
    ("deck", Line::Deck),
    ("word", Line::Word),
    ("argument", Line::Argument),
    ("key", Line::Key),
    ("keys", Line::Keys),
    ("ended NoMemory", Line::Ended),
    ("store fails", Line::Numbers(Subject::StoreFails)),
    ("source fails", Line::Numbers(Subject::SourceFails)),
    ("source gives", Line::Numbers(Subject::SourceGives)),
    ("sink fails", Line::Numbers(Subject::SinkFails)),
    ("sink takes", Line::Number(Subject::SinkTakes)),
    ("sink holds", Line::Number(Subject::SinkHolds)),
    ("error fails", Line::Numbers(Subject::ErrorFails)),
    ("out", Line::Out),
    ("bytes", Line::Bytes),
    ("status", Line::Status),
    ("asked", Line::Number(Subject::Asked)),
    ("reads", Line::Number(Subject::Reads)),
    ("left", Line::Number(Subject::Left)),
    ("unprinted", Line::Unprinted),
    // After the lines of numbers that begin so.
    ("source", Line::Source),
];

/// What stands after the words that a line begins with, where they are these.
fn rest_behind<'a>(words: &str, line: &'a [u8]) -> Option<&'a [u8]> {
    let rest = line.strip_prefix(words.as_bytes())?;
    if rest.is_empty() {
        return Some(rest);
    }
    rest.strip_prefix(b" ")
}

/// What a line says, and what stands after the words that say it.
fn split_line(line: &[u8]) -> Result<(Line, &[u8]), CaseFault> {
    for (words, known) in &LINES {
        if let Some(rest) = rest_behind(words, line) {
            return Ok((*known, rest));
        }
    }
    Err(CaseFault::Line)
}

/// Reads what stands after the words that a line of a case begins with.
fn read_rest(
    case: &mut Case,
    alloc: Global,
    pieces: &Pieces,
    known: Line,
    rest: &[u8],
) -> Result<(), CaseFault> {
    match known {
        Line::Case => case.read_name(rest),
        Line::Page => case.read_page(alloc, pieces, rest),
        Line::Pages => case.read_pages(alloc, pieces, rest),
        Line::Deck => case.read_text(alloc, rest, true),
        Line::Source => case.read_text(alloc, rest, false),
        Line::Word => case.read_word(alloc, rest),
        Line::Argument => case.read_argument(alloc, pieces, rest),
        Line::Key => add_both(&mut case.keys, rest, b"\n"),
        Line::Keys => add_spelled(&mut case.keys, alloc, pieces, rest),
        Line::Ended => read_mark(&mut case.is_without_memory, rest),
        Line::Out => add_both(&mut case.shown, rest, b"\n"),
        Line::Bytes => add_spelled(&mut case.shown, alloc, pieces, rest),
        Line::Status => case.read_status(rest),
        Line::Unprinted => read_mark(&mut case.is_unprinted, rest),
        Line::Number(subject) => case.numbers.read_one(subject, rest),
        Line::Numbers(subject) => case.numbers.read_several(subject, rest),
    }
}

/// Reads a line of a case.
fn read_line(
    case: &mut Case,
    alloc: Global,
    pieces: &Pieces,
    line: &[u8],
) -> Result<(), CaseFault> {
    if line.starts_with(b" ") {
        return case.read_more(line);
    }
    let (known, rest) = split_line(line)?;
    read_rest(case, alloc, pieces, known, rest)
}

/// Reads a line into the case that it belongs to, or a piece, or a comment. A line that can't be
/// read is kept as the case's fault.
pub fn read(case: &mut Case, alloc: Global, pieces: &mut Pieces, line: &[u8], number: usize) {
    if line.starts_with(b"#") {
        return;
    }
    match rest_behind("piece", line) {
        Some(piece) => {
            if let Err(fault) = pieces.define(alloc, piece) {
                case.note(number, Err(fault));
            }
        }
        None => {
            let read = read_line(case, alloc, pieces, line);
            case.note(number, read);
        }
    }
}
