//! The listing of a unit, with what its operands name behind each instruction.
use crate::pieces::{Added, margin};
use crate::units::notes::add_note;
use std::alloc::Global;
use std::fmt::Write;
use std::str;
use wap_asm::{read_row, row_of};
use wap_base::NoMemory;
use wap_devices::{Draft, Failed};
use wap_dis::listing;
use wap_unit::{Instr, Row, Unit};

/// How many lines stand before the one with the mark, and after it.
const AROUND: usize = 8;

/// The line that is to be marked.
#[derive(Drop)]
pub(crate) struct Mark {
    /// How many functions are begun there.
    pub(crate) functions: usize,
    /// How it begins.
    pub(crate) beginning: String,
}

/// The listing that `list` writes.
fn listing_of(alloc: Global, unit: &Unit) -> Result<Draft, NoMemory> {
    let mut draft = Draft::new(alloc);
    match listing(unit, &mut draft) {
        Ok(()) => Ok(draft),
        Err(Failed) => Err(NoMemory),
    }
}

/// How many functions are begun at a line, where there were so many before it.
fn functions_at(functions: usize, line: &str) -> usize {
    functions.saturating_add(usize::from(line.starts_with("function ")))
}

/// The instruction that a line shows, with its row and its place, by which the line begins.
fn instruction_of(unit: &Unit, functions: usize, line: &str) -> Option<(Row, Instr, usize)> {
    let code = unit
        .functions
        .get(functions.checked_sub(1)?)?
        .code
        .as_slice();
    let (place, rest) = line.split_once(' ')?;
    let at = place.parse::<usize>().ok()?;
    if at >= code.len() || rest.starts_with("BYTE ") {
        return None;
    }
    let row = row_of(code[at])?;
    Some((row, read_row(row, code, at).ok()?, at))
}

/// The number of the line that is to be marked.
fn find_mark(text: &str, mark: &Mark) -> Option<usize> {
    let mut functions = 0;
    for (number, line) in text.lines().enumerate() {
        functions = functions_at(functions, line);
        if functions == mark.functions && line.starts_with(mark.beginning.as_str()) {
            return Some(number);
        }
    }
    None
}

/// Adds the listing, or where there is a line to be marked those around it.
pub(crate) fn add_unit(alloc: Global, out: &mut String, unit: &Unit, mark: Option<&Mark>) -> Added {
    let draft = listing_of(alloc, unit)?;
    let text = str::from_utf8(draft.as_bytes()).unwrap_or("");
    let marked = mark.and_then(|mark| find_mark(text, mark));
    let mut functions = 0;
    for (number, line) in text.lines().enumerate() {
        functions = functions_at(functions, line);
        if mark.is_none() || number.abs_diff(marked.unwrap_or(0)) <= AROUND {
            write!(out, "{}{line}", margin(marked == Some(number)))?;
            if let Some((row, instr, at)) = instruction_of(unit, functions, line) {
                add_note(out, unit, &row, &instr, at)?;
            }
            out.push_str("\n")?;
        }
    }
    Ok(())
}
