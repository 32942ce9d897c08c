//! Bytes in base 16, with a mark at one of them.
use crate::pieces::{Added, ShownBytes, margin};
use std::fmt::Write;

/// How many bytes stand on a line.
const WIDTH: usize = 16;

/// How many lines stand before the one with the mark, and after it.
const AROUND: usize = 2;

/// Adds a line of bytes, with its place and with the characters that they would be.
fn add_row(out: &mut String, row: &[u8], from: usize, marked: bool) -> Added {
    write!(out, "{}{from:>8}", margin(marked))?;
    for byte in row {
        write!(out, " {byte:02X}")?;
    }
    for _ in row.len()..WIDTH {
        out.push_str("   ")?;
    }
    Ok(write!(out, "  {}\n", ShownBytes(row))?)
}

/// Adds the lines of bytes around a place, with a mark under the byte there.
pub(crate) fn add_bytes_around(out: &mut String, bytes: &[u8], at: usize) -> Added {
    let at = at.min(bytes.len().saturating_sub(1));
    let marked = at / WIDTH;
    for (number, row) in bytes.chunks(WIDTH).enumerate() {
        if number.abs_diff(marked) <= AROUND {
            add_row(out, row, number.saturating_mul(WIDTH), number == marked)?;
        }
        if number == marked {
            let end = at % WIDTH * 3 + 13;
            write!(out, "{:>end$}\n", "^^")?;
        }
    }
    Ok(())
}
