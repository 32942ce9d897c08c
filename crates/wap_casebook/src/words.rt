//! Words of a line.
ghost use Rattle.std.specs.Prelude.{◌≤◌, length};

use crate::CaseFault;
use crate::quotes::Quotes;
use std::alloc::Global;
use std::str;
use wap_base::Text;

/// The bytes before the first of this byte, and those after it.
pub fn split_by(mark: u8, line: &[u8]) -> (&[u8], &[u8]) {
    let mut rest = line;
    for at in 0..line.len() {
        let [byte, others @ ..] = rest else {
            break;
        };
        if *byte == mark {
            return (line.split_at(at).0, others);
        }
        rest = others;
    }
    (line, rest)
}

/// The bytes before the first blank, and those after it.
pub fn split_word(line: &[u8]) -> (&[u8], &[u8]) {
    split_by(b' ', line)
}

/// Where a blank outside of quotes and parentheses stands first, or the end.
fn value_end(line: &[u8]) -> usize
    ensures { result ≤ length line.now }
{
    let mut quotes = Quotes::new();
    let mut is_in_group = false;
    for (at, byte) in line.iter().enumerate() {
        if quotes.take(*byte) {
            continue;
        }
        match byte {
            b'(' => is_in_group = true,
            b')' => is_in_group = false,
            b' ' if !is_in_group => return at,
            _ => {}
        }
    }
    line.len()
}

/// The value that a line begins with, blanks before it left out, and what follows it.
pub fn split_value(line: &[u8]) -> (&[u8], &[u8]) {
    let mut rest = line;
    for _ in 0..line.len() {
        match rest {
            [b' ', others @ ..] => rest = others,
            _ => break,
        }
    }
    rest.split_at(value_end(rest))
}

/// The text whose UTF-8 the bytes are, where they are.
fn str_of(bytes: &[u8]) -> Result<&str, CaseFault> {
    match str::from_utf8(bytes) {
        Ok(text) => Ok(text),
        Err(_) => Err(CaseFault::Spelling),
    }
}

/// The number that digits spell, with `-` before them where it is below 0.
pub fn number(digits: &[u8]) -> Result<i64, CaseFault> {
    match str_of(digits)?.parse::<i64>() {
        Ok(number) => Ok(number),
        Err(_) => Err(CaseFault::Spelling),
    }
}

/// The number from 0 on that digits spell, in 32 bits.
fn number32(digits: &[u8]) -> Result<u32, CaseFault> {
    match u32::try_from(number(digits)?) {
        Ok(number) => Ok(number),
        Err(_) => Err(CaseFault::Spelling),
    }
}

/// The two numbers of `FROM..TO`.
pub fn range(spelled: &[u8]) -> Result<(u32, u32), CaseFault> {
    let (from, rest) = split_by(b'.', spelled);
    let [b'.', to @ ..] = rest else {
        return Err(CaseFault::Spelling);
    };
    let from = number32(from)?;
    Ok((from, number32(to)?))
}

/// The text whose UTF-8 the bytes are.
pub fn text(alloc: Global, bytes: &[u8]) -> Result<Text, CaseFault> {
    Ok(Text::of(alloc, str_of(bytes)?)?)
}
