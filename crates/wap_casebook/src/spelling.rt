//! Bytes and texts as lines spell them.
ghost use Rattle.std.specs.Prelude.{◌<◌, length, IfSome};

use crate::items::Items;
use crate::quotes::Quotes;
use crate::words::text;
use crate::{CaseFault, Pieces};
use std::alloc::Global;
use wap_base::{Bytes, Text};

/// Where the parenthesis stands that ends a group.
fn group_end(spelled: &[u8]) -> Option<usize>
    ensures { IfSome result (λ at. at < length spelled.now) }
{
    let mut quotes = Quotes::new();
    for (at, byte) in spelled.iter().enumerate() {
        if !quotes.take(*byte) && *byte == b')' {
            return Some(at);
        }
    }
    None
}

/// A group up to its parenthesis, and what follows that; both are empty where it has none.
fn split_group(spelled: &[u8]) -> (&[u8], &[u8]) {
    match group_end(spelled) {
        Some(end) => {
            let (group, rest) = spelled.split_at(end);
            (group, rest.split_at(1).1)
        }
        None => (b"", b""),
    }
}

/// The bytes that a line spells: pairs of hexadecimal digits, `"texts"`, `[pieces]` and groups
/// `(FROM..TO items)`, with blanks between them or not. `#4` is the number in four digits.
pub fn spelled_bytes(
    alloc: Global,
    pieces: &Pieces,
    line: &[u8],
    number: Option<u32>,
) -> Result<Bytes, CaseFault> {
    let mut items = Items::new(alloc, number);
    let mut rest = line;
    for _ in 0..line.len() {
        match rest {
            [b'(', behind @ ..] if items.is_between() => {
                let (group, others) = split_group(behind);
                items.take_group(pieces, group);
                rest = others;
            }
            [byte, others @ ..] => {
                items.take(pieces, *byte);
                rest = others;
            }
            [] => break,
        }
    }
    items.finish()
}

/// The text whose UTF-8 a line spells.
pub fn spelled_text(
    alloc: Global,
    pieces: &Pieces,
    line: &[u8],
    number: Option<u32>,
) -> Result<Text, CaseFault> {
    text(
        alloc,
        spelled_bytes(alloc, pieces, line, number)?.as_slice(),
    )
}
