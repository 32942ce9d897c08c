//! A document that was cut where its reading stopped, and ended there.
use crate::documents::header::after_identifier;
use crate::documents::words::fault_words;
use std::alloc::Global;
use wap_base::{Bytes, NoMemory};
use wap_pages::{PageErr, PageFault, deck_in};
use wap_tokens::markup::{Deck, END, WML_1_1};

/// How many elements and lists of attributes are ended, which is more than can be open.
const ENDS: usize = 130;

/// How often a document is cut at an earlier place, before it is given up.
const CUTS: u32 = 4;

/// The deck of bytes, or where their reading stopped.
fn read_cut(alloc: Global, bytes: &[u8]) -> Result<Result<Deck, usize>, NoMemory> {
    match deck_in(alloc, bytes) {
        Ok(deck) => Ok(Ok(deck)),
        Err(PageErr::Refused(PageFault::Document(fault))) => Ok(Err(fault_words(fault).0)),
        Err(_) => Err(NoMemory),
    }
}

/// The deck of a document whose public identifier were that of WML 1.1.
pub(crate) fn deck_as_wml(alloc: Global, bytes: &[u8]) -> Result<Option<Deck>, NoMemory> {
    let (Some(version), Some(rest)) = (bytes.first(), after_identifier(bytes)) else {
        return Ok(None);
    };
    let mut changed = Bytes::of(alloc, &[*version, WML_1_1 as u8])?;
    changed.add(rest)?;
    Ok(read_cut(alloc, changed.as_slice())?.ok())
}

/// The deck of the bytes before a place, with the end of a string if one is open there, and with
/// ends; those that are too many are left out.
fn deck_before(
    alloc: Global,
    bytes: &[u8],
    at: usize,
    in_string: bool,
) -> Result<Result<Deck, usize>, NoMemory> {
    let mut cut = Bytes::of(alloc, bytes.get(..at).unwrap_or(bytes))?;
    if in_string {
        cut.push(0)?;
    }
    cut.add(&[END; ENDS])?;
    match read_cut(alloc, cut.as_slice())? {
        Err(end) if end >= at => read_cut(alloc, cut.as_slice().get(..end).unwrap_or(&[])),
        read => Ok(read),
    }
}

/// The deck of the bytes before a place, or before an earlier one, where there is one.
pub(crate) fn deck_up_to(alloc: Global, bytes: &[u8], at: usize) -> Result<Option<Deck>, NoMemory> {
    let mut at = at;
    for _ in 0..CUTS {
        let mut earlier = at;
        for in_string in [false, true] {
            match deck_before(alloc, bytes, at, in_string)? {
                Ok(deck) => return Ok(Some(deck)),
                Err(place) => earlier = earlier.min(place),
            }
        }
        at = earlier;
    }
    Ok(None)
}
