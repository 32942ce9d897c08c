//! Why bytes are no document, in words.
use crate::decks::{add_deck, last_path};
use crate::documents::header::{add_charset, add_version};
use crate::documents::hexadecimal::add_bytes_around;
use crate::documents::identifier::add_identifier;
use crate::documents::partial::{deck_as_wml, deck_up_to};
use crate::pieces::Added;
use std::alloc::Global;
use std::fmt::Write;
use wap_wbxml::DocFault;

/// The place of a fault, and what is wrong there, but of a header, of which other words are said.
pub(crate) fn fault_words(fault: DocFault) -> (usize, &'static str) {
    match fault {
        DocFault::Version | DocFault::NoMemory => (0, ""),
        DocFault::PublicId => (1, ""),
        DocFault::Charset => (2, ""),
        DocFault::Short { at } => (at, "The document ends too early: more has to follow.\n"),
        DocFault::Number { at } => (at, "A number begins here that is past 4294967295.\n"),
        DocFault::Token { at } => (at, "No such byte can stand here.\n"),
        DocFault::Index { at } => (
            at,
            "It calls for a string behind the end of the string table.\n",
        ),
        DocFault::Text { at } => (
            at,
            "The string is no text in the document's character set.\n",
        ),
        DocFault::Depth { at } => (
            at,
            "An element stands here in 64 others; 64 levels are read.\n",
        ),
        DocFault::Table { at } => (at, "The names of the document take too many bytes.\n"),
        DocFault::Rest { at } => (
            at,
            "The document ends before this byte, and more follows.\n",
        ),
    }
}

/// Adds the document as far as it could be read, with a mark at what was read last.
fn add_part(alloc: Global, out: &mut String, bytes: &[u8], at: usize) -> Added {
    let Some(deck) = deck_up_to(alloc, bytes, at)? else {
        return Ok(());
    };
    out.push_str("\nAs far as it could be read, with a mark at what was read last:\n\n")?;
    let path = last_path(alloc, &deck.root)?;
    add_deck(out, &deck, Some(path.as_slice()))
}

/// Adds the deck that a document would be with the public identifier of WML.
fn add_as_wml(alloc: Global, out: &mut String, bytes: &[u8]) -> Added {
    let Some(deck) = deck_as_wml(alloc, bytes)? else {
        return Ok(());
    };
    out.push_str("\nWith 04 there it would be:\n\n")?;
    add_deck(out, &deck, None)
}

/// Adds why bytes are no document, those around the place, and what could be read.
pub(crate) fn add_document_fault(
    alloc: Global,
    out: &mut String,
    bytes: &[u8],
    fault: DocFault,
) -> Added {
    let (at, words) = fault_words(fault);
    match bytes.get(at) {
        Some(byte) => write!(out, "at byte {at}, which is {byte:02X}\n{words}")?,
        None => write!(out, "at byte {at}, the end\n{words}")?,
    }
    match fault {
        DocFault::Version => add_version(out, bytes)?,
        DocFault::PublicId => add_identifier(out, bytes)?,
        DocFault::Charset => add_charset(out, bytes)?,
        _ => {}
    }
    out.push_str("\n")?;
    add_bytes_around(out, bytes, at)?;
    match fault {
        DocFault::PublicId => add_as_wml(alloc, out, bytes),
        _ => add_part(alloc, out, bytes, at),
    }
}
