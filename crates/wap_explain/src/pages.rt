//! The text that is shown of a page.
ghost use Rattle.std.specs.Prelude.{◌<◌, ◌^◌, length};

use crate::decks::{add_deck, add_deck_fault};
use crate::documents::add_document_fault;
use crate::pieces::{Added, Shown};
use crate::sources::{add_all_lines, add_source_fault, add_text_fault};
use crate::units::{add_unit, add_unit_fault, add_verify_fault};
use std::alloc::Global;
use std::fmt::Write;
use wap_base::{NoMemory, Text};
use wap_pages::{Kind, PageErr, PageFault, deck_in, unit_in};

/// What bytes are that were read before, so that memory alone can be missing.
fn again<T: Drop>(read: Result<T, PageErr>) -> Result<T, NoMemory> {
    read.map_err(|_| NoMemory)
}

/// Adds a good page.
fn add_good(alloc: Global, out: &mut String, name: &Text, bytes: &[u8]) -> Added
    requires { length bytes.now < 2 ^ 31 }
{
    let kind = Kind::of(name);
    out.push_str(match kind {
        Kind::Deck => "ok deck\n\n",
        Kind::Words => "ok text\n\n",
        Kind::Unit => "ok unit\n\n",
        Kind::Source => "ok source\n\n",
    })?;
    match kind {
        Kind::Deck => add_deck(out, &again(deck_in(alloc, bytes))?, None),
        Kind::Unit => add_unit(alloc, out, &again(unit_in(alloc, bytes))?, None),
        Kind::Words | Kind::Source => add_all_lines(out, bytes),
    }
}

/// The document in which the rule stands that a fault is against.
fn rules_of(fault: &PageFault) -> &'static str {
    match fault {
        PageFault::Source(_) | PageFault::Unit(_) | PageFault::Verify(_) => "docs/SCRIPTS.md",
        _ => "docs/PAGES.md",
    }
}

/// Adds why a page is refused.
fn add_reason(
    alloc: Global,
    out: &mut String,
    name: &Text,
    bytes: &[u8],
    fault: &PageFault,
) -> Added
    requires { length bytes.now < 2 ^ 31 }
{
    match fault {
        PageFault::Missing => Ok(write!(
            out,
            "There is no page {} in the folder.\n\
             A page is a file below it: that of http://HOST/PATH is HOST/PATH, without query.\n",
            Shown(name.as_str())
        )?),
        PageFault::Document(fault) => add_document_fault(alloc, out, bytes, *fault),
        PageFault::Deck(fault) => {
            add_deck_fault(alloc, out, &again(deck_in(alloc, bytes))?, fault)
        }
        PageFault::Source(fault) => add_source_fault(alloc, out, bytes, *fault),
        PageFault::Unit(fault) => add_unit_fault(out, bytes, *fault),
        PageFault::Verify(fault) => {
            add_verify_fault(alloc, out, &again(unit_in(alloc, bytes))?, *fault)
        }
        PageFault::NotText => add_text_fault(out, bytes),
        PageFault::Image(_) | PageFault::Save(_) | PageFault::NotDeck => Ok(()),
    }
}

/// What is said of a page that is good or has a fault, after the line with the fault's name.
pub(crate) fn text_of(
    alloc: Global,
    name: &Text,
    bytes: &[u8],
    fault: &Option<PageFault>,
) -> Result<String, NoMemory>
    requires { length bytes.now < 2 ^ 31 }
{
    let mut out = String::new(alloc);
    match fault {
        None => add_good(alloc, &mut out, name, bytes)?,
        Some(fault) => {
            write!(out, "rules: {}\n", rules_of(fault))?;
            add_reason(alloc, &mut out, name, bytes, fault)?;
        }
    }
    Ok(out)
}
