//! A page as one with a good deck.
ghost use Rattle.std.specs.Prelude.{◌≡◌, ◌≢◌};
ghost use Rattle.wap_devices.specs.Transfer.{Appends};
ghost use Rattle.wap_pages.specs.declared.fault.PageFault.{PageFault};
ghost use Rattle.wap_explain.specs.Mending.{ending_of, IsMendingOf, IsMendingOfAny, Mends};

use crate::changes::lines_of;
use crate::ending::Ending;
use std::alloc::Global;
use wap_base::Text;
use wap_deckcheck::DeckFault;
use wap_devices::{Failed, Fetched, Sink, Store, StoreErr, write_all};
use wap_mend::{MendFault, MendedPage, mend_page};
use wap_pages::PageFault;

/// How a run ends where a page isn't mended.
fn ending_of(fault: MendFault) -> Ending
    ensures { result ≡ ending_of fault }
{
    match fault {
        MendFault::Document(fault) => Ending::Refused(PageFault::Document(fault)),
        MendFault::NoCard => Ending::Refused(PageFault::Deck(DeckFault::NoCard)),
        MendFault::NoMemory => Ending::NoMemory,
    }
}

/// Writes a mended page's bytes, and to `said` a line for each change.
fn write_mended<O: Sink, E: Sink>(
    alloc: Global,
    page: &MendedPage,
    out: &mut O,
    said: &mut E,
) -> Ending
    ensures good { result ≡ Ending.Good
        → Appends (O.seen out.old).taken (O.seen out.new).taken page.now.bytes }
    ensures refused { (fault : PageFault) → result ≢ Ending.Refused fault }
{
    let Ok(lines) = lines_of(alloc, page) else {
        return Ending::NoMemory;
    };
    if write_all(out, page.bytes.as_slice()).is_err() {
        return Ending::WriteFault;
    }
    match write_all(said, lines.as_bytes()) {
        Ok(()) => Ending::Good,
        Err(Failed) => Ending::WriteFault,
    }
}

/// Writes the page with these bytes as one with a good deck.
fn mend_bytes<O: Sink, E: Sink>(alloc: Global, bytes: &[u8], out: &mut O, said: &mut E) -> Ending
    ensures { IsMendingOf bytes.now (O.seen out.old) (O.seen out.new) result }
{
    match mend_page(alloc, bytes) {
        Ok(page) => write_mended(alloc, &page, out, said),
        Err(fault) => ending_of(fault),
    }
}

/// Writes what the store answered for a name as a page with a good deck.
fn mend_any<O: Sink, E: Sink>(alloc: Global, page: &Fetched, out: &mut O, said: &mut E) -> Ending
    ensures { IsMendingOfAny page.now (O.seen out.old) (O.seen out.new) result }
{
    match page {
        Fetched::Missing => Ending::Refused(PageFault::Missing),
        Fetched::Found(bytes) => mend_bytes(alloc, bytes.as_slice(), out, said),
    }
}

/// Writes the page of a name as one with a good deck, and to `said` a line for each change.
#[tactic(auto, using(wap_devices::proofs::Telling::grew_nothing))]
pub(crate) fn mend<S: Store, O: Sink, E: Sink>(
    alloc: Global,
    name: &Text,
    store: &mut S,
    out: &mut O,
    said: &mut E,
) -> Ending
    ensures { Mends name.now (S.seen store.old) (S.seen store.new) (O.seen out.old)
        (O.seen out.new) result }
{
    match store.fetch(name) {
        Ok(page) => mend_any(alloc, &page, out, said),
        Err(StoreErr::Failed) => Ending::StoreFault,
        Err(StoreErr::NoMemory) => Ending::NoMemory,
    }
}

/// Writes the line of a page that isn't mended.
pub(crate) fn print_refusal<E: Sink>(ending: &Ending, said: &mut E) -> Result<(), Failed> {
    let Ending::Refused(fault) = ending else {
        return Ok(());
    };
    write_all(said, b"wap_explain: refused ")?;
    fault.print(said)?;
    write_all(said, b"\n")
}
