//! Printing why a deck isn't good.
ghost use Rattle.wap_devices.specs.Sinks.{Puts};
ghost use Rattle.wap_pages.specs.Printing.{deck_text};

use crate::printing::print_at;
use wap_deckcheck::DeckFault;
use wap_devices::{Failed, Sink, print_name};

pub(crate) fn print_deck_fault<O: Sink>(out: &mut O, fault: &DeckFault) -> Result<(), Failed>
    ensures { Puts (deck_text fault.now) (O.seen out.old) (O.seen out.new) result }
{
    match fault {
        DeckFault::Child { path } => print_at(out, b"Child", path.as_slice()),
        DeckFault::Attr { path } => print_at(out, b"Attr", path.as_slice()),
        DeckFault::Missing { path } => print_at(out, b"Missing", path.as_slice()),
        DeckFault::Value { path } => print_at(out, b"Value", path.as_slice()),
        DeckFault::DuplicateId { path } => print_at(out, b"DuplicateId", path.as_slice()),
        DeckFault::NoCard => print_name(out, "NoCard"),
        DeckFault::NoMemory => print_name(out, "NoMemory"),
    }
}
