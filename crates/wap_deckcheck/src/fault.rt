//! Why a deck isn't good.
ghost use Rattle.std.specs.Prelude.{◌≡◌, ◌≢◌};
ghost use Rattle.wap_deckcheck.specs.inside.Kinds.{fault_of};

use std::alloc::Global;
use wap_base::{NoMemory, Rows};

/// A fault of a deck. The path leads to it by the numbers of children, from 0, texts included; the
/// empty path is the root's.
#[derive(Debug, Drop, PartialEq, Eq)]
pub enum DeckFault {
    /// A node or a text may not stand at its place, or the root isn't wml.
    Child { path: Rows<usize> },
    /// An attribute stands twice.
    Attr { path: Rows<usize> },
    /// An attribute, a task or a child is missing that has to be there.
    Missing { path: Rows<usize> },
    /// The value of an attribute isn't one that it may have.
    Value { path: Rows<usize> },
    /// An earlier card has this id, or an earlier do of the card or template this name.
    DuplicateId { path: Rows<usize> },
    /// There is no card.
    NoCard,
    /// Memory ran out, which says nothing of the deck.
    NoMemory,
}

impl From<NoMemory> for DeckFault {
    ghost use Rattle.std.specs.Prelude.{◌≡◌};
    ghost use Rattle.wap_deckcheck.specs.declared.fault.DeckFault.TheVariants.{NoMemory};

    ghost from_gives = { λ _ fault. fault ≡ NoMemory };

    fn from(_error: NoMemory) -> DeckFault {
        DeckFault::NoMemory
    }
}

/// What is wrong at a path.
#[derive(Clone, Copy)]
pub enum Kind {
    Child,
    Attr,
    Missing,
    Value,
    DuplicateId,
}

/// The fault of a kind at a path, a copy of which it keeps.
pub(crate) fn fault_at(alloc: Global, kind: Kind, path: &Rows<usize>) -> DeckFault
    ensures { result ≢ DeckFault.NoMemory → result ≡ fault_of kind path.now }
{
    match Rows::of(alloc, path.as_slice()) {
        Ok(path) => match kind {
            Kind::Child => DeckFault::Child { path },
            Kind::Attr => DeckFault::Attr { path },
            Kind::Missing => DeckFault::Missing { path },
            Kind::Value => DeckFault::Value { path },
            Kind::DuplicateId => DeckFault::DuplicateId { path },
        },
        Err(NoMemory) => DeckFault::NoMemory,
    }
}
