//! Reading a deck from the left.
ghost use Rattle.std.specs.Prelude.{◌≡◌, ◌≢◌, IfOk, IfErr, Ok, Err};
ghost use Rattle.wap_base.specs.Outcome.{Meets};
ghost use Rattle.wap_tokens.specs.declared.markup.document.Document.{Document};
ghost use Rattle.wap_tokens.specs.markup.Decks.{deck_of};
ghost use Rattle.wap_tokens.specs.markup.Documents.{IsDocument};
ghost use Rattle.wap_tokens.specs.markup.Normal.{IsNormal};
ghost use Rattle.wap_wbxml.specs.declared.fault.DocFault.{DocFault};
ghost use Rattle.wap_wbxml.specs.declared.fault.DocFault.TheVariants.{NoMemory};
ghost use Rattle.wap_wbxml.specs.Refusal.{IsRefused};
ghost use Rattle.wap_deck.specs.reading.Meanings.{IsMeant, deck_at};

use crate::reading::builder::Decks;
use std::alloc::Global;
use wap_tokens::markup::{Deck, DocumentType};
use wap_wbxml::{DocFault, read};

/// The deck of the document that the bytes spell, or the first thing in them, from the left, that
/// can't stand where it does. The document itself isn't built.
pub fn read_deck(alloc: Global, bytes: &[u8]) -> Result<Deck, DocFault>
    // What is read is what the bytes mean, and what they mean is read, unless memory runs out.
    ensures found { IfOk result (λ deck. IsMeant bytes.now deck) }
    ensures only { (document : Document) → IsDocument bytes.now document
        → Meets NoMemory (λ deck. deck) result (Ok (deck_of document)) }

    // Each fault but out of memory says what is refused, and what is refused is that fault.
    ensures refused { IfErr result (λ fault. fault ≢ NoMemory → IsRefused bytes.now fault) }
    ensures first { (fault : DocFault) → IsRefused bytes.now fault
        → Meets NoMemory (λ deck. deck) result (Err fault) }

    ensures normal { IfOk result IsNormal }
    ensures exact { Meets NoMemory (λ deck. deck) result (deck_at bytes.now) }
{
    read::<Decks>(alloc, DocumentType::Wml, bytes)
}
