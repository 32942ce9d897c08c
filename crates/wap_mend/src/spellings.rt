//! The bytes of a page that was mended.
ghost use Rattle.std.specs.Prelude.{◌≡◌, IfOk};
ghost use Rattle.wap_tokens.specs.declared.markup.document.Document.{Document};
ghost use Rattle.wap_tokens.specs.markup.Documents.{IsDocument};
ghost use Rattle.wap_tokens.specs.markup.Decks.{deck_of};
ghost use Rattle.wap_tokens.specs.markup.Good.{IsGood};
ghost use Rattle.wap_tokens.specs.markup.Normal.{IsNormal};
ghost use Rattle.wap_wbxml.specs.spelling.Spelling.{spelling};
ghost use Rattle.wap_tokens.specs.declared.markup.deck.Deck.{Deck};
ghost use Rattle.wap_deck.specs.reading.Meanings.{IsMeant};
ghost use Rattle.wap_mend.specs.Pages.{IsGoodPage};

use std::alloc::Global;
use wap_base::{Bytes, NoMemory};
use wap_deck::writing::{spell, written_decks_are_meant};
use wap_tokens::markup::Deck;
use wap_wbxml::decode;
use wap_wbxml::spelling::{decks_are_spellable, documents_are_spellable, encode, spelling_is_read};

/// The one spelling of bytes that are a document.
#[tactic(auto, using(crate::proofs::Canonical::same_spelling, crate::proofs::Telling::meant_by_spelling))]
pub(crate) fn canonical(alloc: Global, bytes: &[u8]) -> Result<Bytes, NoMemory>
    requires { (d : Document) × IsDocument bytes.now d × IsGood (deck_of d) }
    ensures good { IfOk result IsGoodPage }
    ensures same { (d : Document) → IsDocument bytes.now d → IfOk result (λ own. own ≡ spelling d) }
    ensures meant { (deck : Deck) → IsMeant bytes.now deck
        → IfOk result (λ own. IsMeant own deck) }
{
    documents_are_spellable(bytes);
    spelling_is_read();
    match decode(alloc, bytes) {
        Ok(document) => encode(alloc, &document),
        Err(_) => Err(NoMemory),
    }
}

/// The bytes that spell a good deck.
#[tactic(auto, using(crate::proofs::Telling::meant_by_spelling))]
pub(crate) fn spelled(alloc: Global, deck: &Deck) -> Result<Bytes, NoMemory>
    requires normal { IsNormal deck.now }
    requires good { IsGood deck.now }
    ensures good { IfOk result IsGoodPage }
    ensures meant { IfOk result (λ bytes. IsMeant bytes deck.now) }
{
    decks_are_spellable();
    written_decks_are_meant();
    spelling_is_read();
    spell(alloc, deck)
}
