//! Mending the bytes of a page.
ghost use Rattle.std.specs.Prelude.{◌≡◌, ◌≢◌, [], Ok, Err, IfOk};
ghost use Rattle.wap_base.specs.Outcome.{Meets};
ghost use Rattle.wap_tokens.specs.declared.markup.document.Document.{Document};
ghost use Rattle.wap_tokens.specs.markup.Documents.{IsDocument};
ghost use Rattle.wap_tokens.specs.markup.Cards.{cards_of};
ghost use Rattle.wap_tokens.specs.markup.Decks.{deck_of};
ghost use Rattle.wap_tokens.specs.markup.Good.{IsGood};
ghost use Rattle.wap_tokens.specs.markup.Normal.{IsNormal};
ghost use Rattle.wap_wbxml.specs.declared.fault.DocFault.{DocFault};
ghost use Rattle.wap_wbxml.specs.Refusal.{IsRefused};
ghost use Rattle.wap_wbxml.specs.spelling.Spelling.{spelling};
ghost use Rattle.wap_deck.specs.reading.Meanings.{IsMeant};
ghost use Rattle.wap_mend.specs.Pages.{IsGoodPage, IsReadAs, IsGivenBy};
ghost use Rattle.wap_mend.specs.Pages.{IsNoDocument, HasNoCard, IsTold};

use crate::change::Change;
use crate::identifier::{known, with_identifier};
use crate::mending::{MendFault, mend};
use crate::spellings::{canonical, spelled};
use std::alloc::Global;
use wap_base::{Bytes, Rows};
use wap_deck::reading::read_deck;
use wap_tokens::markup::Deck;
use wap_wbxml::DocFault;

/// A page that was mended.
#[derive(Drop)]
pub struct MendedPage {
    /// The deck that was given.
    pub given: Deck,
    /// A good deck's bytes.
    pub bytes: Bytes,
    /// What was changed, in the order of the document that was given.
    pub changes: Rows<Change>,
}

/// The page of bytes that mean a deck, mended.
#[tactic(auto, using(crate::proofs::Telling::told_kept, crate::proofs::Telling::told_mended))]
fn mend_read(alloc: Global, bytes: &[u8], deck: Deck) -> Result<MendedPage, MendFault>
    requires meant { IsMeant bytes.now deck }
    requires normal { IsNormal deck }
    ensures given { IfOk result (λ page. page.given ≡ deck) }
    ensures good { IfOk result (λ page. IsGoodPage page.bytes) }
    ensures told { IfOk result IsTold }
    ensures kept { (d : Document) → IsDocument bytes.now d → IsGood deck
        → Meets MendFault.NoMemory (λ page. page) result
        (Ok (record { given = deck; bytes = spelling d; changes = [] })) }
    ensures same { (d : Document) → IsDocument bytes.now d
        → IfOk result (λ page. page.changes ≡ [] → page.bytes ≡ spelling d) }
    ensures no_card { result ≡ Err MendFault.NoCard → cards_of deck ≡ [] }
    ensures read { (fault : DocFault) → result ≢ Err (MendFault.Document fault) }
{
    match mend(alloc, &deck)? {
        None => Ok(MendedPage {
            given: deck,
            bytes: canonical(alloc, bytes)?,
            changes: Rows::new(alloc),
        }),
        Some(mended) => Ok(MendedPage {
            given: deck,
            bytes: spelled(alloc, &mended.deck)?,
            changes: mended.changes,
        }),
    }
}

/// A page of which other bytes are read, mended.
#[tactic(auto, using(crate::proofs::Causes::other_refused, crate::proofs::Causes::other_without_card, crate::proofs::Causes::other_given))]
fn mend_as(alloc: Global, bytes: &[u8], other: &[u8]) -> Result<MendedPage, MendFault>
    requires { IsReadAs bytes.now other.now }
    ensures good { IfOk result (λ page. IsGoodPage page.bytes) }
    ensures told { IfOk result IsTold }
    ensures given { IfOk result (λ page. IsGivenBy bytes.now page.given) }
    ensures document { (fault : DocFault) → result ≡ Err (MendFault.Document fault)
        → IsNoDocument bytes.now fault }
    ensures no_card { result ≡ Err MendFault.NoCard → HasNoCard bytes.now }
{
    match read_deck(alloc, other) {
        Ok(deck) => mend_read(alloc, other, deck),
        Err(DocFault::NoMemory) => Err(MendFault::NoMemory),
        Err(fault) => Err(MendFault::Document(fault)),
    }
}

/// The page of bytes that are refused for their identifier, mended.
#[tactic(auto, using(crate::proofs::Causes::own_refused, crate::proofs::Causes::other_is_read, crate::proofs::Telling::told_with))]
fn mend_other(alloc: Global, bytes: &[u8]) -> Result<MendedPage, MendFault>
    requires { IsRefused bytes.now DocFault.PublicId }
    ensures good { IfOk result (λ page. IsGoodPage page.bytes) }
    ensures told { IfOk result IsTold }
    ensures given { IfOk result (λ page. IsGivenBy bytes.now page.given) }
    ensures changed { IfOk result (λ page. page.changes ≢ []) }
    ensures document { (fault : DocFault) → result ≡ Err (MendFault.Document fault)
        → IsNoDocument bytes.now fault }
    ensures no_card { result ≡ Err MendFault.NoCard → HasNoCard bytes.now }
{
    let Some(other) = known(alloc, bytes)? else {
        return Err(MendFault::Document(DocFault::PublicId));
    };
    let page = mend_as(alloc, bytes, other.as_slice())?;
    Ok(MendedPage {
        given: page.given,
        bytes: page.bytes,
        changes: with_identifier(alloc, page.changes)?,
    })
}

/// A page as one with a good deck, by the rules of docs/PAGES.md, and what was changed. One whose
/// deck is good comes back in its one spelling.
#[tactic(auto, using(crate::proofs::Causes::own_refused, crate::proofs::Causes::own_without_card, crate::proofs::Causes::own_given))]
pub fn mend_page(alloc: Global, bytes: &[u8]) -> Result<MendedPage, MendFault>
    // What comes back is the one spelling of a document with a good deck, so that it stays when it
    // is mended again. It is made of what was given: its texts are some of those, in their order,
    // and its elements, but for paragraphs, some of those, with their attributes; what isn't there
    // is what changes say is lost, and an attribute that wasn't given is one that they say came.
    ensures good { IfOk result (λ page. IsGoodPage page.bytes) }
    ensures told { IfOk result IsTold }
    ensures given { IfOk result (λ page. IsGivenBy bytes.now page.given) }

    // Of a document with a good deck nothing is changed, and where nothing was, the bytes are the
    // document's one spelling.
    ensures kept { (d : Document) → IsDocument bytes.now d → IsGood (deck_of d)
        → Meets MendFault.NoMemory (λ page. page) result
        (Ok (record { given = deck_of d; bytes = spelling d; changes = [] })) }
    ensures same { (d : Document) → IsDocument bytes.now d
        → IfOk result (λ page. page.changes ≡ [] → page.bytes ≡ spelling d) }

    // Each answer but out of memory has its cause.
    ensures document { (fault : DocFault) → result ≡ Err (MendFault.Document fault)
        → IsNoDocument bytes.now fault }
    ensures no_card { result ≡ Err MendFault.NoCard → HasNoCard bytes.now }
{
    match read_deck(alloc, bytes) {
        Ok(deck) => mend_read(alloc, bytes, deck),
        Err(DocFault::PublicId) => mend_other(alloc, bytes),
        Err(DocFault::NoMemory) => Err(MendFault::NoMemory),
        Err(fault) => Err(MendFault::Document(fault)),
    }
}
