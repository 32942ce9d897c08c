//! Mending a deck.
ghost use Rattle.std.specs.Prelude.{◌≡◌, ◌≢◌, [], Ok, Err, None, IfOk, OnOk, IfSome};
ghost use Rattle.wap_base.specs.Outcome.{Meets};
ghost use Rattle.wap_tokens.specs.markup.Cards.{cards_of};
ghost use Rattle.wap_tokens.specs.markup.Good.{IsGood};
ghost use Rattle.wap_tokens.specs.markup.Normal.{IsNormal};
ghost use Rattle.wap_wbxml.specs.declared.fault.DocFault.{DocFault};
ghost use Rattle.wap_mend.specs.Mending.{IsMended};
ghost use Rattle.wap_mend.specs.inside.Frames.{IsStill};

use crate::change::{Change, What};
use crate::notes::Notes;
use crate::root::made_deck;
use std::alloc::Global;
use wap_base::{NoMemory, Rows};
use wap_deckcheck::{DeckFault, judge_deck};
use wap_tokens::markup::Deck;
use wap_wbxml::DocFault;

/// A good deck, and what was changed for it, in the order of the document that was given.
#[derive(Drop)]
pub(crate) struct Mended {
    pub deck: Deck,
    pub changes: Rows<Change>,
}

/// Why a page isn't mended.
#[derive(Drop)]
pub enum MendFault {
    /// The bytes are no document.
    Document(DocFault),
    /// There is no card.
    NoCard,
    /// Memory ran out, which says nothing of the page.
    NoMemory,
}

impl From<NoMemory> for MendFault {
    ghost use Rattle.std.specs.Prelude.{◌≡◌};
    ghost use Rattle.wap_mend.specs.declared.mending.MendFault.TheVariants.{NoMemory};

    ghost from_gives = { λ _ fault. fault ≡ NoMemory };

    fn from(_error: NoMemory) -> MendFault {
        MendFault::NoMemory
    }
}

/// Notes that a deck is put together anew, if nothing else is noted.
#[tactic(auto, using(crate::proofs::Loads::still_refl))]
fn note_any(alloc: Global, notes: &mut Notes) -> Result<(), NoMemory>
    ensures still { OnOk result (IsStill notes.old.changes notes.new.changes) }
    ensures noted { OnOk result (notes.new.changes ≢ []) }
{
    if notes.changes.is_empty() {
        return notes.note(alloc, What::Anew);
    }
    Ok(())
}

/// A deck as a good one, and what was changed, at least that it was put together anew.
fn mend_bad(alloc: Global, deck: &Deck) -> Result<Mended, MendFault>
    requires { IsNormal deck.now }
    ensures mended { IfOk result (IsMended deck.now) }
    ensures no_card { result ≡ Err MendFault.NoCard → cards_of deck.now ≡ [] }
    ensures read { (fault : DocFault) → result ≢ Err (MendFault.Document fault) }
{
    let mut notes = Notes::new(alloc);
    let Some(made) = made_deck(alloc, &mut notes, deck)? else {
        return Err(MendFault::NoCard);
    };
    note_any(alloc, &mut notes)?;
    let Notes { changes, .. } = notes;
    Ok(Mended {
        deck: made,
        changes,
    })
}

/// A deck that isn't good as a good one, by the rules of docs/PAGES.md, and what was changed; of
/// one that is good none.
pub(crate) fn mend(alloc: Global, deck: &Deck) -> Result<Option<Mended>, MendFault>
    requires { IsNormal deck.now }
    ensures good { result ≡ Ok None → IsGood deck.now }
    ensures kept { IsGood deck.now → Meets MendFault.NoMemory (λ mended. mended) result (Ok None) }
    ensures mended { IfOk result (λ mended. IfSome mended (IsMended deck.now)) }
    ensures no_card { result ≡ Err MendFault.NoCard → cards_of deck.now ≡ [] }
    ensures read { (fault : DocFault) → result ≢ Err (MendFault.Document fault) }
{
    match judge_deck(alloc, deck) {
        Ok(()) => Ok(None),
        Err(DeckFault::NoMemory) => Err(MendFault::NoMemory),
        Err(_) => Ok(Some(mend_bad(alloc, deck)?)),
    }
}
