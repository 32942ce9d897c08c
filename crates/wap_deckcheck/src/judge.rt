//! Whether a deck is good, and what is wrong with it if not.
ghost use Rattle.std.specs.Prelude.{◌≡◌, ◌≢◌, [], Some, IfOk, OnOk, IfErr};
ghost use Rattle.wap_tokens.specs.markup.Good.{IsGood};
ghost use Rattle.wap_tokens.specs.markup.Normal.{IsNormal};
ghost use Rattle.wap_deckcheck.specs.Faults.{faults, first_fault};

use crate::DeckFault;
use crate::walk::walk_deck;
use std::alloc::Global;
use wap_base::NoMemory;
use wap_deck::good::GoodDeck;
use wap_tokens::markup::Deck;

/// The deck as a good one, or the first of its faults (WAP-191, section 11). Nodes and texts come
/// in the order of the document, a node before what is in it; at one the kinds of faults come in
/// the order Child, Attr, Missing, Value, DuplicateId, and NoCard comes last. A deck that is
/// refused comes back.
pub fn check(alloc: Global, deck: Deck) -> Result<GoodDeck, (Deck, DeckFault)>
    requires { IsNormal deck }
    ensures same { IfOk result (λ good. good ≡ deck) }
    ensures good { OnOk result (IsGood deck) }
    ensures faultless { OnOk result (faults deck ≡ []) }
    ensures back { IfErr result (λ refused. refused.0 ≡ deck) }
    ensures first { IfErr result (λ refused. refused.1 ≢ DeckFault.NoMemory
        → first_fault (faults deck) ≡ Some refused.1) }
    ensures bad { IfErr result (λ refused. refused.1 ≢ DeckFault.NoMemory → ¬ IsGood deck) }
{
    match judge_deck(alloc, &deck) {
        Ok(()) => as_good(alloc, deck),
        Err(fault) => Err((deck, fault)),
    }
}

/// Whether a deck is good, or else the first of its faults, in the order in which `check` tells
/// them. Nothing is kept of the deck.
#[tactic(auto, using(crate::proofs::GoodDecks::good_without_faults))]
pub fn judge_deck(alloc: Global, deck: &Deck) -> Result<(), DeckFault>
    requires { IsNormal deck.now }
    ensures good { OnOk result (IsGood deck.now) }
    ensures faultless { OnOk result (faults deck.now ≡ []) }
    ensures first { IfErr result (λ fault. fault ≢ DeckFault.NoMemory
        → first_fault (faults deck.now) ≡ Some fault) }
    ensures bad { IfErr result (λ fault. fault ≢ DeckFault.NoMemory → ¬ IsGood deck.now) }
{
    walk_deck(alloc, deck)
}

/// A good deck, kept.
fn as_good(alloc: Global, deck: Deck) -> Result<GoodDeck, (Deck, DeckFault)>
    requires normal { IsNormal deck }
    requires good { IsGood deck }
    ensures same { IfOk result (λ good. good ≡ deck) }
    ensures back { IfErr result (λ refused. refused.0 ≡ deck) }
    ensures memory { IfErr result (λ refused. refused.1 ≡ DeckFault.NoMemory) }
{
    match GoodDeck::new(alloc, deck) {
        Ok(good) => Ok(good),
        Err((deck, NoMemory)) => Err((deck, DeckFault::NoMemory)),
    }
}
