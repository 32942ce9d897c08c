//! What good decks and faults have to do with each other, and that the rules are those that are
//! listed. The functions here do nothing, and carry the laws alone.
ghost use Rattle.std.specs.Prelude.{◌≡◌, ◌↔◌, []};
ghost use Rattle.wap_tokens.specs.declared.markup.deck.Deck.{Deck};
ghost use Rattle.wap_tokens.specs.markup.Good.{IsGood, rules};
ghost use Rattle.wap_tokens.specs.markup.Normal.{IsNormal};
ghost use Rattle.wap_deckcheck.specs.Faults.{faults};
ghost use Rattle.wap_deckcheck.specs.Order.{FaultsAscend};
ghost use Rattle.wap_deckcheck.specs.Profile.{profile};

/// Good decks are those without faults.
pub fn good_is_faultless()
    ensures { (deck : Deck) → IsNormal deck → IsGood deck ↔ (faults deck ≡ []) }
{}

/// The faults of a deck come in the order of the document: at a node before those in it, and at
/// a child before those at the children after it.
#[tactic(auto, using(crate::proofs::Ascending::faults_ascend))]
pub fn faults_ascend()
    ensures { (deck : Deck) → FaultsAscend deck }
{}

/// The rules of the code are those of the definitions.
pub fn rules_are_listed()
    ensures { rules ≡ profile }
{}
