//! What follows from the definitions that the contracts cite, for the crates that cite them too.
//! None of these functions does anything.
ghost use Rattle.std.specs.Prelude.{◌≡◌, ◌↔◌, ℕ, List, IsTrue};
ghost use Rattle.wap_mask.specs.declared.symbol.Symbol.{Symbol};
ghost use Rattle.wap_mask.specs.Texts.{IsTaken};
ghost use Rattle.wap_mask.specs.Grammar.{IsMask, any_text};
ghost use Rattle.wap_mask.specs.Calculation.{mask_of, is_taken};

/// `*M`, which an ill-formed text is read as, takes every text.
#[tactic(auto, using(crate::proofs::Membership::any_text_is_taken))]
pub fn any_text_takes_every_text()
    ensures { (text : List ℕ) → IsTaken any_text text }
{}

/// A text is the mask of one list of symbols at most.
#[tactic(auto, using(crate::proofs::Membership::IsMask_unique))]
pub fn a_text_is_one_mask()
    ensures { (text : List ℕ) (symbols others : List Symbol)
        → IsMask text symbols → IsMask text others → symbols ≡ others }
{}

/// What is read and tested by calculation is membership in the mask's set.
#[tactic(auto, using(crate::proofs::Membership::IsTaken_of_read))]
pub fn calculation_is_membership()
    ensures { (format text : List ℕ)
        → IsTrue (is_taken (mask_of format) text) ↔ IsTaken (mask_of format) text }
{}
