//! What follows from the definitions that the contracts cite, for the crates that cite them too.
//! None of these functions does anything.
ghost use Rattle.std.specs.Prelude.{◌≡◌, ◌≢◌, ℕ, List, ◌++◌, Some, None};
ghost use Rattle.wap_base.specs.declared.name.Part.{Part};
ghost use Rattle.wap_vars.specs.Variables.{text_of, updated, removed, AreInOrder};
ghost use Rattle.wap_vars.specs.Filling.{filled};

/// An update is read back under its name, and touches no other.
#[tactic(auto, using(crate::proofs::UpdateLaws::updated_here, crate::proofs::UpdateLaws::updated_elsewhere, crate::proofs::UpdateLaws::updated_in_order))]
pub fn what_is_set_is_read()
    ensures here { (vars : List (List ℕ × List ℕ)) (name text : List ℕ)
        → text_of (updated vars name text) name ≡ Some text }
    ensures elsewhere { (vars : List (List ℕ × List ℕ)) (name text other : List ℕ)
        → other ≢ name → text_of (updated vars name text) other ≡ text_of vars other }
    ensures ordered { (vars : List (List ℕ × List ℕ)) (name text : List ℕ)
        → AreInOrder vars → AreInOrder (updated vars name text) }
{}

/// A name that is removed is not set, and no other is touched.
#[tactic(auto, using(crate::proofs::RemovalLaws::removed_here, crate::proofs::RemovalLaws::removed_elsewhere))]
pub fn what_is_removed_is_not_set()
    ensures here { (vars : List (List ℕ × List ℕ)) (name : List ℕ)
        → AreInOrder vars → text_of (removed vars name) name ≡ None }
    ensures elsewhere { (vars : List (List ℕ × List ℕ)) (name other : List ℕ)
        → AreInOrder vars → other ≢ name → text_of (removed vars name) other ≡ text_of vars other }
{}

/// A value is filled part by part.
#[tactic(auto, using(crate::proofs::FillLaws::filled_append))]
pub fn values_are_filled_part_by_part()
    ensures { (vars : List (List ℕ × List ℕ)) (front rest : List Part)
        → filled vars (front ++ rest) ≡ filled vars front ++ filled vars rest }
{}
