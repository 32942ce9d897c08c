//! What follows from the definitions that the contracts cite, for the crates that cite them too.
//! None of these functions does anything.
ghost use Rattle.std.specs.Prelude.{◌≡◌, ◌≤◌, ℕ, List};
ghost use Rattle.std.specs.List.{concat};
ghost use Rattle.wap_layout.specs.declared.flow.Flow.{Flow};
ghost use Rattle.wap_layout.specs.Pieces.{merged, pieces_of};
ghost use Rattle.wap_layout.specs.Layout.{AllFit, IsFilled};
ghost use Rattle.wap_layout.specs.Calculation.{HoldsInOrder, cut_word, lines_of};

/// No line that words are filled on is longer than the width.
#[tactic(auto, using(crate::proofs::Unique::fits_law))]
pub fn no_line_is_longer()
    ensures { (width : ℕ) (words lines : List (List ℕ))
        → IsFilled width words lines → AllFit width lines }
{}

/// Words stand on one list of lines.
#[tactic(auto, using(crate::proofs::Unique::unique_law))]
pub fn lines_are_unique()
    ensures { (width : ℕ) (words lines others : List (List ℕ))
        → IsFilled width words lines → IsFilled width words others → lines ≡ others }
{}

/// On the lines stand the words in order, each whole or in its parts, with a space between any two.
#[tactic(auto, using(crate::proofs::Groups::IsFilled_law))]
pub fn no_word_is_lost()
    ensures { (width : ℕ) (words lines : List (List ℕ))
        → 1 ≤ width → IsFilled width words lines → HoldsInOrder width words lines }
{}

/// The parts that a word is cut into are the word.
#[tactic(auto, using(crate::proofs::Groups::concat_law))]
pub fn parts_are_the_word()
    ensures { (width : ℕ) (word : List ℕ) → 1 ≤ width → concat (cut_word width word) ≡ word }
{}

/// However the texts of a flow are cut, and whether empty ones stand among them, its pieces and its
/// lines are the same.
#[tactic(auto, using(crate::proofs::Merging::pieces_law, crate::proofs::Merging::lines_law))]
pub fn neighbouring_texts_are_one()
    ensures pieces { (flow : List Flow) → pieces_of (merged flow) ≡ pieces_of flow }
    ensures lines { (width : ℕ) (flow : List Flow)
        → lines_of width (merged flow) ≡ lines_of width flow }
{}
