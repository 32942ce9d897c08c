//! What follows from the definitions that the contracts cite, for the crates that cite them too.
//! None of these functions does anything.
ghost use Rattle.std.specs.Prelude.{◌≡◌, ℕ, List, Some};
ghost use Rattle.wap_libs.specs.declared.piece.Piece.{Piece};
ghost use Rattle.wap_libs.specs.FormatGrammar.{IsFormat};
ghost use Rattle.wap_libs.specs.FormatReading.{pieces_of};

/// The pieces of a format by calculation are those that its grammar gives it.
#[tactic(auto, using(crate::proofs::TextsLemmas::Grammar::pieces_of_format, crate::proofs::TextsLemmas::Grammar::format_of_pieces))]
pub fn calculation_is_the_grammar()
    ensures reads { (text : List ℕ) (pieces : List Piece)
        → IsFormat text pieces → pieces_of text ≡ Some pieces }
    ensures spells { (text : List ℕ) (pieces : List Piece)
        → pieces_of text ≡ Some pieces → IsFormat text pieces }
{}
