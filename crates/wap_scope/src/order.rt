//! Laws of sources, from their tokens to their names. The functions here do nothing, and carry the
//! laws alone.
ghost use Rattle.std.specs.Prelude.{ℕ, List, AllPairs};
ghost use Rattle.wap_lex.specs.declared.token.Token.{Token};
ghost use Rattle.wap_lex.specs.Tokens.{AreTokens};
ghost use Rattle.wap_grammar.specs.Lexemes.{lexemes_of};
ghost use Rattle.wap_grammar.specs.Programs.{Spells};
ghost use Rattle.wap_grammar.specs.declared.program.program.Program.{Program};
ghost use Rattle.wap_scope.specs.Faults.{faults};
ghost use Rattle.wap_scope.specs.Places.{places, IsLeftOf, ComesBefore};

/// The names of a program stand in its source in the order in which they are judged, no two of them
/// at one place, and so do its faults, those at one place in the order in which `ScopeFault` lists
/// them: the first of them is the first of the source.
pub fn parsed_names_ascend()
    ensures names { (src : List ℕ) (tokens : List Token) (p : Program) → AreTokens src tokens
        → Spells src p (lexemes_of src tokens) → AllPairs IsLeftOf (places p) }
    ensures faults { (src : List ℕ) (tokens : List Token) (p : Program) → AreTokens src tokens
        → Spells src p (lexemes_of src tokens) → AllPairs ComesBefore (faults p) }
{}
