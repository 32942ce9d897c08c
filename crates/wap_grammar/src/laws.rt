//! What holds of the grammar. The functions here do nothing, and carry the laws alone.
ghost use Rattle.std.specs.Prelude.{◌≡◌, ℕ, List, All, map};
ghost use Rattle.wap_lex.specs.declared.token.Token.{Token};
ghost use Rattle.wap_lex.specs.declared.token.Kind.TheVariants.{Str};
ghost use Rattle.wap_lex.specs.Tokens.{AreTokens};
ghost use Rattle.wap_grammar.specs.declared.lexeme.Lexeme.{Lexeme};
ghost use Rattle.wap_grammar.specs.Programs.{Spells};
ghost use Rattle.wap_grammar.specs.Strings.{StandsForText};
ghost use Rattle.wap_grammar.specs.Values.{text_of};
ghost use Rattle.wap_grammar.specs.Lexemes.{word_rows, text_in, lexeme_of};
ghost use Rattle.wap_grammar.specs.declared.program.program.Program.{Program};

use crate::WORDS;

/// No tokens are spelled by two programs.
pub fn one_program()
    ensures { (src : List ℕ) (lexemes : List Lexeme) (p q : Program) →
        Spells src p lexemes → Spells src q lexemes → p ≡ q }
{}

/// Each string among the tokens of a source stands for a text, the one that is read from it, so
/// none is refused for its bytes.
pub fn strings_are_texts()
    ensures { (src : List ℕ) (tokens : List Token) → AreTokens src tokens →
        All (λ token. token.kind ≡ Str → StandsForText (text_in src (lexeme_of src token).span)
        (text_of src (lexeme_of src token).span)) tokens }
{}

/// A string stands for no two texts.
pub fn one_text()
    ensures { (bytes s t : List ℕ) → StandsForText bytes s → StandsForText bytes t → s ≡ t }
{}

/// The table of words in the code is that of the definitions.
#[tactic(auto, unfolding(crate::specs::Lexemes::word_rows))]
pub fn words_are_listed()
    ensures { map (λ row. (row.0.now, row.1)) WORDS ≡ word_rows }
{}
