//! What statements begin with (WAP-193, section 6.5).
ghost use Rattle.std.specs.Prelude.{◌≡◌};
ghost use Rattle.wap_grammar.specs.Lexemes.{start_of};

use wap_grammar::{Sign, Start, Word};

/// What a statement begins with.
pub(crate) fn start_of(word: Word) -> Start
    ensures { result ≡ start_of word }
{
    match word {
        Word::Sign(Sign::Semicolon) => Start::Empty,
        Word::Sign(Sign::OpenBlock) => Start::Block,
        Word::Sign(Sign::Var) => Start::Vars,
        Word::Sign(Sign::If) => Start::If,
        Word::Sign(Sign::While) => Start::While,
        Word::Sign(Sign::For) => Start::For,
        Word::Sign(Sign::Break) => Start::Break,
        Word::Sign(Sign::Continue) => Start::Continue,
        Word::Sign(Sign::Return) => Start::Return,
        _ => Start::Expression,
    }
}
