//! Tokens as the grammar sees them.
ghost use Rattle.std.specs.Prelude.{◌≡◌, IfOk, map, unwrap_or};
ghost use Rattle.std.specs.Map.{lookup};
ghost use Rattle.wap_base.specs.Texts.{is_same_text};
ghost use Rattle.wap_grammar.specs.Lexemes.{word_spelled, text_in, lexeme_of, lexemes_of};
ghost use Rattle.wap_grammar.specs.declared.word.Word.TheVariants.{Unused};

use std::alloc::Global;
use wap_base::{NoMemory, Rows};
use wap_grammar::program::Span;
use wap_grammar::{Lexeme, WORDS, Word};
use wap_lex::{Kind, Token};

/// The tokens of a source as the grammar sees them.
pub fn lexemes_of(alloc: Global, src: &[u8], tokens: &[Token]) -> Result<Rows<Lexeme>, NoMemory>
    ensures { IfOk result (λ lexemes. lexemes ≡ lexemes_of src.now tokens.now) }
{
    let mut lexemes = Rows::from_vec(Vec::with_capacity(alloc, tokens.len())?);
    for token in tokens {
        lexemes.add(lexeme_of(src, *token))?;
    }
    Ok(lexemes)
}

/// A token as the grammar sees it.
fn lexeme_of(src: &[u8], token: Token) -> Lexeme
    ensures { result ≡ lexeme_of src.now token }
{
    let span = Span {
        from: token.from,
        to: token.to,
    };
    let word = match token.kind {
        Kind::Name => Word::Name,
        Kind::Reserved | Kind::Mark => word_spelled(text_in(src, span)),
        Kind::Int => Word::Int,
        Kind::Float => Word::Float,
        Kind::Str => Word::Str,
    };
    Lexeme { word, span }
}

/// The bytes of a part of the source.
pub(crate) fn text_in(src: &[u8], span: Span) -> &[u8]
    ensures { result.now ≡ text_in src.now span }
{
    let from = (span.from as usize).min(src.len());
    let len = (span.to as usize).saturating_sub(span.from as usize);
    let (_, rest) = src.split_at(from);
    let (text, _) = rest.split_at(len.min(rest.len()));
    text
}

/// What a mark or reserved word is.
#[tactic(auto, unfolding(wap_grammar::specs::Lexemes::word_spelled, wap_grammar::specs::Lexemes::word_rows))]
fn word_spelled(text: &[u8]) -> Word
    ensures { result ≡ word_spelled text.now }
{
    word_among(text, &WORDS)
}

/// The word of the first of some rows that has a spelling.
fn word_among(text: &[u8], rows: &[(&[u8], Word)]) -> Word
    ensures { result ≡ unwrap_or (lookup (is_same_text text.now)
        (map (λ row. (row.0.now, row.1)) rows.now)) Unused }
{
    for (spelling, word) in rows {
        if text == *spelling {
            return *word;
        }
    }
    Word::Unused
}
