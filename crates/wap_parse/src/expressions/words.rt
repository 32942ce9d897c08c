//! What stands first among some tokens.
ghost use Rattle.std.specs.Prelude.{◌≡◌, ◌<◌, ◌≤◌, IfSome};
ghost use Rattle.wap_grammar.specs.Lexemes.{word_of, precedence, sign_of, unary_of, step_of};
ghost use Rattle.wap_grammar.specs.Lexemes.{assignment_of, operator_of, is_sign, is_name};
ghost use Rattle.wap_grammar.specs.Lexemes.{is_text, is_comma, is_equals};
ghost use Rattle.wap_grammar.specs.reading.TokenReading.{span_of, after};
ghost use Rattle.wap_parse.specs.expressions.inside.Climbing.{looser_of};

use wap_grammar::program::Span;
use wap_grammar::{COMMA, Lexeme, Sign, Word};
use wap_value::{BinOp, UnOp};

/// What the first token is.
pub fn word_of(lexemes: &[Lexeme]) -> Word
    ensures { result ≡ word_of lexemes.now }
{
    match lexemes {
        [] => Word::End,
        [first, ..] => first.word,
    }
}

/// Where the first token stands.
pub fn span_of(lexemes: &[Lexeme]) -> Span
    ensures { result ≡ span_of lexemes.now }
{
    match lexemes {
        [] => Span { from: 0, to: 0 },
        [first, ..] => first.span,
    }
}

/// The tokens after the first.
pub fn after(lexemes: &[Lexeme]) -> &[Lexeme]
    ensures { result.now ≡ after lexemes.now }
{
    match lexemes {
        [] => lexemes,
        [_, rest @ ..] => rest,
    }
}

/// Whether a sign stands first.
pub fn is_sign(sign: Sign, lexemes: &[Lexeme]) -> bool
    ensures { result ≡ is_sign sign (word_of lexemes.now) }
{
    match word_of(lexemes) {
        Word::Sign(other) => sign == other,
        _ => false,
    }
}

/// Whether a name stands first.
pub(crate) fn is_name(lexemes: &[Lexeme]) -> bool
    ensures { result ≡ is_name (word_of lexemes.now) }
{
    match word_of(lexemes) {
        Word::Name => true,
        _ => false,
    }
}

/// Whether a string stands first.
pub(crate) fn is_text(lexemes: &[Lexeme]) -> bool
    ensures { result ≡ is_text (word_of lexemes.now) }
{
    match word_of(lexemes) {
        Word::Str => true,
        _ => false,
    }
}

/// Whether a comma stands first.
pub fn is_comma(lexemes: &[Lexeme]) -> bool
    ensures { result ≡ is_comma (word_of lexemes.now) }
{
    match word_of(lexemes) {
        Word::Operator(BinOp::Comma) => true,
        _ => false,
    }
}

/// Whether `=` stands first.
pub(crate) fn is_equals(lexemes: &[Lexeme]) -> bool
    ensures { result ≡ is_equals (word_of lexemes.now) }
{
    match word_of(lexemes) {
        Word::Assign(None) => true,
        _ => false,
    }
}

/// The unary operator that a word may be.
pub(crate) fn unary_of(word: Word) -> Option<UnOp>
    ensures { result ≡ unary_of word }
{
    match word {
        Word::Unary(op) => Some(op),
        Word::Operator(BinOp::Add) => Some(UnOp::Plus),
        Word::Operator(BinOp::Sub) => Some(UnOp::Minus),
        _ => None,
    }
}

/// The `++` or `--` that a word may be: whether it is `++`.
pub(crate) fn step_of(word: Word) -> Option<bool>
    ensures { result ≡ step_of word }
{
    match word {
        Word::Step(up) => Some(up),
        _ => None,
    }
}

/// The operator of an assignment that a word may be.
pub(crate) fn assignment_of(word: Word) -> Option<Option<BinOp>>
    ensures { result ≡ assignment_of word }
{
    match word {
        Word::Assign(op) => Some(op),
        _ => None,
    }
}

/// The operator of a level of precedence that a word may be.
pub(crate) fn operator_of(level: u8, word: Word) -> Option<BinOp>
    ensures { result ≡ operator_of level word }
{
    match word {
        Word::Operator(op) if precedence(op) == level => Some(op),
        _ => None,
    }
}

/// The level of the operator that a word may be, if it is looser than one level and no looser than
/// another.
pub(crate) fn looser_of(from: u8, level: u8, word: Word) -> Option<u8>
    ensures value { result ≡ looser_of from level word }
    ensures within { IfSome result (λ found. (from < found) × (found ≤ level)) }
{
    match word {
        Word::Operator(op) => {
            let found = precedence(op);
            if from < found && found <= level {
                Some(found)
            } else {
                None
            }
        }
        _ => None,
    }
}

/// The level of precedence of an operator.
fn precedence(op: BinOp) -> u8
    ensures { result ≡ precedence op }
{
    match op {
        BinOp::Mul | BinOp::Div | BinOp::IDiv | BinOp::Rem => 1,
        BinOp::Add | BinOp::Sub => 2,
        BinOp::Shl | BinOp::Shr | BinOp::UShr => 3,
        BinOp::Lt | BinOp::Le | BinOp::Gt | BinOp::Ge => 4,
        BinOp::Eq | BinOp::Ne => 5,
        BinOp::BitAnd => 6,
        BinOp::BitXor => 7,
        BinOp::BitOr => 8,
        BinOp::And => 9,
        BinOp::Or => 10,
        BinOp::Comma => COMMA,
    }
}
