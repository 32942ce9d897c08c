//! Tokens as the grammar sees them.
use crate::program::Span;
use crate::word::Word;

/// A token: what it is to the grammar, and where it stands.
#[derive(Clone, Copy)]
pub struct Lexeme {
    pub word: Word,
    pub span: Span,
}
