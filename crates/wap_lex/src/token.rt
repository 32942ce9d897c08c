//! Tokens.

/// A token of a source.
#[derive(Clone, Copy)]
pub struct Token {
    /// What it is.
    pub kind: Kind,
    /// The place of its first byte.
    pub from: u32,
    /// The place after its last byte.
    pub to: u32,
}

/// What a token is.
#[derive(Clone, Copy)]
pub enum Kind {
    Name,
    /// A word that is no name.
    Reserved,
    /// An integer up to 2147483647.
    Int,
    Float,
    Str,
    /// An operator, a separator or a bracket.
    Mark,
}
