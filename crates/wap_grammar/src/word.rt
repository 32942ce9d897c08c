//! What tokens are to the grammar.
use wap_value::{BinOp, UnOp};

/// What a token is to the grammar.
#[derive(Clone, Copy)]
pub enum Word {
    /// After the last token.
    End,
    Name,
    Int,
    Float,
    Str,
    True,
    False,
    Invalid,
    /// An operator of two operands; `+` and `-` are unary operators too.
    Operator(BinOp),
    /// `~`, `!`, `typeof` or `isvalid`.
    Unary(UnOp),
    /// `++` where it holds, else `--`.
    Step(bool),
    /// `=`, or an operator and `=`.
    Assign(Option<BinOp>),
    Sign(Sign),
    /// A reserved word that stands in no program.
    Unused,
}

/// A bracket, a separator, or a word of statements, functions and pragmas.
#[derive(Clone, Copy, PartialEq, Eq)]
pub enum Sign {
    /// `?`
    Question,
    /// `:`
    Colon,
    /// `;`
    Semicolon,
    /// `.`
    Dot,
    /// `#`
    Hash,
    /// `(`
    Open,
    /// `)`
    Close,
    /// `{`
    OpenBlock,
    /// `}`
    CloseBlock,
    Access,
    Agent,
    Break,
    Continue,
    Domain,
    Else,
    Equiv,
    Extern,
    For,
    Function,
    Http,
    If,
    Meta,
    /// The word `name`.
    NameWord,
    Path,
    Return,
    Url,
    Use,
    User,
    Var,
    While,
}
