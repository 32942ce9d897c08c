//! What statements begin with.

/// What a statement begins with (WAP-193, section 6.5): a sign of its own, or else an expression.
#[derive(Clone, Copy)]
pub enum Start {
    Empty,
    Block,
    Vars,
    If,
    While,
    For,
    Break,
    Continue,
    Return,
    Expression,
}
