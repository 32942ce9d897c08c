//! What is laid out.

use wap_base::Text;

/// A part of a card's content (WAP-191, section 11.8).
#[derive(Drop)]
pub enum Flow {
    /// Text, which goes on with the text after it.
    Words(Text),
    /// The end of a line: `br`.
    Hard,
    /// The end of a piece, which leaves no empty line.
    Soft,
    /// What follows is wrapped, as it is at first.
    Wrap,
    /// What follows is not wrapped: `mode="nowrap"`.
    NoWrap,
    /// What follows keeps its blanks: `pre`.
    Pre,
}

/// How a piece of a flow is laid out.
#[derive(Clone, Copy)]
pub enum Mode {
    /// On lines of the width.
    Wrapped,
    /// On one line.
    Unwrapped,
    /// On one line, blanks kept.
    Preformatted,
}

/// How a piece ends.
#[derive(Clone, Copy)]
pub enum Ending {
    /// With an empty line where the piece has no lines.
    Hard,
    /// With no empty line.
    Soft,
}
