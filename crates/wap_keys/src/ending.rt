//! What comes next, and how keys come to an end.
use crate::{Key, KeyFault};

/// How keys came to an end.
#[derive(Clone, Copy, Debug, PartialEq, Eq)]
pub enum Ending {
    /// All lines are key lines.
    End,
    /// A line is no key line; lines are counted from 1.
    BadKey { line: u32, fault: KeyFault },
    /// There is a byte past the limit.
    TooManyKeys,
    /// The source failed.
    ReadFault,
}

/// What comes next.
#[derive(Debug, Drop)]
pub enum Next {
    Key(Key),
    Ended(Ending),
}

/// The same, be it a key or something beside keys.
#[derive(Drop)]
pub(crate) enum Step<T> {
    Said(T),
    Ended(Ending),
}
