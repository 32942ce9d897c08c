//! The size of a screen.

/// How many characters a line of a screen has at most.
pub const COLUMNS: usize = 20;
