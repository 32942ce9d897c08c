//! How many bytes are read.

/// The most bytes of a line, its carriage return counted.
pub const LINE_LIMIT: usize = 4096;

/// The most bytes of all lines together.
pub const KEYS_LIMIT: usize = 1 << 20;

/// The most bytes that one read takes.
pub const PIECE_LIMIT: usize = 4096;
