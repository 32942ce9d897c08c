//! The limits of variables, which are this project's own.

/// How many variables are kept at most.
pub const VAR_LIMIT: usize = 1024;

/// How many bytes of UTF-8 a variable's text has at most.
pub const TEXT_LIMIT: usize = 65_535;
