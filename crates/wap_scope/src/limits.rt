//! What a compiled unit has one byte to count (WAP-193, section 9).

/// How many variables and parameters a function may have.
pub const VARIABLE_LIMIT: usize = 255;

/// How many functions a program may have.
pub const FUNCTION_LIMIT: usize = 255;

/// How many arguments a function of another unit may be called with.
pub const ARGUMENT_LIMIT: usize = 255;
