//! Levels of precedence, from 0, the tightest (WAP-193, section 6.3.12), and of nesting.

/// Unary operators, calls, variables, literals and parentheses.
pub const UNARY: u8 = 0;
/// `?:`, looser than the operators of two operands, which have the levels from 1 to 10.
pub const CONDITIONAL: u8 = 11;
/// Assignments.
pub const ASSIGNMENT: u8 = 12;
/// The comma, the loosest.
pub const COMMA: u8 = 13;

/// The deepest level at which a part of a program may stand.
pub const LEVEL_LIMIT: u32 = 64;
