//! Source programs, and which of them tokens spell.
//!
//! - `program`: The types of programs as WMLScript sources spell them (WAP-193), each name with its
//!   place.
#![tactic(auto)]

mod callee;
mod fault;
mod laws;
mod lexeme;
mod precedence;
pub mod program;
mod start;
mod word;
mod words;

pub use callee::Callee;
pub use fault::ParseFault;
pub use laws::{one_program, one_text, strings_are_texts, words_are_listed};
pub use lexeme::Lexeme;
pub use precedence::{ASSIGNMENT, COMMA, CONDITIONAL, LEVEL_LIMIT, UNARY};
pub use start::Start;
pub use word::{Sign, Word};
pub use words::WORDS;
