//! The tokens of WMLScript (WAP-193, section 6.1): names, reserved words, literals and marks, each
//! the longest that begins at its place, with white space and comments between them.
#![tactic(auto)]

mod class;
mod comments;
mod fault;
mod first;
mod laws;
mod lexer;
mod marks;
mod numbers;
mod shape;
mod strings;
mod token;
mod words;

pub use fault::LexFault;
pub use laws::{faults_have_no_tokens, tokens_are_one_list};
pub use lexer::lex;
pub use numbers::integer_of;
pub use shape::Shape;
pub use token::{Kind, Token};
