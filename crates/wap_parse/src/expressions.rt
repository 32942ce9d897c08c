//! Expressions of WMLScript (WAP-193), read from tokens.
//!
//! Contracts name the reading functions of `wap_grammar`, which its laws tie to the programs that
//! tokens spell. Declarations and pragmas are read here too, for they hold no statements.
//!
//! A string whose bytes stand for no text, since they are not UTF-8 or escape a surrogate, is
//! answered as `NoMemory`. The tokens of a source have no such strings, as a law of `wap_grammar`
//! says (`strings_are_texts`), so for them `NoMemory` comes only where memory runs out.

mod callees;
mod declarations;
mod expressions;
mod lexemes;
mod literals;
mod making;
mod pragmas;
mod steps;
mod strings;
mod texts;
mod words;

pub use declarations::read_variables;
pub use expressions::read_expression;
pub use lexemes::lexemes_of;
pub use making::list_of_one;
pub use pragmas::read_uses;
pub use steps::{close, expect, join, nesting_fault, read_id, syntax_fault};
pub use words::{after, is_comma, is_sign, span_of, word_of};
