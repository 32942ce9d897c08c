//! The program that tokens spell, and the call that a fragment is.
//!
//! - `expressions`: Expressions of WMLScript (WAP-193), read from tokens. Contracts name the
//!   reading functions of `wap_grammar`, which its laws tie to the programs that tokens spell.
//! - `invocation`: Calls in the fragments of URLs (WAP-193, section 8.3): which function of a
//!   script a go to its page starts, and with which arguments.
#![tactic(auto)]

mod clauses;
pub mod expressions;
mod functions;
pub mod invocation;
mod making;
mod programs;
mod starts;
mod statements;

pub use programs::parse;
pub use wap_grammar::ParseFault;
pub use wap_grammar::program::{Boxed, Expr, Function, Id, Literal, Program, Span, Stmt, Use};
