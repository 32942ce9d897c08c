//! The types of programs as WMLScript sources spell them (WAP-193), each name with its place.

mod boxed;
mod expression;
mod program;
mod statement;

pub use boxed::Boxed;
pub use expression::{Expr, Literal};
pub use program::{Function, Id, Program, Span, Use};
pub use statement::Stmt;
