//! Statements (WAP-193, section 6.5).
use crate::program::boxed::Boxed;
use crate::program::expression::Expr;
use crate::program::program::{Id, Span};
use wap_base::Rows;

/// A statement.
#[derive(Drop)]
pub enum Stmt {
    /// `;`
    Empty,
    Expr(Expr),
    Block(Rows<Stmt>),
    /// `var`, with what each name begins with.
    Vars(Rows<(Id, Option<Expr>)>),
    /// The condition, what is done where it holds, and what is done else.
    If(Expr, Boxed<Stmt>, Option<Boxed<Stmt>>),
    While(Expr, Boxed<Stmt>),
    /// What is done first (an expression, `var` or nothing), the condition, what is done after
    /// each turn, and the body.
    For(Boxed<Stmt>, Option<Expr>, Option<Expr>, Boxed<Stmt>),
    /// `break`, by its word.
    Break(Span),
    /// `continue`, by its word.
    Continue(Span),
    Return(Option<Expr>),
}
