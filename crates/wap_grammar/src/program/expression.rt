//! Expressions (WAP-193, section 6.3).
use crate::program::boxed::Boxed;
use crate::program::program::Id;
use wap_base::{Rows, Text};
use wap_value::{BinOp, UnOp};

/// An expression.
#[derive(Drop)]
pub enum Expr {
    Lit(Literal),
    Var(Id),
    /// `=`, or an operator and `=`.
    Assign(Id, Option<BinOp>, Boxed<Expr>),
    /// `++` where `up` holds, else `--`, before the variable where `prefix` holds, else after it.
    Step { id: Id, up: bool, prefix: bool },
    Unary(UnOp, Boxed<Expr>),
    /// Operators of one precedence, each with the operand after it, taken from the left.
    Chain(Boxed<Expr>, Rows<(BinOp, Expr)>),
    /// The condition, and a branch for each answer.
    Cond(Boxed<Expr>, Boxed<Expr>, Boxed<Expr>),
    /// A function of the unit.
    Call(Id, Rows<Expr>),
    /// A unit, and a function of it.
    External(Id, Id, Rows<Expr>),
    /// A library, and a function of it.
    Library(Id, Id, Rows<Expr>),
}

/// A literal.
#[derive(Drop)]
pub enum Literal {
    Int(i32),
    /// A number with a point or an exponent, whose value no script sees.
    Float,
    Str(Text),
    Bool(bool),
    Invalid,
}
