//! Statements made of their parts.
ghost use Rattle.std.specs.Prelude.{◌≡◌, IfOk};
ghost use Rattle.wap_grammar.specs.declared.program.statement.Stmt.TheVariants as stmt;

use crate::clauses::Header;
use std::alloc::Global;
use wap_base::NoMemory;
use wap_grammar::program::{Boxed, Expr, Stmt};

/// `if`, from its condition and what is done where it holds, and what is done else.
pub(crate) fn if_of(
    alloc: Global,
    arm: (Expr, Stmt),
    other: Option<Boxed<Stmt>>,
) -> Result<Stmt, NoMemory>
    ensures { IfOk result (λ made. made ≡ stmt.If arm.0 arm.1 other) }
{
    let (condition, body) = arm;
    let body = Boxed::new(alloc, body)?;
    Ok(Stmt::If(condition, body, other))
}

/// `while`, from its condition and what is done as long as it holds.
pub(crate) fn while_of(alloc: Global, arm: (Expr, Stmt)) -> Result<Stmt, NoMemory>
    ensures { IfOk result (λ made. made ≡ stmt.While arm.0 arm.1) }
{
    let (condition, body) = arm;
    let body = Boxed::new(alloc, body)?;
    Ok(Stmt::While(condition, body))
}

/// `for`, from what stands in its parentheses and what is done in each turn.
pub(crate) fn for_of(header: Header, body: Boxed<Stmt>) -> Stmt
    ensures { result ≡ stmt.For header.0 header.1.0 header.1.1 body }
{
    let (first, limits) = header;
    let (condition, update) = limits;
    Stmt::For(first, condition, update, body)
}
