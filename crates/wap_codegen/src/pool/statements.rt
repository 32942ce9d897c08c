//! The constants that statements need.
ghost use Rattle.std.specs.Prelude.{OnOk};
ghost use Rattle.std.specs.List.{flat_map};
ghost use Rattle.wap_meaning.specs.coding.Needs.{optional_needs, declared_needs, stmt_needs};
ghost use Rattle.wap_codegen.specs.pool.inside.Pools.{Pools};

use crate::pool::expressions::add_expression;
use crate::pool::numbering::Numbering;
use std::alloc::Global;
use wap_base::NoMemory;
use wap_grammar::program::{Expr, Id, Stmt};

/// Adds those of an expression, if there is one.
fn add_optional(
    alloc: Global,
    numbering: &mut Numbering,
    expression: &Option<Expr>,
) -> Result<(), NoMemory>
    ensures { OnOk result (Pools (optional_needs expression.now) numbering.old numbering.new) }
{
    match expression {
        None => Ok(()),
        Some(expression) => add_expression(alloc, numbering, expression),
    }
}

/// Adds those of declarations.
fn add_declarations(
    alloc: Global,
    numbering: &mut Numbering,
    pairs: &[(Id, Option<Expr>)],
) -> Result<(), NoMemory>
    ensures { OnOk result (Pools (flat_map declared_needs pairs.now)
        numbering.old numbering.new) }
{
    for pair in pairs {
        add_optional(alloc, numbering, &pair.1)?;
    }
    Ok(())
}

/// Adds those of a statement.
#[cycle(statements)]
fn add_statement(alloc: Global, numbering: &mut Numbering, statement: &Stmt) -> Result<(), NoMemory>
    ensures { OnOk result (Pools (stmt_needs statement.now) numbering.old numbering.new) }
{
    match statement {
        Stmt::Empty => Ok(()),
        Stmt::Expr(value) => add_expression(alloc, numbering, value),
        Stmt::Block(inner) => add_statements(alloc, numbering, inner.as_slice()),
        Stmt::Vars(pairs) => add_declarations(alloc, numbering, pairs.as_slice()),
        Stmt::If(condition, body, other) => {
            add_expression(alloc, numbering, condition)?;
            add_statement(alloc, numbering, body.get())?;
            match other {
                None => Ok(()),
                Some(other) => add_statement(alloc, numbering, other.get()),
            }
        }
        Stmt::While(condition, body) => {
            add_expression(alloc, numbering, condition)?;
            add_statement(alloc, numbering, body.get())
        }
        Stmt::For(first, condition, update, body) => {
            add_statement(alloc, numbering, first.get())?;
            add_optional(alloc, numbering, condition)?;
            add_optional(alloc, numbering, update)?;
            add_statement(alloc, numbering, body.get())
        }
        Stmt::Break(_) => Ok(()),
        Stmt::Continue(_) => Ok(()),
        Stmt::Return(value) => add_optional(alloc, numbering, value),
    }
}

/// Adds those of statements.
#[cycle(statements)]
pub(crate) fn add_statements(
    alloc: Global,
    numbering: &mut Numbering,
    statements: &[Stmt],
) -> Result<(), NoMemory>
    ensures { OnOk result (Pools (flat_map stmt_needs statements.now)
        numbering.old numbering.new) }
{
    for statement in statements {
        add_statement(alloc, numbering, statement)?;
    }
    Ok(())
}
