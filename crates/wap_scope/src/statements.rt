//! What statements say by names.
ghost use Rattle.std.specs.Prelude.{◌≡◌};
ghost use Rattle.wap_base.specs.Outcome.{Meets};
ghost use Rattle.wap_scope.specs.declared.fault.ScopeFault.TheVariants.{NoMemory};
ghost use Rattle.wap_scope.specs.Names.{mentions, declares, refers, refers_if, Declares, Jumps};
ghost use Rattle.wap_scope.specs.inside.Globals.{scope_by};
ghost use Rattle.wap_scope.specs.inside.Walks.{mention_at, walked, walked_each};

use crate::ScopeFault;
use crate::expressions::judge_expression;
use crate::globals::Globals;
use crate::limits::VARIABLE_LIMIT;
use crate::names::Names;
use std::alloc::Global;
use wap_grammar::program::{Expr, Id, Span, Stmt};

/// Judges the declaration of a variable, and makes it known.
pub(crate) fn declare(
    alloc: Global,
    globals: &Globals,
    known: &mut Names,
    variable: &Id,
) -> Result<(), ScopeFault>
    ensures { Meets NoMemory (λ _. known.new) result
        (mention_at (scope_by globals.now) known.old (Declares variable.now)) }
{
    let span = variable.span;
    let count = known.len();
    if !known.insert(alloc, &variable.name)? {
        return Err(ScopeFault::TwoVariables { span });
    }
    if count >= VARIABLE_LIMIT {
        return Err(ScopeFault::TooManyLocals { span });
    }
    Ok(())
}

/// Judges an expression, if there is one.
fn judge_optional(
    globals: &Globals,
    known: &Names,
    expression: &Option<Expr>,
) -> Result<(), ScopeFault>
    ensures { Meets NoMemory (λ _. known.now) result
        (walked (scope_by globals.now) known.now (refers_if expression.now)) }
{
    match expression {
        Some(expression) => judge_expression(globals, known, expression),
        None => Ok(()),
    }
}

/// Judges the declaration of a variable, and then what it begins with.
fn judge_pair(
    alloc: Global,
    globals: &Globals,
    known: &mut Names,
    pair: &(Id, Option<Expr>),
) -> Result<(), ScopeFault>
    ensures { Meets NoMemory (λ _. known.new) result
        (walked (scope_by globals.now) known.old (declares pair.now)) }
{
    declare(alloc, globals, known, &pair.0)?;
    judge_optional(globals, known, &pair.1)
}

/// Judges declarations.
fn judge_variables(
    alloc: Global,
    globals: &Globals,
    known: &mut Names,
    pairs: &[(Id, Option<Expr>)],
) -> Result<(), ScopeFault>
    ensures { Meets NoMemory (λ _. known.new) result
        (walked_each (scope_by globals.now) declares known.old pairs.now) }
{
    for pair in pairs {
        judge_pair(alloc, globals, known, pair)?;
    }
    Ok(())
}

/// Judges the word of a `break` or `continue` that stands in a loop or not.
fn judge_jump(globals: &Globals, known: &Names, inside: bool, word: Span) -> Result<(), ScopeFault>
    ensures { Meets NoMemory (λ _. known.now) result
        (mention_at (scope_by globals.now) known.now (Jumps word inside)) }
{
    if inside {
        Ok(())
    } else {
        Err(ScopeFault::LoneBreak { span: word })
    }
}

/// Judges a statement that stands in a loop or not, and makes known what it declares.
#[cycle(statements)]
fn judge_statement(
    alloc: Global,
    globals: &Globals,
    known: &mut Names,
    inside: bool,
    statement: &Stmt,
) -> Result<(), ScopeFault>
    ensures { Meets NoMemory (λ _. known.new) result
        (walked (scope_by globals.now) known.old (mentions statement.now inside)) }
{
    match statement {
        Stmt::Empty => Ok(()),
        Stmt::Expr(value) => judge_expression(globals, known, value),
        Stmt::Block(inner) => judge_statements(alloc, globals, known, inside, inner.as_slice()),
        Stmt::Vars(pairs) => judge_variables(alloc, globals, known, pairs.as_slice()),
        Stmt::If(condition, body, other) => {
            judge_expression(globals, known, condition)?;
            judge_statement(alloc, globals, known, inside, body.get())?;
            match other {
                Some(other) => judge_statement(alloc, globals, known, inside, other.get()),
                None => Ok(()),
            }
        }
        Stmt::While(condition, body) => {
            judge_expression(globals, known, condition)?;
            judge_statement(alloc, globals, known, true, body.get())
        }
        Stmt::For(first, condition, update, body) => {
            judge_statement(alloc, globals, known, inside, first.get())?;
            judge_optional(globals, known, condition)?;
            judge_optional(globals, known, update)?;
            judge_statement(alloc, globals, known, true, body.get())
        }
        Stmt::Break(word) => judge_jump(globals, known, inside, *word),
        Stmt::Continue(word) => judge_jump(globals, known, inside, *word),
        Stmt::Return(value) => judge_optional(globals, known, value),
    }
}

/// Judges statements that stand in a loop or not.
#[cycle(statements)]
pub(crate) fn judge_statements(
    alloc: Global,
    globals: &Globals,
    known: &mut Names,
    inside: bool,
    statements: &[Stmt],
) -> Result<(), ScopeFault>
    ensures { Meets NoMemory (λ _. known.new) result
        (walked_each (scope_by globals.now) (λ statement. mentions statement inside)
        known.old statements.now) }
{
    for statement in statements {
        judge_statement(alloc, globals, known, inside, statement)?;
    }
    Ok(())
}
