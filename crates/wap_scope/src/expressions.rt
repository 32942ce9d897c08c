//! What expressions name.
ghost use Rattle.std.specs.Prelude.{◌≡◌};
ghost use Rattle.wap_base.specs.Outcome.{Meets};
ghost use Rattle.wap_scope.specs.declared.fault.ScopeFault.TheVariants.{NoMemory};
ghost use Rattle.wap_scope.specs.Names.{refers, Refers, Variable, Local, External, Library};
ghost use Rattle.wap_scope.specs.inside.Globals.{scope_by};
ghost use Rattle.wap_scope.specs.inside.Walks.{mention_at, walked, walked_each};

use crate::ScopeFault;
use crate::globals::Globals;
use crate::limits::ARGUMENT_LIMIT;
use crate::names::Names;
use wap_asm::lib_named;
use wap_grammar::program::{Expr, Id};
use wap_value::BinOp;

/// Judges the use of a variable, where these are known.
fn judge_variable(globals: &Globals, known: &Names, variable: &Id) -> Result<(), ScopeFault>
    ensures { Meets NoMemory (λ _. known.now) result
        (mention_at (scope_by globals.now) known.now (Refers (Variable variable.now))) }
{
    if known.has(&variable.name) {
        Ok(())
    } else {
        Err(ScopeFault::NoVariable {
            span: variable.span,
        })
    }
}

/// Judges a call of a function of the program.
fn judge_local(
    globals: &Globals,
    known: &Names,
    function: &Id,
    count: usize,
) -> Result<(), ScopeFault>
    ensures { Meets NoMemory (λ _. known.now) result
        (mention_at (scope_by globals.now) known.now (Refers (Local function.now count))) }
{
    match globals.arities.get(&function.name) {
        None => Err(ScopeFault::NoFunction {
            span: function.span,
        }),
        Some(arity) if arity == count => Ok(()),
        Some(_) => Err(ScopeFault::Arguments {
            span: function.span,
        }),
    }
}

/// Judges a call of a function of another unit.
fn judge_external(
    globals: &Globals,
    known: &Names,
    unit: &Id,
    function: &Id,
    count: usize,
) -> Result<(), ScopeFault>
    ensures { Meets NoMemory (λ _. known.now) result
        (mention_at (scope_by globals.now) known.now
        (Refers (External unit.now function.now count))) }
{
    if !globals.units.has(&unit.name) {
        return Err(ScopeFault::NoUnit { span: unit.span });
    }
    if count > ARGUMENT_LIMIT {
        return Err(ScopeFault::Arguments {
            span: function.span,
        });
    }
    Ok(())
}

/// Judges a call of a function of a library.
fn judge_library(
    globals: &Globals,
    known: &Names,
    library: &Id,
    function: &Id,
    count: usize,
) -> Result<(), ScopeFault>
    ensures { Meets NoMemory (λ _. known.now) result
        (mention_at (scope_by globals.now) known.now
        (Refers (Library library.now function.now count))) }
{
    match lib_named(&library.name, &function.name) {
        None => Err(ScopeFault::NoLibrary { span: library.span }),
        Some((_, _, arity)) if usize::from(arity) == count => Ok(()),
        Some(_) => Err(ScopeFault::Arguments {
            span: function.span,
        }),
    }
}

/// Judges an expression, where these variables are known.
#[cycle(expressions)]
pub(crate) fn judge_expression(
    globals: &Globals,
    known: &Names,
    expression: &Expr,
) -> Result<(), ScopeFault>
    ensures { Meets NoMemory (λ _. known.now) result
        (walked (scope_by globals.now) known.now (refers expression.now)) }
{
    match expression {
        Expr::Lit(_) => Ok(()),
        Expr::Var(variable) => judge_variable(globals, known, variable),
        Expr::Assign(variable, _, value) => {
            judge_variable(globals, known, variable)?;
            judge_expression(globals, known, value.get())
        }
        Expr::Step { id, .. } => judge_variable(globals, known, id),
        Expr::Unary(_, operand) => judge_expression(globals, known, operand.get()),
        Expr::Chain(first, operands) => {
            judge_expression(globals, known, first.get())?;
            judge_operands(globals, known, operands.as_slice())
        }
        Expr::Cond(condition, yes, no) => {
            judge_expression(globals, known, condition.get())?;
            judge_expression(globals, known, yes.get())?;
            judge_expression(globals, known, no.get())
        }
        Expr::Call(function, arguments) => {
            judge_local(globals, known, function, arguments.len())?;
            judge_arguments(globals, known, arguments.as_slice())
        }
        Expr::External(unit, function, arguments) => {
            judge_external(globals, known, unit, function, arguments.len())?;
            judge_arguments(globals, known, arguments.as_slice())
        }
        Expr::Library(library, function, arguments) => {
            judge_library(globals, known, library, function, arguments.len())?;
            judge_arguments(globals, known, arguments.as_slice())
        }
    }
}

/// Judges the operands of a chain after the first.
#[cycle(expressions)]
fn judge_operands(
    globals: &Globals,
    known: &Names,
    operands: &[(BinOp, Expr)],
) -> Result<(), ScopeFault>
    ensures { Meets NoMemory (λ _. known.now) result
        (walked_each (scope_by globals.now) (λ operand. refers operand.1) known.now
        operands.now) }
{
    for operand in operands {
        judge_expression(globals, known, &operand.1)?;
    }
    Ok(())
}

/// Judges arguments.
#[cycle(expressions)]
fn judge_arguments(globals: &Globals, known: &Names, arguments: &[Expr]) -> Result<(), ScopeFault>
    ensures { Meets NoMemory (λ _. known.now) result
        (walked_each (scope_by globals.now) refers known.now arguments.now) }
{
    for argument in arguments {
        judge_expression(globals, known, argument)?;
    }
    Ok(())
}
