//! The constants that expressions need.
ghost use Rattle.std.specs.Prelude.{[], ◌∷◌, OnOk};
ghost use Rattle.std.specs.List.{flat_map};
ghost use Rattle.wap_grammar.specs.declared.program.expression.Literal.TheVariants as literal;
ghost use Rattle.wap_meaning.specs.coding.Needs.{expr_needs, literal_needs, Other};
ghost use Rattle.wap_codegen.specs.pool.inside.Pools.{Pools};

use crate::pool::numbering::Numbering;
use std::alloc::Global;
use wap_base::{NoMemory, Text};
use wap_grammar::program::{Expr, Id, Literal};
use wap_value::BinOp;

/// Adds a text that stands in the source, unless it is empty.
fn add_string(alloc: Global, numbering: &mut Numbering, text: &Text) -> Result<(), NoMemory>
    ensures { OnOk result (Pools (literal_needs (literal.Str text.now))
        numbering.old numbering.new) }
{
    if text.is_empty() {
        return Ok(());
    }
    numbering.add_text(alloc, text)
}

/// Adds that of a literal, if it has one.
fn add_literal(alloc: Global, numbering: &mut Numbering, literal: &Literal) -> Result<(), NoMemory>
    ensures { OnOk result (Pools (literal_needs literal.now) numbering.old numbering.new) }
{
    match literal {
        Literal::Int(integer) => numbering.add_integer(*integer),
        Literal::Float => Ok(()),
        Literal::Str(text) => add_string(alloc, numbering, text),
        Literal::Bool(_) => Ok(()),
        Literal::Invalid => Ok(()),
    }
}

/// Adds the URL and the name of a function of another unit.
fn add_other(
    alloc: Global,
    numbering: &mut Numbering,
    unit: &Id,
    function: &Id,
) -> Result<(), NoMemory>
    ensures { OnOk result (Pools (Other unit.now function.now ∷ [])
        numbering.old numbering.new) }
{
    numbering.add_url(alloc, unit)?;
    numbering.add_text(alloc, &function.name)
}

/// Adds those of an expression.
#[cycle(expressions)]
pub(crate) fn add_expression(
    alloc: Global,
    numbering: &mut Numbering,
    expression: &Expr,
) -> Result<(), NoMemory>
    ensures { OnOk result (Pools (expr_needs expression.now) numbering.old numbering.new) }
{
    match expression {
        Expr::Lit(literal) => add_literal(alloc, numbering, literal),
        Expr::Var(_) => Ok(()),
        Expr::Assign(_, _, value) => add_expression(alloc, numbering, value.get()),
        Expr::Step { .. } => Ok(()),
        Expr::Unary(_, operand) => add_expression(alloc, numbering, operand.get()),
        Expr::Chain(first, operands) => {
            add_expression(alloc, numbering, first.get())?;
            add_operands(alloc, numbering, operands.as_slice())
        }
        Expr::Cond(condition, yes, no) => {
            add_expression(alloc, numbering, condition.get())?;
            add_expression(alloc, numbering, yes.get())?;
            add_expression(alloc, numbering, no.get())
        }
        Expr::Call(_, arguments) => add_arguments(alloc, numbering, arguments.as_slice()),
        Expr::External(unit, function, arguments) => {
            add_other(alloc, numbering, unit, function)?;
            add_arguments(alloc, numbering, arguments.as_slice())
        }
        Expr::Library(_, _, arguments) => add_arguments(alloc, numbering, arguments.as_slice()),
    }
}

/// Adds those of the operands of a chain after the first.
#[cycle(expressions)]
fn add_operands(
    alloc: Global,
    numbering: &mut Numbering,
    operands: &[(BinOp, Expr)],
) -> Result<(), NoMemory>
    ensures { OnOk result (Pools (flat_map (λ operand. expr_needs operand.1) operands.now)
        numbering.old numbering.new) }
{
    for operand in operands {
        add_expression(alloc, numbering, &operand.1)?;
    }
    Ok(())
}

/// Adds those of arguments.
#[cycle(expressions)]
fn add_arguments(
    alloc: Global,
    numbering: &mut Numbering,
    arguments: &[Expr],
) -> Result<(), NoMemory>
    ensures { OnOk result (Pools (flat_map expr_needs arguments.now)
        numbering.old numbering.new) }
{
    for argument in arguments {
        add_expression(alloc, numbering, argument)?;
    }
    Ok(())
}
