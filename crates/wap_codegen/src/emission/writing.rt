//! Which variables expressions write.
ghost use Rattle.std.specs.Prelude.{◌≡◌};
ghost use Rattle.std.specs.List.{list_any};
ghost use Rattle.wap_meaning.specs.coding.Statements.{writes};

use crate::pool::Numbering;
use wap_grammar::program::Expr;
use wap_value::BinOp;

/// Whether an expression writes the variable of a number.
#[cycle(writing)]
pub(crate) fn writes(numbering: &Numbering, expression: &Expr, variable: usize) -> bool
    ensures { result ≡ writes numbering.now.names expression.now variable }
{
    match expression {
        Expr::Lit(_) => false,
        Expr::Var(_) => false,
        Expr::Assign(id, _, value) => {
            numbering.variable(id) == variable || writes(numbering, value.get(), variable)
        }
        Expr::Step { id, .. } => numbering.variable(id) == variable,
        Expr::Unary(_, operand) => writes(numbering, operand.get(), variable),
        Expr::Chain(first, operands) => {
            writes(numbering, first.get(), variable)
                || an_operand_writes(numbering, operands.as_slice(), variable)
        }
        Expr::Cond(condition, yes, no) => {
            if writes(numbering, condition.get(), variable) {
                return true;
            }
            if writes(numbering, yes.get(), variable) {
                return true;
            }
            writes(numbering, no.get(), variable)
        }
        Expr::Call(_, arguments) => an_argument_writes(numbering, arguments.as_slice(), variable),
        Expr::External(_, _, arguments) => {
            an_argument_writes(numbering, arguments.as_slice(), variable)
        }
        Expr::Library(_, _, arguments) => {
            an_argument_writes(numbering, arguments.as_slice(), variable)
        }
    }
}

/// Whether one of the operands of a chain after the first does.
#[cycle(writing)]
fn an_operand_writes(numbering: &Numbering, operands: &[(BinOp, Expr)], variable: usize) -> bool
    ensures { result ≡ list_any (λ operand. writes numbering.now.names operand.1 variable)
        operands.now }
{
    for operand in operands {
        if writes(numbering, &operand.1, variable) {
            return true;
        }
    }
    false
}

/// Whether one of the arguments does.
#[cycle(writing)]
fn an_argument_writes(numbering: &Numbering, arguments: &[Expr], variable: usize) -> bool
    ensures { result ≡ list_any (λ argument. writes numbering.now.names argument variable)
        arguments.now }
{
    for argument in arguments {
        if writes(numbering, argument, variable) {
            return true;
        }
    }
    false
}
