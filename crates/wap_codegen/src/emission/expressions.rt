//! The code of expressions.
ghost use Rattle.std.specs.Prelude.{◌≡◌, map, IfOk, OnOk};
ghost use Rattle.wap_grammar.specs.declared.program.expression.Literal.TheVariants as literal;
ghost use Rattle.wap_meaning.specs.coding.Coded.{all_code, one, instr, ◌⨾◌};
ghost use Rattle.wap_asm.specs.declared.form.Form.TheVariants.{Op};
ghost use Rattle.wap_meaning.specs.Names.{numbers_of};
ghost use Rattle.wap_unit.specs.declared.row.OpName.TheVariants as op;
ghost use Rattle.wap_meaning.specs.coding.Expressions.{expr_code, literal_code, unary_code};
ghost use Rattle.wap_meaning.specs.coding.Expressions.{step_code};
ghost use Rattle.wap_meaning.specs.coding.Expressions.{store_code, load_code};
ghost use Rattle.wap_codegen.specs.emission.inside.Adding.{Extends};
ghost use Rattle.wap_codegen.specs.emission.inside.Operands.{before_code, after_code, Begins, Ends};
ghost use Rattle.wap_codegen.specs.emission.inside.Operands.{Chains};

use crate::emission::forms::{add_label, add_op, add_plain, add_with, close, open};
use crate::emission::operators::{Joint, binary_name, change_name, joint_of, truth_name};
use crate::pool::Numbering;
use std::alloc::Global;
use wap_asm::{Form, lib_named};
use wap_base::{NoMemory, Text};
use wap_grammar::program::{Expr, Id, Literal};
use wap_unit::OpName;
use wap_value::{BinOp, UnOp};

/// Adds the code of a text.
fn add_text(
    alloc: Global,
    numbering: &Numbering,
    forms: &mut Vec<Form>,
    text: &Text,
) -> Result<(), NoMemory>
    ensures { OnOk result (Extends (literal_code numbering.now (literal.Str text.now))
        forms.old.items forms.new.items) }
{
    if text.is_empty() {
        return add_plain(forms, OpName::ConstEs);
    }
    add_with(forms, OpName::LoadConst, numbering.text(alloc, text)?)
}

/// Adds the code of a literal.
fn add_literal(
    alloc: Global,
    numbering: &Numbering,
    forms: &mut Vec<Form>,
    literal: &Literal,
) -> Result<(), NoMemory>
    ensures { OnOk result (Extends (literal_code numbering.now literal.now)
        forms.old.items forms.new.items) }
{
    match literal {
        Literal::Int(integer) => add_with(forms, OpName::LoadConst, numbering.integer(*integer)),
        Literal::Float => add_plain(forms, OpName::ConstInvalid),
        Literal::Str(text) => add_text(alloc, numbering, forms, text),
        Literal::Bool(truth) => add_plain(forms, truth_name(*truth)),
        Literal::Invalid => add_plain(forms, OpName::ConstInvalid),
    }
}

/// Adds the operation of an operator that has one operand.
fn add_operator(forms: &mut Vec<Form>, operator: UnOp) -> Result<(), NoMemory>
    ensures { OnOk result (Extends (unary_code operator) forms.old.items forms.new.items) }
{
    match operator {
        UnOp::Plus => {
            add_plain(forms, OpName::Const0)?;
            add_plain(forms, OpName::Sub)
        }
        UnOp::Minus => add_plain(forms, OpName::Uminus),
        UnOp::BitNot => add_plain(forms, OpName::BNot),
        UnOp::Not => add_plain(forms, OpName::Not),
        UnOp::TypeOf => add_plain(forms, OpName::Typeof),
        UnOp::IsValid => add_plain(forms, OpName::Isvalid),
        UnOp::ToBool => add_plain(forms, OpName::Tobool),
        UnOp::Incr => add_plain(forms, OpName::Incr),
        UnOp::Decr => add_plain(forms, OpName::Decr),
    }
}

/// Adds what stands before the right side of an assignment.
fn add_before(
    forms: &mut Vec<Form>,
    variable: usize,
    operator: &Option<BinOp>,
) -> Result<(), NoMemory>
    ensures { OnOk result (Extends (before_code variable operator.now)
        forms.old.items forms.new.items) }
{
    match operator {
        None => Ok(()),
        Some(_) => add_with(forms, OpName::LoadVar, variable),
    }
}

/// Adds a store of a variable, whose value is loaded again.
fn add_stored(forms: &mut Vec<Form>, variable: usize) -> Result<(), NoMemory>
    ensures { OnOk result (Extends (store_code variable ⨾ load_code variable)
        forms.old.items forms.new.items) }
{
    add_with(forms, OpName::StoreVar, variable)?;
    add_with(forms, OpName::LoadVar, variable)
}

/// Adds what stands behind the right side of an assignment.
fn add_after(
    forms: &mut Vec<Form>,
    variable: usize,
    operator: &Option<BinOp>,
) -> Result<(), NoMemory>
    ensures { OnOk result (Extends (after_code variable operator.now)
        forms.old.items forms.new.items) }
{
    match operator {
        None => add_stored(forms, variable),
        Some(operator) => {
            add_plain(forms, binary_name(*operator))?;
            add_stored(forms, variable)
        }
    }
}

/// Adds the code of a step.
fn add_step(forms: &mut Vec<Form>, variable: usize, up: bool, prefix: bool) -> Result<(), NoMemory>
    ensures { OnOk result (Extends (step_code variable up prefix)
        forms.old.items forms.new.items) }
{
    if prefix {
        add_with(forms, change_name(up), variable)?;
        return add_with(forms, OpName::LoadVar, variable);
    }
    add_with(forms, OpName::LoadVar, variable)?;
    add_with(forms, change_name(up), variable)
}

/// Adds what stands before the right operand of an operator, and answers the index of the jump over
/// it, if there is one.
fn begin_operand(forms: &mut Vec<Form>, joint: Joint) -> Result<usize, NoMemory>
    ensures { IfOk result (λ jump. Begins joint forms.old.items forms.new.items jump) }
{
    match joint {
        Joint::Short(name) => {
            add_plain(forms, name)?;
            open(forms, OpName::TjumpFw)
        }
        Joint::Drops => {
            add_plain(forms, OpName::Pop)?;
            Ok(0)
        }
        Joint::Both(_) => Ok(0),
    }
}

/// Adds what stands behind the right operand of an operator.
fn end_operand(forms: &mut Vec<Form>, joint: Joint, jump: usize) -> Result<(), NoMemory>
    ensures { OnOk result (Ends joint jump forms.old.items forms.new.items) }
{
    match joint {
        Joint::Short(_) => {
            add_plain(forms, OpName::Tobool)?;
            let end = add_label(forms)?;
            close(forms, jump, OpName::TjumpFw, end);
            Ok(())
        }
        Joint::Drops => Ok(()),
        Joint::Both(name) => add_plain(forms, name),
    }
}

/// The numbers of a library and of its function.
fn library_numbers(library: &Id, function: &Id) -> (usize, usize)
    ensures { result ≡ numbers_of library.now function.now }
{
    match lib_named(&library.name, &function.name) {
        Some((library, function, _)) => (usize::from(library), usize::from(function)),
        None => (0, 0),
    }
}

/// Adds a call of a library's function, behind its arguments.
fn add_library_call(forms: &mut Vec<Form>, library: &Id, function: &Id) -> Result<(), NoMemory>
    ensures { OnOk result (Extends
        (one (λ exits at. Op (instr op.CallLib (numbers_of library.now function.now).1
        (numbers_of library.now function.now).0 0)))
        forms.old.items forms.new.items) }
{
    let numbers = library_numbers(library, function);
    add_op(forms, OpName::CallLib, numbers.1, numbers.0, 0)
}

/// Adds the code of an expression.
#[cycle(expressions)]
pub(crate) fn add_expression(
    alloc: Global,
    numbering: &Numbering,
    forms: &mut Vec<Form>,
    expression: &Expr,
) -> Result<(), NoMemory>
    ensures { OnOk result (Extends (expr_code numbering.now expression.now)
        forms.old.items forms.new.items) }
{
    match expression {
        Expr::Lit(literal) => add_literal(alloc, numbering, forms, literal),
        Expr::Var(variable) => add_with(forms, OpName::LoadVar, numbering.variable(variable)),
        Expr::Assign(variable, operator, value) => {
            let place = numbering.variable(variable);
            add_before(forms, place, operator)?;
            add_expression(alloc, numbering, forms, value.get())?;
            add_after(forms, place, operator)
        }
        Expr::Step { id, up, prefix } => add_step(forms, numbering.variable(id), *up, *prefix),
        Expr::Unary(operator, operand) => {
            add_expression(alloc, numbering, forms, operand.get())?;
            add_operator(forms, *operator)
        }
        Expr::Chain(first, operands) => {
            add_expression(alloc, numbering, forms, first.get())?;
            add_operands(alloc, numbering, forms, operands.as_slice())
        }
        Expr::Cond(condition, yes, no) => {
            add_expression(alloc, numbering, forms, condition.get())?;
            let test = open(forms, OpName::TjumpFw)?;
            add_expression(alloc, numbering, forms, yes.get())?;
            let over = open(forms, OpName::JumpFw)?;
            let other = add_label(forms)?;
            add_expression(alloc, numbering, forms, no.get())?;
            let end = add_label(forms)?;
            close(forms, over, OpName::JumpFw, end);
            close(forms, test, OpName::TjumpFw, other);
            Ok(())
        }
        Expr::Call(function, arguments) => {
            add_arguments(alloc, numbering, forms, arguments.as_slice())?;
            add_with(forms, OpName::Call, numbering.function(function))
        }
        Expr::External(unit, function, arguments) => {
            add_arguments(alloc, numbering, forms, arguments.as_slice())?;
            let url = numbering.url(alloc, unit)?;
            let name = numbering.text(alloc, &function.name)?;
            add_op(forms, OpName::CallUrl, url, name, arguments.len())
        }
        Expr::Library(library, function, arguments) => {
            add_arguments(alloc, numbering, forms, arguments.as_slice())?;
            add_library_call(forms, library, function)
        }
    }
}

/// Adds the code of the operands of a chain after the first.
#[cycle(expressions)]
fn add_operands(
    alloc: Global,
    numbering: &Numbering,
    forms: &mut Vec<Form>,
    operands: &[(BinOp, Expr)],
) -> Result<(), NoMemory>
    ensures { OnOk result (Chains numbering.now operands.now forms.old.items forms.new.items) }
{
    for operand in operands {
        let joint = joint_of(operand.0);
        let jump = begin_operand(forms, joint)?;
        add_expression(alloc, numbering, forms, &operand.1)?;
        end_operand(forms, joint, jump)?;
    }
    Ok(())
}

/// Adds the code of arguments.
#[cycle(expressions)]
fn add_arguments(
    alloc: Global,
    numbering: &Numbering,
    forms: &mut Vec<Form>,
    arguments: &[Expr],
) -> Result<(), NoMemory>
    ensures { OnOk result (Extends (all_code (map (expr_code numbering.now) arguments.now))
        forms.old.items forms.new.items) }
{
    for argument in arguments {
        add_expression(alloc, numbering, forms, argument)?;
    }
    Ok(())
}
