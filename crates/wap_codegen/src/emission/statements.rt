//! The code of statements.
ghost use Rattle.std.specs.Prelude.{◌≡◌, ◌++◌, [], ◌∷◌, map, IfOk, OnOk, None};
ghost use Rattle.std.specs.Option.{option_copied};
ghost use Rattle.wap_meaning.specs.coding.Coded.{all_code, ◌⨾◌};
ghost use Rattle.wap_meaning.specs.coding.Statements.{stmt_code, declared_code};
ghost use Rattle.wap_meaning.specs.coding.Statements.{dropped_code, changed_code, test_code};
ghost use Rattle.wap_meaning.specs.coding.Statements.{loop_code};
ghost use Rattle.wap_meaning.specs.coding.Statements.{update_code};
ghost use Rattle.wap_meaning.specs.coding.Compiled.{function_code};
ghost use Rattle.wap_codegen.specs.emission.inside.Adding.{Adds, Extends};
ghost use Rattle.wap_grammar.specs.declared.program.statement.Stmt.TheVariants as stmt;
ghost use Rattle.wap_meaning.specs.coding.Expressions.{expr_code, store_code};
ghost use Rattle.wap_codegen.specs.emission.inside.Exits.{exits_in};
ghost use Rattle.wap_codegen.specs.emission.inside.Loops.{Tests, closed, change_of, named_code};
ghost use Rattle.wap_codegen.specs.emission.inside.Loops.{exit_at};
ghost use Rattle.wap_codegen.specs.emission.inside.Loops.{assignment_code};

use crate::emission::exits::{BREAK, CONTINUE, redirect};
use crate::emission::expressions::add_expression;
use crate::emission::forms::{add, add_label, add_plain, add_with, close, open};
use crate::emission::operators::change_name;
use crate::emission::writing::writes;
use crate::pool::Numbering;
use std::alloc::Global;
use wap_asm::Form;
use wap_base::NoMemory;
use wap_grammar::program::{Expr, Function, Id, Stmt};
use wap_unit::OpName;
use wap_value::BinOp;

/// Adds the code of the declaration of a variable.
fn add_declaration(
    alloc: Global,
    numbering: &Numbering,
    forms: &mut Vec<Form>,
    pair: &(Id, Option<Expr>),
) -> Result<(), NoMemory>
    ensures { OnOk result (Extends (declared_code numbering.now pair.now)
        forms.old.items forms.new.items) }
{
    let place = numbering.variable(&pair.0);
    match &pair.1 {
        Some(value) => {
            add_expression(alloc, numbering, forms, value)?;
            add_with(forms, OpName::StoreVar, place)
        }
        None => {
            add_plain(forms, OpName::ConstEs)?;
            add_with(forms, OpName::StoreVar, place)
        }
    }
}

/// Adds the code of declarations.
fn add_declarations(
    alloc: Global,
    numbering: &Numbering,
    forms: &mut Vec<Form>,
    pairs: &[(Id, Option<Expr>)],
) -> Result<(), NoMemory>
    ensures { OnOk result (Extends (all_code (map (declared_code numbering.now) pairs.now))
        forms.old.items forms.new.items) }
{
    for pair in pairs {
        add_declaration(alloc, numbering, forms, pair)?;
    }
    Ok(())
}

/// Adds the code of an expression whose value is dropped.
fn add_dropped(
    alloc: Global,
    numbering: &Numbering,
    forms: &mut Vec<Form>,
    expression: &Expr,
) -> Result<(), NoMemory>
    ensures { OnOk result (Extends (dropped_code (expr_code numbering.now expression.now))
        forms.old.items forms.new.items) }
{
    add_expression(alloc, numbering, forms, expression)?;
    add_plain(forms, OpName::Pop)
}

/// The operation that adds the right side of an assignment to its variable, or takes it away, where
/// the assignment has one.
fn change_of(operator: Option<BinOp>) -> Option<OpName>
    ensures { result ≡ change_of operator }
{
    match operator {
        Some(BinOp::Add) => Some(OpName::AddAsg),
        Some(BinOp::Sub) => Some(OpName::SubAsg),
        _ => None,
    }
}

/// Adds the code of an assignment that is a statement and changes its variable by the right side.
fn add_changed(
    alloc: Global,
    numbering: &Numbering,
    forms: &mut Vec<Form>,
    place: usize,
    name: OpName,
    value: &Expr,
    whole: &Expr,
) -> Result<(), NoMemory>
    ensures { OnOk result (Extends (changed_code numbering.now place name value.now
        (expr_code numbering.now whole.now)) forms.old.items forms.new.items) }
{
    if writes(numbering, value, place) {
        return add_dropped(alloc, numbering, forms, whole);
    }
    add_expression(alloc, numbering, forms, value)?;
    add_with(forms, name, place)
}

/// Adds the code of an assignment that is a statement and has an operator.
fn add_operated(
    alloc: Global,
    numbering: &Numbering,
    forms: &mut Vec<Form>,
    place: usize,
    name: Option<OpName>,
    value: &Expr,
    whole: &Expr,
) -> Result<(), NoMemory>
    ensures { OnOk result (Extends (named_code numbering.now place name value.now
        (expr_code numbering.now whole.now)) forms.old.items forms.new.items) }
{
    match name {
        None => add_dropped(alloc, numbering, forms, whole),
        Some(name) => add_changed(alloc, numbering, forms, place, name, value, whole),
    }
}

/// Adds the code of a value that a variable takes.
fn add_taken(
    alloc: Global,
    numbering: &Numbering,
    forms: &mut Vec<Form>,
    place: usize,
    value: &Expr,
) -> Result<(), NoMemory>
    ensures { OnOk result (Extends (expr_code numbering.now value.now ⨾ store_code place)
        forms.old.items forms.new.items) }
{
    add_expression(alloc, numbering, forms, value)?;
    add_with(forms, OpName::StoreVar, place)
}

/// Adds the code of an assignment that is a statement.
fn add_assigned(
    alloc: Global,
    numbering: &Numbering,
    forms: &mut Vec<Form>,
    place: usize,
    operator: Option<BinOp>,
    value: &Expr,
    whole: &Expr,
) -> Result<(), NoMemory>
    ensures { OnOk result (Extends (assignment_code numbering.now place operator value.now
        (expr_code numbering.now whole.now)) forms.old.items forms.new.items) }
{
    match operator {
        None => add_taken(alloc, numbering, forms, place, value),
        Some(operator) => {
            let name = change_of(Some(operator));
            add_operated(alloc, numbering, forms, place, name, value, whole)
        }
    }
}

/// Adds the code of an expression that is a statement.
fn add_effect(
    alloc: Global,
    numbering: &Numbering,
    forms: &mut Vec<Form>,
    expression: &Expr,
) -> Result<(), NoMemory>
    ensures { OnOk result (Extends (stmt_code numbering.now (stmt.Expr expression.now))
        forms.old.items forms.new.items) }
{
    match expression {
        Expr::Assign(variable, operator, value) => {
            let place = numbering.variable(variable);
            add_assigned(
                alloc,
                numbering,
                forms,
                place,
                *operator,
                value.get(),
                expression,
            )
        }
        Expr::Lit(_) => add_dropped(alloc, numbering, forms, expression),
        Expr::Var(_) => add_dropped(alloc, numbering, forms, expression),
        Expr::Step { id, up, .. } => add_with(forms, change_name(*up), numbering.variable(id)),
        Expr::Unary(..) => add_dropped(alloc, numbering, forms, expression),
        Expr::Chain(..) => add_dropped(alloc, numbering, forms, expression),
        Expr::Cond(..) => add_dropped(alloc, numbering, forms, expression),
        Expr::Call(..) => add_dropped(alloc, numbering, forms, expression),
        Expr::External(..) => add_dropped(alloc, numbering, forms, expression),
        Expr::Library(..) => add_dropped(alloc, numbering, forms, expression),
    }
}

/// Adds the code of a condition, if there is one, with a jump whose label isn't known yet, and
/// answers its index.
fn add_test(
    alloc: Global,
    numbering: &Numbering,
    forms: &mut Vec<Form>,
    condition: Option<&Expr>,
) -> Result<usize, NoMemory>
    ensures { IfOk result (λ index. Tests numbering.now (option_copied condition.entry)
        forms.old.items forms.new.items index) }
{
    match condition {
        None => Ok(0),
        Some(condition) => {
            add_expression(alloc, numbering, forms, condition)?;
            open(forms, OpName::TjumpFw)
        }
    }
}

/// Gives the jump of a condition its label.
fn close_test(forms: &mut Vec<Form>, condition: Option<&Expr>, index: usize, label: u32)
    ensures { forms.new.items ≡ closed (option_copied condition.entry) index label forms.old.items }
{
    if condition.is_some() {
        close(forms, index, OpName::TjumpFw, label);
    }
}

/// Adds the code of what is done after each turn of a loop, if there is anything.
fn add_update(
    alloc: Global,
    numbering: &Numbering,
    forms: &mut Vec<Form>,
    update: Option<&Expr>,
) -> Result<(), NoMemory>
    ensures { OnOk result (Extends (update_code numbering.now (option_copied update.entry))
        forms.old.items forms.new.items) }
{
    match update {
        None => Ok(()),
        Some(update) => add_effect(alloc, numbering, forms, update),
    }
}

/// Adds the jump of a `break` or `continue`, whose label isn't known yet; outside of loops it
/// returns.
fn add_exit(forms: &mut Vec<Form>, inside: bool, label: u32) -> Result<(), NoMemory>
    ensures { OnOk result (forms.new.items ≡ forms.old.items ++ exit_at inside label ∷ []) }
{
    if inside {
        add(forms, Form::Jump(OpName::JumpFw, label))
    } else {
        add_plain(forms, OpName::ReturnEs)
    }
}

/// Adds the code of a return.
fn add_return(
    alloc: Global,
    numbering: &Numbering,
    forms: &mut Vec<Form>,
    value: &Option<Expr>,
) -> Result<(), NoMemory>
    ensures { OnOk result (Extends (stmt_code numbering.now (stmt.Return value.now))
        forms.old.items forms.new.items) }
{
    match value {
        None => add_plain(forms, OpName::ReturnEs),
        Some(value) => {
            add_expression(alloc, numbering, forms, value)?;
            add_plain(forms, OpName::Return)
        }
    }
}

/// Adds the code of a statement that stands in a loop or not.
#[cycle(statements)]
fn add_statement(
    alloc: Global,
    numbering: &Numbering,
    forms: &mut Vec<Form>,
    inside: bool,
    statement: &Stmt,
) -> Result<(), NoMemory>
    ensures { OnOk result (Adds (stmt_code numbering.now statement.now) (exits_in inside)
        forms.old.items forms.new.items) }
{
    match statement {
        Stmt::Empty => Ok(()),
        Stmt::Expr(value) => add_effect(alloc, numbering, forms, value),
        Stmt::Block(inner) => add_statements(alloc, numbering, forms, inside, inner.as_slice()),
        Stmt::Vars(pairs) => add_declarations(alloc, numbering, forms, pairs.as_slice()),
        Stmt::If(condition, body, other) => {
            add_expression(alloc, numbering, forms, condition)?;
            let test = open(forms, OpName::TjumpFw)?;
            add_statement(alloc, numbering, forms, inside, body.get())?;
            match other {
                None => {
                    let end = add_label(forms)?;
                    close(forms, test, OpName::TjumpFw, end);
                    Ok(())
                }
                Some(other) => {
                    let over = open(forms, OpName::JumpFw)?;
                    let no = add_label(forms)?;
                    add_statement(alloc, numbering, forms, inside, other.get())?;
                    let end = add_label(forms)?;
                    close(forms, over, OpName::JumpFw, end);
                    close(forms, test, OpName::TjumpFw, no);
                    Ok(())
                }
            }
        }
        Stmt::While(condition, body) => {
            add_loop(alloc, numbering, forms, Some(condition), None, body.get())
        }
        Stmt::For(first, condition, update, body) => {
            add_statement(alloc, numbering, forms, inside, first.get())?;
            let condition = condition.as_ref();
            add_loop(
                alloc,
                numbering,
                forms,
                condition,
                update.as_ref(),
                body.get(),
            )
        }
        Stmt::Break(_) => add_exit(forms, inside, BREAK),
        Stmt::Continue(_) => add_exit(forms, inside, CONTINUE),
        Stmt::Return(value) => add_return(alloc, numbering, forms, value),
    }
}

/// Adds the code of a loop: its condition, its body, and what is done after each turn.
#[cycle(statements)]
fn add_loop(
    alloc: Global,
    numbering: &Numbering,
    forms: &mut Vec<Form>,
    condition: Option<&Expr>,
    update: Option<&Expr>,
    body: &Stmt,
) -> Result<(), NoMemory>
    ensures { OnOk result (Extends (loop_code
        (test_code numbering.now (option_copied condition.entry))
        (stmt_code numbering.now body.now)
        (update_code numbering.now (option_copied update.entry)))
        forms.old.items forms.new.items) }
{
    let start = add_label(forms)?;
    let test = add_test(alloc, numbering, forms, condition)?;
    let from = forms.len();
    add_statement(alloc, numbering, forms, true, body)?;
    let to = forms.len();
    let again = add_label(forms)?;
    add_update(alloc, numbering, forms, update)?;
    add(forms, Form::Jump(OpName::JumpBw, start))?;
    let end = add_label(forms)?;
    redirect(forms, from, to, end, again);
    close_test(forms, condition, test, end);
    Ok(())
}

/// Adds the code of statements that stand in a loop or not.
#[cycle(statements)]
fn add_statements(
    alloc: Global,
    numbering: &Numbering,
    forms: &mut Vec<Form>,
    inside: bool,
    statements: &[Stmt],
) -> Result<(), NoMemory>
    ensures { OnOk result (Adds (all_code (map (stmt_code numbering.now) statements.now))
        (exits_in inside) forms.old.items forms.new.items) }
{
    for statement in statements {
        add_statement(alloc, numbering, forms, inside, statement)?;
    }
    Ok(())
}

/// The forms of a function, before they have places.
pub fn forms_of(
    alloc: Global,
    numbering: &Numbering,
    function: &Function,
) -> Result<Vec<Form>, NoMemory>
    ensures { IfOk result (λ forms.
        forms.items ≡ (function_code numbering.now function.now).forms None 0) }
{
    let mut forms = Vec::new(alloc);
    add_statements(
        alloc,
        numbering,
        &mut forms,
        false,
        function.body.as_slice(),
    )?;
    Ok(forms)
}
