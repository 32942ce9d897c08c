//! The variables that functions declare.
ghost use Rattle.std.specs.Prelude.{Bool, OnOk, IfOk, [], map};
ghost use Rattle.std.specs.List.{flat_map};
ghost use Rattle.wap_scope.specs.Names.{Declares, declares, mentions, said};
ghost use Rattle.wap_codegen.specs.pool.inside.Declaring.{Declaring};

use crate::pool::named::Named;
use std::alloc::Global;
use wap_base::NoMemory;
use wap_grammar::program::{Expr, Function, Id, Stmt};

/// Adds the names of declarations.
fn add_declarations(
    alloc: Global,
    names: &mut Named,
    pairs: &[(Id, Option<Expr>)],
) -> Result<(), NoMemory>
    ensures { OnOk result (Declaring (flat_map declares pairs.now) names.old names.new) }
{
    for pair in pairs {
        names.add(alloc, &pair.0.name)?;
    }
    Ok(())
}

/// Adds those that a statement declares.
#[cycle(variables)]
fn add_statement(alloc: Global, names: &mut Named, statement: &Stmt) -> Result<(), NoMemory>
    ensures { (inside : Bool) → OnOk result
        (Declaring (mentions statement.now inside) names.old names.new) }
{
    match statement {
        Stmt::Empty => Ok(()),
        Stmt::Expr(_) => Ok(()),
        Stmt::Block(inner) => add_statements(alloc, names, inner.as_slice()),
        Stmt::Vars(pairs) => add_declarations(alloc, names, pairs.as_slice()),
        Stmt::If(_, body, other) => {
            add_statement(alloc, names, body.get())?;
            match other {
                None => Ok(()),
                Some(other) => add_statement(alloc, names, other.get()),
            }
        }
        Stmt::While(_, body) => add_statement(alloc, names, body.get()),
        Stmt::For(first, _, _, body) => {
            add_statement(alloc, names, first.get())?;
            add_statement(alloc, names, body.get())
        }
        Stmt::Break(_) => Ok(()),
        Stmt::Continue(_) => Ok(()),
        Stmt::Return(_) => Ok(()),
    }
}

/// Adds those that statements declare.
#[cycle(variables)]
fn add_statements(alloc: Global, names: &mut Named, statements: &[Stmt]) -> Result<(), NoMemory>
    ensures { (inside : Bool) → OnOk result
        (Declaring (flat_map (λ s. mentions s inside) statements.now) names.old names.new) }
{
    for statement in statements {
        add_statement(alloc, names, statement)?;
    }
    Ok(())
}

/// Adds the names of parameters.
fn add_parameters(alloc: Global, names: &mut Named, params: &[Id]) -> Result<(), NoMemory>
    ensures { OnOk result (Declaring (map Declares params.now) names.old names.new) }
{
    for param in params {
        names.add(alloc, &param.name)?;
    }
    Ok(())
}

/// The names of a function's variables, the parameters first.
pub(crate) fn variables_of(alloc: Global, function: &Function) -> Result<Named, NoMemory>
    ensures { IfOk result (λ names. Declaring (said function.now) [] names) }
{
    let mut names = Named::new(alloc);
    add_parameters(alloc, &mut names, function.params.as_slice())?;
    add_statements(alloc, &mut names, function.body.as_slice())?;
    Ok(names)
}
