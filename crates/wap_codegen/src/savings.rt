//! How many bytes statements save that don't load their variable again.
ghost use Rattle.std.specs.Prelude.{◌≡◌, ◌<◌, ◌^◌, sum_by};
ghost use Rattle.wap_grammar.specs.declared.program.expression.Expr.{out-Expr};
ghost use Rattle.wap_meaning.specs.compiled.Savings.{effect_saves, effect_saves_if, stmt_saves};

use wap_grammar::program::{Expr, Stmt};

/// How many bytes an expression that is a statement saves.
fn effect_saves(expression: &Expr) -> u64
    ensures { result ≡ effect_saves (out-Expr expression.now) }
{
    match expression {
        Expr::Assign(_, operator, _) => match operator {
            None => 3,
            Some(_) => 0,
        },
        Expr::Step { .. } => 3,
        Expr::Lit(_) => 0,
        Expr::Var(_) => 0,
        Expr::Unary(..) => 0,
        Expr::Chain(..) => 0,
        Expr::Cond(..) => 0,
        Expr::Call(..) => 0,
        Expr::External(..) => 0,
        Expr::Library(..) => 0,
    }
}

/// The same of one that may be missing.
fn update_saves(update: &Option<Expr>) -> u64
    ensures { result ≡ effect_saves_if update.now }
{
    match update {
        None => 0,
        Some(update) => effect_saves(update),
    }
}

/// How many bytes statements save in a statement, if no more than a `u64` has room for.
#[cycle(savings)]
fn statement_saves(statement: &Stmt) -> u64
    ensures { stmt_saves statement.now < 2 ^ 64 → result ≡ stmt_saves statement.now }
{
    match statement {
        Stmt::Empty => 0,
        Stmt::Expr(value) => effect_saves(value),
        Stmt::Block(inner) => statements_save(inner.as_slice()),
        Stmt::Vars(_) => 0,
        Stmt::If(_, body, other) => match other {
            None => statement_saves(body.get()),
            Some(other) => {
                let first = statement_saves(body.get());
                first.saturating_add(statement_saves(other.get()))
            }
        },
        Stmt::While(_, body) => statement_saves(body.get()),
        Stmt::For(first, _, update, body) => {
            let begins = statement_saves(first.get()).saturating_add(update_saves(update));
            begins.saturating_add(statement_saves(body.get()))
        }
        Stmt::Break(_) => 0,
        Stmt::Continue(_) => 0,
        Stmt::Return(_) => 0,
    }
}

/// The same of statements in order.
#[cycle(savings)]
pub(crate) fn statements_save(statements: &[Stmt]) -> u64
    ensures { sum_by stmt_saves statements.now < 2 ^ 64
        → result ≡ sum_by stmt_saves statements.now }
{
    let mut bytes = 0u64;
    for statement in statements {
        bytes = bytes.saturating_add(statement_saves(statement));
    }
    bytes
}
