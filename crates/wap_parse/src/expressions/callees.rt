//! What is called, and variables (WAP-193, sections 6.3 and 6.4).
ghost use Rattle.std.specs.Prelude.{◌≡◌};
ghost use Rattle.wap_base.specs.Outcome.{Meets};
ghost use Rattle.wap_grammar.specs.declared.fault.ParseFault.TheVariants.{NoMemory};
ghost use Rattle.wap_grammar.specs.Values.{called};
ghost use Rattle.wap_grammar.specs.reading.TokenReading.{told, id_at};
ghost use Rattle.wap_grammar.specs.reading.Expressions.{callee_after, callee_at};
ghost use Rattle.wap_grammar.specs.reading.Expressions.{variable_at, prefixed};

use crate::expressions::steps::{read_id, syntax_fault};
use crate::expressions::words::{after, is_sign, step_of, word_of};
use std::alloc::Global;
use wap_base::Rows;
use wap_grammar::program::{Expr, Id};
use wap_grammar::{Callee, Lexeme, ParseFault, Sign};

/// What a call names.
#[inline(always)]
#[tactic(auto, unfolding(wap_grammar::specs::reading::Expressions::callee_at))]
pub(crate) fn read_callee<'a>(
    alloc: Global,
    src: &[u8],
    lexemes: &'a [Lexeme],
) -> Result<(Callee, &'a [Lexeme]), ParseFault>
    ensures { Meets NoMemory (λ read. (read.0, read.1.now)) result (callee_at src.now lexemes.now) }
{
    let (id, rest) = read_id(alloc, src, lexemes)?;
    read_callee_after(alloc, src, id, rest)
}

/// What a call names, after its first name.
#[inline(always)]
#[tactic(auto, unfolding(wap_grammar::specs::reading::Expressions::callee_after))]
fn read_callee_after<'a>(
    alloc: Global,
    src: &[u8],
    id: Id,
    lexemes: &'a [Lexeme],
) -> Result<(Callee, &'a [Lexeme]), ParseFault>
    ensures { Meets NoMemory (λ read. (read.0, read.1.now)) result
        (callee_after src.now id lexemes.now) }
{
    if is_sign(Sign::Hash, lexemes) {
        let (function, rest) = read_id(alloc, src, after(lexemes))?;
        return Ok((Callee::External(id, function), rest));
    }
    if is_sign(Sign::Dot, lexemes) {
        let (function, rest) = read_id(alloc, src, after(lexemes))?;
        return Ok((Callee::Library(id, function), rest));
    }
    Ok((Callee::Local(id), lexemes))
}

/// The variable that a name is, and the `++` or `--` after it.
#[inline(always)]
#[tactic(auto, unfolding(wap_grammar::specs::reading::Expressions::variable_at))]
pub(crate) fn read_variable<'a>(
    src: &[u8],
    callee: Callee,
    lexemes: &'a [Lexeme],
) -> Result<(Expr, &'a [Lexeme]), ParseFault>
    ensures { Meets NoMemory (λ read. (read.0, read.1.now)) result
        (variable_at src.now callee lexemes.now) }
{
    match callee {
        Callee::Local(id) => match step_of(word_of(lexemes)) {
            Some(up) => {
                let step = Expr::Step {
                    id,
                    up,
                    prefix: false,
                };
                Ok((step, after(lexemes)))
            }
            None => Ok((Expr::Var(id), lexemes)),
        },
        Callee::External(_, _) | Callee::Library(_, _) => Err(syntax_fault(src, lexemes)),
    }
}

/// The variable after `++` or `--`.
pub(crate) fn read_prefixed<'a>(
    alloc: Global,
    src: &[u8],
    up: bool,
    lexemes: &'a [Lexeme],
) -> Result<(Expr, &'a [Lexeme]), ParseFault>
    ensures { Meets NoMemory (λ read. (read.0, read.1.now)) result
        (told (prefixed up) (id_at src.now lexemes.now)) }
{
    let (id, rest) = read_id(alloc, src, lexemes)?;
    let step = Expr::Step {
        id,
        up,
        prefix: true,
    };
    Ok((step, rest))
}

/// The call of what is named.
pub(crate) fn call_of(callee: Callee, arguments: Rows<Expr>) -> Expr
    ensures { result ≡ called callee arguments }
{
    match callee {
        Callee::Local(function) => Expr::Call(function, arguments),
        Callee::External(unit, function) => Expr::External(unit, function, arguments),
        Callee::Library(library, function) => Expr::Library(library, function, arguments),
    }
}
