//! What statements have besides statements: conditions, expressions that may be missing, signs at
//! their ends (WAP-193, section 6.5).
ghost use Rattle.std.specs.Prelude.{◌≡◌};
ghost use Rattle.wap_base.specs.Outcome.{Meets};
ghost use Rattle.wap_grammar.specs.declared.program.statement.Stmt.TheVariants as stmt;
ghost use Rattle.wap_grammar.specs.declared.fault.ParseFault.TheVariants as faults;
ghost use Rattle.wap_grammar.specs.declared.word.Sign.TheVariants as signs;
ghost use Rattle.wap_grammar.specs.Statements.{done_first};
ghost use Rattle.wap_grammar.specs.reading.TokenReading.{span_of, after, closed, told};
ghost use Rattle.wap_grammar.specs.reading.Expressions.{expression_at};
ghost use Rattle.wap_grammar.specs.reading.Statements.{closed_at, optional_at};
ghost use Rattle.wap_grammar.specs.reading.Statements.{initial_at, condition_at};
ghost use Rattle.wap_parse.specs.inside.Headers.{limits_at, turns_at, header_at};

use crate::expressions::{
    after, close, expect, is_sign, join, read_expression, read_variables, span_of,
};
use std::alloc::Global;
use wap_grammar::program::{Boxed, Expr, Stmt};
use wap_grammar::{COMMA, Lexeme, ParseFault, Sign};

/// An expression, and a sign after it.
#[tactic(auto, unfolding(wap_grammar::specs::reading::Statements::closed_at))]
#[inline(always)]
fn read_closed<'a>(
    alloc: Global,
    src: &[u8],
    levels: u32,
    sign: Sign,
    lexemes: &'a [Lexeme],
) -> Result<(Expr, &'a [Lexeme]), ParseFault>
    ensures { Meets faults.NoMemory (λ read. (read.0, read.1.now)) result
        (closed_at src.now sign (expression_at src.now levels COMMA) lexemes.now) }
{
    let (value, rest) = read_expression(alloc, src, levels, COMMA, lexemes)?;
    close(src, sign, value, rest)
}

/// An expression or none, and the sign after it.
#[tactic(auto, unfolding(wap_grammar::specs::reading::Statements::optional_at, wap_grammar::specs::reading::Statements::closed_at))]
#[inline(always)]
fn read_optional<'a>(
    alloc: Global,
    src: &[u8],
    levels: u32,
    sign: Sign,
    lexemes: &'a [Lexeme],
) -> Result<(Option<Expr>, &'a [Lexeme]), ParseFault>
    ensures { Meets faults.NoMemory (λ read. (read.0, read.1.now)) result
        (optional_at src.now (expression_at src.now levels) sign lexemes.now) }
{
    if is_sign(sign, lexemes) {
        return Ok((None, after(lexemes)));
    }
    let (value, rest) = read_closed(alloc, src, levels, sign, lexemes)?;
    Ok((Some(value), rest))
}

/// What is done first in `for`, and the `;` after it.
#[tactic(auto, unfolding(wap_grammar::specs::reading::Statements::initial_at))]
fn read_initial<'a>(
    alloc: Global,
    src: &[u8],
    levels: u32,
    lexemes: &'a [Lexeme],
) -> Result<(Stmt, &'a [Lexeme]), ParseFault>
    ensures { Meets faults.NoMemory (λ read. (read.0, read.1.now)) result
        (initial_at src.now (expression_at src.now levels) lexemes.now) }
{
    if is_sign(Sign::Var, lexemes) {
        return read_variables(alloc, src, levels, after(lexemes));
    }
    let (value, rest) = read_optional(alloc, src, levels, Sign::Semicolon, lexemes)?;
    Ok((done_first(value), rest))
}

/// The statement that an expression is which may be missing.
fn done_first(value: Option<Expr>) -> Stmt
    ensures { result ≡ done_first value }
{
    match value {
        Some(value) => Stmt::Expr(value),
        None => Stmt::Empty,
    }
}

/// What stands in the parentheses of `for`: what is done first, the condition, and what is done
/// after each turn.
pub(crate) type Header = (Boxed<Stmt>, (Option<Expr>, Option<Expr>));

/// The condition of `for`, and what is done after each turn.
#[tactic(auto, unfolding(crate::specs::inside::Headers::limits_at))]
fn read_limits<'a>(
    alloc: Global,
    src: &[u8],
    levels: u32,
    lexemes: &'a [Lexeme],
) -> Result<((Option<Expr>, Option<Expr>), &'a [Lexeme]), ParseFault>
    ensures { Meets faults.NoMemory (λ read. (read.0, read.1.now)) result
        (limits_at src.now (expression_at src.now levels) lexemes.now) }
{
    let (condition, rest) = read_optional(alloc, src, levels, Sign::Semicolon, lexemes)?;
    join(
        condition,
        read_optional(alloc, src, levels, Sign::Close, rest),
    )
}

/// The parentheses of `for`, and what stands in them.
#[tactic(auto, unfolding(crate::specs::inside::Headers::header_at))]
pub(crate) fn read_header<'a>(
    alloc: Global,
    src: &[u8],
    levels: u32,
    lexemes: &'a [Lexeme],
) -> Result<(Header, &'a [Lexeme]), ParseFault>
    ensures { Meets faults.NoMemory (λ read. (read.0, read.1.now)) result
        (header_at src.now (expression_at src.now levels) lexemes.now) }
{
    let rest = expect(src, Sign::Open, lexemes)?;
    read_turns(alloc, src, levels, rest)
}

/// What stands in the parentheses of `for`, up to the second of them.
#[tactic(auto, unfolding(crate::specs::inside::Headers::turns_at))]
fn read_turns<'a>(
    alloc: Global,
    src: &[u8],
    levels: u32,
    lexemes: &'a [Lexeme],
) -> Result<(Header, &'a [Lexeme]), ParseFault>
    ensures { Meets faults.NoMemory (λ read. (read.0, read.1.now)) result
        (turns_at src.now (expression_at src.now levels) lexemes.now) }
{
    let (first, rest) = read_initial(alloc, src, levels, lexemes)?;
    let first = Boxed::new(alloc, first)?;
    join(first, read_limits(alloc, src, levels, rest))
}

/// A condition in parentheses.
#[tactic(auto, unfolding(wap_grammar::specs::reading::Statements::condition_at, wap_grammar::specs::reading::Statements::closed_at))]
#[inline(always)]
pub(crate) fn read_condition<'a>(
    alloc: Global,
    src: &[u8],
    levels: u32,
    lexemes: &'a [Lexeme],
) -> Result<(Expr, &'a [Lexeme]), ParseFault>
    ensures { Meets faults.NoMemory (λ read. (read.0, read.1.now)) result
        (condition_at src.now (expression_at src.now levels) lexemes.now) }
{
    let rest = expect(src, Sign::Open, lexemes)?;
    read_closed(alloc, src, levels, Sign::Close, rest)
}

/// `break`, and the `;` after it.
pub(crate) fn read_break<'a>(
    src: &[u8],
    lexemes: &'a [Lexeme],
) -> Result<(Stmt, &'a [Lexeme]), ParseFault>
    ensures { Meets faults.NoMemory (λ read. (read.0, read.1.now)) result
        (closed src.now signs.Semicolon (stmt.Break (span_of lexemes.now), after lexemes.now)) }
{
    let rest = expect(src, Sign::Semicolon, after(lexemes))?;
    Ok((Stmt::Break(span_of(lexemes)), rest))
}

/// `continue`, and the `;` after it.
pub(crate) fn read_continue<'a>(
    src: &[u8],
    lexemes: &'a [Lexeme],
) -> Result<(Stmt, &'a [Lexeme]), ParseFault>
    ensures { Meets faults.NoMemory (λ read. (read.0, read.1.now)) result
        (closed src.now signs.Semicolon (stmt.Continue (span_of lexemes.now), after lexemes.now)) }
{
    let rest = expect(src, Sign::Semicolon, after(lexemes))?;
    Ok((Stmt::Continue(span_of(lexemes)), rest))
}

/// What `return` gives back, after the word.
pub(crate) fn read_return<'a>(
    alloc: Global,
    src: &[u8],
    levels: u32,
    lexemes: &'a [Lexeme],
) -> Result<(Stmt, &'a [Lexeme]), ParseFault>
    ensures { Meets faults.NoMemory (λ read. (read.0, read.1.now)) result
        (told stmt.Return
        (optional_at src.now (expression_at src.now levels) signs.Semicolon lexemes.now)) }
{
    let (value, rest) = read_optional(alloc, src, levels, Sign::Semicolon, lexemes)?;
    Ok((Stmt::Return(value), rest))
}

/// An expression that is a statement.
#[inline(always)]
pub(crate) fn read_evaluation<'a>(
    alloc: Global,
    src: &[u8],
    levels: u32,
    lexemes: &'a [Lexeme],
) -> Result<(Stmt, &'a [Lexeme]), ParseFault>
    ensures { Meets faults.NoMemory (λ read. (read.0, read.1.now)) result
        (told stmt.Expr
        (closed_at src.now signs.Semicolon (expression_at src.now levels COMMA) lexemes.now)) }
{
    let (value, rest) = read_closed(alloc, src, levels, Sign::Semicolon, lexemes)?;
    Ok((Stmt::Expr(value), rest))
}
