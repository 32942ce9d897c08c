//! Statements (WAP-193, section 6.5).
ghost use Rattle.wap_base.specs.Outcome.{Meets};
ghost use Rattle.wap_grammar.specs.declared.program.statement.Stmt.TheVariants as stmt;
ghost use Rattle.wap_grammar.specs.declared.fault.ParseFault.TheVariants as faults;
ghost use Rattle.wap_grammar.specs.reading.TokenReading.{told, items_at};
ghost use Rattle.wap_grammar.specs.reading.Expressions.{expression_at};
ghost use Rattle.wap_grammar.specs.reading.Statements.{next_statement, block_at, arm_at, else_at};
ghost use Rattle.wap_grammar.specs.reading.Statements.{if_at, while_at, for_at, statement_by};
ghost use Rattle.wap_grammar.specs.reading.Statements.{statement_at};

use crate::clauses::{
    Header, read_break, read_condition, read_continue, read_evaluation, read_header, read_return,
};
use crate::expressions::{after, close, is_sign, join, nesting_fault, read_variables, word_of};
use crate::making::{for_of, if_of, while_of};
use crate::starts::start_of;
use std::alloc::Global;
use wap_base::Rows;
use wap_grammar::program::{Boxed, Expr, Stmt};
use wap_grammar::{Lexeme, ParseFault, Sign, Start};

/// A statement with so many levels left for it and its parts.
#[cycle(statements)]
#[tactic(auto, unfolding(wap_grammar::specs::reading::Statements::statement_at))]
fn read_statement<'a>(
    alloc: Global,
    src: &[u8],
    levels: u32,
    lexemes: &'a [Lexeme],
) -> Result<(Stmt, &'a [Lexeme]), ParseFault>
    ensures { Meets faults.NoMemory (λ read. (read.0, read.1.now)) result
        (statement_at src.now levels lexemes.now) }
{
    if levels == 0 {
        return Err(nesting_fault(src, lexemes));
    }
    read_parts(alloc, src, levels - 1, lexemes)
}

/// A statement with so many levels left for its parts.
#[cycle(statements)]
#[tactic(auto, unfolding(wap_grammar::specs::reading::Statements::statement_by, wap_grammar::specs::reading::Statements::started_at, wap_grammar::specs::reading::Statements::closed_at))]
#[inline(always)]
fn read_parts<'a>(
    alloc: Global,
    src: &[u8],
    levels: u32,
    lexemes: &'a [Lexeme],
) -> Result<(Stmt, &'a [Lexeme]), ParseFault>
    ensures { Meets faults.NoMemory (λ read. (read.0, read.1.now)) result
        (statement_by src.now (expression_at src.now levels) (statement_at src.now levels)
        lexemes.now) }
{
    let rest = after(lexemes);
    match start_of(word_of(lexemes)) {
        Start::Empty => Ok((Stmt::Empty, rest)),
        Start::Block => {
            let (statements, rest) = read_block(alloc, src, levels, rest)?;
            Ok((Stmt::Block(statements), rest))
        }
        Start::Vars => read_variables(alloc, src, levels, rest),
        Start::If => read_if(alloc, src, levels, rest),
        Start::While => read_while(alloc, src, levels, rest),
        Start::For => read_for(alloc, src, levels, rest),
        Start::Break => read_break(src, lexemes),
        Start::Continue => read_continue(src, lexemes),
        Start::Return => read_return(alloc, src, levels, rest),
        Start::Expression => read_evaluation(alloc, src, levels, lexemes),
    }
}

/// What stands after `if`.
#[cycle(statements)]
#[tactic(auto, unfolding(wap_grammar::specs::reading::Statements::if_at))]
fn read_if<'a>(
    alloc: Global,
    src: &[u8],
    levels: u32,
    lexemes: &'a [Lexeme],
) -> Result<(Stmt, &'a [Lexeme]), ParseFault>
    ensures { Meets faults.NoMemory (λ read. (read.0, read.1.now)) result
        (if_at src.now (expression_at src.now levels) (statement_at src.now levels)
        lexemes.now) }
{
    let (arm, rest) = read_arm(alloc, src, levels, lexemes)?;
    let arm = Boxed::new(alloc, arm)?;
    read_alternative(alloc, src, levels, arm, rest)
}

/// What is done else, after a condition and what is done where it holds.
#[cycle(statements)]
fn read_alternative<'a>(
    alloc: Global,
    src: &[u8],
    levels: u32,
    arm: Boxed<(Expr, Stmt)>,
    lexemes: &'a [Lexeme],
) -> Result<(Stmt, &'a [Lexeme]), ParseFault>
    ensures { Meets faults.NoMemory (λ read. (read.0, read.1.now)) result
        (told (stmt.If arm.0 arm.1) (else_at (statement_at src.now levels) lexemes.now)) }
{
    let (other, rest) = read_else(alloc, src, levels, lexemes)?;
    Ok((if_of(alloc, arm.into_inner(), other)?, rest))
}

/// A condition, and what is done where it holds.
#[cycle(statements)]
#[tactic(auto, unfolding(wap_grammar::specs::reading::Statements::arm_at))]
fn read_arm<'a>(
    alloc: Global,
    src: &[u8],
    levels: u32,
    lexemes: &'a [Lexeme],
) -> Result<((Expr, Stmt), &'a [Lexeme]), ParseFault>
    ensures { Meets faults.NoMemory (λ read. (read.0, read.1.now)) result
        (arm_at src.now (expression_at src.now levels) (statement_at src.now levels)
        lexemes.now) }
{
    let (condition, rest) = read_condition(alloc, src, levels, lexemes)?;
    join(condition, read_statement(alloc, src, levels, rest))
}

/// What is done after `else`, if that stands first.
#[cycle(statements)]
#[tactic(auto, unfolding(wap_grammar::specs::reading::Statements::else_at))]
fn read_else<'a>(
    alloc: Global,
    src: &[u8],
    levels: u32,
    lexemes: &'a [Lexeme],
) -> Result<(Option<Boxed<Stmt>>, &'a [Lexeme]), ParseFault>
    ensures { Meets faults.NoMemory (λ read. (read.0, read.1.now)) result
        (else_at (statement_at src.now levels) lexemes.now) }
{
    if !is_sign(Sign::Else, lexemes) {
        return Ok((None, lexemes));
    }
    let (other, rest) = read_statement(alloc, src, levels, after(lexemes))?;
    let other = Boxed::new(alloc, other)?;
    Ok((Some(other), rest))
}

/// Statements after a `{`, and the `}` after them.
#[cycle(statements)]
#[tactic(auto, unfolding(wap_grammar::specs::reading::Statements::block_at))]
#[inline(always)]
pub(crate) fn read_block<'a>(
    alloc: Global,
    src: &[u8],
    levels: u32,
    lexemes: &'a [Lexeme],
) -> Result<(Rows<Stmt>, &'a [Lexeme]), ParseFault>
    ensures { Meets faults.NoMemory (λ read. (read.0, read.1.now)) result
        (block_at src.now (statement_at src.now levels) lexemes.now) }
{
    let (statements, rest) = read_statements(alloc, src, levels, lexemes)?;
    close(src, Sign::CloseBlock, statements, rest)
}

/// Statements up to a `}`.
#[cycle(statements)]
fn read_statements<'a>(
    alloc: Global,
    src: &[u8],
    levels: u32,
    lexemes: &'a [Lexeme],
) -> Result<(Rows<Stmt>, &'a [Lexeme]), ParseFault>
    ensures { Meets faults.NoMemory (λ read. (read.0, read.1.now)) result
        (items_at (next_statement (statement_at src.now levels)) lexemes.now) }
{
    let mut statements = Rows::new(alloc);
    let mut rest = lexemes;
    for _ in 0..lexemes.len() {
        if is_sign(Sign::CloseBlock, rest) {
            return Ok((statements, rest));
        }
        let (statement, behind) = read_statement(alloc, src, levels, rest)?;
        rest = behind;
        statements.add(statement)?;
    }
    Ok((statements, rest))
}

/// What stands after `while`.
#[cycle(statements)]
#[tactic(auto, using(crate::proofs::Headers::while_by_arm))]
fn read_while<'a>(
    alloc: Global,
    src: &[u8],
    levels: u32,
    lexemes: &'a [Lexeme],
) -> Result<(Stmt, &'a [Lexeme]), ParseFault>
    ensures { Meets faults.NoMemory (λ read. (read.0, read.1.now)) result
        (while_at src.now (expression_at src.now levels) (statement_at src.now levels)
        lexemes.now) }
{
    let (arm, rest) = read_arm(alloc, src, levels, lexemes)?;
    Ok((while_of(alloc, arm)?, rest))
}

/// What stands after `for`.
#[cycle(statements)]
#[tactic(auto, using(crate::proofs::Headers::for_by_header))]
fn read_for<'a>(
    alloc: Global,
    src: &[u8],
    levels: u32,
    lexemes: &'a [Lexeme],
) -> Result<(Stmt, &'a [Lexeme]), ParseFault>
    ensures { Meets faults.NoMemory (λ read. (read.0, read.1.now)) result
        (for_at src.now (expression_at src.now levels) (statement_at src.now levels)
        lexemes.now) }
{
    let (header, rest) = read_header(alloc, src, levels, lexemes)?;
    let header = Boxed::new(alloc, header)?;
    read_repeated(alloc, src, levels, header, rest)
}

/// What is done in each turn of `for`, after its parentheses.
#[cycle(statements)]
fn read_repeated<'a>(
    alloc: Global,
    src: &[u8],
    levels: u32,
    header: Boxed<Header>,
    lexemes: &'a [Lexeme],
) -> Result<(Stmt, &'a [Lexeme]), ParseFault>
    ensures { Meets faults.NoMemory (λ read. (read.0, read.1.now)) result
        (told (stmt.For header.0 header.1.0 header.1.1)
        (statement_at src.now levels lexemes.now)) }
{
    let (body, rest) = read_statement(alloc, src, levels, lexemes)?;
    let body = Boxed::new(alloc, body)?;
    Ok((for_of(header.into_inner(), body), rest))
}
