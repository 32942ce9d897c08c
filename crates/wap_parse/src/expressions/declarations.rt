//! Variables that are declared (WAP-193, section 6.5).
ghost use Rattle.std.specs.Prelude.{◌∷◌};
ghost use Rattle.wap_base.specs.Outcome.{Meets};
ghost use Rattle.wap_grammar.specs.declared.fault.ParseFault.TheVariants as faults;
ghost use Rattle.wap_grammar.specs.reading.TokenReading.{told, items_at};
ghost use Rattle.wap_grammar.specs.reading.Expressions.{expression_at};
ghost use Rattle.wap_grammar.specs.reading.Statements.{next_listed, listed_at, declaration_after};
ghost use Rattle.wap_grammar.specs.reading.Statements.{declaration_at, variables_at};

use crate::expressions::expressions::read_expression;
use crate::expressions::making::list_of_one;
use crate::expressions::steps::{expect, read_id};
use crate::expressions::words::{after, is_comma, is_equals};
use std::alloc::Global;
use wap_base::Rows;
use wap_grammar::program::{Expr, Id, Stmt};
use wap_grammar::{ASSIGNMENT, Lexeme, ParseFault, Sign};

/// What `var` declares, after the word, and the tokens after its `;`. A string whose bytes stand
/// for no text is answered as `NoMemory`.
#[tactic(auto, unfolding(wap_grammar::specs::reading::Statements::variables_at))]
pub fn read_variables<'a>(
    alloc: Global,
    src: &[u8],
    levels: u32,
    lexemes: &'a [Lexeme],
) -> Result<(Stmt, &'a [Lexeme]), ParseFault>
    ensures { Meets faults.NoMemory (λ read. (read.0, read.1.now)) result
        (variables_at src.now (expression_at src.now levels) lexemes.now) }
{
    let (declarations, rest) = read_declarations(alloc, src, levels, lexemes)?;
    let rest = expect(src, Sign::Semicolon, rest)?;
    Ok((Stmt::Vars(declarations), rest))
}

/// Declarations, one at least, with commas between them.
#[tactic(auto, unfolding(wap_grammar::specs::reading::Statements::listed_at))]
fn read_declarations<'a>(
    alloc: Global,
    src: &[u8],
    levels: u32,
    lexemes: &'a [Lexeme],
) -> Result<(Rows<(Id, Option<Expr>)>, &'a [Lexeme]), ParseFault>
    ensures { Meets faults.NoMemory (λ read. (read.0, read.1.now)) result
        (listed_at (declaration_at src.now (expression_at src.now levels)) lexemes.now) }
{
    let (first, rest) = read_declaration(alloc, src, levels, lexemes)?;
    read_other_declarations(alloc, src, levels, first, rest)
}

/// The first declaration, and those after it.
fn read_other_declarations<'a>(
    alloc: Global,
    src: &[u8],
    levels: u32,
    first: (Id, Option<Expr>),
    lexemes: &'a [Lexeme],
) -> Result<(Rows<(Id, Option<Expr>)>, &'a [Lexeme]), ParseFault>
    ensures { Meets faults.NoMemory (λ read. (read.0, read.1.now)) result
        (told (λ others. first ∷ others)
        (items_at (next_listed (declaration_at src.now (expression_at src.now levels)))
        lexemes.now)) }
{
    let mut declarations = list_of_one(alloc, first)?;
    let mut rest = lexemes;
    for _ in 0..lexemes.len() {
        if !is_comma(rest) {
            return Ok((declarations, rest));
        }
        let (declaration, behind) = read_declaration(alloc, src, levels, after(rest))?;
        rest = behind;
        declarations.add(declaration)?;
    }
    Ok((declarations, rest))
}

/// A variable, and what it begins with if that is said.
#[tactic(auto, unfolding(wap_grammar::specs::reading::Statements::declaration_at))]
fn read_declaration<'a>(
    alloc: Global,
    src: &[u8],
    levels: u32,
    lexemes: &'a [Lexeme],
) -> Result<((Id, Option<Expr>), &'a [Lexeme]), ParseFault>
    ensures { Meets faults.NoMemory (λ read. (read.0, read.1.now)) result
        (declaration_at src.now (expression_at src.now levels) lexemes.now) }
{
    let (id, rest) = read_id(alloc, src, lexemes)?;
    read_declared(alloc, src, levels, id, rest)
}

/// A declaration after its name.
#[tactic(auto, unfolding(wap_grammar::specs::reading::Statements::declaration_after))]
fn read_declared<'a>(
    alloc: Global,
    src: &[u8],
    levels: u32,
    id: Id,
    lexemes: &'a [Lexeme],
) -> Result<((Id, Option<Expr>), &'a [Lexeme]), ParseFault>
    ensures { Meets faults.NoMemory (λ read. (read.0, read.1.now)) result
        (declaration_after (expression_at src.now levels) id lexemes.now) }
{
    if !is_equals(lexemes) {
        return Ok(((id, None), lexemes));
    }
    let (value, rest) = read_expression(alloc, src, levels, ASSIGNMENT, after(lexemes))?;
    Ok(((id, Some(value)), rest))
}
