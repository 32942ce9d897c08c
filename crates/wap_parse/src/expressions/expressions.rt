//! Expressions (WAP-193, section 6.3).
ghost use Rattle.std.specs.Prelude.{◌<◌, ◌∷◌};
ghost use Rattle.wap_base.specs.Outcome.{Meets};
ghost use Rattle.wap_grammar.specs.declared.fault.ParseFault.TheVariants as faults;
ghost use Rattle.wap_grammar.specs.reading.TokenReading.{told, items_at};
ghost use Rattle.wap_grammar.specs.reading.Expressions.{next_argument, arguments_at, named_at};
ghost use Rattle.wap_grammar.specs.reading.Expressions.{primary_at, unary_at, next_operand};
ghost use Rattle.wap_grammar.specs.reading.Expressions.{branches_at};
ghost use Rattle.wap_grammar.specs.reading.Expressions.{part_at, expression_at};
ghost use Rattle.wap_parse.specs.expressions.inside.Climbing.{climbed_at, climbed_after};
ghost use Rattle.wap_parse.specs.expressions.inside.Climbing.{chained_after};

use crate::expressions::callees::{call_of, read_callee, read_prefixed, read_variable};
use crate::expressions::literals::literal_of;
use crate::expressions::making::{chain_of, list_of_one};
use crate::expressions::steps::{close, expect, id_of, nesting_fault};
use crate::expressions::words::{
    after, assignment_of, is_comma, is_name, is_sign, looser_of, operator_of, span_of, step_of,
    unary_of, word_of,
};
use std::alloc::Global;
use wap_base::Rows;
use wap_grammar::program::{Boxed, Expr};
use wap_grammar::{ASSIGNMENT, COMMA, CONDITIONAL, Lexeme, ParseFault, Sign, UNARY};
use wap_value::BinOp;

/// An expression of a level of precedence, with so many levels left for it and its parts, and the
/// tokens after it. A string whose bytes stand for no text is answered as `NoMemory`.
#[cycle(expressions)]
#[tactic(auto, unfolding(wap_grammar::specs::reading::Expressions::expression_at))]
pub fn read_expression<'a>(
    alloc: Global,
    src: &[u8],
    levels: u32,
    level: u8,
    lexemes: &'a [Lexeme],
) -> Result<(Expr, &'a [Lexeme]), ParseFault>
    ensures { Meets faults.NoMemory (λ read. (read.0, read.1.now)) result
        (expression_at src.now levels level lexemes.now) }
{
    if levels == 0 {
        return Err(nesting_fault(src, lexemes));
    }
    read_part(alloc, src, levels - 1, level, lexemes)
}

/// An expression of a level of precedence, with so many levels left for its parts.
#[cycle(expressions)]
fn read_part<'a>(
    alloc: Global,
    src: &[u8],
    levels: u32,
    level: u8,
    lexemes: &'a [Lexeme],
) -> Result<(Expr, &'a [Lexeme]), ParseFault>
    ensures { Meets faults.NoMemory (λ read. (read.0, read.1.now)) result
        (part_at src.now (expression_at src.now levels) level lexemes.now) }
{
    if level < CONDITIONAL {
        return read_tight(alloc, src, levels, level, lexemes);
    }
    if level == CONDITIONAL {
        return read_choice(alloc, src, levels, lexemes);
    }
    if level == ASSIGNMENT {
        return read_value(alloc, src, levels, lexemes);
    }
    if level == COMMA {
        return read_sequence(alloc, src, levels, lexemes);
    }
    read_loosest(alloc, src, levels, level, level - 1, lexemes)
}

/// An expression of a level that is tighter than that of `?:`: an operand, and the operators up to
/// the level, each with the operand after it.
#[cycle(expressions)]
#[tactic(auto, using(crate::proofs::ExpressionsLemmas::Climbing::at_operators))]
fn read_tight<'a>(
    alloc: Global,
    src: &[u8],
    levels: u32,
    level: u8,
    lexemes: &'a [Lexeme],
) -> Result<(Expr, &'a [Lexeme]), ParseFault>
    requires { level < CONDITIONAL }
    ensures { Meets faults.NoMemory (λ read. (read.0, read.1.now)) result
        (part_at src.now (expression_at src.now levels) level lexemes.now) }
{
    let (first, rest) = read_unary(alloc, src, levels, lexemes)?;
    read_looser(alloc, src, levels, UNARY, level, first, rest)
}

/// A condition with its branches, or an expression of the next tighter level.
#[cycle(expressions)]
#[tactic(auto, using(crate::proofs::ExpressionsLemmas::Levels::at_choice), unfolding(wap_grammar::specs::reading::Expressions::conditional_at))]
fn read_choice<'a>(
    alloc: Global,
    src: &[u8],
    levels: u32,
    lexemes: &'a [Lexeme],
) -> Result<(Expr, &'a [Lexeme]), ParseFault>
    ensures { Meets faults.NoMemory (λ read. (read.0, read.1.now)) result
        (part_at src.now (expression_at src.now levels) CONDITIONAL lexemes.now) }
{
    let (condition, rest) = read_tight(alloc, src, levels, CONDITIONAL - 1, lexemes)?;
    if !is_sign(Sign::Question, rest) {
        return Ok((condition, rest));
    }
    read_branches(alloc, src, levels, condition, after(rest))
}

/// An assignment to a variable, or an expression of the next tighter level.
#[cycle(expressions)]
#[tactic(auto, using(crate::proofs::ExpressionsLemmas::Levels::at_value), unfolding(wap_grammar::specs::reading::Expressions::assignment_at))]
fn read_value<'a>(
    alloc: Global,
    src: &[u8],
    levels: u32,
    lexemes: &'a [Lexeme],
) -> Result<(Expr, &'a [Lexeme]), ParseFault>
    ensures { Meets faults.NoMemory (λ read. (read.0, read.1.now)) result
        (part_at src.now (expression_at src.now levels) ASSIGNMENT lexemes.now) }
{
    if !is_name(lexemes) {
        return read_choice(alloc, src, levels, lexemes);
    }
    let rest = after(lexemes);
    match assignment_of(word_of(rest)) {
        Some(op) => {
            let (value, rest) = read_boxed(alloc, src, levels, ASSIGNMENT, after(rest))?;
            let id = id_of(alloc, src, span_of(lexemes))?;
            Ok((Expr::Assign(id, op, value), rest))
        }
        None => read_choice(alloc, src, levels, lexemes),
    }
}

/// Expressions with commas between them.
#[cycle(expressions)]
fn read_sequence<'a>(
    alloc: Global,
    src: &[u8],
    levels: u32,
    lexemes: &'a [Lexeme],
) -> Result<(Expr, &'a [Lexeme]), ParseFault>
    ensures { Meets faults.NoMemory (λ read. (read.0, read.1.now)) result
        (climbed_after (part_at src.now (expression_at src.now levels)) ASSIGNMENT COMMA
        (part_at src.now (expression_at src.now levels) ASSIGNMENT lexemes.now)) }
{
    let (first, rest) = read_value(alloc, src, levels, lexemes)?;
    read_looser(alloc, src, levels, ASSIGNMENT, COMMA, first, rest)
}

/// An expression of the next tighter level, and the operators of a level after it.
#[cycle(expressions)]
fn read_loosest<'a>(
    alloc: Global,
    src: &[u8],
    levels: u32,
    level: u8,
    tighter: u8,
    lexemes: &'a [Lexeme],
) -> Result<(Expr, &'a [Lexeme]), ParseFault>
    ensures { Meets faults.NoMemory (λ read. (read.0, read.1.now)) result
        (climbed_after (part_at src.now (expression_at src.now levels)) tighter level
        (part_at src.now (expression_at src.now levels) tighter lexemes.now)) }
{
    let (first, rest) = read_part(alloc, src, levels, tighter, lexemes)?;
    read_looser(alloc, src, levels, tighter, level, first, rest)
}

/// An expression and the operators after it that are looser than one level, up to another. Levels
/// without an operator there are passed over.
#[cycle(expressions)]
#[inline(always)]
fn read_looser<'a>(
    alloc: Global,
    src: &[u8],
    levels: u32,
    from: u8,
    level: u8,
    first: Expr,
    lexemes: &'a [Lexeme],
) -> Result<(Expr, &'a [Lexeme]), ParseFault>
    ensures { Meets faults.NoMemory (λ read. (read.0, read.1.now)) result
        (climbed_at (part_at src.now (expression_at src.now levels)) from level
        (first, lexemes.now)) }
{
    match looser_of(from, level, word_of(lexemes)) {
        Some(found) => read_chain(alloc, src, levels, found, found - 1, level, first, lexemes),
        None => Ok((first, lexemes)),
    }
}

/// An expression and the operators of a level after it, and then those of looser levels.
#[cycle(expressions)]
fn read_chain<'a>(
    alloc: Global,
    src: &[u8],
    levels: u32,
    found: u8,
    tighter: u8,
    level: u8,
    first: Expr,
    lexemes: &'a [Lexeme],
) -> Result<(Expr, &'a [Lexeme]), ParseFault>
    ensures { Meets faults.NoMemory (λ read. (read.0, read.1.now)) result
        (chained_after (part_at src.now (expression_at src.now levels)) found level first
        (items_at (next_operand found (part_at src.now (expression_at src.now levels) tighter))
        lexemes.now)) }
{
    let first = Boxed::new(alloc, first)?;
    let (operands, rest) = read_operands(alloc, src, levels, found, tighter, lexemes)?;
    read_looser(
        alloc,
        src,
        levels,
        found,
        level,
        chain_of(first, operands),
        rest,
    )
}

/// The operands after the first, each with the operator before it.
#[cycle(expressions)]
fn read_operands<'a>(
    alloc: Global,
    src: &[u8],
    levels: u32,
    level: u8,
    tighter: u8,
    lexemes: &'a [Lexeme],
) -> Result<(Rows<(BinOp, Expr)>, &'a [Lexeme]), ParseFault>
    ensures { Meets faults.NoMemory (λ read. (read.0, read.1.now)) result
        (items_at (next_operand level (part_at src.now (expression_at src.now levels) tighter))
        lexemes.now) }
{
    let mut operands = Rows::new(alloc);
    let mut rest = lexemes;
    for _ in 0..lexemes.len() {
        let Some(op) = operator_of(level, word_of(rest)) else {
            return Ok((operands, rest));
        };
        let (operand, behind) = read_part(alloc, src, levels, tighter, after(rest))?;
        rest = behind;
        operands.add((op, operand))?;
    }
    Ok((operands, rest))
}

/// The branches of a condition, after the `?`.
#[cycle(expressions)]
#[tactic(auto, unfolding(wap_grammar::specs::reading::Expressions::branches_at))]
fn read_branches<'a>(
    alloc: Global,
    src: &[u8],
    levels: u32,
    condition: Expr,
    lexemes: &'a [Lexeme],
) -> Result<(Expr, &'a [Lexeme]), ParseFault>
    ensures { Meets faults.NoMemory (λ read. (read.0, read.1.now)) result
        (branches_at src.now (expression_at src.now levels) condition lexemes.now) }
{
    let condition = Boxed::new(alloc, condition)?;
    let (yes, rest) = read_boxed(alloc, src, levels, ASSIGNMENT, lexemes)?;
    let rest = expect(src, Sign::Colon, rest)?;
    let (no, rest) = read_boxed(alloc, src, levels, ASSIGNMENT, rest)?;
    Ok((Expr::Cond(condition, yes, no), rest))
}

/// An expression in a place of its own.
#[cycle(expressions)]
fn read_boxed<'a>(
    alloc: Global,
    src: &[u8],
    levels: u32,
    level: u8,
    lexemes: &'a [Lexeme],
) -> Result<(Boxed<Expr>, &'a [Lexeme]), ParseFault>
    ensures { Meets faults.NoMemory (λ read. (read.0, read.1.now)) result
        (expression_at src.now levels level lexemes.now) }
{
    let (value, rest) = read_expression(alloc, src, levels, level, lexemes)?;
    Ok((Boxed::new(alloc, value)?, rest))
}

/// A unary operator and its operand, `++` or `--` and a variable, or what has no operator before
/// it.
#[cycle(expressions)]
#[tactic(auto, unfolding(wap_grammar::specs::reading::Expressions::unary_at))]
fn read_unary<'a>(
    alloc: Global,
    src: &[u8],
    levels: u32,
    lexemes: &'a [Lexeme],
) -> Result<(Expr, &'a [Lexeme]), ParseFault>
    ensures { Meets faults.NoMemory (λ read. (read.0, read.1.now)) result
        (unary_at src.now (expression_at src.now levels) lexemes.now) }
{
    let word = word_of(lexemes);
    if let Some(op) = unary_of(word) {
        let (operand, rest) = read_boxed(alloc, src, levels, UNARY, after(lexemes))?;
        return Ok((Expr::Unary(op, operand), rest));
    }
    match step_of(word) {
        Some(up) => read_prefixed(alloc, src, up, after(lexemes)),
        None => read_primary(alloc, src, levels, lexemes),
    }
}

/// A literal, an expression in parentheses, a call or a variable.
#[cycle(expressions)]
#[inline(always)]
#[tactic(auto, unfolding(wap_grammar::specs::reading::Expressions::primary_at))]
fn read_primary<'a>(
    alloc: Global,
    src: &[u8],
    levels: u32,
    lexemes: &'a [Lexeme],
) -> Result<(Expr, &'a [Lexeme]), ParseFault>
    ensures { Meets faults.NoMemory (λ read. (read.0, read.1.now)) result
        (primary_at src.now (expression_at src.now levels) lexemes.now) }
{
    let literal = literal_of(alloc, src, span_of(lexemes), word_of(lexemes))?;
    if let Some(literal) = literal {
        return Ok((Expr::Lit(literal), after(lexemes)));
    }
    if !is_sign(Sign::Open, lexemes) {
        return read_named(alloc, src, levels, lexemes);
    }
    let (inside, rest) = read_expression(alloc, src, levels, COMMA, after(lexemes))?;
    close(src, Sign::Close, inside, rest)
}

/// A call or a variable.
#[cycle(expressions)]
#[inline(always)]
#[tactic(auto, unfolding(wap_grammar::specs::reading::Expressions::named_at))]
fn read_named<'a>(
    alloc: Global,
    src: &[u8],
    levels: u32,
    lexemes: &'a [Lexeme],
) -> Result<(Expr, &'a [Lexeme]), ParseFault>
    ensures { Meets faults.NoMemory (λ read. (read.0, read.1.now)) result
        (named_at src.now (expression_at src.now levels) lexemes.now) }
{
    let (callee, rest) = read_callee(alloc, src, lexemes)?;
    if !is_sign(Sign::Open, rest) {
        return read_variable(src, callee, rest);
    }
    let (arguments, rest) = read_arguments(alloc, src, levels, after(rest))?;
    Ok((call_of(callee, arguments), rest))
}

/// Arguments, and the parenthesis after them.
#[cycle(expressions)]
#[tactic(auto, unfolding(wap_grammar::specs::reading::Expressions::arguments_at))]
fn read_arguments<'a>(
    alloc: Global,
    src: &[u8],
    levels: u32,
    lexemes: &'a [Lexeme],
) -> Result<(Rows<Expr>, &'a [Lexeme]), ParseFault>
    ensures { Meets faults.NoMemory (λ read. (read.0, read.1.now)) result
        (arguments_at src.now (expression_at src.now levels) lexemes.now) }
{
    if is_sign(Sign::Close, lexemes) {
        return Ok((Rows::new(alloc), after(lexemes)));
    }
    let (first, rest) = read_expression(alloc, src, levels, ASSIGNMENT, lexemes)?;
    let (arguments, rest) = read_other_arguments(alloc, src, levels, first, rest)?;
    close(src, Sign::Close, arguments, rest)
}

/// The first argument, and those after it.
#[cycle(expressions)]
fn read_other_arguments<'a>(
    alloc: Global,
    src: &[u8],
    levels: u32,
    first: Expr,
    lexemes: &'a [Lexeme],
) -> Result<(Rows<Expr>, &'a [Lexeme]), ParseFault>
    ensures { Meets faults.NoMemory (λ read. (read.0, read.1.now)) result
        (told (λ others. first ∷ others)
        (items_at (next_argument (expression_at src.now levels)) lexemes.now)) }
{
    let mut arguments = list_of_one(alloc, first)?;
    let mut rest = lexemes;
    for _ in 0..lexemes.len() {
        if !is_comma(rest) {
            return Ok((arguments, rest));
        }
        let (argument, behind) = read_expression(alloc, src, levels, ASSIGNMENT, after(rest))?;
        rest = behind;
        arguments.add(argument)?;
    }
    Ok((arguments, rest))
}
