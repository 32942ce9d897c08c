//! Arguments (WAP-193, section 8.3).
ghost use Rattle.std.specs.Prelude.{◌≡◌, ◌∷◌};
ghost use Rattle.wap_base.specs.Outcome.{Meets};
ghost use Rattle.wap_grammar.specs.declared.fault.ParseFault.TheVariants as faults;
ghost use Rattle.wap_grammar.specs.reading.TokenReading.{told, items_at};
ghost use Rattle.wap_grammar.specs.reading.Statements.{next_listed, listed_at};
ghost use Rattle.wap_parse.specs.invocation.Calculation.{is_next, signed_at, sign_in};
ghost use Rattle.wap_parse.specs.invocation.Calculation.{argument_at, arguments_at};

use crate::expressions::{
    after, close, is_comma, is_sign, list_of_one, span_of, syntax_fault, word_of,
};
use crate::invocation::literals::{read_literal, value_of};
use std::alloc::Global;
use wap_base::Rows;
use wap_grammar::program::Span;
use wap_grammar::{Lexeme, ParseFault, Sign, Word};
use wap_value::{BinOp, UnOp, Value, unary};

/// The sign that a word may be.
fn sign_in(word: Word) -> Option<UnOp>
    ensures { result ≡ sign_in word }
{
    match word {
        Word::Operator(BinOp::Add) => Some(UnOp::Plus),
        Word::Operator(BinOp::Sub) => Some(UnOp::Minus),
        _ => None,
    }
}

/// Whether an integer comes first, and begins where a sign ends.
fn is_next(before: Span, lexemes: &[Lexeme]) -> bool
    ensures { result ≡ is_next before lexemes.now }
{
    match word_of(lexemes) {
        Word::Int => before.to == span_of(lexemes).from,
        _ => false,
    }
}

/// An integer after its sign.
#[tactic(auto, unfolding(crate::specs::invocation::Calculation::signed_at))]
fn read_signed<'a>(
    alloc: Global,
    src: &[u8],
    op: UnOp,
    before: Span,
    lexemes: &'a [Lexeme],
) -> Result<(Value, &'a [Lexeme]), ParseFault>
    ensures { Meets faults.NoMemory (λ read. (read.0, read.1.now)) result
        (signed_at src.now op before lexemes.now) }
{
    if !is_next(before, lexemes) {
        return Err(syntax_fault(src, lexemes));
    }
    let (literal, rest) = read_literal(alloc, src, lexemes)?;
    Ok((unary(op, value_of(literal)), rest))
}

/// An argument.
#[tactic(auto, unfolding(crate::specs::invocation::Calculation::argument_at))]
fn read_argument<'a>(
    alloc: Global,
    src: &[u8],
    lexemes: &'a [Lexeme],
) -> Result<(Value, &'a [Lexeme]), ParseFault>
    ensures { Meets faults.NoMemory (λ read. (read.0, read.1.now)) result
        (argument_at src.now lexemes.now) }
{
    if let Some(op) = sign_in(word_of(lexemes)) {
        return read_signed(alloc, src, op, span_of(lexemes), after(lexemes));
    }
    let (literal, rest) = read_literal(alloc, src, lexemes)?;
    Ok((value_of(literal), rest))
}

/// Arguments, and the parenthesis after them.
#[tactic(auto, unfolding(crate::specs::invocation::Calculation::arguments_at))]
pub(crate) fn read_arguments<'a>(
    alloc: Global,
    src: &[u8],
    lexemes: &'a [Lexeme],
) -> Result<(Rows<Value>, &'a [Lexeme]), ParseFault>
    ensures { Meets faults.NoMemory (λ read. (read.0, read.1.now)) result
        (arguments_at src.now lexemes.now) }
{
    if is_sign(Sign::Close, lexemes) {
        return Ok((Rows::new(alloc), after(lexemes)));
    }
    let (arguments, rest) = read_listed(alloc, src, lexemes)?;
    close(src, Sign::Close, arguments, rest)
}

/// Arguments, one at least, with commas between them.
#[tactic(auto, unfolding(wap_grammar::specs::reading::Statements::listed_at))]
fn read_listed<'a>(
    alloc: Global,
    src: &[u8],
    lexemes: &'a [Lexeme],
) -> Result<(Rows<Value>, &'a [Lexeme]), ParseFault>
    ensures { Meets faults.NoMemory (λ read. (read.0, read.1.now)) result
        (listed_at (argument_at src.now) lexemes.now) }
{
    let (first, rest) = read_argument(alloc, src, lexemes)?;
    read_other_arguments(alloc, src, first, rest)
}

/// The first argument, and those after it.
fn read_other_arguments<'a>(
    alloc: Global,
    src: &[u8],
    first: Value,
    lexemes: &'a [Lexeme],
) -> Result<(Rows<Value>, &'a [Lexeme]), ParseFault>
    ensures { Meets faults.NoMemory (λ read. (read.0, read.1.now)) result
        (told (λ others. first ∷ others)
        (items_at (next_listed (argument_at src.now)) lexemes.now)) }
{
    let mut arguments = list_of_one(alloc, first)?;
    let mut rest = lexemes;
    for _ in 0..lexemes.len() {
        let (argument, behind) = next_argument(alloc, src, rest)?;
        rest = behind;
        match argument {
            Some(argument) => arguments.add(argument)?,
            None => return Ok((arguments, rest)),
        }
    }
    Ok((arguments, rest))
}

/// The next argument, or none.
#[tactic(auto, unfolding(wap_grammar::specs::reading::Statements::next_listed))]
fn next_argument<'a>(
    alloc: Global,
    src: &[u8],
    lexemes: &'a [Lexeme],
) -> Result<(Option<Value>, &'a [Lexeme]), ParseFault>
    ensures { Meets faults.NoMemory (λ read. (read.0, read.1.now)) result
        (next_listed (argument_at src.now) lexemes.now) }
{
    if !is_comma(lexemes) {
        return Ok((None, lexemes));
    }
    let (argument, rest) = read_argument(alloc, src, after(lexemes))?;
    Ok((Some(argument), rest))
}
