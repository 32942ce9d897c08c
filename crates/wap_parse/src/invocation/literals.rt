//! Literals (WAP-193, section 6.1.5), and their values.
ghost use Rattle.std.specs.Prelude.{◌≡◌};
ghost use Rattle.wap_base.specs.Outcome.{Meets};
ghost use Rattle.wap_grammar.specs.declared.fault.ParseFault.TheVariants as faults;
ghost use Rattle.wap_parse.specs.invocation.Calls.{value_of};
ghost use Rattle.wap_parse.specs.invocation.Calculation.{literal_at};
ghost use Rattle.wap_parse.specs.invocation.inside.Literals.{is_literal};

use crate::expressions::{read_expression, syntax_fault, word_of};
use std::alloc::Global;
use wap_grammar::program::{Expr, Literal};
use wap_grammar::{Lexeme, ParseFault, UNARY, Word};
use wap_value::Value;

/// Whether a word may be a literal.
fn is_literal(word: Word) -> bool
    ensures { result ≡ is_literal word }
{
    matches!(
        word,
        Word::Int | Word::Float | Word::Str | Word::True | Word::False | Word::Invalid
    )
}

/// A literal, and the tokens after it: an expression that may have no parts.
pub(crate) fn read_literal<'a>(
    alloc: Global,
    src: &[u8],
    lexemes: &'a [Lexeme],
) -> Result<(Literal, &'a [Lexeme]), ParseFault>
    ensures { Meets faults.NoMemory (λ read. (read.0, read.1.now)) result
        (literal_at src.now lexemes.now) }
{
    if !is_literal(word_of(lexemes)) {
        return Err(syntax_fault(src, lexemes));
    }
    let (value, rest) = read_expression(alloc, src, 1, UNARY, lexemes)?;
    let Expr::Lit(literal) = value else {
        return Err(syntax_fault(src, lexemes));
    };
    Ok((literal, rest))
}

/// The value that a literal is.
pub(crate) fn value_of(literal: Literal) -> Value
    ensures { result ≡ value_of literal }
{
    match literal {
        Literal::Int(number) => Value::Int(number),
        Literal::Float | Literal::Invalid => Value::Invalid,
        Literal::Str(text) => Value::Str(text),
        Literal::Bool(truth) => Value::Bool(truth),
    }
}
