//! Steps that read no expression: a sign, a name (WAP-193, section 6.1).
ghost use Rattle.std.specs.Prelude.{◌≡◌};
ghost use Rattle.wap_base.specs.Outcome.{Meets};
ghost use Rattle.wap_grammar.specs.declared.fault.ParseFault.TheVariants.{Syntax, Nested, NoMemory};
ghost use Rattle.wap_grammar.specs.Values.{id_of};
ghost use Rattle.wap_grammar.specs.Refusal.{place_of};
ghost use Rattle.wap_grammar.specs.reading.TokenReading.{Reading, told, expect_at, closed, id_at};

use crate::expressions::lexemes::text_in;
use crate::expressions::words::{after, is_name, is_sign, span_of};
use std::alloc::Global;
use wap_base::Text;
use wap_grammar::program::{Id, Span};
use wap_grammar::{Lexeme, ParseFault, Sign};

/// Where the first token begins, or the source ends.
fn place_of(src: &[u8], lexemes: &[Lexeme]) -> usize
    ensures { result ≡ place_of src.now lexemes.now }
{
    match lexemes {
        [] => src.len(),
        [first, ..] => first.span.from as usize,
    }
}

/// No program goes on with these tokens.
pub fn syntax_fault(src: &[u8], lexemes: &[Lexeme]) -> ParseFault
    ensures { result ≡ Syntax (place_of src.now lexemes.now) }
{
    ParseFault::Syntax {
        at: place_of(src, lexemes),
    }
}

/// A part that begins with these tokens is too deep.
pub fn nesting_fault(src: &[u8], lexemes: &[Lexeme]) -> ParseFault
    ensures { result ≡ Nested (place_of src.now lexemes.now) }
{
    ParseFault::Nested {
        at: place_of(src, lexemes),
    }
}

/// The tokens after a sign.
#[tactic(auto, unfolding(wap_grammar::specs::reading::TokenReading::expect_at))]
pub fn expect<'a>(src: &[u8], sign: Sign, lexemes: &'a [Lexeme]) -> Result<&'a [Lexeme], ParseFault>
    ensures { Meets NoMemory (λ rest. rest.now) result (expect_at src.now sign lexemes.now) }
{
    if !is_sign(sign, lexemes) {
        return Err(syntax_fault(src, lexemes));
    }
    Ok(after(lexemes))
}

/// What was read, if a sign stands after it, and the tokens after the sign.
#[inline(always)]
pub fn close<'a, T: Drop>(
    src: &[u8],
    sign: Sign,
    value: T,
    lexemes: &'a [Lexeme],
) -> Result<(T, &'a [Lexeme]), ParseFault>
    ensures { Meets NoMemory (λ read. (read.0, read.1.now)) result
        (closed src.now sign (value, lexemes.now)) }
{
    let rest = expect(src, sign, lexemes)?;
    Ok((value, rest))
}

/// What was read before, with what was read after it.
pub fn join<'a, A: Drop, B>(
    first: A,
    second: Result<(B, &'a [Lexeme]), ParseFault>,
) -> Result<((A, B), &'a [Lexeme]), ParseFault>
    ensures { (reading : Reading B) →
        Meets NoMemory (λ read. (read.0, read.1.now)) second.entry reading →
        Meets NoMemory (λ read. (read.0, read.1.now)) result
        (told (λ after. (first, after)) reading) }
{
    let (second, rest) = second?;
    Ok(((first, second), rest))
}

/// The name of a part of the source.
#[inline(always)]
pub(crate) fn id_of(alloc: Global, src: &[u8], span: Span) -> Result<Id, ParseFault>
    ensures { Meets NoMemory (λ id. id) result (Ok (id_of src.now span)) }
{
    let name = Text::from_latin1(alloc, text_in(src, span))?;
    Ok(Id { name, span })
}

/// A name, and the tokens after it.
#[inline(always)]
#[tactic(auto, unfolding(wap_grammar::specs::reading::TokenReading::id_at))]
pub fn read_id<'a>(
    alloc: Global,
    src: &[u8],
    lexemes: &'a [Lexeme],
) -> Result<(Id, &'a [Lexeme]), ParseFault>
    ensures { Meets NoMemory (λ read. (read.0, read.1.now)) result (id_at src.now lexemes.now) }
{
    if !is_name(lexemes) {
        return Err(syntax_fault(src, lexemes));
    }
    let id = id_of(alloc, src, span_of(lexemes))?;
    Ok((id, after(lexemes)))
}
