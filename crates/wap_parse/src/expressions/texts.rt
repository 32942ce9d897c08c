//! Strings of pragmas, and what is made of them (WAP-193, section 6.7).
ghost use Rattle.std.specs.Prelude.{◌≡◌};
ghost use Rattle.wap_base.specs.Outcome.{Meets};
ghost use Rattle.wap_grammar.specs.declared.fault.ParseFault.TheVariants as faults;
ghost use Rattle.wap_grammar.specs.reading.Programs.{text_at, signed_at, access_by};
ghost use Rattle.wap_grammar.specs.reading.Programs.{access_at, scheme_at, property_at};
ghost use Rattle.wap_parse.specs.expressions.inside.Properties.{ended_at};

use crate::expressions::lexemes::text_in;
use crate::expressions::steps::{close, syntax_fault};
use crate::expressions::strings::string_of;
use crate::expressions::words::{after, is_sign, is_text, span_of};
use std::alloc::Global;
use wap_base::Text;
use wap_grammar::{Lexeme, ParseFault, Sign};

/// A string.
#[tactic(auto, unfolding(wap_grammar::specs::reading::Programs::text_at))]
pub(crate) fn read_text<'a>(
    alloc: Global,
    src: &[u8],
    lexemes: &'a [Lexeme],
) -> Result<(Text, &'a [Lexeme]), ParseFault>
    ensures { Meets faults.NoMemory (λ read. (read.0, read.1.now)) result
        (text_at src.now lexemes.now) }
{
    if !is_text(lexemes) {
        return Err(syntax_fault(src, lexemes));
    }
    let text = string_of(alloc, text_in(src, span_of(lexemes)))?;
    Ok((text, after(lexemes)))
}

/// A string after a sign, where the sign stands.
#[tactic(auto, unfolding(wap_grammar::specs::reading::Programs::signed_at))]
fn read_signed<'a>(
    alloc: Global,
    src: &[u8],
    sign: Sign,
    lexemes: &'a [Lexeme],
) -> Result<(Option<Text>, &'a [Lexeme]), ParseFault>
    ensures { Meets faults.NoMemory (λ read. (read.0, read.1.now)) result
        (signed_at src.now sign lexemes.now) }
{
    if !is_sign(sign, lexemes) {
        return Ok((None, lexemes));
    }
    let (text, rest) = read_text(alloc, src, after(lexemes))?;
    Ok((Some(text), rest))
}

/// A domain and a path, one of them at least.
#[tactic(auto, unfolding(wap_grammar::specs::reading::Programs::access_at))]
pub(crate) fn read_access<'a>(
    alloc: Global,
    src: &[u8],
    lexemes: &'a [Lexeme],
) -> Result<((Option<Text>, Option<Text>), &'a [Lexeme]), ParseFault>
    ensures { Meets faults.NoMemory (λ read. (read.0, read.1.now)) result
        (access_at src.now lexemes.now) }
{
    let (domain, rest) = read_signed(alloc, src, Sign::Domain, lexemes)?;
    let (path, rest) = read_signed(alloc, src, Sign::Path, rest)?;
    one_of(src, domain, path, rest)
}

/// A domain and a path, if there is one of them.
fn one_of<'a>(
    src: &[u8],
    domain: Option<Text>,
    path: Option<Text>,
    lexemes: &'a [Lexeme],
) -> Result<((Option<Text>, Option<Text>), &'a [Lexeme]), ParseFault>
    ensures { Meets faults.NoMemory (λ read. (read.0, read.1.now)) result
        (access_by src.now domain path lexemes.now) }
{
    match (domain, path) {
        (None, None) => Err(syntax_fault(src, lexemes)),
        (Some(domain), None) => Ok(((Some(domain), None), lexemes)),
        (None, Some(path)) => Ok(((None, Some(path)), lexemes)),
        (Some(domain), Some(path)) => Ok(((Some(domain), Some(path)), lexemes)),
    }
}

/// A scheme or none.
#[tactic(auto, unfolding(wap_grammar::specs::reading::Programs::scheme_at))]
fn read_scheme<'a>(
    alloc: Global,
    src: &[u8],
    lexemes: &'a [Lexeme],
) -> Result<(Option<Text>, &'a [Lexeme]), ParseFault>
    ensures { Meets faults.NoMemory (λ read. (read.0, read.1.now)) result
        (scheme_at src.now lexemes.now) }
{
    if !is_text(lexemes) {
        return Ok((None, lexemes));
    }
    let (text, rest) = read_text(alloc, src, lexemes)?;
    Ok((Some(text), rest))
}

/// A property: its name, what it is, and a scheme or none.
#[tactic(auto, unfolding(wap_grammar::specs::reading::Programs::property_at))]
fn read_property<'a>(
    alloc: Global,
    src: &[u8],
    lexemes: &'a [Lexeme],
) -> Result<((Text, Text, Option<Text>), &'a [Lexeme]), ParseFault>
    ensures { Meets faults.NoMemory (λ read. (read.0, read.1.now)) result
        (property_at src.now lexemes.now) }
{
    let (name, rest) = read_text(alloc, src, lexemes)?;
    let (content, rest) = read_text(alloc, src, rest)?;
    let (scheme, rest) = read_scheme(alloc, src, rest)?;
    Ok(((name, content, scheme), rest))
}

/// A property, and the `;` after it.
pub(crate) fn read_ended<'a>(
    alloc: Global,
    src: &[u8],
    lexemes: &'a [Lexeme],
) -> Result<((Text, Text, Option<Text>), &'a [Lexeme]), ParseFault>
    ensures { Meets faults.NoMemory (λ read. (read.0, read.1.now)) result
        (ended_at src.now lexemes.now) }
{
    let (property, rest) = read_property(alloc, src, lexemes)?;
    close(src, Sign::Semicolon, property, rest)
}
