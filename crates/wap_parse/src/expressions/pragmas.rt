//! Pragmas (WAP-193, section 6.7).
ghost use Rattle.std.specs.Prelude.{◌≡◌};
ghost use Rattle.wap_base.specs.Outcome.{Meets};
ghost use Rattle.wap_grammar.specs.declared.fault.ParseFault.TheVariants as faults;
ghost use Rattle.wap_grammar.specs.Programs.{from_to};
ghost use Rattle.wap_grammar.specs.reading.TokenReading.{told, items_at};
ghost use Rattle.wap_grammar.specs.reading.Programs.{agent_of, note_of, url_at, who_at};
ghost use Rattle.wap_grammar.specs.reading.Programs.{meta_at, use_at, next_use};
ghost use Rattle.wap_parse.specs.expressions.inside.Properties.{ended_at};

use crate::expressions::steps::{close, expect, read_id};
use crate::expressions::texts::{read_access, read_ended, read_text};
use crate::expressions::words::{after, is_sign, span_of};
use std::alloc::Global;
use wap_base::Rows;
use wap_grammar::program::{Span, Use};
use wap_grammar::{Lexeme, ParseFault, Sign};

/// The pragmas that tokens begin with, and the tokens after them. A string whose bytes stand for no
/// text is answered as `NoMemory`.
pub fn read_uses<'a>(
    alloc: Global,
    src: &[u8],
    lexemes: &'a [Lexeme],
) -> Result<(Rows<Use>, &'a [Lexeme]), ParseFault>
    ensures { Meets faults.NoMemory (λ read. (read.0, read.1.now)) result
        (items_at (next_use src.now) lexemes.now) }
{
    let mut uses = Rows::new(alloc);
    let mut rest = lexemes;
    for _ in 0..lexemes.len() {
        if !is_sign(Sign::Use, rest) {
            return Ok((uses, rest));
        }
        let (pragma, behind) = read_use(alloc, src, span_of(rest), after(rest))?;
        rest = behind;
        uses.add(pragma)?;
    }
    Ok((uses, rest))
}

/// A pragma after its `use`, whose place is given.
#[tactic(auto, unfolding(wap_grammar::specs::reading::Programs::use_at))]
fn read_use<'a>(
    alloc: Global,
    src: &[u8],
    word: Span,
    lexemes: &'a [Lexeme],
) -> Result<(Use, &'a [Lexeme]), ParseFault>
    ensures { Meets faults.NoMemory (λ read. (read.0, read.1.now)) result
        (use_at src.now word lexemes.now) }
{
    if is_sign(Sign::Url, lexemes) {
        return read_url(alloc, src, after(lexemes));
    }
    if is_sign(Sign::Access, lexemes) {
        return read_who(alloc, src, word, after(lexemes));
    }
    let rest = expect(src, Sign::Meta, lexemes)?;
    read_meta(alloc, src, rest)
}

/// A name for the unit of a URL.
#[tactic(auto, using(crate::proofs::ExpressionsLemmas::Closings::told_closed), unfolding(wap_grammar::specs::reading::Programs::url_at))]
fn read_url<'a>(
    alloc: Global,
    src: &[u8],
    lexemes: &'a [Lexeme],
) -> Result<(Use, &'a [Lexeme]), ParseFault>
    ensures { Meets faults.NoMemory (λ read. (read.0, read.1.now)) result
        (url_at src.now lexemes.now) }
{
    let (unit, rest) = read_id(alloc, src, lexemes)?;
    let (url, rest) = read_text(alloc, src, rest)?;
    close(src, Sign::Semicolon, Use::Url(unit, url), rest)
}

/// Who may call the unit. The pragma stands from its first word, which is given, to its `;`.
#[tactic(auto, unfolding(wap_grammar::specs::reading::Programs::who_at))]
fn read_who<'a>(
    alloc: Global,
    src: &[u8],
    word: Span,
    lexemes: &'a [Lexeme],
) -> Result<(Use, &'a [Lexeme]), ParseFault>
    ensures { Meets faults.NoMemory (λ read. (read.0, read.1.now)) result
        (who_at src.now word lexemes.now) }
{
    let (who, rest) = read_access(alloc, src, lexemes)?;
    let span = from_to(word, span_of(rest));
    let (domain, path) = who;
    close(src, Sign::Semicolon, Use::Access(domain, path, span), rest)
}

/// From the first byte of a part of the source to the last of another.
fn from_to(first: Span, last: Span) -> Span
    ensures { result ≡ from_to first last }
{
    Span {
        from: first.from,
        to: last.to,
    }
}

/// A property of the unit.
#[tactic(auto, unfolding(wap_grammar::specs::reading::Programs::meta_at))]
fn read_meta<'a>(
    alloc: Global,
    src: &[u8],
    lexemes: &'a [Lexeme],
) -> Result<(Use, &'a [Lexeme]), ParseFault>
    ensures { Meets faults.NoMemory (λ read. (read.0, read.1.now)) result
        (meta_at src.now lexemes.now) }
{
    if is_sign(Sign::NameWord, lexemes) {
        return read_note(alloc, src, after(lexemes));
    }
    if is_sign(Sign::Http, lexemes) {
        let rest = expect(src, Sign::Equiv, after(lexemes))?;
        return read_note(alloc, src, rest);
    }
    let rest = expect(src, Sign::User, lexemes)?;
    let rest = expect(src, Sign::Agent, rest)?;
    read_agent(alloc, src, rest)
}

/// A property that the unit doesn't keep.
fn read_note<'a>(
    alloc: Global,
    src: &[u8],
    lexemes: &'a [Lexeme],
) -> Result<(Use, &'a [Lexeme]), ParseFault>
    ensures { Meets faults.NoMemory (λ read. (read.0, read.1.now)) result
        (told note_of (ended_at src.now lexemes.now)) }
{
    let (_, rest) = read_ended(alloc, src, lexemes)?;
    Ok((Use::Note, rest))
}

/// A property for the browser.
fn read_agent<'a>(
    alloc: Global,
    src: &[u8],
    lexemes: &'a [Lexeme],
) -> Result<(Use, &'a [Lexeme]), ParseFault>
    ensures { Meets faults.NoMemory (λ read. (read.0, read.1.now)) result
        (told agent_of (ended_at src.now lexemes.now)) }
{
    let (property, rest) = read_ended(alloc, src, lexemes)?;
    let (name, content, scheme) = property;
    Ok((Use::Agent(name, content, scheme), rest))
}
