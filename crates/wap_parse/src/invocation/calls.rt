//! The call that a fragment is (WAP-193, section 8.3).
ghost use Rattle.std.specs.Prelude.{◌≡◌, ◌≢◌, Ok, IfOk};
ghost use Rattle.wap_base.specs.Outcome.{Meets};
ghost use Rattle.wap_grammar.specs.declared.fault.ParseFault.TheVariants as faults;
ghost use Rattle.wap_parse.specs.invocation.Calculation.{ended, call_at, spelled_by, call_of};

use crate::expressions::{expect, lexemes_of, read_id, syntax_fault};
use crate::invocation::Invocation;
use crate::invocation::arguments::read_arguments;
use crate::invocation::blanks::is_spaced;
use std::alloc::Global;
use wap_base::{NoMemory, Rows, Text};
use wap_grammar::program::Id;
use wap_grammar::{Lexeme, ParseFault, Sign};
use wap_lex::{LexFault, Token, lex};
use wap_value::Value;

/// The most bytes of a fragment whose tokens are read.
const MOST: usize = 2_147_483_647;

/// The call that a fragment is. How long the text of an argument is isn't judged. A fragment of
/// 2^31 bytes or more is answered as out of memory.
pub fn read_call(alloc: Global, fragment: &Text) -> Result<Option<Invocation>, NoMemory>
    ensures { IfOk result (λ found. found ≡ call_of fragment.now) }
{
    let src = fragment.as_str().as_bytes();
    if src.len() > MOST {
        return Err(NoMemory);
    }
    match lex(alloc, src) {
        Ok(tokens) => spelled_by(alloc, src, &tokens),
        Err(fault) => no_call(fault),
    }
}

/// There is no call where there are no tokens, unless memory ran out.
fn no_call(fault: LexFault) -> Result<Option<Invocation>, NoMemory>
    ensures { IfOk result (λ found. (found ≡ None) × (fault ≢ LexFault.NoMemory)) }
{
    match fault {
        LexFault::NoMemory => Err(NoMemory),
        _ => Ok(None),
    }
}

/// The call that tokens spell, where blanks alone stand around them.
fn spelled_by(alloc: Global, src: &[u8], tokens: &[Token]) -> Result<Option<Invocation>, NoMemory>
    ensures { IfOk result (λ found. found ≡ spelled_by src.now (Ok tokens.now)) }
{
    if !is_spaced(src, tokens) {
        return Ok(None);
    }
    let lexemes = lexemes_of(alloc, src, tokens)?;
    match read_spelled(alloc, src, lexemes.as_slice()) {
        Ok(call) => Ok(Some(call)),
        Err(ParseFault::NoMemory) => Err(NoMemory),
        Err(ParseFault::Syntax { .. } | ParseFault::Nested { .. }) => Ok(None),
    }
}

/// A name, and arguments in parentheses up to the end.
#[tactic(auto, unfolding(crate::specs::invocation::Calculation::call_at))]
fn read_spelled(alloc: Global, src: &[u8], lexemes: &[Lexeme]) -> Result<Invocation, ParseFault>
    ensures { Meets faults.NoMemory (λ call. call) result (call_at src.now lexemes.now) }
{
    let (function, rest) = read_id(alloc, src, lexemes)?;
    let rest = expect(src, Sign::Open, rest)?;
    let (arguments, rest) = read_arguments(alloc, src, rest)?;
    ended(src, function, arguments, rest)
}

/// The call of a name and arguments, if no tokens are left.
fn ended(
    src: &[u8],
    function: Id,
    arguments: Rows<Value>,
    rest: &[Lexeme],
) -> Result<Invocation, ParseFault>
    ensures { Meets faults.NoMemory (λ call. call) result
        (ended src.now function (arguments, rest.now)) }
{
    if !rest.is_empty() {
        return Err(syntax_fault(src, rest));
    }
    let Id { name, span: _ } = function;
    Ok(Invocation {
        function: name,
        arguments,
    })
}
