//! Functions (WAP-193, section 6.4).
ghost use Rattle.std.specs.Prelude.{◌≡◌, ◌∷◌};
ghost use Rattle.wap_base.specs.Outcome.{Meets};
ghost use Rattle.wap_grammar.specs.declared.fault.ParseFault.TheVariants as faults;
ghost use Rattle.wap_grammar.specs.reading.TokenReading.{told, id_at, items_at};
ghost use Rattle.wap_grammar.specs.reading.Statements.{next_listed, listed_at, statement_at};
ghost use Rattle.wap_grammar.specs.reading.Programs.{parameters_at, tail_at, head_at, function_of};
ghost use Rattle.wap_grammar.specs.reading.Programs.{function_at, next_function};
ghost use Rattle.wap_parse.specs.inside.Signatures.{signature_at};

use crate::expressions::{after, close, expect, is_comma, is_sign, list_of_one, read_id};
use crate::statements::read_block;
use std::alloc::Global;
use wap_base::Rows;
use wap_grammar::program::{Function, Id, Stmt};
use wap_grammar::{Lexeme, ParseFault, Sign};

/// The functions up to the end.
pub(crate) fn read_functions<'a>(
    alloc: Global,
    src: &[u8],
    levels: u32,
    lexemes: &'a [Lexeme],
) -> Result<(Rows<Function>, &'a [Lexeme]), ParseFault>
    ensures { Meets faults.NoMemory (λ read. (read.0, read.1.now)) result
        (items_at (next_function src.now (statement_at src.now levels)) lexemes.now) }
{
    let mut functions = Rows::new(alloc);
    let mut rest = lexemes;
    for _ in 0..lexemes.len() {
        let (function, behind) = next_function(alloc, src, levels, rest)?;
        rest = behind;
        match function {
            Some(function) => functions.add(function)?,
            None => return Ok((functions, rest)),
        }
    }
    Ok((functions, rest))
}

/// The next function, or none at the end.
#[tactic(auto, unfolding(wap_grammar::specs::reading::Programs::next_function))]
fn next_function<'a>(
    alloc: Global,
    src: &[u8],
    levels: u32,
    lexemes: &'a [Lexeme],
) -> Result<(Option<Function>, &'a [Lexeme]), ParseFault>
    ensures { Meets faults.NoMemory (λ read. (read.0, read.1.now)) result
        (next_function src.now (statement_at src.now levels) lexemes.now) }
{
    match lexemes {
        [] => Ok((None, lexemes)),
        [_, ..] => {
            let (function, rest) = read_function(alloc, src, levels, lexemes)?;
            Ok((Some(function), rest))
        }
    }
}

/// A function whose statements span so many levels at most.
#[tactic(auto, using(crate::proofs::Signatures::function_by_signature))]
fn read_function<'a>(
    alloc: Global,
    src: &[u8],
    levels: u32,
    lexemes: &'a [Lexeme],
) -> Result<(Function, &'a [Lexeme]), ParseFault>
    ensures { Meets faults.NoMemory (λ read. (read.0, read.1.now)) result
        (function_at src.now (statement_at src.now levels) lexemes.now) }
{
    let (signature, rest) = read_signature(alloc, src, lexemes)?;
    let (body, rest) = read_block(alloc, src, levels, rest)?;
    Ok((function_of(signature, body), after_tail(rest)))
}

/// What stands before a function's statements: whether other units may call it, its name and its
/// parameters.
type Signature = (bool, (Id, Rows<Id>));

/// The function of a signature and its statements.
fn function_of(signature: Signature, body: Rows<Stmt>) -> Function
    ensures { result ≡ function_of signature.0 signature.1.0 signature.1.1 body }
{
    let (external, named) = signature;
    let (name, params) = named;
    Function {
        name,
        external,
        params,
        body,
    }
}

/// What stands before a function's statements, up to the `{`.
#[tactic(auto, unfolding(crate::specs::inside::Signatures::signature_at))]
fn read_signature<'a>(
    alloc: Global,
    src: &[u8],
    lexemes: &'a [Lexeme],
) -> Result<(Signature, &'a [Lexeme]), ParseFault>
    ensures { Meets faults.NoMemory (λ read. (read.0, read.1.now)) result
        (signature_at src.now lexemes.now) }
{
    let (external, rest) = read_head(src, lexemes)?;
    let (name, rest) = read_id(alloc, src, rest)?;
    let rest = expect(src, Sign::Open, rest)?;
    let (params, rest) = read_parameters(alloc, src, rest)?;
    let rest = expect(src, Sign::OpenBlock, rest)?;
    Ok(((external, (name, params)), rest))
}

/// The words before a function's name: whether other units may call it.
#[tactic(auto, unfolding(wap_grammar::specs::reading::Programs::head_at))]
fn read_head<'a>(src: &[u8], lexemes: &'a [Lexeme]) -> Result<(bool, &'a [Lexeme]), ParseFault>
    ensures { Meets faults.NoMemory (λ read. (read.0, read.1.now)) result
        (head_at src.now lexemes.now) }
{
    if is_sign(Sign::Extern, lexemes) {
        let rest = expect(src, Sign::Function, after(lexemes))?;
        return Ok((true, rest));
    }
    let rest = expect(src, Sign::Function, lexemes)?;
    Ok((false, rest))
}

/// The tokens after the `;` that may stand after a function.
fn after_tail(lexemes: &[Lexeme]) -> &[Lexeme]
    ensures { result.now ≡ tail_at lexemes.now }
{
    if is_sign(Sign::Semicolon, lexemes) {
        return after(lexemes);
    }
    lexemes
}

/// Parameters, and the parenthesis after them.
#[tactic(auto, unfolding(wap_grammar::specs::reading::Programs::parameters_at))]
fn read_parameters<'a>(
    alloc: Global,
    src: &[u8],
    lexemes: &'a [Lexeme],
) -> Result<(Rows<Id>, &'a [Lexeme]), ParseFault>
    ensures { Meets faults.NoMemory (λ read. (read.0, read.1.now)) result
        (parameters_at src.now lexemes.now) }
{
    if is_sign(Sign::Close, lexemes) {
        return Ok((Rows::new(alloc), after(lexemes)));
    }
    let (parameters, rest) = read_names(alloc, src, lexemes)?;
    close(src, Sign::Close, parameters, rest)
}

/// Names, one at least, with commas between them.
#[tactic(auto, unfolding(wap_grammar::specs::reading::Statements::listed_at))]
fn read_names<'a>(
    alloc: Global,
    src: &[u8],
    lexemes: &'a [Lexeme],
) -> Result<(Rows<Id>, &'a [Lexeme]), ParseFault>
    ensures { Meets faults.NoMemory (λ read. (read.0, read.1.now)) result
        (listed_at (id_at src.now) lexemes.now) }
{
    let (first, rest) = read_id(alloc, src, lexemes)?;
    read_other_names(alloc, src, first, rest)
}

/// The first name, and those after it.
fn read_other_names<'a>(
    alloc: Global,
    src: &[u8],
    first: Id,
    lexemes: &'a [Lexeme],
) -> Result<(Rows<Id>, &'a [Lexeme]), ParseFault>
    ensures { Meets faults.NoMemory (λ read. (read.0, read.1.now)) result
        (told (λ others. first ∷ others) (items_at (next_listed (id_at src.now)) lexemes.now)) }
{
    let mut names = list_of_one(alloc, first)?;
    let mut rest = lexemes;
    for _ in 0..lexemes.len() {
        let (name, behind) = next_name(alloc, src, rest)?;
        rest = behind;
        match name {
            Some(name) => names.add(name)?,
            None => return Ok((names, rest)),
        }
    }
    Ok((names, rest))
}

/// The next name, or none.
#[tactic(auto, unfolding(wap_grammar::specs::reading::Statements::next_listed))]
fn next_name<'a>(
    alloc: Global,
    src: &[u8],
    lexemes: &'a [Lexeme],
) -> Result<(Option<Id>, &'a [Lexeme]), ParseFault>
    ensures { Meets faults.NoMemory (λ read. (read.0, read.1.now)) result
        (next_listed (id_at src.now) lexemes.now) }
{
    if !is_comma(lexemes) {
        return Ok((None, lexemes));
    }
    let (name, rest) = read_id(alloc, src, after(lexemes))?;
    Ok((Some(name), rest))
}
