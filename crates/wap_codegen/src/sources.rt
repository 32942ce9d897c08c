//! Sources to programs whose names are in order.
ghost use Rattle.std.specs.Prelude.{◌≡◌, ◌<◌, ◌^◌, length, IfOk, IfErr};
ghost use Rattle.wap_lex.specs.Tokens.{AreTokens};
ghost use Rattle.wap_meaning.specs.compiled.Accepted.{IsSourceOf};
ghost use Rattle.wap_codegen.specs.Faults.{IsCompileFault, IsPlain};

use crate::CompileFault;
use std::alloc::Global;
use wap_grammar::program::Program;
use wap_lex::{Token, lex};
use wap_parse::parse;
use wap_scope::{Scoped, resolve};

/// The tokens of a source.
fn tokens_of(alloc: Global, src: &[u8]) -> Result<Vec<Token>, CompileFault>
    requires { length src.now < 2 ^ 31 }
    ensures found { IfOk result (λ tokens. AreTokens src.now tokens.items) }
    ensures fault { IfErr result (IsCompileFault src.now) }
    ensures plain { IfErr result IsPlain }
{
    match lex(alloc, src) {
        Ok(tokens) => Ok(tokens),
        Err(fault) => Err(CompileFault::from(fault)),
    }
}

/// The program that tokens spell.
fn program_of(alloc: Global, src: &[u8], tokens: &[Token]) -> Result<Program, CompileFault>
    requires { AreTokens src.now tokens.now }
    ensures found { IfOk result (IsSourceOf src.now) }
    ensures fault { IfErr result (IsCompileFault src.now) }
    ensures plain { IfErr result IsPlain }
{
    match parse(alloc, src, tokens) {
        Ok(program) => Ok(program),
        Err(fault) => Err(CompileFault::from(fault)),
    }
}

/// A program as one whose names are in order.
fn resolved(alloc: Global, src: &[u8], program: Program) -> Result<Scoped, CompileFault>
    requires { IsSourceOf src.now program }
    ensures found { IfOk result (λ scoped. scoped ≡ program) }
    ensures fault { IfErr result (IsCompileFault src.now) }
    ensures plain { IfErr result IsPlain }
{
    match resolve(alloc, program) {
        Ok(scoped) => Ok(scoped),
        Err((_, fault)) => Err(CompileFault::from(fault)),
    }
}

/// The program of a source, whose names are in order.
pub(crate) fn scoped_of(alloc: Global, src: &[u8]) -> Result<Scoped, CompileFault>
    requires { length src.now < 2 ^ 31 }
    ensures found { IfOk result (λ scoped. IsSourceOf src.now scoped) }
    ensures fault { IfErr result (IsCompileFault src.now) }
    ensures plain { IfErr result IsPlain }
{
    let tokens = tokens_of(alloc, src)?;
    let program = program_of(alloc, src, tokens.as_slice())?;
    resolved(alloc, src, program)
}
