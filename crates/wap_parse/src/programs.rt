//! Programs (WAP-193, sections 6.4 and 6.7).
ghost use Rattle.std.specs.Prelude.{◌≡◌, ℕ, Ok, IfOk, IfErr};
ghost use Rattle.wap_base.specs.Outcome.{Meets};
ghost use Rattle.wap_grammar.specs.declared.program.program.Program.{Program};
ghost use Rattle.wap_lex.specs.Tokens.{AreTokens};
ghost use Rattle.wap_grammar.specs.declared.fault.ParseFault.TheVariants as faults;
ghost use Rattle.wap_grammar.specs.Lexemes.{lexemes_of};
ghost use Rattle.wap_grammar.specs.Programs.{IsProgram, Spells};
ghost use Rattle.wap_grammar.specs.Refusal.{IsPast};
ghost use Rattle.wap_grammar.specs.Depth.{IsFirstBelow};
ghost use Rattle.wap_grammar.specs.reading.Programs.{program_by, program_at};
ghost use Rattle.wap_grammar.specs.reading.Statements.{statement_at};

use crate::expressions::{lexemes_of, read_uses, syntax_fault};
use crate::functions::read_functions;
use std::alloc::Global;
use wap_base::Rows;
use wap_grammar::program::{Function, Program, Use};
use wap_grammar::{LEVEL_LIMIT, Lexeme, ParseFault};
use wap_lex::Token;

/// The program that the tokens of a source spell. Each of its strings stands for a text
/// (`wap_grammar::strings_are_texts`), so `NoMemory` is answered only where memory runs out.
pub fn parse(alloc: Global, src: &[u8], tokens: &[Token]) -> Result<Program, ParseFault>
    requires { AreTokens src.now tokens.now }
    // What is answered is the program whose parts stand at levels up to 64, and no other is.
    ensures found { IfOk result (λ program.
        IsProgram src.now LEVEL_LIMIT (lexemes_of src.now tokens.now) program) }
    ensures only { (program : Program) →
        IsProgram src.now LEVEL_LIMIT (lexemes_of src.now tokens.now) program →
        Meets faults.NoMemory (λ found. found) result (Ok program) }
    // Reading them from the left comes to the same, so a fault has its place where that stops.
    ensures reads { Meets faults.NoMemory (λ program. program) result
        (program_at src.now (statement_at src.now LEVEL_LIMIT) (lexemes_of src.now tokens.now)) }
    // No program spells the tokens, at whatever levels its parts stand.
    ensures syntax { IfErr result (λ fault. (at : ℕ) → fault ≡ faults.Syntax at →
        (program : Program) → Spells src.now program (lexemes_of src.now tokens.now) → ⊥) }
    // A part that is too deep has as many tokens before it at least as there are levels.
    ensures nested { IfErr result (λ fault. (at : ℕ) → fault ≡ faults.Nested at →
        IsPast src.now LEVEL_LIMIT (lexemes_of src.now tokens.now) at) }
    // Where a program spells the tokens, its first part that is too deep begins there.
    ensures first { IfErr result (λ fault. (at : ℕ) → fault ≡ faults.Nested at →
        (program : Program) → Spells src.now program (lexemes_of src.now tokens.now) →
        IsFirstBelow src.now LEVEL_LIMIT (lexemes_of src.now tokens.now) program at) }
{
    let lexemes = lexemes_of(alloc, src, tokens)?;
    read_program(alloc, src, LEVEL_LIMIT, lexemes.as_slice())
}

/// A program whose statements span so many levels at most.
#[tactic(auto, unfolding(wap_grammar::specs::reading::Programs::program_at))]
fn read_program(
    alloc: Global,
    src: &[u8],
    levels: u32,
    lexemes: &[Lexeme],
) -> Result<Program, ParseFault>
    ensures { Meets faults.NoMemory (λ program. program) result
        (program_at src.now (statement_at src.now levels) lexemes.now) }
{
    let (uses, rest) = read_uses(alloc, src, lexemes)?;
    let (functions, rest) = read_functions(alloc, src, levels, rest)?;
    program_of(src, uses, functions, rest)
}

/// The program of its parts, if it has a function and no tokens are left.
#[tactic(auto, using(crate::proofs::Endings::no_function, crate::proofs::Endings::left_over, crate::proofs::Endings::complete))]
fn program_of(
    src: &[u8],
    uses: Rows<Use>,
    functions: Rows<Function>,
    rest: &[Lexeme],
) -> Result<Program, ParseFault>
    ensures { Meets faults.NoMemory (λ program. program) result
        (program_by src.now uses functions rest.now) }
{
    if functions.is_empty() || !rest.is_empty() {
        return Err(syntax_fault(src, rest));
    }
    Ok(Program { uses, functions })
}
