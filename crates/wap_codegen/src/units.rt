//! Units of programs.
ghost use Rattle.std.specs.Prelude.{◌≡◌, ◌≤◌, length, map, IfOk, IfErr};
ghost use Rattle.std.specs.List.{All};
ghost use Rattle.wap_scope.specs.Scoped.{IsScoped};
ghost use Rattle.wap_meaning.specs.compiled.Pool.{pool};
ghost use Rattle.wap_meaning.specs.compiled.Units.{compiled_function, compiled};
ghost use Rattle.wap_meaning.specs.compiled.Wide.{function_wide};
ghost use Rattle.wap_meaning.specs.compiled.Accepted.{HasRoom, most_constants, most_code};
ghost use Rattle.wap_codegen.specs.inside.Units.{AreNumbersOf, CanBeMade, AllHaveForms};
ghost use Rattle.wap_codegen.specs.inside.Units.{IsFunctionsCause, IsUnitCause};

use crate::CompileFault;
use crate::functions::codes_of;
use crate::names::names_of;
use crate::pool::Numbering;
use crate::pragmas::pragmas_of;
use std::alloc::Global;
use wap_base::{NoMemory, Rows};
use wap_grammar::program::Program;
use wap_unit::{Code, Unit};

/// How many constants a unit may have.
const CONSTANT_LIMIT: u64 = 65536;

/// The numbers of a program's names and constants, unless the constants are too many.
fn numbering_of(alloc: Global, program: &Program) -> Result<Numbering, CompileFault>
    requires { IsScoped program.now }
    ensures numbers { IfOk result (AreNumbersOf program.now) }
    ensures few { IfOk result (λ numbering. length (pool program.now) ≤ most_constants) }
    ensures fault { IfErr result (IsUnitCause program.now) }
{
    let numbering = Numbering::of(alloc, program)?;
    let count = numbering.constant_count() as u64;
    if count > CONSTANT_LIMIT {
        return Err(CompileFault::TooManyConstants { count });
    }
    Ok(numbering)
}

/// The unit that has this code.
#[tactic(auto, unfolding(wap_meaning::specs::compiled::Units::compiled))]
fn unit_with(
    alloc: Global,
    program: &Program,
    numbering: &Numbering,
    functions: Rows<Code>,
) -> Result<Unit, NoMemory>
    requires pool { numbering.now.pool ≡ pool program.now }
    requires code { functions ≡ map (compiled_function program.now) program.now.functions }
    requires few { length program.now.functions ≤ 255 }
    ensures { IfOk result (λ unit. unit ≡ compiled program.now) }
{
    let constants = numbering.constants(alloc)?;
    let pragmas = pragmas_of(alloc, numbering, program.uses.as_slice())?;
    let names = names_of(alloc, program.functions.as_slice())?;
    Ok(Unit {
        version: 1,
        charset: 106,
        constants,
        pragmas,
        names,
        functions,
    })
}

/// The unit of a program whose names and constants have numbers.
fn unit_by(
    alloc: Global,
    program: &Program,
    numbering: &mut Numbering,
) -> Result<Unit, CompileFault>
    requires numbers { AreNumbersOf program.now numbering.now }
    requires made { All (CanBeMade program.now) program.now.functions }
    requires few { length program.now.functions ≤ 255 }
    ensures found { IfOk result (λ unit. unit ≡ compiled program.now) }
    ensures short { IfOk result (λ unit.
        All (λ f. function_wide f ≤ most_code) program.now.functions) }
    ensures fault { IfErr result (IsFunctionsCause program.now) }
{
    let functions = codes_of(alloc, program, numbering)?;
    let unit = unit_with(alloc, program, numbering, functions)?;
    Ok(unit)
}

/// The unit of a program.
pub(crate) fn unit_of(alloc: Global, program: &Program) -> Result<Unit, CompileFault>
    requires scoped { IsScoped program.now }
    requires forms { AllHaveForms program.now }
    ensures found { IfOk result (λ unit. unit ≡ compiled program.now) }
    ensures room { IfOk result (λ unit. HasRoom program.now) }
    ensures fault { IfErr result (IsUnitCause program.now) }
{
    let mut numbering = numbering_of(alloc, program)?;
    unit_by(alloc, program, &mut numbering)
}
