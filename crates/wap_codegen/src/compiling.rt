//! Compiling sources.
ghost use Rattle.std.specs.Prelude.{◌≡◌, ◌<◌, ◌^◌, length, Ok, IfOk, IfErr};
ghost use Rattle.wap_base.specs.Outcome.{Meets};
ghost use Rattle.wap_unit.specs.Spelling.{HasSpelling};
ghost use Rattle.wap_verify.specs.Sound.{IsVerified};
ghost use Rattle.wap_grammar.specs.declared.program.program.Program.{Program};
ghost use Rattle.wap_meaning.specs.compiled.Units.{compiled};
ghost use Rattle.wap_meaning.specs.compiled.Accepted.{IsAccepted};
ghost use Rattle.wap_codegen.specs.Faults.{IsCompileFault, IsPlain};
ghost use Rattle.wap_codegen.specs.declared.fault.CompileFault.TheVariants as faults;

use crate::CompileFault;
use crate::sources::scoped_of;
use crate::units::unit_of;
use std::alloc::Global;
use wap_unit::Unit;
use wap_verify::{Verified, VerifyFault, verify};

/// A unit that may be run as one that was verified.
fn verified_of(alloc: Global, unit: Unit) -> Result<Verified, CompileFault>
    requires spelled { HasSpelling unit }
    requires verified { IsVerified unit }
    ensures kept { IfOk result (λ verified. verified ≡ unit) }
    ensures fault { IfErr result (λ fault. fault ≡ faults.NoMemory) }
{
    match verify(alloc, unit) {
        Ok(verified) => Ok(verified),
        Err((_, VerifyFault::NoMemory)) => Err(CompileFault::NoMemory),
        Err(_) => unreachable!(),
    }
}

/// The unit that a source of fewer than 2^31 bytes is compiled to, as one that may be run.
///
/// # Errors
/// The first reason not to: that its tokens, its grammar or its names aren't in order, that it has
/// too many constants, or that the code of a function is too long with each instruction in its
/// longest form; and `NoMemory`.
pub fn compile(alloc: Global, src: &[u8]) -> Result<Verified, CompileFault>
    requires { length src.now < 2 ^ 31 }
    // What is answered is the unit of the program that the source spells.
    ensures found { IfOk result (λ unit.
        (program : Program) × IsAccepted src.now program × (unit ≡ compiled program)) }
    // A source whose program has a unit is compiled to it, unless memory runs out.
    ensures only { (program : Program) → IsAccepted src.now program
        → Meets faults.NoMemory (λ unit. unit) result (Ok (compiled program)) }
    // Each fault but out of memory is one of the source: what a layer refuses, or what is too many
    // or too long.
    ensures refused { IfErr result (IsCompileFault src.now) }
    // Out of memory is said so, and not by a layer's fault.
    ensures plain { IfErr result IsPlain }
{
    let scoped = scoped_of(alloc, src)?;
    let unit = unit_of(alloc, scoped.program())?;
    verified_of(alloc, unit)
}
