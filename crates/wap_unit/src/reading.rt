//! Reading a unit from its bytes.
ghost use Rattle.std.specs.Prelude.{◌≢◌, ◌<◌, ◌^◌, length, IfOk, IfErr, Ok, Err};
ghost use Rattle.wap_base.specs.Outcome.{Meets};
ghost use Rattle.wap_unit.specs.declared.unit.Unit.{Unit};
ghost use Rattle.wap_unit.specs.declared.fault.UnitFault.{UnitFault};
ghost use Rattle.wap_unit.specs.declared.fault.UnitFault.TheVariants.{NoMemory};
ghost use Rattle.wap_unit.specs.Units.{IsUnit};
ghost use Rattle.wap_unit.specs.Refusal.{IsRefused};
ghost use Rattle.wap_unit.specs.reading.UnitReading.{body_at, unit_at};

use crate::constants::read_constants;
use crate::front::{byte, number};
use crate::functions::read_functions;
use crate::pragmas::read_pragmas;
use crate::{Unit, UnitFault};
use std::alloc::Global;
use wap_base::place;

/// The greatest version byte that is read: those of the major number 1, in the upper four bits the
/// number minus one.
pub const GREATEST_VERSION: u8 = 0x0F;

/// The unit that the bytes spell, all of them.
pub fn decode(alloc: Global, bytes: &[u8]) -> Result<Unit, UnitFault>
    requires { length bytes.now < 2 ^ 32 }
    // What is read is spelled so, and what is spelled so is read.
    ensures found { IfOk result (λ unit. IsUnit bytes.now unit) }
    ensures only { (unit : Unit) → IsUnit bytes.now unit
        → Meets NoMemory (λ u. u) result (Ok unit) }
    // A fault is the first one from the left, and the first one from the left is found.
    ensures refused { IfErr result (λ fault. fault ≢ NoMemory → IsRefused bytes.now fault) }
    ensures first { (fault : UnitFault) → IsRefused bytes.now fault
        → Meets {Y = Unit} NoMemory (λ u. u) result (Err fault) }
{
    read_unit(alloc, bytes)
}

#[tactic(auto, unfolding(crate::specs::reading::UnitReading::unit_at, crate::specs::reading::UnitReading::unit_by))]
fn read_unit(alloc: Global, bytes: &[u8]) -> Result<Unit, UnitFault>
    ensures { Meets NoMemory (λ u. u) result (unit_at bytes.now) }
{
    let end = bytes.len();
    let (version, rest) = byte(end, bytes)?;
    if version > GREATEST_VERSION {
        return Err(UnitFault::Version { at: 0 });
    }
    let (size, rest) = number(end, rest)?;
    if size as usize != rest.len() {
        return Err(UnitFault::Size { at: 1 });
    }
    let (unit, rest) = read_body(alloc, version, end, rest)?;
    if !rest.is_empty() {
        return Err(UnitFault::Size {
            at: place(end, rest),
        });
    }
    Ok(unit)
}

/// What follows the number of the bytes that follow.
#[tactic(auto, unfolding(crate::specs::reading::UnitReading::body_at))]
fn read_body(
    alloc: Global,
    version: u8,
    end: usize,
    bytes: &[u8],
) -> Result<(Unit, &[u8]), UnitFault>
    ensures { Meets NoMemory (λ read. (read.0, read.1.now)) result (body_at version end bytes.now) }
{
    let (charset, constants, rest) = read_constants(alloc, end, bytes)?;
    let (pragmas, rest) = read_pragmas(alloc, end, rest)?;
    let (names, functions, rest) = read_functions(alloc, end, rest)?;
    Ok((
        Unit {
            version,
            charset,
            constants,
            pragmas,
            names,
            functions,
        },
        rest,
    ))
}
