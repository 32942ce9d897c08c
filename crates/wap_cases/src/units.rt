//! Units by their bytes, for calls of what may be run.
ghost use Rattle.std.specs.Prelude.{IfOk};
ghost use Rattle.wap_unit.specs.Spelling.{HasSpelling};

use std::alloc::Global;
use wap_base::{Bytes, Shared};
use wap_casebook::CaseFault;
use wap_unit::{Unit, UnitFault, decode};
use wap_verify::{Verified, VerifyFault, verify};

/// The unit that bytes spell.
fn unit_of(alloc: Global, bytes: &Bytes) -> Result<Unit, CaseFault>
    ensures { IfOk result (λ unit. HasSpelling unit) }
{
    if bytes.len() > u32::MAX as usize {
        return Err(CaseFault::Argument);
    }
    match decode(alloc, bytes.as_slice()) {
        Ok(unit) => Ok(unit),
        Err(UnitFault::NoMemory) => Err(CaseFault::NoMemory),
        Err(_) => Err(CaseFault::Argument),
    }
}

/// The unit that bytes spell, where it may be run.
fn verified(alloc: Global, bytes: &Bytes) -> Result<Verified, CaseFault> {
    match verify(alloc, unit_of(alloc, bytes)?) {
        Ok(verified) => Ok(verified),
        Err((_, VerifyFault::NoMemory)) => Err(CaseFault::NoMemory),
        Err(_) => Err(CaseFault::Argument),
    }
}

/// The unit that bytes spell, where it may be run, to be shared.
pub fn verified_of(alloc: Global, bytes: &Bytes) -> Result<Shared<Verified>, CaseFault> {
    Ok(Shared::new(alloc, verified(alloc, bytes)?)?)
}
