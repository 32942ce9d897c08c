//! The three passes over each function.
ghost use Rattle.std.specs.Prelude.{◌≡◌, ◌≢◌, ◌<◌, ◌^◌, None, length, IfOk, IfErr, OnOk};
ghost use Rattle.std.specs.List.{AllByRecursion};
ghost use Rattle.wap_unit.specs.inside.Fitting.{FitsFunction};
ghost use Rattle.wap_verify.specs.declared.fault.VerifyFault.TheVariants.{NoMemory};
ghost use Rattle.wap_verify.specs.Sound.{IsSound, IsRoom, stray_pragma};
ghost use Rattle.wap_verify.specs.Faults.{IsFunctionFault, IsFault};
ghost use Rattle.wap_verify.specs.Kept.{AreRooms};

use crate::VerifyFault;
use crate::depths::greatest_depth;
use crate::places::marks;
use crate::targets::check_targets;
use std::alloc::Global;
use wap_base::Rows;
use wap_unit::{Code, Unit};

/// Room for all values of each function, where all functions are sound.
pub(crate) fn rooms(alloc: Global, unit: &Unit) -> Result<Rows<u32>, VerifyFault>
    requires few { length unit.now.functions < 2 ^ 8 }
    requires small { AllByRecursion FitsFunction unit.now.functions }
    requires pragmas { stray_pragma unit.now ≡ None }
    ensures rooms { IfOk result (AreRooms unit.now (length unit.now.functions)) }
    ensures fault { IfErr result (λ fault. fault ≢ NoMemory → IsFault unit.now fault) }
{
    let mut rooms = Rows::new(alloc);
    for (index, function) in unit.functions.as_slice().iter().enumerate() {
        let room = function_room(alloc, unit, index as u8, function)?;
        rooms.add(room)?;
    }
    Ok(rooms)
}

/// Room for all values of a function, if it is sound.
fn function_room(alloc: Global, unit: &Unit, index: u8, function: &Code) -> Result<u32, VerifyFault>
    requires { length function.now.code < 2 ^ 32 }
    ensures sound { OnOk result (IsSound unit.now index function.now) }
    ensures room { IfOk result (IsRoom unit.now index function.now) }
    ensures fault { IfErr result
        (λ fault. fault ≢ NoMemory → IsFunctionFault unit.now index function.now fault) }
{
    let marks = marks(alloc, unit, index, function)?;
    check_targets(unit, index, function, &marks)?;
    greatest_depth(alloc, unit, index, function)
}
