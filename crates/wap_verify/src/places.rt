//! The first pass: where instructions begin.
ghost use Rattle.std.specs.Prelude.{◌≡◌, ◌≢◌, ◌<◌, ◌^◌, length, IfOk, IfErr};
ghost use Rattle.wap_verify.specs.declared.fault.VerifyFault.TheVariants.{NoMemory};
ghost use Rattle.wap_verify.specs.Faults.{IsFunctionFault};
ghost use Rattle.wap_verify.specs.inside.Work.{Marks};

use crate::VerifyFault;
use crate::step::step_at;
use std::alloc::Global;
use wap_unit::{Code, Unit};

/// A mark for each byte of the code, set where an instruction begins.
pub(crate) fn marks(
    alloc: Global,
    unit: &Unit,
    index: u8,
    function: &Code,
) -> Result<Vec<bool>, VerifyFault>
    requires { length function.now.code < 2 ^ 32 }
    ensures found { IfOk result
        (λ marks. Marks unit.now index function.now (length function.now.code) marks.items) }
    ensures fault { IfErr result
        (λ fault. fault ≢ NoMemory → IsFunctionFault unit.now index function.now fault) }
{
    let end = function.code.len();
    let mut marks = vec![in alloc; false; end]?;
    let mut at = 0;
    while at < end {
        let step = step_at(unit, index, function, at)?;
        marks[at] = true;
        at = step.next;
    }
    Ok(marks)
}
