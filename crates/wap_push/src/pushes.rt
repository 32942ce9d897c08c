//! Pushed bytes read as indications.
ghost use Rattle.std.specs.Prelude.{◌≢◌, Ok, Err, IfOk, IfErr};
ghost use Rattle.wap_base.specs.Outcome.{Meets};
ghost use Rattle.wap_push.specs.declared.indication.Indication.{Indication};
ghost use Rattle.wap_push.specs.declared.fault.PushFault.{PushFault};
ghost use Rattle.wap_push.specs.declared.fault.PushFault.TheVariants.{NoMemory};
ghost use Rattle.wap_push.specs.Pushes.{IsPush, IsNoPush, push_at};

use crate::fault::PushFault;
use crate::indication::Indication;
use crate::reading::indication_of;
use crate::tables::SI_1_0;
use std::alloc::Global;
use wap_wbxml::decode_with;

/// The indication that pushed bytes are, or the first reason why they are none.
pub fn read_push(alloc: Global, bytes: &[u8]) -> Result<Indication, PushFault>
    // What is read is pushed so, and what is pushed so is read, unless memory runs out.
    ensures found { IfOk result (λ pushed. IsPush bytes.now pushed) }
    ensures only { (pushed : Indication) → IsPush bytes.now pushed
        → Meets NoMemory (λ pushed. pushed) result (Ok pushed) }

    // Each fault but out of memory is the first, and the first is that fault.
    ensures refused { IfErr result (λ fault. fault ≢ NoMemory → IsNoPush bytes.now fault) }
    ensures first { (fault : PushFault) → IsNoPush bytes.now fault
        → Meets NoMemory (λ pushed. pushed) result (Err fault) }

    ensures exact { Meets NoMemory (λ pushed. pushed) result (push_at bytes.now) }
{
    let document = decode_with(alloc, bytes, SI_1_0)?;
    indication_of(alloc, &document)
}
