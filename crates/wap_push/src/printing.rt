//! How faults of service indications are printed.
ghost use Rattle.std.specs.Prelude.{◌≡◌, IfOk};
ghost use Rattle.wap_push.specs.Printing.{push_text};

use crate::PushFault;
use std::alloc::Global;
use wap_base::{NoMemory, Text};
use wap_wbxml::document_fault_text;

/// Why what was pushed is no indication, as it is printed.
#[tactic(auto, using(wap_base::proofs::Plain::words))]
pub fn push_fault_text(alloc: Global, fault: PushFault) -> Result<Text, NoMemory>
    ensures { IfOk result (λ text. text ≡ push_text fault) }
{
    match fault {
        PushFault::Document(fault) => document_fault_text(alloc, fault),
        PushFault::Root => Text::of(alloc, "Root"),
        PushFault::Child => Text::of(alloc, "Child"),
        PushFault::Created => Text::of(alloc, "Created"),
        PushFault::NoId => Text::of(alloc, "NoId"),
        PushFault::NoMemory => Text::of(alloc, "NoMemory"),
    }
}
