//! Reading keys to their end.
ghost use Rattle.std.specs.Prelude.{◌≡◌, ◌≢◌, ℕ, ◌+◌, ◌≤◌, List, IfOk, OnErr, ◌<◌};
ghost use Rattle.wap_devices.specs.Sources.{MayGive};
ghost use Rattle.wap_keys.specs.declared.ending.Ending.TheVariants.{ReadFault};
ghost use Rattle.wap_keys.specs.declared.limits.TheConstants.{KEYS_LIMIT};
ghost use Rattle.wap_keys.specs.Lines.{keys_of};
ghost use Rattle.wap_keys.specs.Read.{IsReadBefore, AreFirst, TakesAtMost, ReadsTo};
ghost use Rattle.wap_keys.specs.Read.{GivesSome, EndsAtMostOnce, ReadsToBy, GivesSomeBy};

use crate::ending::Step;
use crate::line::Says;
use crate::{Ending, Key, Reader};
use std::alloc::Global;
use wap_base::NoMemory;
use wap_devices::Source;

/// Reads keys to their end, and what stands beside them.
pub(crate) fn read_all<T: Says, I: Source>(
    alloc: Global,
    source: &mut I,
) -> Result<(Vec<T>, Ending), NoMemory>
    ensures read { IfOk result (λ read. ReadsToBy T.meaning (I.seen source.old) (I.seen source.new)
        read.0.items read.1) }
    ensures failed { IfOk result (λ read. read.1 ≡ ReadFault
        → (I.seen source.old).faults < (I.seen source.new).faults) }
    ensures steady { IfOk result (λ read. read.1 ≢ ReadFault
        → (I.seen source.new).faults ≡ (I.seen source.old).faults) }
    ensures faults { (I.seen source.old).faults ≤ (I.seen source.new).faults }
    ensures left { OnErr result (GivesSomeBy T.meaning (I.seen source.old)
        (I.seen source.new)) }
    ensures unread { OnErr result ((I.seen source.new).faults ≡ (I.seen source.old).faults) }
{
    let mut reader = Reader::new(alloc);
    let mut keys = Vec::new(alloc);
    loop {
        match reader.step(alloc, source)? {
            Step::Said(key) => keys.push(key)?,
            Step::Ended(ending) => return Ok((keys, ending)),
        }
    }
}

/// Reads keys to their end: that of the source, a line that is no key line, a byte too many, or a
/// fault of the source.
pub fn read_keys<I: Source>(alloc: Global, source: &mut I) -> Result<(Vec<Key>, Ending), NoMemory>
    ensures read { IfOk result (λ read. ReadsTo (I.seen source.old) (I.seen source.new)
        read.0.items read.1) }
    ensures known { IfOk result (λ read. read.1 ≢ ReadFault
        → (bytes : List ℕ) → MayGive (I.seen source.old) (I.seen source.new) bytes
        → keys_of bytes ≡ record { keys = read.0.items; ending = read.1 }) }
    ensures before { IfOk result (λ read. read.1 ≡ ReadFault
        → IsReadBefore read.0.items (I.seen source.old) (I.seen source.new)) }
    ensures first { IfOk result (λ read. (bytes : List ℕ)
        → MayGive (I.seen source.old) (I.seen source.new) bytes
        → AreFirst read.0.items (keys_of bytes).keys) }
    ensures few { TakesAtMost (KEYS_LIMIT + 1) (I.seen source.old) (I.seen source.new) }
    ensures failed { IfOk result (λ read. read.1 ≡ ReadFault
        → (I.seen source.old).faults < (I.seen source.new).faults) }
    ensures steady { IfOk result (λ read. read.1 ≢ ReadFault
        → (I.seen source.new).faults ≡ (I.seen source.old).faults) }
    ensures faults { (I.seen source.old).faults ≤ (I.seen source.new).faults }
    // The source gives its end once at most.
    ensures ends { EndsAtMostOnce (I.seen source.old) (I.seen source.new) }
    // When out of memory the keys that were read are lost; no more was taken than they needed.
    ensures left { OnErr result (GivesSome (I.seen source.old) (I.seen source.new)) }
    ensures unread { OnErr result ((I.seen source.new).faults ≡ (I.seen source.old).faults) }
{
    read_all(alloc, source)
}
