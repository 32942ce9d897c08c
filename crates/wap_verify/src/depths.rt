//! The third pass: how many values there are at each place.
ghost use Rattle.std.specs.Prelude.{◌≡◌, ◌≢◌, ◌+◌, ◌<◌, ◌≤◌, ◌^◌, length, replicate, Some};
ghost use Rattle.std.specs.Prelude.{None, IfSome, IfOk, IfErr, OnOk};
ghost use Rattle.wap_verify.specs.declared.fault.VerifyFault.TheVariants.{NoMemory};
ghost use Rattle.wap_verify.specs.Sound.{IsSplit, IsSound, IsRoom};
ghost use Rattle.wap_verify.specs.Faults.{IsFunctionFault};
ghost use Rattle.wap_verify.specs.inside.Work.{Agrees, AgreesWith, Sane, Works, Visits};
ghost use Rattle.wap_verify.specs.Depths.{depth_of, arrived, followed, unseen};
ghost use Rattle.wap_verify.specs.inside.Kept.{state, IsConflict, IsConflictOn};

use crate::VerifyFault;
use crate::step::{Way, step_at, way_on};
use std::alloc::{AllocError, Global};
use wap_unit::{Code, Unit};

/// One number of values for each place that was reached, the places whose ways aren't followed yet,
/// and the greatest number.
#[derive(Drop)]
pub struct Work {
    /// How many values there are at each place, where it was reached.
    pub depths: Vec<Option<u32>>,
    /// Places whose ways aren't followed yet, each with its number of values.
    pub pending: Vec<(usize, u32)>,
    /// The greatest number of values so far.
    pub room: u32,
}

/// As many values as a function has at most whose code is split.
pub(crate) fn greatest_depth(
    alloc: Global,
    unit: &Unit,
    index: u8,
    function: &Code,
) -> Result<u32, VerifyFault>
    requires small { length function.now.code < 2 ^ 32 }
    requires split { IsSplit unit.now index function.now }
    ensures sound { OnOk result (IsSound unit.now index function.now) }
    ensures room { IfOk result (IsRoom unit.now index function.now) }
    ensures fault { IfErr result
        (λ fault. fault ≢ NoMemory → IsFunctionFault unit.now index function.now fault) }
{
    let mut work = start(alloc, unit, index, function)?;
    while let Some((at, values)) = work.pending.pop() {
        visit(&mut work, unit, index, function, at, values)?;
    }
    Ok(work.room)
}

/// The beginning is reached with no values.
fn start(alloc: Global, unit: &Unit, index: u8, function: &Code) -> Result<Work, VerifyFault>
    ensures works { IfOk result (λ work. Works unit.now index function.now (state work)) }
    ensures fault { IfErr result (λ fault. fault ≡ NoMemory) }
{
    let end = function.code.len();
    let mut pending = Vec::new(alloc);
    if end == 0 {
        return Ok(Work {
            depths: Vec::new(alloc),
            pending,
            room: 0,
        });
    }
    let mut depths = no_depths(alloc, end)?;
    depths[0] = Some(0);
    pending.push((0, 0))?;
    Ok(Work {
        depths,
        pending,
        room: 0,
    })
}

/// No number of values for any of so many places.
fn no_depths(alloc: Global, count: usize) -> Result<Vec<Option<u32>>, AllocError>
    ensures { IfOk result (λ depths. depths.items ≡ replicate count None) }
{
    vec![in alloc; None; count]
}

/// Follows the ways from a place with so many values.
fn visit(
    work: &mut Work,
    unit: &Unit,
    index: u8,
    function: &Code,
    at: usize,
    values: u32,
) -> Result<(), VerifyFault>
    requires small { length function.now.code < 2 ^ 32 }
    requires split { IsSplit unit.now index function.now }
    requires sane { Sane unit.now index function.now (state work.old) }
    requires here { depth_of (state work.old) at ≡ Some (Some values) }
    ensures visits { OnOk result
        (Visits unit.now index function.now (state work.old) (state work.new) at values) }
    ensures fault { IfErr result
        (λ fault. fault ≢ NoMemory → IsFunctionFault unit.now index function.now fault) }
{
    let step = step_at(unit, index, function, at)?;
    if values < step.takes {
        return Err(VerifyFault::Underflow {
            function: index,
            at,
        });
    }
    let left = values - step.takes;
    follow(work, index, way_on(step), left)?;
    follow(work, index, step.jump, left)?;
    Ok(())
}

/// Follows a way, if there is one, with so many values before it.
fn follow(work: &mut Work, index: u8, way: Option<Way>, left: u32) -> Result<(), VerifyFault>
    requires room { left + 1 < 2 ^ 32 }
    requires gives { IfSome way (λ way. way.gives ≤ 1) }
    ensures ok { OnOk result
        ((state work.new ≡ followed (state work.old) left way)
        × AgreesWith (state work.old) left way) }
    ensures fault { IfErr result
        (λ fault. fault ≢ NoMemory → IsConflictOn (state work.old) index left way fault) }
{
    match way {
        None => Ok(()),
        Some(way) => arrive(work, index, way.to, left + u32::from(way.gives)),
    }
}

/// Comes to a place with so many values.
fn arrive(work: &mut Work, index: u8, to: usize, values: u32) -> Result<(), VerifyFault>
    ensures ok { OnOk result
        ((state work.new ≡ arrived (state work.old) to values)
        × Agrees (state work.old) to values) }
    ensures fault { IfErr result
        (λ fault. fault ≢ NoMemory → IsConflict (state work.old) index to values fault) }
{
    work.room = work.room.max(values);
    if to >= work.depths.len() {
        return Ok(());
    }
    match work.depths[to] {
        None => {
            work.pending.push((to, values))?;
            work.depths[to] = Some(values);
            Ok(())
        }
        Some(other) => {
            if other == values {
                Ok(())
            } else {
                Err(VerifyFault::Depths {
                    function: index,
                    at: to,
                    found: values,
                    other,
                })
            }
        }
    }
}
