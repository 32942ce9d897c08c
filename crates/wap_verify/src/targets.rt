//! The second pass: where jumps lead.
ghost use Rattle.std.specs.Prelude.{◌≡◌, ◌<◌, ◌^◌, false, length, slice_index_or, IfErr, OnOk};
ghost use Rattle.wap_verify.specs.Sound.{IsSplit};
ghost use Rattle.wap_verify.specs.Faults.{IsFunctionFault};
ghost use Rattle.wap_verify.specs.inside.Work.{leads_to_mark, is_marked_step, Marks};

use crate::VerifyFault;
use crate::step::{Step, Way, step_at};
use wap_unit::{Code, Unit};

/// Whether each jump leads to a place that is marked, or to the end.
pub(crate) fn check_targets(
    unit: &Unit,
    index: u8,
    function: &Code,
    marks: &[bool],
) -> Result<(), VerifyFault>
    requires small { length function.now.code < 2 ^ 32 }
    requires marked { Marks unit.now index function.now (length function.now.code) marks.now }
    ensures aimed { OnOk result (IsSplit unit.now index function.now) }
    ensures fault { IfErr result (λ fault. IsFunctionFault unit.now index function.now fault) }
{
    let end = function.code.len();
    let mut at = 0;
    while at < end {
        let step = step_at(unit, index, function, at)?;
        if !is_marked_step(marks, end, step) {
            return Err(VerifyFault::Target {
                function: index,
                at,
            });
        }
        at = step.next;
    }
    Ok(())
}

fn is_marked_step(marks: &[bool], end: usize, step: Step) -> bool
    ensures { result ≡ is_marked_step marks.now end step }
{
    !step.strays && leads_to_mark(marks, end, step.jump)
}

fn leads_to_mark(marks: &[bool], end: usize, way: Option<Way>) -> bool
    ensures { result ≡ leads_to_mark marks.now end way }
{
    match way {
        None => true,
        Some(way) => way.to == end || is_marked(marks, way.to),
    }
}

fn is_marked(marks: &[bool], at: usize) -> bool
    ensures { result ≡ slice_index_or marks.now at false }
{
    match marks.get(at) {
        Some(mark) => *mark,
        None => false,
    }
}
