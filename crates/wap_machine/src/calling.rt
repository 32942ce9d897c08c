//! How calls begin: what is called, and the arguments.
ghost use Rattle.std.specs.Prelude.{◌≡◌, ◌+◌, ◌<◌, ◌≤◌, IfOk, OnErr};
ghost use Rattle.wap_execution.specs.Effects.{calls, with_arguments, effect_of};
ghost use Rattle.wap_execution.specs.declared.action.Action.TheVariants as action;
ghost use Rattle.wap_machine.specs.Seen.{called_of};
ghost use Rattle.wap_machine.specs.Standing.{Fits};
ghost use Rattle.wap_machine.specs.Doing.{AreFew};
ghost use Rattle.wap_machine.specs.inside.InstructionParts.{calling, IsDone};

use crate::frame::Frame;
use crate::next::{Callee, Next};
use std::alloc::Global;
use wap_asm::args_of;
use wap_base::{NoMemory, Text};
use wap_unit::Instr;

/// Calls with so many arguments, and goes on further on.
#[inline(always)]
fn call(frame: &mut Frame, callee: Callee, count: usize, place: usize) -> Result<Next, NoMemory>
    requires few { AreFew callee count }
    requires fits { Fits frame.old (calling callee count place frame.old) }
    ensures done { IfOk result (IsDone frame.old (calling callee count place frame.old) frame.new) }
    ensures kept { OnErr result (frame.new ≡ frame.old) }
{
    let arguments = frame.take_arguments(count)?;
    frame.go(place);
    Ok(Next::Call(callee, arguments))
}

/// Calls a function of the unit.
#[inline(always)]
#[tactic(auto, unfolding(wap_execution::specs::Effects::effect_of))]
pub(crate) fn call_local(frame: &mut Frame, instr: Instr) -> Result<Next, NoMemory>
    requires small { instr.a < 256 }
    requires fits { Fits frame.old (effect_of 0 frame.old action.CallLocal instr) }
    ensures done { IfOk result
        (IsDone frame.old (effect_of 0 frame.old action.CallLocal instr) frame.new) }
    ensures kept { OnErr result (frame.new ≡ frame.old) }
{
    let count = match frame.unit().unit().functions.get(instr.a as usize) {
        Some(function) => function.args,
        None => unreachable!(),
    };
    call(
        frame,
        Callee::Local(instr.a as u8),
        count as usize,
        instr.next,
    )
}

/// Calls a function of a library.
#[inline(always)]
#[tactic(auto, unfolding(wap_execution::specs::Effects::effect_of))]
pub(crate) fn call_library(frame: &mut Frame, instr: Instr) -> Result<Next, NoMemory>
    requires index { instr.a < 256 }
    requires library { instr.b < 65536 }
    requires fits { Fits frame.old (effect_of 0 frame.old action.CallLibrary instr) }
    ensures done { IfOk result
        (IsDone frame.old (effect_of 0 frame.old action.CallLibrary instr) frame.new) }
    ensures kept { OnErr result (frame.new ≡ frame.old) }
{
    let Some(count) = args_of(instr.b, instr.a) else {
        unreachable!()
    };
    let callee = Callee::Library(instr.b as u16, instr.a as u8);
    call(frame, callee, count as usize, instr.next)
}

/// Calls a function of another unit.
#[inline(always)]
#[tactic(auto, unfolding(wap_execution::specs::Effects::effect_of))]
pub(crate) fn call_external(
    alloc: Global,
    frame: &mut Frame,
    instr: Instr,
) -> Result<Next, NoMemory>
    requires few { instr.c < 256 }
    requires fits { Fits frame.old (effect_of 0 frame.old action.CallExternal instr) }
    ensures done { IfOk result
        (IsDone frame.old (effect_of 0 frame.old action.CallExternal instr) frame.new) }
    ensures kept { OnErr result (frame.new ≡ frame.old) }
{
    let unit = frame.unit();
    let Some(url) = unit.string(instr.a) else {
        unreachable!()
    };
    let Some(name) = unit.string(instr.b) else {
        unreachable!()
    };
    let callee = Callee::External(Text::of(alloc, url)?, Text::of(alloc, name)?);
    call(frame, callee, instr.c as usize, instr.next)
}
