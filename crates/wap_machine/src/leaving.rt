//! Instructions that call or return.
ghost use Rattle.std.specs.Prelude.{◌≡◌, ℕ, [], IfOk, OnErr};
ghost use Rattle.wap_value.specs.declared.value.Value.TheVariants.{Str};
ghost use Rattle.wap_execution.specs.Effects.{effect_of, effect_read};
ghost use Rattle.wap_execution.specs.declared.action.Action.TheVariants as action;
ghost use Rattle.wap_machine.specs.declared.next.Next.TheVariants.{Return};
ghost use Rattle.wap_machine.specs.Seen.{with_operands};
ghost use Rattle.wap_machine.specs.Standing.{Fits};
ghost use Rattle.wap_machine.specs.inside.InstructionParts.{IsSmall, IsDone, Leaves};

use crate::calling::{call_external, call_library, call_local};
use crate::frame::Frame;
use crate::next::Next;
use std::alloc::Global;
use wap_base::{NoMemory, Text};
use wap_execution::Action;
use wap_unit::Instr;
use wap_value::Value;

/// Ends the function with the value on top.
#[tactic(auto, unfolding(wap_execution::specs::Effects::effect_of))]
fn end_function(frame: &mut Frame, instr: Instr) -> Next
    requires { Fits frame.old (effect_of 0 frame.old action.Return instr) }
    ensures { IsDone frame.old (effect_of 0 frame.old action.Return instr) frame.new result }
{
    match frame.pop() {
        Some(value) => Next::Return(value),
        None => unreachable!(),
    }
}

/// The empty String.
// A call, so that nothing is kept ready for it while instructions are done.
#[inline(never)]
fn empty(alloc: Global) -> Value
    ensures { result ≡ Str [] }
{
    Value::Str(Text::new(alloc))
}

/// Ends the function with the empty String.
#[inline(always)]
pub(crate) fn end_empty(alloc: Global) -> Next
    ensures { result ≡ Return (Str []) }
{
    Next::Return(empty(alloc))
}

/// Does to a frame what an instruction says that calls or returns.
#[inline(always)]
#[tactic(auto, unfolding(wap_execution::specs::Effects::effect_of))]
pub(crate) fn leave(
    alloc: Global,
    frame: &mut Frame,
    action: Action,
    instr: Instr,
) -> Result<Next, NoMemory>
    requires leaves { Leaves action }
    requires small { IsSmall action instr }
    requires fits { Fits frame.old (effect_read 0 frame.old action instr) }
    ensures done { IfOk result (λ next. (string : ℕ)
        → IsDone frame.old (effect_read string frame.old action instr) frame.new next) }
    ensures left { OnErr result (frame.new ≡ with_operands frame.new.operands frame.old) }
{
    match action {
        Action::CallLocal => call_local(frame, instr),
        Action::CallLibrary => call_library(frame, instr),
        Action::CallExternal => call_external(alloc, frame, instr),
        Action::Return => Ok(end_function(frame, instr)),
        Action::ReturnEmpty => Ok(end_empty(alloc)),
        _ => unreachable!(),
    }
}
