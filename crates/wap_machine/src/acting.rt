//! What each action does to its frame.
ghost use Rattle.std.specs.Prelude.{◌≡◌, ◌∷◌, ◌+◌, ◌<◌, ◌≤◌, ◌^◌, length, Some, IfOk, slice_index};
ghost use Rattle.wap_base.specs.Limits.{IsStringLimit};
ghost use Rattle.wap_value.specs.Binary.{TakesBoth};
ghost use Rattle.wap_unit.specs.Instructions.{row_of};
ghost use Rattle.wap_execution.specs.Frames.{code_of};
ghost use Rattle.wap_execution.specs.Effects.{effect_of, onward, back, backward, jumps_at, pair_by};
ghost use Rattle.wap_execution.specs.declared.action.Action.TheVariants as action;
ghost use Rattle.wap_machine.specs.Standing.{Fits};
ghost use Rattle.wap_machine.specs.inside.InstructionParts.{going, giving, going_back, Stays};

use crate::frame::Frame;
use crate::next::Course;
use std::alloc::Global;
use wap_base::NoMemory;
use wap_unit::Instr;
use wap_value::{BinOp, UnOp, Value, ValueFault, binary, to_bool, unary};

/// Goes on further on.
pub(crate) fn pass_on(frame: &mut Frame, place: usize) -> Course
    ensures { Stays frame.old (going place frame.old) frame.new result }
{
    frame.go(place);
    Course::Onward
}

/// Puts a value on top, and goes on further on.
pub(crate) fn give(frame: &mut Frame, value: Value, place: usize) -> Course
    requires { Fits frame.old (giving value place frame.old) }
    ensures { Stays frame.old (giving value place frame.old) frame.new result }
{
    frame.push(value);
    pass_on(frame, place)
}

/// Jumps back.
pub(crate) fn jump_back(frame: &mut Frame, instr: Instr) -> Course
    requires { Fits frame.old (going_back instr frame.old) }
    ensures { Stays frame.old (going_back instr frame.old) frame.new result }
{
    match frame.place().checked_sub(instr.a as usize) {
        Some(place) => {
            frame.go(place);
            Course::Back
        }
        None => unreachable!(),
    }
}

/// Whether a condition jumps: one that is false or invalid does.
fn jumps_at(value: &Value) -> bool
    ensures { result ≡ jumps_at value.now }
{
    match to_bool(value) {
        Some(truth) => !truth,
        None => true,
    }
}

/// Jumps forward unless the value on top is true.
#[tactic(auto, unfolding(wap_execution::specs::Effects::effect_of))]
pub(crate) fn jump_unless(frame: &mut Frame, instr: Instr) -> Course
    requires next { instr.next < 2 ^ 32 }
    requires fits { Fits frame.old (effect_of 0 frame.old action.JumpUnless instr) }
    ensures { Stays frame.old (effect_of 0 frame.old action.JumpUnless instr) frame.new result }
{
    match frame.pop() {
        Some(value) => {
            if jumps_at(&value) {
                pass_on(frame, instr.next + instr.a as usize)
            } else {
                pass_on(frame, instr.next)
            }
        }
        None => unreachable!(),
    }
}

/// Jumps back unless the value on top is true.
#[tactic(auto, unfolding(wap_execution::specs::Effects::effect_of))]
pub(crate) fn jump_back_unless(frame: &mut Frame, instr: Instr) -> Course
    requires { Fits frame.old (effect_of 0 frame.old action.JumpBackUnless instr) }
    ensures { Stays frame.old
        (effect_of 0 frame.old action.JumpBackUnless instr) frame.new result }
{
    match frame.pop() {
        Some(value) => {
            if jumps_at(&value) {
                jump_back(frame, instr)
            } else {
                pass_on(frame, instr.next)
            }
        }
        None => unreachable!(),
    }
}

/// Puts what an operator makes of the value on top in its place.
#[inline(always)]
#[tactic(auto, unfolding(wap_execution::specs::Effects::effect_of))]
pub(crate) fn apply_unary(frame: &mut Frame, op: UnOp, instr: Instr) -> Course
    requires { Fits frame.old (effect_of 0 frame.old (action.Unary op) instr) }
    ensures { Stays frame.old (effect_of 0 frame.old (action.Unary op) instr) frame.new result }
{
    match frame.pop() {
        Some(value) => give(frame, unary(op, value), instr.next),
        None => unreachable!(),
    }
}

/// Takes the value on top away.
#[tactic(auto, unfolding(wap_execution::specs::Effects::effect_of))]
pub(crate) fn discard(frame: &mut Frame, instr: Instr) -> Course
    requires { Fits frame.old (effect_of 0 frame.old action.Pop instr) }
    ensures { Stays frame.old (effect_of 0 frame.old action.Pop instr) frame.new result }
{
    match frame.pop() {
        Some(_) => pass_on(frame, instr.next),
        None => unreachable!(),
    }
}
