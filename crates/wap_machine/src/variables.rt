//! What actions on variables, and those that may give a String, do to their frame.
ghost use Rattle.std.specs.Prelude.{◌≡◌, ◌∷◌, ◌<◌, length, Some, IfOk, OnErr, slice_get};
ghost use Rattle.wap_base.specs.Limits.{IsStringLimit};
ghost use Rattle.wap_base.specs.Outcome.{Meets};
ghost use Rattle.wap_value.specs.declared.value.Value.{Value as TheValue};
ghost use Rattle.wap_value.specs.Binary.{TakesBoth, binary_of};
ghost use Rattle.wap_value.specs.TooLong.{kept_within};
ghost use Rattle.wap_execution.specs.Frames.{constant_at};
ghost use Rattle.wap_execution.specs.Effects.{effect_of, stored};
ghost use Rattle.wap_execution.specs.declared.action.Action.TheVariants as action;
ghost use Rattle.wap_machine.specs.Seen.{with_operands};
ghost use Rattle.wap_machine.specs.Standing.{Fits};
ghost use Rattle.wap_machine.specs.inside.InstructionParts.{storing, Stays};

use crate::acting::{give, pass_on};
use crate::frame::Frame;
use crate::next::Course;
use std::alloc::Global;
use wap_base::NoMemory;
use wap_unit::Instr;
use wap_value::{BinOp, UnOp, Value, ValueFault, combine, unary};

/// Puts a value into a variable, and goes on further on.
fn store_in(frame: &mut Frame, index: u32, value: Value, place: usize) -> Course
    requires { Fits frame.old (storing index value place frame.old) }
    ensures { Stays frame.old (storing index value place frame.old) frame.new result }
{
    frame.replace(index, value);
    pass_on(frame, place)
}

/// Gives a variable's value.
#[tactic(auto, unfolding(wap_execution::specs::Effects::effect_of))]
pub(crate) fn load_variable(
    alloc: Global,
    frame: &mut Frame,
    instr: Instr,
) -> Result<Course, NoMemory>
    requires { Fits frame.old (effect_of 0 frame.old action.LoadVariable instr) }
    ensures done { IfOk result
        (Stays frame.old (effect_of 0 frame.old action.LoadVariable instr) frame.new) }
    ensures kept { OnErr result (frame.new ≡ frame.old) }
{
    let value = frame.variable(alloc, instr.a)?;
    Ok(give(frame, value, instr.next))
}

/// Takes the value on top and stores it in a variable.
#[tactic(auto, unfolding(wap_execution::specs::Effects::effect_of))]
pub(crate) fn store_variable(frame: &mut Frame, instr: Instr) -> Course
    requires { Fits frame.old (effect_of 0 frame.old action.StoreVariable instr) }
    ensures { Stays frame.old (effect_of 0 frame.old action.StoreVariable instr) frame.new result }
{
    match frame.pop() {
        Some(value) => store_in(frame, instr.a, value, instr.next),
        None => unreachable!(),
    }
}

/// Stores in a variable what an operator makes of its value.
#[inline(always)]
#[tactic(auto, unfolding(wap_execution::specs::Effects::effect_of))]
pub(crate) fn change_variable(frame: &mut Frame, op: UnOp, instr: Instr) -> Course
    requires { Fits frame.old (effect_of 0 frame.old (action.ChangeVariable op) instr) }
    ensures { Stays frame.old
        (effect_of 0 frame.old (action.ChangeVariable op) instr) frame.new result }
{
    let old = frame.replace(instr.a, Value::Invalid);
    store_in(frame, instr.a, unary(op, old), instr.next)
}

/// Stores in a variable what an operator makes of its value and the value on top.
#[inline(always)]
#[tactic(auto, unfolding(wap_execution::specs::Effects::effect_of))]
pub(crate) fn assign_variable(
    alloc: Global,
    frame: &mut Frame,
    op: BinOp,
    instr: Instr,
    string: u32,
) -> Result<Course, NoMemory>
    requires operator { TakesBoth op }
    requires limit { IsStringLimit string }
    requires fits { Fits frame.old (effect_of string frame.old (action.AssignVariable op) instr) }
    ensures done { IfOk result
        (Stays frame.old (effect_of string frame.old (action.AssignVariable op) instr) frame.new) }
    ensures left { OnErr result (frame.new ≡ with_operands frame.new.operands frame.old) }
{
    match frame.pop() {
        Some(value) => match frame.combine(alloc, op, instr.a, &value, string) {
            Ok(new) => Ok(store_in(frame, instr.a, new, instr.next)),
            Err(ValueFault::TooLong { .. }) => Ok(Course::TooLong),
            Err(ValueFault::NoMemory) => Err(NoMemory),
        },
        None => unreachable!(),
    }
}

/// Puts what an operator makes of the two values on top in their place.
#[inline(always)]
#[tactic(auto, unfolding(wap_execution::specs::Effects::effect_of))]
pub(crate) fn apply_binary(
    alloc: Global,
    frame: &mut Frame,
    op: BinOp,
    instr: Instr,
    string: u32,
) -> Result<Course, NoMemory>
    requires operator { TakesBoth op }
    requires limit { IsStringLimit string }
    requires fits { Fits frame.old (effect_of string frame.old (action.Binary op) instr) }
    ensures done { IfOk result
        (Stays frame.old (effect_of string frame.old (action.Binary op) instr) frame.new) }
    ensures left { OnErr result (frame.new ≡ with_operands frame.new.operands frame.old) }
{
    let Some(right) = frame.pop() else {
        unreachable!()
    };
    let Some(left) = frame.pop() else {
        unreachable!()
    };
    match combine(alloc, op, left, right, string) {
        Ok(value) => Ok(give(frame, value, instr.next)),
        Err(ValueFault::TooLong { .. }) => Ok(Course::TooLong),
        Err(ValueFault::NoMemory) => Err(NoMemory),
    }
}
