//! Constants as values.
ghost use Rattle.std.specs.Prelude.{◌≡◌, ◌∷◌, Some, IfOk, OnErr};
ghost use Rattle.std.specs.Str.{chars};
ghost use Rattle.wap_base.specs.Outcome.{Meets};
ghost use Rattle.wap_value.specs.declared.value.Value.{Value as TheValue};
ghost use Rattle.wap_value.specs.declared.value.Value.TheVariants.{Str};
ghost use Rattle.wap_value.specs.TooLong.{kept_within};
ghost use Rattle.wap_execution.specs.Frames.{constant_at};
ghost use Rattle.wap_execution.specs.Effects.{effect_of};
ghost use Rattle.wap_execution.specs.declared.action.Action.TheVariants as action;
ghost use Rattle.wap_machine.specs.Standing.{Fits};
ghost use Rattle.wap_machine.specs.inside.InstructionParts.{number_of, HasConstant, Stays};

use crate::acting::give;
use crate::frame::Frame;
use crate::next::Course;
use std::alloc::Global;
use wap_base::{NoMemory, Text};
use wap_unit::{Constant, Instr};
use wap_value::{Value, ValueFault};
use wap_verify::Verified;

/// A String, if it isn't longer than the limit.
fn literal(alloc: Global, text: &str, string: u32) -> Result<Value, ValueFault>
    ensures { Meets ValueFault.NoMemory (λ value. value) result
        (kept_within string (Str (chars text.now))) }
{
    if text.len() > string as usize {
        return Err(ValueFault::TooLong { bytes: text.len() });
    }
    Ok(Value::Str(Text::of(alloc, text)?))
}

/// The value of a constant that is no string.
fn number(constant: &Constant) -> Option<Value>
    ensures { result ≡ number_of constant.now }
{
    match constant {
        Constant::Int8(number) => Some(Value::Int(i32::from(*number))),
        Constant::Int16(number) => Some(Value::Int(i32::from(*number))),
        Constant::Int32(number) => Some(Value::Int(*number)),
        Constant::Float(_) => Some(Value::Invalid),
        Constant::Utf8(_) => None,
        Constant::Empty => None,
        Constant::Coded(_) => None,
    }
}

/// The value of a constant, if it isn't too long.
fn constant(alloc: Global, unit: &Verified, index: u32, string: u32) -> Result<Value, ValueFault>
    requires { HasConstant unit.now index }
    ensures { (value : TheValue) → constant_at unit.now index ≡ Some value
        → Meets ValueFault.NoMemory (λ value. value) result (kept_within string value) }
{
    if let Some(text) = unit.string(index) {
        return literal(alloc, text, string);
    }
    match unit.unit().constants.get(index as usize) {
        Some(constant) => match number(constant) {
            Some(value) => Ok(value),
            None => unreachable!(),
        },
        None => unreachable!(),
    }
}

/// Gives a constant's value.
#[inline(always)]
#[tactic(auto, unfolding(wap_execution::specs::Effects::effect_of))]
pub(crate) fn load_constant(
    alloc: Global,
    frame: &mut Frame,
    instr: Instr,
    string: u32,
) -> Result<Course, NoMemory>
    requires { Fits frame.old (effect_of string frame.old action.LoadConstant instr) }
    ensures done { IfOk result
        (Stays frame.old (effect_of string frame.old action.LoadConstant instr) frame.new) }
    ensures kept { OnErr result (frame.new ≡ frame.old) }
{
    match constant(alloc, frame.unit(), instr.a, string) {
        Ok(value) => Ok(give(frame, value, instr.next)),
        Err(ValueFault::TooLong { .. }) => Ok(Course::TooLong),
        Err(ValueFault::NoMemory) => Err(NoMemory),
    }
}
