//! One instruction. What is given a frame to change is put into `run`, through `act`, so that the
//! frame's parts are at hand there.
ghost use Rattle.std.specs.Prelude.{◌≡◌, ◌<◌, ◌≤◌, ◌^◌, length, IfOk, IfSome, IfNone, OnErr};
ghost use Rattle.wap_base.specs.Limits.{IsStringLimit};
ghost use Rattle.wap_execution.specs.Frames.{code_of};
ghost use Rattle.wap_execution.specs.Effects.{effect_read};
ghost use Rattle.wap_machine.specs.Seen.{with_operands};
ghost use Rattle.wap_machine.specs.Standing.{Stands, Fits};
ghost use Rattle.wap_machine.specs.Doing.{EndsOrActs, StandsFor};
ghost use Rattle.wap_machine.specs.inside.InstructionParts.{IsSmall, Leaves, Stays};

use crate::acting::{
    apply_unary, discard, give, jump_back, jump_back_unless, jump_unless, pass_on,
};
use crate::constants::load_constant;
use crate::frame::Frame;
use crate::instruction::instruction;
use crate::leaving::{end_empty, leave};
use crate::next::{Course, Next};
use crate::short_circuit::short_circuit;
use crate::variables::{
    apply_binary, assign_variable, change_variable, load_variable, store_variable,
};
use std::alloc::Global;
use wap_base::{NoMemory, Text};
use wap_execution::Action;
use wap_unit::Instr;
use wap_value::Value;

/// Does to a frame what an instruction says that neither calls nor returns; nothing for others.
#[inline(always)]
#[tactic(auto, unfolding(wap_execution::specs::Effects::effect_of))]
fn stay(
    alloc: Global,
    frame: &mut Frame,
    action: Action,
    instr: Instr,
    string: u32,
) -> Result<Option<Course>, NoMemory>
    requires limit { IsStringLimit string }
    requires code { length (code_of frame.old.function) < 2 ^ 32 }
    requires next { instr.next ≤ length (code_of frame.old.function) }
    requires small { IsSmall action instr }
    requires fits { Fits frame.old (effect_read string frame.old action instr) }
    ensures done { IfOk result (λ course. IfSome course
        (Stays frame.old (effect_read string frame.old action instr) frame.new)) }
    ensures leaves { IfOk result (λ course. IfNone course
        (Leaves action × (frame.new ≡ frame.old))) }
    ensures left { OnErr result (frame.new ≡ with_operands frame.new.operands frame.old) }
{
    Ok(Some(match action {
        Action::Jump => pass_on(frame, instr.next + instr.a as usize),
        Action::JumpBack => jump_back(frame, instr),
        Action::JumpUnless => jump_unless(frame, instr),
        Action::JumpBackUnless => jump_back_unless(frame, instr),
        Action::ShortCircuit(decides) => short_circuit(frame, decides, instr.next),
        Action::LoadVariable => load_variable(alloc, frame, instr)?,
        Action::StoreVariable => store_variable(frame, instr),
        Action::ChangeVariable(op) => change_variable(frame, op, instr),
        Action::AssignVariable(op) => assign_variable(alloc, frame, op, instr, string)?,
        Action::LoadConstant => load_constant(alloc, frame, instr, string)?,
        Action::GiveInteger(number) => give(frame, Value::Int(number), instr.next),
        Action::GiveBoolean(truth) => give(frame, Value::Bool(truth), instr.next),
        Action::GiveEmpty => give(frame, Value::Str(Text::new(alloc)), instr.next),
        Action::GiveInvalid => give(frame, Value::Invalid, instr.next),
        Action::Unary(op) => apply_unary(frame, op, instr),
        Action::Binary(op) => apply_binary(alloc, frame, op, instr, string)?,
        Action::Pop => discard(frame, instr),
        Action::Pass => pass_on(frame, instr.next),
        Action::CallLocal
        | Action::CallLibrary
        | Action::CallExternal
        | Action::Return
        | Action::ReturnEmpty => return Ok(None),
    }))
}

/// Does the instruction where a frame goes on in its function's code; at its end a function gives
/// the empty String. When out of memory operands may be gone, and the rest of the frame stays.
#[inline(always)]
pub fn act(alloc: Global, frame: &mut Frame, code: &[u8], string: u32) -> Result<Next, NoMemory>
    requires limit { IsStringLimit string }
    requires code { code.now ≡ code_of frame.old.function }
    requires stands { Stands frame.old 0 }
    ensures acts { IfOk result (EndsOrActs string frame.old frame.new) }
    ensures stands { IfOk result (StandsFor frame.new) }
    ensures left { OnErr result (frame.new ≡ with_operands frame.new.operands frame.old) }
{
    if frame.place() == code.len() {
        return Ok(end_empty(alloc));
    }
    let (action, instr) = instruction(frame, code);
    match stay(alloc, frame, action, instr, string)? {
        Some(course) => Ok(course.next()),
        None => leave(alloc, frame, action, instr),
    }
}
