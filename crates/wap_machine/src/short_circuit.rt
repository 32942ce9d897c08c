//! A short-circuit, which is one instruction with the jump after it.
ghost use Rattle.std.specs.Prelude.{◌≡◌, ◌+◌, ◌<◌, ◌^◌, length, slice_index, IfOk};
ghost use Rattle.wap_unit.specs.Instructions.{row_of};
ghost use Rattle.wap_execution.specs.Frames.{code_of};
ghost use Rattle.wap_execution.specs.Effects.{pair_by};
ghost use Rattle.wap_machine.specs.Standing.{Fits};
ghost use Rattle.wap_machine.specs.inside.InstructionParts.{given, IsJump, pair_behind, Stays};

use crate::acting::{give, pass_on};
use crate::frame::Frame;
use crate::next::Course;
use wap_asm::{read_row, row_of};
use wap_unit::Instr;
use wap_value::{Value, to_bool};

/// The jump after a short-circuit of this kind.
fn jump_behind(frame: &Frame, decides: bool, next: usize) -> Instr
    requires small { length (code_of frame.now.function) < 2 ^ 32 }
    requires fits { Fits frame.now (pair_behind decides next frame.now) }
    ensures { IsJump frame.now decides next result }
{
    let code = frame.code();
    if next >= code.len() {
        unreachable!()
    }
    let Some(row) = row_of(code[next]) else {
        unreachable!()
    };
    match read_row(row, code, next) {
        Ok(jump) => jump,
        Err(_) => unreachable!(),
    }
}

/// What a short-circuit gives where it jumps: true decides `||`, false `&&`, and invalid both.
fn decide(value: &Value, decides: bool) -> Option<Value>
    ensures { result ≡ given decides value.now }
{
    match to_bool(value) {
        Some(truth) => {
            if truth == decides {
                Some(Value::Bool(truth))
            } else {
                None
            }
        }
        None => Some(Value::Invalid),
    }
}

/// Takes a value, and jumps with it where it decides.
#[inline(always)]
pub(crate) fn short_circuit(frame: &mut Frame, decides: bool, next: usize) -> Course
    requires small { length (code_of frame.old.function) < 2 ^ 32 }
    requires fits { Fits frame.old (pair_behind decides next frame.old) }
    ensures { Stays frame.old (pair_behind decides next frame.old) frame.new result }
{
    let jump = jump_behind(frame, decides, next);
    let Some(value) = frame.pop() else {
        unreachable!()
    };
    match decide(&value, decides) {
        Some(value) => give(frame, value, jump.next + jump.a as usize),
        None => pass_on(frame, jump.next),
    }
}
