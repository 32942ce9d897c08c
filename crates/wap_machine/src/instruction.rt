//! The instruction at a place, and what it does.
ghost use Rattle.std.specs.Prelude.{◌≡◌, ◌<◌, length};
ghost use Rattle.wap_execution.specs.Actions.{action_of};
ghost use Rattle.wap_execution.specs.Frames.{code_of};
ghost use Rattle.wap_machine.specs.Standing.{Stands};
ghost use Rattle.wap_machine.specs.inside.InstructionParts.{IsInstruction};

use crate::frame::Frame;
use wap_asm::{read_row, row_of};
use wap_execution::Action;
use wap_unit::{Instr, OpName};
use wap_value::{BinOp, UnOp};

/// What an operation does.
pub(crate) fn action_of(operation: OpName) -> Action
    ensures { result ≡ action_of operation }
{
    match operation {
        OpName::JumpFwS | OpName::JumpFw | OpName::JumpFwW => Action::Jump,
        OpName::JumpBwS | OpName::JumpBw | OpName::JumpBwW => Action::JumpBack,
        OpName::TjumpFwS | OpName::TjumpFw | OpName::TjumpFwW => Action::JumpUnless,
        OpName::TjumpBw | OpName::TjumpBwW => Action::JumpBackUnless,
        OpName::Scand => Action::ShortCircuit(false),
        OpName::Scor => Action::ShortCircuit(true),
        OpName::CallS | OpName::Call => Action::CallLocal,
        OpName::CallLibS | OpName::CallLib | OpName::CallLibW => Action::CallLibrary,
        OpName::CallUrl | OpName::CallUrlW => Action::CallExternal,
        OpName::LoadVarS | OpName::LoadVar => Action::LoadVariable,
        OpName::StoreVarS | OpName::StoreVar => Action::StoreVariable,
        OpName::IncrVarS | OpName::IncrVar => Action::ChangeVariable(UnOp::Incr),
        OpName::DecrVar => Action::ChangeVariable(UnOp::Decr),
        OpName::AddAsg => Action::AssignVariable(BinOp::Add),
        OpName::SubAsg => Action::AssignVariable(BinOp::Sub),
        OpName::LoadConstS | OpName::LoadConst | OpName::LoadConstW => Action::LoadConstant,
        OpName::Const0 => Action::GiveInteger(0),
        OpName::Const1 => Action::GiveInteger(1),
        OpName::ConstM1 => Action::GiveInteger(-1),
        OpName::ConstEs => Action::GiveEmpty,
        OpName::ConstInvalid => Action::GiveInvalid,
        OpName::ConstTrue => Action::GiveBoolean(true),
        OpName::ConstFalse => Action::GiveBoolean(false),
        OpName::Incr => Action::Unary(UnOp::Incr),
        OpName::Decr => Action::Unary(UnOp::Decr),
        OpName::Uminus => Action::Unary(UnOp::Minus),
        OpName::BNot => Action::Unary(UnOp::BitNot),
        OpName::Not => Action::Unary(UnOp::Not),
        OpName::Tobool => Action::Unary(UnOp::ToBool),
        OpName::Typeof => Action::Unary(UnOp::TypeOf),
        OpName::Isvalid => Action::Unary(UnOp::IsValid),
        OpName::Add => Action::Binary(BinOp::Add),
        OpName::Sub => Action::Binary(BinOp::Sub),
        OpName::Mul => Action::Binary(BinOp::Mul),
        OpName::Div => Action::Binary(BinOp::Div),
        OpName::Idiv => Action::Binary(BinOp::IDiv),
        OpName::Rem => Action::Binary(BinOp::Rem),
        OpName::BAnd => Action::Binary(BinOp::BitAnd),
        OpName::BOr => Action::Binary(BinOp::BitOr),
        OpName::BXor => Action::Binary(BinOp::BitXor),
        OpName::BLshift => Action::Binary(BinOp::Shl),
        OpName::BRsshift => Action::Binary(BinOp::Shr),
        OpName::BRszshift => Action::Binary(BinOp::UShr),
        OpName::Eq => Action::Binary(BinOp::Eq),
        OpName::Le => Action::Binary(BinOp::Le),
        OpName::Lt => Action::Binary(BinOp::Lt),
        OpName::Ge => Action::Binary(BinOp::Ge),
        OpName::Gt => Action::Binary(BinOp::Gt),
        OpName::Ne => Action::Binary(BinOp::Ne),
        OpName::Pop => Action::Pop,
        OpName::Return => Action::Return,
        OpName::ReturnEs => Action::ReturnEmpty,
        OpName::Debug => Action::Pass,
    }
}

/// What stands where a frame goes on in its code.
#[inline(always)]
pub(crate) fn instruction(frame: &Frame, code: &[u8]) -> (Action, Instr)
    requires code { code.now ≡ code_of frame.now.function }
    requires stands { Stands frame.now 0 }
    requires within { frame.now.place < length (code_of frame.now.function) }
    ensures { IsInstruction frame.now result.0 result.1 }
{
    let place = frame.place();
    let Some(row) = row_of(code[place]) else {
        unreachable!()
    };
    match read_row(row, code, place) {
        Ok(instr) => (action_of(row.operation), instr),
        Err(_) => unreachable!(),
    }
}
