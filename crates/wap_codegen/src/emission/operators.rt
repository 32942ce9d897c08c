//! The operations of operators.
ghost use Rattle.std.specs.Prelude.{◌≡◌};
ghost use Rattle.wap_meaning.specs.coding.Coded.{Coded};
ghost use Rattle.wap_meaning.specs.coding.Expressions.{binary_name, joined_code, change_name};
ghost use Rattle.wap_codegen.specs.emission.inside.Operands.{joint_code, truth_name};

use wap_unit::OpName;
use wap_value::BinOp;

/// How an operator joins its operands.
#[derive(Clone, Copy)]
pub(crate) enum Joint {
    /// It may leave out the second: an operation decides.
    Short(OpName),
    /// It drops the first.
    Drops,
    /// An operation takes both.
    Both(OpName),
}

/// The operation of an operator that takes the values of both operands; of the other three the one
/// that stands behind the first.
pub(crate) fn binary_name(operator: BinOp) -> OpName
    ensures { result ≡ binary_name operator }
{
    match operator {
        BinOp::Mul => OpName::Mul,
        BinOp::Div => OpName::Div,
        BinOp::IDiv => OpName::Idiv,
        BinOp::Rem => OpName::Rem,
        BinOp::Add => OpName::Add,
        BinOp::Sub => OpName::Sub,
        BinOp::Shl => OpName::BLshift,
        BinOp::Shr => OpName::BRsshift,
        BinOp::UShr => OpName::BRszshift,
        BinOp::Lt => OpName::Lt,
        BinOp::Le => OpName::Le,
        BinOp::Gt => OpName::Gt,
        BinOp::Ge => OpName::Ge,
        BinOp::Eq => OpName::Eq,
        BinOp::Ne => OpName::Ne,
        BinOp::BitAnd => OpName::BAnd,
        BinOp::BitXor => OpName::BXor,
        BinOp::BitOr => OpName::BOr,
        BinOp::And => OpName::Scand,
        BinOp::Or => OpName::Scor,
        BinOp::Comma => OpName::Pop,
    }
}

/// How an operator joins its operands.
pub(crate) fn joint_of(operator: BinOp) -> Joint
    ensures { (second : Coded) → joined_code operator second ≡ joint_code result second }
{
    match operator {
        BinOp::And => Joint::Short(OpName::Scand),
        BinOp::Or => Joint::Short(OpName::Scor),
        BinOp::Comma => Joint::Drops,
        other => Joint::Both(binary_name(other)),
    }
}

/// The operation of a step up or down.
pub(crate) fn change_name(up: bool) -> OpName
    ensures { result ≡ change_name up }
{
    if up { OpName::IncrVar } else { OpName::DecrVar }
}

/// The operation that gives a Boolean.
pub(crate) fn truth_name(truth: bool) -> OpName
    ensures { result ≡ truth_name truth }
{
    if truth {
        OpName::ConstTrue
    } else {
        OpName::ConstFalse
    }
}
