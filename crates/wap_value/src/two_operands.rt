//! The operators of two operands.
ghost use Rattle.std.specs.Prelude.{◌≡◌, ℕ, Err};
ghost use Rattle.wap_value.specs.declared.value.Value.TheVariants.{Int};
ghost use Rattle.wap_value.specs.Binary.{TakesBoth, binary_of, sum_of, on_integers};
ghost use Rattle.wap_value.specs.Conversion.{integer_of};
ghost use Rattle.wap_base.specs.Limits.{IsStringLimit};
ghost use Rattle.wap_base.specs.Outcome.{Meets};
ghost use Rattle.wap_value.specs.TooLong.{kept_within, IsTooLong};

use crate::arithmetic::integer_result;
use crate::comparison::{compare, passes};
use crate::concatenation::concatenation;
use crate::one_operand::{of_boolean, of_integer};
use crate::{BinOp, Value, ValueFault, to_int, to_str};
use std::alloc::Global;

/// What an operator makes of two values, where a String has at most `string` bytes of UTF-8. `&&`,
/// `||` and `,` are no such operators: the machine takes their operands one at a time.
#[inline(always)]
pub fn binary(
    alloc: Global,
    op: BinOp,
    left: &Value,
    right: &Value,
    string: u32,
) -> Result<Value, ValueFault>
    requires operator { TakesBoth op }
    requires limit { IsStringLimit string }
    ensures value { Meets ValueFault.NoMemory (λ value. value) result
        (kept_within string (binary_of op left.now right.now)) }
    ensures too_long { (bytes : ℕ) → result ≡ Err (ValueFault.TooLong bytes)
        → IsTooLong string (binary_of op left.now right.now) bytes }
{
    match (left, right) {
        (Value::Int(left), Value::Int(right)) => Ok(of_two_integers(op, *left, *right)),
        _ => of_any(alloc, op, left, right, string),
    }
}

/// What an operator makes of two values that are let go, as `binary` says.
#[inline(always)]
pub fn combine(
    alloc: Global,
    op: BinOp,
    left: Value,
    right: Value,
    string: u32,
) -> Result<Value, ValueFault>
    requires operator { TakesBoth op }
    requires limit { IsStringLimit string }
    ensures value { Meets ValueFault.NoMemory (λ value. value) result
        (kept_within string (binary_of op left right)) }
    ensures too_long { (bytes : ℕ) → result ≡ Err (ValueFault.TooLong bytes)
        → IsTooLong string (binary_of op left right) bytes }
{
    match (left, right) {
        (Value::Int(left), Value::Int(right)) => Ok(of_two_integers(op, left, right)),
        (left, right) => of_any_owned(alloc, op, left, right, string),
    }
}

// A call, so that Integers are taken where they stand.
#[inline(never)]
fn of_any_owned(
    alloc: Global,
    op: BinOp,
    left: Value,
    right: Value,
    string: u32,
) -> Result<Value, ValueFault>
    requires operator { TakesBoth op }
    requires limit { IsStringLimit string }
    ensures value { Meets ValueFault.NoMemory (λ value. value) result
        (kept_within string (binary_of op left right)) }
    ensures too_long { (bytes : ℕ) → result ≡ Err (ValueFault.TooLong bytes)
        → IsTooLong string (binary_of op left right) bytes }
{
    of_any(alloc, op, &left, &right, string)
}

/// What an operator makes of two Integers.
fn of_two_integers(op: BinOp, left: i32, right: i32) -> Value
    requires { TakesBoth op }
    ensures { result ≡ binary_of op (Int left) (Int right) }
{
    match op {
        BinOp::Lt => Value::Bool(left < right),
        BinOp::Le => Value::Bool(left <= right),
        BinOp::Gt => Value::Bool(left > right),
        BinOp::Ge => Value::Bool(left >= right),
        BinOp::Eq => Value::Bool(left == right),
        BinOp::Ne => Value::Bool(left != right),
        BinOp::Add
        | BinOp::Mul
        | BinOp::Div
        | BinOp::IDiv
        | BinOp::Rem
        | BinOp::Sub
        | BinOp::Shl
        | BinOp::Shr
        | BinOp::UShr
        | BinOp::BitAnd
        | BinOp::BitXor
        | BinOp::BitOr => of_integer(integer_result(op, left, right)),
        BinOp::And | BinOp::Or | BinOp::Comma => unreachable!(),
    }
}

/// What an operator makes of any two values.
#[tactic(auto, using(crate::proofs::Kept::on_integers_is_kept))]
fn of_any(
    alloc: Global,
    op: BinOp,
    left: &Value,
    right: &Value,
    string: u32,
) -> Result<Value, ValueFault>
    requires operator { TakesBoth op }
    requires limit { IsStringLimit string }
    ensures value { Meets ValueFault.NoMemory (λ value. value) result
        (kept_within string (binary_of op left.now right.now)) }
    ensures too_long { (bytes : ℕ) → result ≡ Err (ValueFault.TooLong bytes)
        → IsTooLong string (binary_of op left.now right.now) bytes }
{
    match op {
        BinOp::Add => sum(alloc, left, right, string),
        BinOp::Lt | BinOp::Le | BinOp::Gt | BinOp::Ge | BinOp::Eq | BinOp::Ne => {
            let order = compare(alloc, left, right)?;
            Ok(of_boolean(order.map(|order| passes(op, order))))
        }
        BinOp::Mul
        | BinOp::Div
        | BinOp::IDiv
        | BinOp::Rem
        | BinOp::Sub
        | BinOp::Shl
        | BinOp::Shr
        | BinOp::UShr
        | BinOp::BitAnd
        | BinOp::BitXor
        | BinOp::BitOr => Ok(of_integers(op, left, right)),
        BinOp::And | BinOp::Or | BinOp::Comma => unreachable!(),
    }
}

fn sum(alloc: Global, left: &Value, right: &Value, string: u32) -> Result<Value, ValueFault>
    ensures { Meets ValueFault.NoMemory (λ value. value) result
        (kept_within string (sum_of left.now right.now)) }
{
    match (left, right) {
        (Value::Str(left), Value::Str(right)) => concatenation(alloc, left, right, string),
        (Value::Str(left), _) => match to_str(alloc, right)? {
            Some(right) => concatenation(alloc, left, &right, string),
            None => Ok(Value::Invalid),
        },
        (_, Value::Str(right)) => match to_str(alloc, left)? {
            Some(left) => concatenation(alloc, &left, right, string),
            None => Ok(Value::Invalid),
        },
        _ => Ok(of_integers(BinOp::Add, left, right)),
    }
}

/// What an operator makes of the operands as Integers.
fn of_integers(op: BinOp, left: &Value, right: &Value) -> Value
    ensures { result ≡ on_integers op (integer_of left.now) (integer_of right.now) }
{
    match (to_int(left), to_int(right)) {
        (Some(left), Some(right)) => of_integer(integer_result(op, left, right)),
        _ => Value::Invalid,
    }
}
