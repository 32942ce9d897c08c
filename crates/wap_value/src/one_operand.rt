//! The operators of one operand.
ghost use Rattle.std.specs.Prelude.{◌≡◌};
ghost use Rattle.wap_value.specs.Conversion.{integer_value, boolean_value};
ghost use Rattle.wap_value.specs.declared.value.Value.TheVariants.{Int};
ghost use Rattle.wap_value.specs.Unary.{unary_of, type_number};

use crate::{UnOp, Value, to_bool, to_int};

/// What an operator makes of a value. Whatever has no result, as the negation of the least Integer,
/// gives invalid.
#[inline(always)]
pub fn unary(op: UnOp, value: Value) -> Value
    ensures { result ≡ unary_of op value }
{
    match value {
        Value::Int(number) => of_one_integer(op, number),
        _ => of_any(op, value),
    }
}

/// What an operator makes of an Integer.
#[tactic(auto, using(crate::proofs::Range::checked_is_in_range))]
fn of_one_integer(op: UnOp, number: i32) -> Value
    ensures { result ≡ unary_of op (Int number) }
{
    match op {
        UnOp::Plus => Value::Int(number),
        UnOp::Minus => of_integer(number.checked_neg()),
        UnOp::BitNot => Value::Int(!number),
        UnOp::Not => Value::Bool(number == 0),
        UnOp::TypeOf => Value::Int(0),
        UnOp::IsValid => Value::Bool(true),
        UnOp::ToBool => Value::Bool(number != 0),
        UnOp::Incr => of_integer(number.checked_add(1)),
        UnOp::Decr => of_integer(number.checked_sub(1)),
    }
}

/// What an operator makes of a value. Whatever has no result, as the negation of the least Integer,
/// gives invalid.
#[tactic(auto, using(crate::proofs::Range::checked_is_in_range))]
fn of_any(op: UnOp, value: Value) -> Value
    ensures { result ≡ unary_of op value }
{
    match op {
        UnOp::Plus => of_integer(to_int(&value)),
        UnOp::Minus => of_integer(to_int(&value).and_then(|number| number.checked_neg())),
        UnOp::BitNot => of_integer(to_int(&value).map(|number| !number)),
        UnOp::Not => of_boolean(to_bool(&value).map(|truth| !truth)),
        UnOp::TypeOf => Value::Int(type_of(&value)),
        UnOp::IsValid => Value::Bool(!matches!(value, Value::Invalid)),
        UnOp::ToBool => of_boolean(to_bool(&value)),
        UnOp::Incr => of_integer(to_int(&value).and_then(|number| number.checked_add(1))),
        UnOp::Decr => of_integer(to_int(&value).and_then(|number| number.checked_sub(1))),
    }
}

/// An Integer, or invalid where there is none.
pub(crate) fn of_integer(number: Option<i32>) -> Value
    ensures { result ≡ integer_value number }
{
    number.map_or(Value::Invalid, Value::Int)
}

/// A Boolean, or invalid where there is none.
pub(crate) fn of_boolean(truth: Option<bool>) -> Value
    ensures { result ≡ boolean_value truth }
{
    truth.map_or(Value::Invalid, Value::Bool)
}

/// The number of a value's type; 1 would be the Float.
fn type_of(value: &Value) -> i32
    ensures { result ≡ type_number value.now }
{
    match value {
        Value::Int(_) => 0,
        Value::Str(_) => 2,
        Value::Bool(_) => 3,
        Value::Invalid => 4,
    }
}
