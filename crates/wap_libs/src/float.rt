//! The library Float.
ghost use Rattle.std.specs.Prelude.{◌≡◌, List};
ghost use Rattle.wap_value.specs.declared.value.Value.{Value as AnyValue};
ghost use Rattle.wap_libs.specs.Float.{formula_of_float};
ghost use Rattle.wap_libs.specs.Row.{value_given};

use crate::FloatFunction;
use wap_value::Value;

/// What a function of Float gives, whatever its arguments are.
pub(crate) fn call_float(function: FloatFunction) -> Value
    ensures { (args : List AnyValue) → result ≡ value_given (formula_of_float function) args }
{
    match function {
        FloatFunction::Int
        | FloatFunction::Floor
        | FloatFunction::Ceil
        | FloatFunction::Pow
        | FloatFunction::Round
        | FloatFunction::Sqrt
        | FloatFunction::MaxFloat
        | FloatFunction::MinFloat => Value::Invalid,
    }
}
