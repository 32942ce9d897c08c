//! Values of scripts in lines of calls.
use wap_casebook::{Call, CaseFault};
use wap_value::Value;

/// The next argument, a number of 32 bits with a sign.
fn integer(call: &mut Call) -> Value {
    match i32::try_from(call.number()) {
        Ok(number) => Value::Int(number),
        Err(_) => {
            call.fail(CaseFault::Argument);
            Value::Invalid
        }
    }
}

/// The next argument, a value: a number, a text, `true`, `false` or `invalid`.
pub fn value(call: &mut Call) -> Value {
    if call.is_text_next() {
        Value::Str(call.text())
    } else if call.takes("true") {
        Value::Bool(true)
    } else if call.takes("false") {
        Value::Bool(false)
    } else if call.takes("invalid") {
        Value::Invalid
    } else {
        integer(call)
    }
}

/// The values that are left.
pub fn values(call: &mut Call) -> Vec<Value> {
    let mut values = Vec::new(call.alloc());
    for _ in 0..u64::MAX {
        if !call.has_more() {
            break;
        }
        if values.push(value(call)).is_err() {
            call.fail(CaseFault::NoMemory);
        }
    }
    values
}

/// Gives `true` or `false`.
pub fn give_condition(call: &mut Call, is_true: bool) {
    call.give_word(if is_true { "true" } else { "false" });
}

/// Gives a value.
pub fn give_value(call: &mut Call, value: &Value) {
    match value {
        Value::Int(number) => call.give_number(i64::from(*number)),
        Value::Bool(is_true) => give_condition(call, *is_true),
        Value::Str(text) => call.give_text(text),
        Value::Invalid => call.give_word("invalid"),
    }
}
