//! Calls of fragments, which call functions of scripts.
use crate::values::give_value;
use wap_casebook::{Call, CaseFault};
use wap_parse::invocation::{Invocation, read_call};

/// Gives the name of a function, and its arguments.
fn give_called(call: &mut Call, called: &Invocation) {
    call.give_text(&called.function);
    for value in called.arguments.as_slice() {
        give_value(call, value);
    }
}

/// Gives the call that a fragment is.
pub fn read(call: &mut Call) -> Result<(), CaseFault> {
    let fragment = call.text();
    match read_call(call.alloc(), &fragment)? {
        Some(called) => give_called(call, &called),
        None => call.give_word("none"),
    }
    Ok(())
}
