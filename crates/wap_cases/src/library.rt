//! Calls of functions of the libraries.
use crate::values::{give_value, values};
use wap_asm::lib_args;
use wap_casebook::{Call, CaseFault, split_by};
use wap_libs::{Gen, LibOut, call_pure, is_pure};
use wap_unit::LIBRARY;

/// The seed of a session that nothing is said of.
const SEED: u32 = 7;

/// The limit of Strings where nothing is said.
const LIMIT: u32 = 65_535;

/// The numbers of a library and of a function in it, by a name as `Lang.abs`.
fn numbers_of(name: &[u8]) -> Option<(u16, u8)> {
    let (library, function) = split_by(b'.', name);
    for (lib, f, _, library_name, function_name) in &LIBRARY {
        if library_name.as_bytes() == library && function_name.as_bytes() == function {
            return Some((*lib, *f));
        }
    }
    None
}

/// Gives what a function comes to: a value, `exit` and a value, or `abort` and a text.
fn give_outcome(call: &mut Call, outcome: &LibOut) {
    match outcome {
        LibOut::Value(value) => give_value(call, value),
        LibOut::Exit(value) => {
            call.give_word("exit");
            give_value(call, value);
        }
        LibOut::Abort(text) => {
            call.give_word("abort");
            call.give_text(text);
        }
    }
}

/// Calls a function, and gives what that comes to.
fn give_call(call: &mut Call, numbers: (u16, u8), limit: u32) -> Result<(), CaseFault> {
    let (lib, f) = numbers;
    let values = values(call);
    match lib_args(lib, f) {
        Some(count) if is_pure(lib, f) && usize::from(count) == values.len() => {}
        _ => return Err(CaseFault::Argument),
    }
    match call_pure(call.alloc(), lib, f, values, &mut Gen::new(SEED), limit) {
        Ok(outcome) => give_outcome(call, &outcome),
        Err(fault) => call.give_named(&fault),
    }
    Ok(())
}

/// Calls a function by its name, as `Lang.abs`.
pub fn call_named(name: &[u8], call: &mut Call) -> Result<(), CaseFault> {
    match numbers_of(name) {
        Some(numbers) => give_call(call, numbers, LIMIT),
        None => Err(CaseFault::Line),
    }
}

/// Calls a function under a limit of Strings: `within LIMIT NAME VALUES`.
pub fn call_within(call: &mut Call) -> Result<(), CaseFault> {
    let limit = call.number32();
    let numbers = numbers_of(call.word()).ok_or(CaseFault::Argument)?;
    give_call(call, numbers, limit)
}

/// How many arguments a function takes, by the numbers of its library and of it, where it is one of
/// those that ask no browser, or of all.
pub fn count_arguments(call: &mut Call, alone: bool) -> Result<(), CaseFault> {
    let Ok(lib) = u16::try_from(call.number32()) else {
        return Err(CaseFault::Argument);
    };
    let f = call.number8();
    match lib_args(lib, f) {
        Some(count) if !alone || is_pure(lib, f) => call.give_number(i64::from(count)),
        _ => call.give_word("none"),
    }
    Ok(())
}
