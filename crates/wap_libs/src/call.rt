//! Calls by the numbers of library and function.
ghost use Rattle.std.specs.Prelude.{◌≡◌, ◌≢◌, vec_len, length, is_some, Err};
ghost use Rattle.wap_base.specs.Outcome.{Meets};
ghost use Rattle.wap_libs.specs.Libraries.{IsPure, function_at, row_of};
ghost use Rattle.wap_libs.specs.Outcome.{outcome, generator_after, limited};
ghost use Rattle.wap_libs.specs.Row.{applied, arguments};

use crate::float::call_float;
use crate::lang::call_lang;
use crate::string::call_string;
use crate::url::call_url;
use crate::{FLOAT, Function, Gen, LANG, LibFault, LibOut, STRING, URL};
use std::alloc::Global;
use wap_value::Value;

/// Calls a function that needs no browser, by the numbers of its library and its own. `string` is
/// how many bytes of UTF-8 a String may have that is given.
pub fn call_pure(
    alloc: Global,
    lib: u16,
    f: u8,
    args: Vec<Value>,
    generator: &mut Gen,
    string: u32,
) -> Result<LibOut, LibFault>
    requires { IsPure lib f (vec_len args) }

    ensures outcome { Meets LibFault.NoMemory (λ out. out) result
        (outcome string lib f args.items generator.old) }
    ensures generator { result ≢ Err LibFault.NoMemory
        → generator.new ≡ generator_after lib f args.items generator.old }
    ensures kept { result ≡ Err LibFault.NoMemory → generator.new ≡ generator.old }
{
    match function_at(lib, f) {
        Some(function) => call(alloc, function, &args, generator, string),
        None => unreachable!(),
    }
}

/// Whether a function needs no browser: `call_pure` then takes as many arguments as the table of
/// libraries says.
pub fn is_pure(lib: u16, f: u8) -> bool
    ensures { result ≡ is_some (function_at lib f) }
{
    function_at(lib, f).is_some()
}

/// The function of a library's number and its own.
fn function_at(lib: u16, f: u8) -> Option<Function>
    ensures { result ≡ function_at lib f }
{
    let at = usize::from(f);
    match lib {
        0 => LANG.get(at).copied().map(Function::Lang),
        1 => FLOAT.get(at).copied().map(Function::Float),
        2 => STRING.get(at).copied().map(Function::String),
        3 => URL.get(at).copied().flatten().map(Function::Url),
        _ => None,
    }
}

fn call(
    alloc: Global,
    function: Function,
    args: &[Value],
    generator: &mut Gen,
    limit: u32,
) -> Result<LibOut, LibFault>
    requires { length args.now ≡ arguments (row_of function) }
    ensures outcome { Meets LibFault.NoMemory (λ out. out) result
        (limited limit (applied (row_of function) args.now generator.old).0) }
    ensures generator { result ≢ Err LibFault.NoMemory
        → generator.new ≡ (applied (row_of function) args.now generator.old).1 }
    ensures kept { result ≡ Err LibFault.NoMemory → generator.new ≡ generator.old }
{
    match function {
        Function::Lang(function) => call_lang(alloc, function, args, generator, limit),
        Function::Float(function) => Ok(LibOut::Value(call_float(function))),
        Function::String(function) => {
            Ok(LibOut::Value(call_string(alloc, function, args, limit)?))
        }
        Function::Url(function) => Ok(LibOut::Value(call_url(alloc, function, args, limit)?)),
    }
}
