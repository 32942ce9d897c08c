//! The names by which functions are called from outside.
ghost use Rattle.std.specs.Prelude.{◌≡◌, ◌≤◌, length, IfOk, ◌&&◌};
ghost use Rattle.wap_meaning.specs.compiled.Units.{is_short, entries};

use std::alloc::Global;
use wap_base::{NoMemory, Rows, Text};
use wap_grammar::program::Function;

/// A name in a unit has fewer bytes than this, since its length has one byte.
const NAME_END: usize = 256;

/// Whether the unit has the name of a function: other units may call it, and there is room for it.
fn is_named(function: &Function) -> bool
    ensures { result ≡ (function.now.external && is_short function.now.name.name) }
{
    function.external && function.name.name.len() < NAME_END
}

/// The names of functions that other units may call, each with its function's index.
pub(crate) fn names_of(alloc: Global, functions: &[Function]) -> Result<Rows<(u8, Text)>, NoMemory>
    requires { length functions.now ≤ 255 }
    ensures { IfOk result (λ names. names ≡ entries functions.now) }
{
    let mut names = Rows::new(alloc);
    let mut index = 0usize;
    for function in functions {
        if is_named(function) {
            names.add((index as u8, function.name.name.copy(alloc)?))?;
        }
        index += 1;
    }
    Ok(names)
}
