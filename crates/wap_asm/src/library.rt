//! The functions of the libraries.
ghost use Rattle.std.specs.Prelude.{◌≡◌, map};
ghost use Rattle.std.specs.Map.{lookup};
ghost use Rattle.wap_asm.specs.Columns.{lent_by_number, lent_by_name, has_names};
ghost use Rattle.wap_unit.specs.Libraries.{is_function, lib_args, lib_named};

use wap_base::Text;
use wap_unit::LIBRARY;

/// How many arguments a function of a library takes, by the operands of a call.
pub fn args_of(library: u32, function: u32) -> Option<u8>
    ensures { result ≡ lib_args library function }
{
    args_in(&LIBRARY, library, function)
}

/// How many arguments a function of a library takes, by its numbers.
pub fn lib_args(library: u16, function: u8) -> Option<u8>
    ensures { result ≡ lib_args library function }
{
    args_of(u32::from(library), u32::from(function))
}

fn args_in(
    rows: &[(u16, u8, u8, &'static str, &'static str)],
    library: u32,
    function: u32,
) -> Option<u8>
    ensures { result ≡ lookup (is_function library function) (map lent_by_number rows.now) }
{
    for row in rows {
        if u32::from(row.0) == library && u32::from(row.1) == function {
            return Some(row.2);
        }
    }
    None
}

/// The numbers of a function with these names, and how many arguments it takes.
pub fn lib_named(library: &Text, function: &Text) -> Option<(u16, u8, u8)>
    ensures { result ≡ lib_named library.now function.now }
{
    named_in(&LIBRARY, library.as_str(), function.as_str())
}

fn named_in(
    rows: &[(u16, u8, u8, &'static str, &'static str)],
    library: &str,
    function: &str,
) -> Option<(u16, u8, u8)>
    ensures { result ≡ lookup (has_names library.now function.now) (map lent_by_name rows.now) }
{
    for row in rows {
        if row.3 == library && row.4 == function {
            return Some((row.0, row.1, row.2));
        }
    }
    None
}
