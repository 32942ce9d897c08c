//! The strings that pragmas name.
ghost use Rattle.std.specs.Prelude.{◌≡◌, not, find};
ghost use Rattle.wap_unit.specs.Strings.{is_string};
ghost use Rattle.wap_verify.specs.Sound.{indexes, stray_pragma};

use crate::strings::is_string;
use wap_unit::{Pragma, Unit};

/// The first index of a pragma that names no string.
pub(crate) fn stray_pragma(unit: &Unit) -> Option<u32>
    ensures { result ≡ stray_pragma unit.now }
{
    for pragma in unit.pragmas.as_slice() {
        if let Some(index) = stray_index(unit, *pragma) {
            return Some(index);
        }
    }
    None
}

/// The first index of this pragma that names no string.
fn stray_index(unit: &Unit, pragma: Pragma) -> Option<u32>
    ensures { result ≡ find (λ index. not (is_string unit.now index)) (indexes pragma) }
{
    match pragma {
        Pragma::Domain(text) => stray_of(unit, &[text]),
        Pragma::Path(text) => stray_of(unit, &[text]),
        Pragma::Property(name, content) => stray_of(unit, &[name, content]),
        Pragma::Scheme(name, content, scheme) => stray_of(unit, &[name, content, scheme]),
    }
}

/// The first of these indexes that names no string.
fn stray_of(unit: &Unit, indexes: &[u32]) -> Option<u32>
    ensures { result ≡ find (λ index. not (is_string unit.now index)) indexes.now }
{
    for index in indexes {
        if !is_string(unit, *index) {
            return Some(*index);
        }
    }
    None
}
