//! Parts of attributes' values by their codes.
ghost use Rattle.std.specs.Prelude.{◌≡◌, slice_get, IfSome};
ghost use Rattle.std.specs.Option.{option_map};
ghost use Rattle.std.specs.Str.{chars};
ghost use Rattle.wap_tokens.specs.markup.Tables.{attr_value};
ghost use Rattle.wap_tokens.specs.Rows.{texts};

use crate::markup::ATTR_VALUES;
use crate::places::value_place;

/// The text of the row at a place.
fn text_at(rows: &[(u8, &'static str)], place: usize) -> Option<&'static str>
    ensures { option_map (λ text. text.now) result ≡ slice_get (texts rows.now) place }
{
    match rows.get(place) {
        Some(row) => Some(row.1),
        None => None,
    }
}

/// The text of a code on a page.
pub fn attr_value(page: u8, code: u8) -> Option<&'static str>
    ensures value { option_map (λ text. text.now) result ≡ attr_value page code }
    ensures characters { IfSome result (λ text. chars text.now ≡ text.now) }
{
    if page != 0 {
        return None;
    }
    match value_place(code) {
        Some(place) => text_at(&ATTR_VALUES, place),
        None => None,
    }
}
