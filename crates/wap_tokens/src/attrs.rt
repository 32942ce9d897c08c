//! Attributes by their codes and names.
ghost use Rattle.std.specs.Prelude.{◌≡◌, ◌&&◌, [], unwrap_or, slice_get, IfSome};
ghost use Rattle.std.specs.Map.{lookup};
ghost use Rattle.std.specs.Option.{option_map};
ghost use Rattle.std.specs.Str.{chars, bytes_eq};
ghost use Rattle.wap_tokens.specs.markup.Tables.{is_same_attr, name_of_attr, attr_named};
ghost use Rattle.wap_tokens.specs.markup.Tables.{attr_start, code_of_start, start_code};
ghost use Rattle.wap_tokens.specs.Rows.{attrs_by_name, names_by_attr, starts};
ghost use Rattle.wap_tokens.specs.Rows.{codes_by_start, codes_by_attr, lent_start};

use crate::markup::{ATTR_NAMES, ATTR_STARTS, AttrName};
use crate::places::start_place;
use wap_base::Text;

/// The start of the row at a place.
fn start_at(rows: &[(u8, AttrName, &'static str)], place: usize) -> Option<(AttrName, &'static str)>
    ensures { option_map lent_start result ≡ slice_get (starts rows.now) place }
{
    match rows.get(place) {
        Some(row) => Some((row.1, row.2)),
        None => None,
    }
}

/// The attribute that a code on a page starts, and the text with which its value begins.
pub fn attr_start(page: u8, code: u8) -> Option<(AttrName, &'static str)>
    ensures start { option_map lent_start result ≡ attr_start page code }
    ensures characters { IfSome result (λ start. chars start.1.now ≡ start.1.now) }
{
    if page != 0 {
        return None;
    }
    match start_place(code) {
        Some(place) => start_at(&ATTR_STARTS, place),
        None => None,
    }
}

/// The attribute beside a name.
fn attr_beside(rows: &[(AttrName, &str)], name: &str) -> Option<AttrName>
    ensures { result ≡ lookup (bytes_eq name.now) (attrs_by_name rows.now) }
{
    for row in rows {
        if name == row.1 {
            return Some(row.0);
        }
    }
    None
}

/// The attribute of a name.
pub fn attr_named(name: &Text) -> Option<AttrName>
    ensures { result ≡ attr_named name.now }
{
    attr_beside(&ATTR_NAMES, name.as_str())
}

/// The name beside an attribute, or nothing.
fn name_beside(rows: &[(AttrName, &'static str)], attr: AttrName) -> &'static str
    ensures { result.now ≡ unwrap_or (lookup (is_same_attr attr) (names_by_attr rows.now)) [] }
{
    for row in rows {
        if attr == row.0 {
            return row.1;
        }
    }
    ""
}

/// The name of an attribute.
pub fn name_of_attr(attr: AttrName) -> &'static str
    ensures name { result.now ≡ name_of_attr attr }
    ensures characters { chars result.now ≡ result.now }
{
    name_beside(&ATTR_NAMES, attr)
}

/// The code beside a start.
fn code_beside(rows: &[(u8, AttrName, &str)], attr: AttrName, text: &str) -> Option<u8>
    ensures { result ≡ lookup (λ start. is_same_attr attr start.0 && bytes_eq text.now start.1)
        (codes_by_start rows.now) }
{
    for row in rows {
        if attr == row.1 && text == row.2 {
            return Some(row.0);
        }
    }
    None
}

/// The code that stands for an attribute and the beginning of its value, this text.
pub fn code_of_start(attr: AttrName, text: &str) -> Option<u8>
    ensures { result ≡ code_of_start (attr, chars text.now) }
{
    code_beside(&ATTR_STARTS, attr, text)
}

/// The first code beside an attribute.
fn first_beside(rows: &[(u8, AttrName, &str)], attr: AttrName) -> Option<u8>
    ensures { result ≡ lookup (is_same_attr attr) (codes_by_attr rows.now) }
{
    for row in rows {
        if attr == row.1 {
            return Some(row.0);
        }
    }
    None
}

/// The code of an attribute with nothing before its value. An attribute whose values all begin with
/// texts has none, and its first code is given.
pub fn start_code(attr: AttrName) -> u8
    ensures { result ≡ start_code attr }
{
    match code_of_start(attr, "") {
        Some(code) => code,
        None => first_beside(&ATTR_STARTS, attr).unwrap_or(0),
    }
}
