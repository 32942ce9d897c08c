//! Tags by their codes and names.
ghost use Rattle.std.specs.Prelude.{◌≡◌, map, unwrap_or, slice_get};
ghost use Rattle.std.specs.Map.{lookup};
ghost use Rattle.std.specs.Str.{bytes_eq};
ghost use Rattle.wap_tokens.specs.markup.Tables.{is_same_tag, tag_of, tag_named, code_of};
ghost use Rattle.wap_tokens.specs.Rows.{tags_by_name, codes_by_tag};

use crate::markup::{TAGS, Tag};
use crate::places::tag_place;
use wap_base::Text;

/// The tag of the row at a place.
fn tag_at(rows: &[(u8, Tag, &str)], place: usize) -> Option<Tag>
    ensures { result ≡ slice_get (map (λ row. row.1) rows.now) place }
{
    match rows.get(place) {
        Some(row) => Some(row.1),
        None => None,
    }
}

/// The tag of a code on a page.
pub fn tag_of(page: u8, code: u8) -> Option<Tag>
    ensures { result ≡ tag_of page code }
{
    if page != 0 {
        return None;
    }
    match tag_place(code) {
        Some(place) => tag_at(&TAGS, place),
        None => None,
    }
}

/// The tag beside a name.
fn tag_beside(rows: &[(u8, Tag, &str)], name: &str) -> Option<Tag>
    ensures { result ≡ lookup (bytes_eq name.now) (tags_by_name rows.now) }
{
    for row in rows {
        if name == row.2 {
            return Some(row.1);
        }
    }
    None
}

/// The tag of a name.
pub fn tag_named(name: &Text) -> Option<Tag>
    ensures { result ≡ tag_named name.now }
{
    tag_beside(&TAGS, name.as_str())
}

/// The code beside a tag, or 0.
fn code_beside(rows: &[(u8, Tag, &str)], tag: Tag) -> u8
    ensures { result ≡ unwrap_or (lookup (is_same_tag tag) (codes_by_tag rows.now)) 0 }
{
    for row in rows {
        if tag == row.1 {
            return row.0;
        }
    }
    0
}

/// The code of a tag. `Tag::Other` has none, and gets 0.
#[tactic(auto, unfolding(crate::specs::markup::Tables::code_of, crate::specs::markup::Tables::tag_rows))]
pub fn code_of(tag: Tag) -> u8
    ensures { result ≡ code_of tag }
{
    code_beside(&TAGS, tag)
}
