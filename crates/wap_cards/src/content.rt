//! Which elements show what they hold, and which may hold texts.
ghost use Rattle.std.specs.Prelude.{◌≡◌};
ghost use Rattle.std.specs.Map.{lookup};
ghost use Rattle.wap_tokens.specs.markup.Good.{is_among, rule_of};
ghost use Rattle.wap_tokens.specs.markup.Tables.{is_same_tag};
ghost use Rattle.wap_cardrules.specs.Content.{shown_tags};
ghost use Rattle.wap_cards.specs.inside.Rows.{has_text, rule_rows};

use wap_tokens::markup::{AttrName, RULES, Tag};

/// Whether the content of an element shows.
pub fn is_open(tag: Tag) -> bool
    ensures { result ≡ is_among shown_tags tag }
{
    matches!(
        tag,
        Tag::P
            | Tag::Pre
            | Tag::Fieldset
            | Tag::Table
            | Tag::Tr
            | Tag::Td
            | Tag::A
            | Tag::Anchor
            | Tag::Em
            | Tag::Strong
            | Tag::B
            | Tag::I
            | Tag::U
            | Tag::Big
            | Tag::Small
    )
}

/// A row of the rules.
type Row = (
    Tag,
    &'static [&'static [Tag]],
    bool,
    bool,
    &'static [&'static [Tag]],
    &'static [Tag],
    &'static [AttrName],
);

/// Whether the rule beside a tag lets texts stand in the element.
fn text_beside(rows: &[Row], tag: Tag) -> bool
    ensures { result ≡ has_text (lookup (is_same_tag tag) (rule_rows rows.now)) }
{
    for row in rows {
        if tag == row.0 {
            return row.3;
        }
    }
    false
}

/// Whether a text may stand in an element.
pub fn may_have_text(tag: Tag) -> bool
    ensures { result ≡ (rule_of tag).text }
{
    text_beside(&RULES, tag)
}
