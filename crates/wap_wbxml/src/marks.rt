//! What a byte says, by the code that it is.
ghost use Rattle.std.specs.Prelude.{◌≡◌};
ghost use Rattle.wap_tokens.specs.markup.Codes.{leaf_mark, leaf_behind, is_extension, content_mark};
ghost use Rattle.wap_tokens.specs.markup.Codes.{attribute_mark, is_named, has_attributes};
ghost use Rattle.wap_tokens.specs.markup.Codes.{has_content};

use wap_base::Conv;
use wap_tokens::markup::{
    AttributeMark, ContentMark, END, ENTITY, EXT_0, EXT_1, EXT_2, EXT_I_0, EXT_I_1, EXT_I_2,
    EXT_T_0, EXT_T_1, EXT_T_2, LITERAL, Lead, LeafMark, OPAQUE, PI, Role, STR_I, STR_T,
};

/// What a byte says in content.
#[tactic(auto, unfolding(wap_tokens::specs::markup::Codes::content_mark))]
pub(crate) fn content_mark(lead: Lead) -> ContentMark
    ensures { result ≡ content_mark lead }
{
    if lead.byte % 64 >= LITERAL {
        return ContentMark::Element;
    }
    if lead.byte == END && !lead.switched {
        return ContentMark::End;
    }
    if lead.byte == PI && !lead.switched {
        return ContentMark::Pi;
    }
    match leaf_behind(lead) {
        Some(mark) => ContentMark::Leaf(mark),
        None => ContentMark::Nothing,
    }
}

/// What a byte says in attributes.
#[tactic(auto, unfolding(wap_tokens::specs::markup::Codes::attribute_mark))]
pub(crate) fn attribute_mark(lead: Lead) -> AttributeMark
    ensures { result ≡ attribute_mark lead }
{
    if lead.byte % 64 > LITERAL {
        if lead.byte < 128 {
            return AttributeMark::Coded;
        }
        return AttributeMark::Value;
    }
    if lead.byte == LITERAL {
        return AttributeMark::Named;
    }
    if lead.byte == END && !lead.switched {
        return AttributeMark::End;
    }
    match leaf_behind(lead) {
        Some(mark) => AttributeMark::Leaf(mark),
        None => AttributeMark::Nothing,
    }
}

/// What a byte says in both, of which only the extensions stand after a switch.
fn leaf_behind(lead: Lead) -> Option<LeafMark>
    ensures { result ≡ leaf_behind lead.switched (leaf_mark lead.byte) }
{
    let mark = leaf_mark(lead.byte)?;
    if lead.switched && !is_extension(mark) {
        return None;
    }
    Some(mark)
}

#[tactic(auto, unfolding(wap_tokens::specs::markup::Codes::leaf_mark))]
fn leaf_mark(byte: u8) -> Option<LeafMark>
    ensures { result ≡ leaf_mark byte }
{
    match byte {
        ENTITY => Some(LeafMark::Entity),
        STR_I => Some(LeafMark::Inline(Role::Shown)),
        EXT_I_0 => Some(LeafMark::Inline(Role::Variable(Conv::Escape))),
        EXT_I_1 => Some(LeafMark::Inline(Role::Variable(Conv::Unescape))),
        EXT_I_2 => Some(LeafMark::Inline(Role::Variable(Conv::Plain))),
        EXT_T_0 => Some(LeafMark::Indexed(Role::Variable(Conv::Escape))),
        EXT_T_1 => Some(LeafMark::Indexed(Role::Variable(Conv::Unescape))),
        EXT_T_2 => Some(LeafMark::Indexed(Role::Variable(Conv::Plain))),
        STR_T => Some(LeafMark::Indexed(Role::Shown)),
        EXT_0 => Some(LeafMark::Extension(0)),
        EXT_1 => Some(LeafMark::Extension(1)),
        EXT_2 => Some(LeafMark::Extension(2)),
        OPAQUE => Some(LeafMark::Opaque),
        _ => None,
    }
}

fn is_extension(mark: LeafMark) -> bool
    ensures { result ≡ is_extension mark }
{
    matches!(
        mark,
        LeafMark::Inline(Role::Variable(_))
            | LeafMark::Indexed(Role::Variable(_))
            | LeafMark::Extension(_)
    )
}

/// Whether a tag is a name of the string table.
pub(crate) fn is_named(tag: u8) -> bool
    ensures { result ≡ is_named tag }
{
    tag % 64 == LITERAL
}

/// Whether attributes stand after a tag.
#[inline(always)]
pub fn has_attributes(tag: u8) -> bool
    ensures { result ≡ has_attributes tag }
{
    tag >= 128
}

/// Whether content stands after a tag, and after its attributes if it has them.
#[inline(always)]
pub fn has_content(tag: u8) -> bool
    ensures { result ≡ has_content tag }
{
    tag % 128 >= 64
}
