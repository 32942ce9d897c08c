//! What stands in an indication's elements.
ghost use Rattle.std.specs.Prelude.{◌≡◌, ◌∷◌, ◌++◌, [], IfOk, OnOk, MatchOption, IsTrue, ◌↔◌};
ghost use Rattle.wap_push.specs.Fields.{kid_text, content_text, elements_of, is_tagged};

use crate::codes::tag_in;
use crate::names::PushTag;
use crate::values::add_character;
use std::alloc::Global;
use wap_base::{NoMemory, Text};
use wap_tokens::markup::{Element, Kid};

/// Appends the text of a part of content.
fn add_kid(text: &mut Text, kid: &Kid) -> Result<(), NoMemory>
    ensures { OnOk result (text.new ≡ text.old ++ kid_text kid.now) }
{
    match kid {
        Kid::Str(string) => text.add(string.as_str()),
        Kid::Entity(number) => add_character(text, *number),
        Kid::Element(_) | Kid::Var(_, _) | Kid::Ext(_) | Kid::Opaque(_) | Kid::Pi(_) => Ok(()),
    }
}

/// The text of content.
pub(crate) fn content_text(alloc: Global, kids: &[Kid]) -> Result<Text, NoMemory>
    ensures { IfOk result (λ text. text ≡ content_text kids.now) }
{
    let mut text = Text::new(alloc);
    for kid in kids {
        add_kid(&mut text, kid)?;
    }
    Ok(text)
}

/// Whether an element has this tag.
pub(crate) fn is_tagged(tag: PushTag, element: &Element) -> bool
    ensures { result ≡ is_tagged tag element.now }
{
    match tag_in(element.page, &element.tag) {
        Some(known) => known == tag,
        None => false,
    }
}

/// The first element in content, and the content after it.
pub(crate) fn split_element(kids: &[Kid]) -> Option<(&Element, &[Kid])>
    ensures { MatchOption result (elements_of kids.now ≡ [])
        (λ split. elements_of kids.now ≡ split.0.now ∷ elements_of split.1.now) }
{
    for place in 0..kids.len() {
        if let Kid::Element(element) = &kids[place] {
            return Some((element, &kids[place + 1..]));
        }
    }
    None
}

/// Whether content has no element.
pub(crate) fn is_plain(kids: &[Kid]) -> bool
    ensures { IsTrue result ↔ (elements_of kids.now ≡ []) }
{
    split_element(kids).is_none()
}
