//! Values of attributes: copies, and whether they may stand.
ghost use Rattle.std.specs.Prelude.{◌≡◌, Some, IfOk, IfSome};
ghost use Rattle.wap_tokens.specs.markup.Normal.{IsValue};
ghost use Rattle.wap_tokens.specs.markup.Trees.{plain_text};
ghost use Rattle.wap_mend.specs.inside.Building.{Suits};

use std::alloc::Global;
use wap_base::{NoMemory, Part, Rows, Text};
use wap_deck::documents::{add_any, literal};
use wap_deckcheck::wrong_value;
use wap_tokens::markup::{AttrName, Node, Tag};

/// A copy of a part.
pub(crate) fn copied_part(alloc: Global, part: &Part) -> Result<Part, NoMemory>
    ensures { IfOk result (λ copy. copy ≡ part.now) }
{
    match part {
        Part::Lit(text) => Ok(Part::Lit(text.copy(alloc)?)),
        Part::Var(name, conv) => Ok(Part::Var(name.copy(alloc)?, *conv)),
    }
}

/// A copy of a value.
pub(crate) fn copied(alloc: Global, parts: &[Part]) -> Result<Rows<Part>, NoMemory>
    ensures { IfOk result (λ copy. copy ≡ parts.now) }
{
    let mut copy = Rows::new(alloc);
    for part in parts {
        copy.add(copied_part(alloc, part)?)?;
    }
    Ok(copy)
}

/// The value of a text.
pub(crate) fn plain(alloc: Global, text: Text) -> Result<Rows<Part>, NoMemory>
    ensures value { IfOk result IsValue }
    ensures plain { IfOk result (λ value. plain_text value ≡ Some text) }
{
    let mut value = Rows::new(alloc);
    add_any(&mut value, literal(text))?;
    Ok(value)
}

/// A value in lower case, if it is one literal.
pub(crate) fn lowered(alloc: Global, parts: &[Part]) -> Result<Option<Rows<Part>>, NoMemory>
    ensures { IfOk result (λ value. IfSome value IsValue) }
{
    let [Part::Lit(text)] = parts else {
        return Ok(None);
    };
    let mut lower = Text::new(alloc);
    for c in text.as_str().chars() {
        lower.push(c.to_ascii_lowercase())?;
    }
    Ok(Some(plain(alloc, lower)?))
}

/// An attribute, if an element of this tag may have it with that value.
pub(crate) fn suited(
    alloc: Global,
    tag: Tag,
    name: AttrName,
    value: Rows<Part>,
) -> Result<Option<(AttrName, Rows<Part>)>, NoMemory>
    ensures same { IfOk result (λ found. IfSome found (λ attribute. attribute ≡ (name, value))) }
    ensures suits { IfOk result (λ found. IfSome found (Suits tag)) }
{
    let mut attrs = Rows::new(alloc);
    attrs.add((name, value))?;
    let node = Node {
        tag,
        attrs,
        kids: Rows::new(alloc),
    };
    if wrong_value(&node).is_some() {
        return Ok(None);
    }
    let Node { mut attrs, .. } = node;
    Ok(attrs.pop())
}
