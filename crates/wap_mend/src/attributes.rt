//! Attributes that may stand, in lower case where that helps, each once (rule 4).
ghost use Rattle.std.specs.Prelude.{◌≡◌, [], ◌∷◌, IfOk, IfSome, OnOk};
ghost use Rattle.std.specs.List.{AllByRecursion};
ghost use Rattle.wap_tokens.specs.markup.Normal.{IsAttribute, IsValue};
ghost use Rattle.wap_mend.specs.inside.Building.{Suits};
ghost use Rattle.wap_mend.specs.inside.Frames.{nothing, load_lost, rows_load, Keeps, IsNoted};

use crate::change::{Attribute, Lost, What};
use crate::kept::Attributes;
use crate::notes::Notes;
use crate::values::{copied, lowered, suited};
use std::alloc::Global;
use wap_base::{NoMemory, Part, Rows};
use wap_tokens::markup::{AttrName, Node, Tag};

/// An attribute with its value in lower case, if an element may have it so.
fn lower_attribute(
    alloc: Global,
    tag: Tag,
    name: AttrName,
    parts: &[Part],
) -> Result<Option<(AttrName, Rows<Part>)>, NoMemory>
    ensures fits { IfOk result (λ found. IfSome found IsAttribute) }
    ensures suits { IfOk result (λ found. IfSome found (Suits tag)) }
    ensures named { IfOk result (λ found. IfSome found (λ attribute. attribute.0 ≡ name)) }
{
    match lowered(alloc, parts)? {
        Some(value) => suited(alloc, tag, name, value),
        None => Ok(None),
    }
}

/// Whether an element has an attribute that stays.
pub(crate) fn keeps_attribute(
    alloc: Global,
    node: &Node,
    name: AttrName,
) -> Result<bool, NoMemory> {
    for attribute in node.attrs.as_slice() {
        if attribute.0 == name {
            let parts = attribute.1.as_slice();
            if suited(alloc, node.tag, name, copied(alloc, parts)?)?.is_some() {
                return Ok(true);
            }
            if lower_attribute(alloc, node.tag, name, parts)?.is_some() {
                return Ok(true);
            }
        }
    }
    Ok(false)
}

/// What goes with an attribute of an element of a tag.
#[tactic(auto, using(crate::proofs::Dressing::one_lost))]
fn lost_of(alloc: Global, tag: Tag, attribute: &(AttrName, Rows<Part>)) -> Result<Lost, NoMemory>
    ensures { IfOk result (λ lost. load_lost lost ≡ rows_load tag (attribute.now ∷ [])) }
{
    let mut lost = Lost::new(alloc);
    let value = copied(alloc, attribute.1.as_slice())?;
    lost.attributes.add((tag, attribute.0, value))?;
    Ok(lost)
}

/// Notes an attribute of an element of a tag that goes.
#[tactic(auto, using(crate::proofs::Loads::noted_as))]
fn note_gone(
    alloc: Global,
    notes: &mut Notes,
    tag: Tag,
    attribute: &(AttrName, Rows<Part>),
) -> Result<(), NoMemory>
    ensures { OnOk result (IsNoted notes.old.changes notes.new.changes
        (rows_load tag (attribute.now ∷ []))) }
{
    let lost = lost_of(alloc, tag, attribute)?;
    notes.note_lost(alloc, What::Attribute(attribute.0), lost)
}

/// An attribute of an element of a tag, as a copy by itself.
pub(crate) fn single(
    alloc: Global,
    tag: Tag,
    attribute: &(AttrName, Rows<Part>),
) -> Result<Rows<Attribute>, NoMemory>
    ensures { IfOk result (λ all. all ≡ (tag, attribute.now.0, attribute.now.1) ∷ []) }
{
    let mut all = Rows::new(alloc);
    let value = copied(alloc, attribute.1.as_slice())?;
    all.add((tag, attribute.0, value))?;
    Ok(all)
}

/// Adds an attribute to those before it: as it is, or in lower case, if it may stand so.
fn add_attribute(
    alloc: Global,
    notes: &mut Notes,
    attributes: &mut Attributes,
    attribute: &(AttrName, Rows<Part>),
) -> Result<(), NoMemory>
    requires { IsAttribute attribute.now }
    ensures tag { OnOk result (attributes.new.tag ≡ attributes.old.tag) }
    ensures keeps { OnOk result (Keeps notes.old.changes notes.new.changes
        (rows_load attributes.old.tag attributes.old.rows)
        (rows_load attributes.old.tag attributes.new.rows)
        (rows_load attributes.old.tag (attribute.now ∷ []))) }
{
    let tag = attributes.tag();
    let name = attribute.0;
    let parts = attribute.1.as_slice();
    if attributes.has(name) {
        return note_gone(alloc, notes, tag, attribute);
    }
    if let Some(as_it_is) = suited(alloc, tag, name, copied(alloc, parts)?)? {
        return attributes.add(as_it_is);
    }
    match lower_attribute(alloc, tag, name, parts)? {
        Some(lower) => {
            let came = single(alloc, tag, &lower)?;
            let lost = lost_of(alloc, tag, attribute)?;
            notes.note_turned(alloc, What::Lowered(name), lost, came)?;
            attributes.add(lower)
        }
        None => note_gone(alloc, notes, tag, attribute),
    }
}

/// The attributes of an element that may stand, for one of this tag.
pub(crate) fn mended_attributes(
    alloc: Global,
    notes: &mut Notes,
    tag: Tag,
    node: &Node,
) -> Result<Attributes, NoMemory>
    requires { AllByRecursion IsAttribute node.now.attrs }
    ensures tag { IfOk result (λ attributes. attributes.tag ≡ tag) }
    ensures keeps { IfOk result (λ attributes. Keeps notes.old.changes notes.new.changes nothing
        (rows_load tag attributes.rows) (rows_load tag node.now.attrs)) }
{
    let mut attributes = Attributes::new(alloc, tag);
    for attribute in node.attrs.as_slice() {
        add_attribute(alloc, notes, &mut attributes, attribute)?;
    }
    Ok(attributes)
}
