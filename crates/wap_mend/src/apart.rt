//! Names of dos, each of which stands once in a card or a template (rule 6).
ghost use Rattle.std.specs.Prelude.{◌≡◌, [], ◌∷◌, ◌++◌, not, filter, Some, IfOk, OnOk, IfSome};
ghost use Rattle.std.specs.Prelude.{MatchOption};
ghost use Rattle.std.specs.Option.{option_to_list, option_copied, option_and_then};
ghost use Rattle.wap_tokens.specs.markup.Trees.{plain_text};
ghost use Rattle.wap_mend.specs.inside.Names.{Takes, name_among, own_name_of};
ghost use Rattle.wap_tokens.specs.markup.Normal.{IsAttribute};
ghost use Rattle.wap_mend.specs.inside.Building.{Suits, is_named};
ghost use Rattle.wap_mend.specs.inside.Frames.{nothing, rows_load, rows_if, Keeps};

use crate::attributes::single;
use crate::change::What;
use crate::kept::Attributes;
use crate::names::Names;
use crate::notes::Notes;
use crate::values::{plain, suited};
use std::alloc::Global;
use wap_base::{NoMemory, Part, Rows, Text};
use wap_tokens::markup::{AttrName, Tag};

/// The text of a value without references, as a copy.
pub(crate) fn text_of(alloc: Global, parts: &[Part]) -> Result<Option<Text>, NoMemory>
    ensures { IfOk result (λ text. text ≡ plain_text parts.now) }
{
    match parts {
        [] => Ok(Some(Text::new(alloc))),
        [Part::Lit(text)] => Ok(Some(text.copy(alloc)?)),
        _ => Ok(None),
    }
}

/// The name by which a do is told apart, as a copy.
fn name_of_do(alloc: Global, attributes: &Attributes) -> Result<Option<Text>, NoMemory>
    ensures { IfOk result (λ name. name ≡ name_among attributes.now.rows) }
{
    match attributes.value_of(AttrName::Name) {
        Some(name) => text_of(alloc, name.as_slice()),
        None => match attributes.value_of(AttrName::Type) {
            Some(value) => text_of(alloc, value.as_slice()),
            None => Ok(None),
        },
    }
}

/// Notes the attributes of a do for which there is no name: they go.
#[tactic(auto, using(crate::proofs::Dressing::all_gone))]
fn note_unnamed(alloc: Global, notes: &mut Notes, attributes: &Attributes) -> Result<(), NoMemory>
    ensures { OnOk result (Keeps notes.old.changes notes.new.changes nothing nothing
        (rows_load attributes.now.tag attributes.now.rows)) }
{
    let lost = attributes.lost(alloc)?;
    notes.note_lost(alloc, What::Attribute(AttrName::Name), lost)
}

/// The attributes of a do with another name, which is noted.
#[tactic(auto, using(crate::proofs::Dressing::all_renamed))]
fn renamed(
    alloc: Global,
    notes: &mut Notes,
    attributes: &Attributes,
    attribute: (AttrName, Rows<Part>),
    name: Text,
) -> Result<Attributes, NoMemory>
    requires fits { IsAttribute attribute }
    requires suits { Suits attributes.now.tag attribute }
    requires named { attribute.0 ≡ AttrName.Name }
    ensures renamed { IfOk result (λ kept. kept ≡ record {
      tag = attributes.now.tag;
      rows =
          filter (λ row. not (is_named AttrName.Name row)) attributes.now.rows ++ attribute ∷ [];
    }) }
    ensures keeps { IfOk result (λ kept. Keeps notes.old.changes notes.new.changes nothing
        (rows_load kept.tag kept.rows) (rows_load attributes.now.tag attributes.now.rows)) }
{
    let came = single(alloc, attributes.tag(), &attribute)?;
    let lost = attributes.lost_of(alloc, AttrName::Name)?;
    notes.note_turned(alloc, What::Named(name), lost, came)?;
    let mut kept = attributes.copy_without(alloc, AttrName::Name)?;
    kept.add(attribute)?;
    Ok(kept)
}

/// The attributes of a do with another name, if it may have that; else they go.
fn with_name(
    alloc: Global,
    notes: &mut Notes,
    attributes: &Attributes,
    name: Text,
) -> Result<Option<Attributes>, NoMemory>
    ensures tag { IfOk result (λ named. IfSome named (λ kept. kept.tag ≡ attributes.now.tag)) }
    ensures name { IfOk result (λ named. IfSome named (λ kept. name_among kept.rows ≡ Some name)) }
    ensures keeps { IfOk result (λ named. Keeps notes.old.changes notes.new.changes nothing
        (rows_if named) (rows_load attributes.now.tag attributes.now.rows)) }
{
    let value = plain(alloc, name.copy(alloc)?)?;
    let Some(attribute) = suited(alloc, attributes.tag(), AttrName::Name, value)? else {
        note_unnamed(alloc, notes, attributes)?;
        return Ok(None);
    };
    Ok(Some(renamed(alloc, notes, attributes, attribute, name)?))
}

/// The attributes of a do whose name is taken, with another one that isn't, if there is any.
fn do_with_other(
    alloc: Global,
    notes: &mut Notes,
    names: &mut Names,
    attributes: &Attributes,
    name: &Text,
) -> Result<Option<Attributes>, NoMemory>
    ensures tag { IfOk result (λ named. IfSome named (λ kept. kept.tag ≡ attributes.now.tag)) }
    ensures keeps { IfOk result (λ named. Keeps notes.old.changes notes.new.changes nothing
        (rows_if named) (rows_load attributes.now.tag attributes.now.rows)) }
    ensures taken { IfOk result (λ named. MatchOption named (Takes names.old names.new [] [])
        (λ kept. Takes names.old names.new [] (option_to_list (name_among kept.rows)))) }
{
    let Some(other) = names.take_other(alloc, name)? else {
        note_unnamed(alloc, notes, attributes)?;
        return Ok(None);
    };
    with_name(alloc, notes, attributes, other)
}

/// The attributes of a do, its name taken: with another, if it is taken already.
fn do_attributes(
    alloc: Global,
    notes: &mut Notes,
    names: &mut Names,
    attributes: Attributes,
) -> Result<Option<Attributes>, NoMemory>
    ensures tag { IfOk result (λ named. IfSome named (λ kept. kept.tag ≡ attributes.tag)) }
    ensures keeps { IfOk result (λ named. Keeps notes.old.changes notes.new.changes nothing
        (rows_if named) (rows_load attributes.tag attributes.rows)) }
    ensures taken { IfOk result (λ named. MatchOption named (Takes names.old names.new [] [])
        (λ kept. Takes names.old names.new [] (option_to_list (name_among kept.rows)))) }
{
    let Some(name) = name_of_do(alloc, &attributes)? else {
        return Ok(Some(attributes));
    };
    if names.take(alloc, &name)? {
        do_with_other(alloc, notes, names, &attributes, &name)
    } else {
        Ok(Some(attributes))
    }
}

/// The attributes of an element whose name is told apart from those before, if there is one that
/// isn't taken.
pub(crate) fn told_apart(
    alloc: Global,
    notes: &mut Notes,
    names: &mut Names,
    attributes: Attributes,
) -> Result<Option<Attributes>, NoMemory>
    ensures tag { IfOk result (λ named. IfSome named (λ kept. kept.tag ≡ attributes.tag)) }
    ensures keeps { IfOk result (λ named. Keeps notes.old.changes notes.new.changes nothing
        (rows_if named) (rows_load attributes.tag attributes.rows)) }
    ensures taken { IfOk result (λ named. MatchOption named (Takes names.old names.new [] [])
        (λ kept. Takes names.old names.new [] (option_to_list (own_name_of kept)))) }
{
    if attributes.tag() == Tag::Do {
        do_attributes(alloc, notes, names, attributes)
    } else {
        Ok(Some(attributes))
    }
}
