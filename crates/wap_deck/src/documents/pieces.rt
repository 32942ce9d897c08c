//! Parts of values and texts.
ghost use Rattle.std.specs.Prelude.{◌≡◌, [], ◌∷◌, ◌++◌, IfOk, OnOk};
ghost use Rattle.wap_tokens.specs.markup.Decks.{literal, character, reference, before};
ghost use Rattle.wap_tokens.specs.markup.Decks.{piece_part, value_after};
ghost use Rattle.wap_tokens.specs.declared.markup.document.Piece.TheVariants.{Code};
ghost use Rattle.wap_deck.specs.documents.Adding.{part_added, any_added};
ghost use Rattle.std.specs.Str.{chars};

use crate::documents::room::rows_for;
use std::alloc::Global;
use wap_base::{Conv, Name, NameFault, NoMemory, Part, Rows, Text};
use wap_tokens::attr_value;

/// A literal, if it has a character.
pub fn literal(text: Text) -> Option<Part>
    ensures { result ≡ literal text }
{
    if text.is_empty() {
        None
    } else {
        Some(Part::Lit(text))
    }
}

/// A character by its number.
pub fn character(alloc: Global, number: u32) -> Result<Option<Part>, NoMemory>
    ensures { IfOk result (λ part. part ≡ character number) }
{
    let Some(character) = char::from_u32(number) else {
        return Ok(None);
    };
    let mut text = Text::new(alloc);
    text.push(character)?;
    Ok(Some(Part::Lit(text)))
}

/// A reference to a variable, if its name is one.
pub fn reference(alloc: Global, name: &Text, conv: Conv) -> Result<Option<Part>, NoMemory>
    ensures { IfOk result (λ part. part ≡ reference name.now conv) }
{
    match Name::of(alloc, name) {
        Ok(name) => Ok(Some(Part::Var(name, conv))),
        Err(NameFault::BadName) => Ok(None),
        Err(NameFault::NoMemory) => Err(NoMemory),
    }
}

/// A part that a code stands for, if it has a text.
pub fn decode_part(alloc: Global, page: u8, code: u8) -> Result<Option<Part>, NoMemory>
    ensures { IfOk result (λ part. part ≡ piece_part (Code page code)) }
{
    match attr_value(page, code) {
        Some(text) => Ok(literal(Text::of(alloc, text)?)),
        None => Ok(None),
    }
}

/// Adds two parts at the end.
fn add_both(parts: &mut Rows<Part>, first: Part, second: Part) -> Result<(), NoMemory>
    ensures { OnOk result (parts.new ≡ parts.old ++ first ∷ second ∷ []) }
{
    parts.add(first)?;
    parts.add(second)
}

/// Adds a literal and then a part, as one literal if that is one too.
fn add_after(parts: &mut Rows<Part>, mut text: Text, part: Part) -> Result<(), NoMemory>
    ensures { OnOk result (parts.new ≡ parts.old ++ before (Part.Lit text) (part ∷ [])) }
{
    match part {
        Part::Lit(more) => {
            text.add(more.as_str())?;
            parts.add(Part::Lit(text))
        }
        Part::Var(name, conv) => add_both(parts, Part::Lit(text), Part::Var(name, conv)),
    }
}

/// Adds a part at the end. A literal joins one that it follows.
#[tactic(auto, using(crate::proofs::DocumentsLemmas::Joining::part_added_last))]
pub(crate) fn add_part(parts: &mut Rows<Part>, part: Part) -> Result<(), NoMemory>
    ensures { OnOk result (parts.new ≡ part_added parts.old part) }
{
    match parts.pop() {
        Some(Part::Lit(text)) => add_after(parts, text, part),
        Some(Part::Var(name, conv)) => add_both(parts, Part::Var(name, conv), part),
        None => parts.add(part),
    }
}

/// Adds a part at the end, if there is one.
pub fn add_any(parts: &mut Rows<Part>, part: Option<Part>) -> Result<(), NoMemory>
    ensures { OnOk result (parts.new ≡ any_added parts.old part) }
{
    match part {
        Some(part) => add_part(parts, part),
        None => Ok(()),
    }
}

/// The beginning of a value, with this text, and room for a part.
pub fn begin_value(alloc: Global, text: &str) -> Result<Rows<Part>, NoMemory>
    ensures { IfOk result (λ value. value ≡ value_after (chars text.now) []) }
{
    let mut value = rows_for(alloc, 1)?;
    if let Some(part) = literal(Text::of(alloc, text)?) {
        value.add(part)?;
    }
    Ok(value)
}
