//! Tags, and texts that are added to content.
ghost use Rattle.std.specs.Prelude.{◌≡◌, [], ◌∷◌, ◌++◌, IfOk, OnOk};
ghost use Rattle.wap_base.specs.declared.name.Part.{Part};
ghost use Rattle.wap_tokens.specs.markup.Decks.{tag_in, part_marks};
ghost use Rattle.wap_deck.specs.documents.Adding.{part_added, part_after, marks_after};

use crate::documents::pieces::add_part;
use crate::documents::room::rows_for;
use std::alloc::Global;
use wap_base::{NoMemory, Part, Rows};
use wap_tokens::markup::{Item, Tag, Token};
use wap_tokens::{tag_named, tag_of};

/// The tag of a token, if it is known.
pub fn tag_in(page: u8, token: &Token) -> Option<Tag>
    ensures { result ≡ tag_in page token.now }
{
    match token {
        Token::Code(code) => tag_of(page, *code),
        Token::Literal(name) => tag_named(name),
    }
}

/// A text that goes on, or a new one after a node. What is said is what items with one part more
/// are.
fn text_from(alloc: Global, last: Item, items: &mut Rows<Item>) -> Result<Rows<Part>, NoMemory>
    ensures { IfOk result (λ parts. (more : Part) → items.old ++ part_after (last ∷ []) more
        ≡ items.new ++ Item.Text (part_added parts more) ∷ []) }
{
    match last {
        Item::Text(parts) => Ok(parts),
        Item::Node(node) => {
            items.add(Item::Node(node))?;
            Ok(rows_for(alloc, 1)?)
        }
    }
}

/// Takes the text at the end of items off, or begins one. What is said is what items with one part
/// more are.
fn last_text(alloc: Global, items: &mut Rows<Item>) -> Result<Rows<Part>, NoMemory>
    ensures { IfOk result (λ parts. (more : Part) →
        part_after items.old more ≡ items.new ++ Item.Text (part_added parts more) ∷ []) }
{
    match items.pop() {
        Some(last) => Ok(text_from(alloc, last, items)?),
        None => Ok(rows_for(alloc, 1)?),
    }
}

/// Adds a part of a text, if there is one. It joins a text that it follows.
pub fn add_text(alloc: Global, part: Option<Part>, items: &mut Rows<Item>) -> Result<(), NoMemory>
    ensures { OnOk result (items.new ≡ marks_after items.old (part_marks part)) }
{
    let Some(part) = part else {
        return Ok(());
    };
    let mut parts = last_text(alloc, items)?;
    add_part(&mut parts, part)?;
    items.add(Item::Text(parts))
}
