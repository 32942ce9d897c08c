//! The walk over the root of the deck that was given: what may stand there is put together by
//! itself.
ghost use Rattle.std.specs.Prelude.{◌≡◌, [], ◌∷◌, Some, None, Ok, IfOk, IfSome, OnOk};
ghost use Rattle.std.specs.List.{filter_map, AllByRecursion};
ghost use Rattle.std.specs.Option.{option_to_list};
ghost use Rattle.wap_tokens.specs.declared.markup.deck.Item.{out-Item};
ghost use Rattle.wap_tokens.specs.markup.Trees.{if_tagged, node_with};
ghost use Rattle.wap_tokens.specs.markup.Cards.{cards_of};
ghost use Rattle.wap_tokens.specs.markup.Normal.{IsItem, IsNode, IsNormal};
ghost use Rattle.wap_tokens.specs.markup.Good.{IsGood};
ghost use Rattle.wap_mend.specs.Accounts.{IsMadeOf};
ghost use Rattle.wap_mend.specs.inside.Frames.{given_items, given_node, IsStill, Keeps};
ghost use Rattle.wap_mend.specs.inside.Tops.{AreTaken, Gathers, load_top};

use crate::attributes::mended_attributes;
use crate::change::{Lost, What};
use crate::content::Element;
use crate::elements::made;
use crate::names::Names;
use crate::needs::is_whole;
use crate::notes::Notes;
use crate::top::Top;
use std::alloc::Global;
use wap_base::NoMemory;
use wap_deckcheck::is_blank_text;
use wap_tokens::markup::{Deck, Item, LEVEL_LIMIT, Node, Tag};

/// Puts items of so many levels into the root.
#[cycle(root)]
fn put_items(
    alloc: Global,
    notes: &mut Notes,
    levels: u32,
    items: &[Item],
    top: &mut Top,
) -> Result<(), NoMemory>
    requires normal { AllByRecursion (λ item. IsItem (IsNode levels) (out-Item item)) items.now }
    requires taken { AreTaken top.old None }
    ensures gathers { OnOk result
        (Gathers top.old top.new (filter_map (node_with Tag.Card) items.now)) }
    ensures keeps { OnOk result (Keeps notes.old.changes notes.new.changes
        (load_top top.old) (load_top top.new) (given_items levels items.now)) }
{
    for (number, item) in items.iter().enumerate() {
        notes.path.add(number)?;
        put_item(alloc, notes, levels, item, top)?;
        notes.path.pop();
    }
    Ok(())
}

/// Puts an item of so many levels into the root. A text may not stand there (rule 2).
#[cycle(root)]
fn put_item(
    alloc: Global,
    notes: &mut Notes,
    levels: u32,
    item: &Item,
    top: &mut Top,
) -> Result<(), NoMemory>
    requires normal { IsItem (IsNode levels) (out-Item item.now) }
    requires taken { AreTaken top.old None }
    ensures gathers { OnOk result
        (Gathers top.old top.new (option_to_list (node_with Tag.Card item.now))) }
    ensures keeps { OnOk result (Keeps notes.old.changes notes.new.changes
        (load_top top.old) (load_top top.new) (given_items levels (item.now ∷ []))) }
{
    match item {
        Item::Text(parts) if is_blank_text(parts.as_slice()) => Ok(()),
        Item::Text(parts) => {
            notes.note_lost(alloc, What::Text, Lost::of_text(alloc, parts.as_slice())?)
        }
        Item::Node(node) => put_node(alloc, notes, levels, node, top),
    }
}

/// Puts an element of so many levels into the root: it stands there, or what is in it takes its
/// place (rule 2).
#[cycle(root)]
fn put_node(
    alloc: Global,
    notes: &mut Notes,
    levels: u32,
    node: &Node,
    top: &mut Top,
) -> Result<(), NoMemory>
    requires normal { IsNode levels node.now }
    requires taken { AreTaken top.old None }
    ensures gathers { OnOk result
        (Gathers top.old top.new (option_to_list (if_tagged Tag.Card (Some node.now)))) }
    ensures keeps { OnOk result (Keeps notes.old.changes notes.new.changes
        (load_top top.old) (load_top top.new) (given_node levels node.now)) }
{
    match node.tag {
        Tag::Head | Tag::Template | Tag::Card => put_element(alloc, notes, levels, node, top),
        _ => {
            notes.note_opened(alloc, What::Opened(node.tag), node)?;
            put_items(alloc, notes, levels - 1, node.kids.as_slice(), top)
        }
    }
}

/// Puts an element that may stand in the root there: if it has what it can't do without (rule 5),
/// and there is none of its sort of which there may be one (rule 7).
#[cycle(root)]
fn put_element(
    alloc: Global,
    notes: &mut Notes,
    levels: u32,
    node: &Node,
    top: &mut Top,
) -> Result<(), NoMemory>
    requires normal { IsNode levels node.now }
    requires taken { AreTaken top.old None }
    ensures gathers { OnOk result
        (Gathers top.old top.new (option_to_list (if_tagged Tag.Card (Some node.now)))) }
    ensures keeps { OnOk result (Keeps notes.old.changes notes.new.changes
        (load_top top.old) (load_top top.new) (given_node levels node.now)) }
{
    if !is_whole(alloc, levels, node)? {
        notes.note_opened(alloc, What::Lacking(node.tag), node)?;
        return put_items(alloc, notes, levels - 1, node.kids.as_slice(), top);
    }
    if top.is_second(node.tag) {
        return notes.note_lost(
            alloc,
            What::Second(node.tag),
            Lost::of_node(alloc, levels, node)?,
        );
    }
    let attributes = mended_attributes(alloc, notes, node.tag, node)?;
    let attributes = top.told_apart(alloc, notes, attributes)?;
    let mut names = Names::new(alloc);
    let room = LEVEL_LIMIT - 2;
    match made(alloc, notes, &mut names, levels, node, attributes, room)? {
        Some(element) => top.add(alloc, notes, element),
        None => Ok(()),
    }
}

/// Notes a root that isn't wml.
fn note_root(alloc: Global, notes: &mut Notes, tag: Tag) -> Result<(), NoMemory>
    ensures { OnOk result (IsStill notes.old.changes notes.new.changes) }
{
    if tag != Tag::Wml {
        return notes.note(alloc, What::Root(tag));
    }
    Ok(())
}

/// The deck with the root put together by the rule of wml, if there is a card.
pub(crate) fn made_deck(
    alloc: Global,
    notes: &mut Notes,
    deck: &Deck,
) -> Result<Option<Deck>, NoMemory>
    requires normal { IsNormal deck.now }
    requires fresh { notes.old.changes ≡ [] }
    ensures normal { IfOk result (λ made. IfSome made IsNormal) }
    ensures good { IfOk result (λ made. IfSome made IsGood) }
    ensures made_of { IfOk result (λ made. IfSome made (IsMadeOf deck.now notes.new.changes)) }
    ensures none { result ≡ Ok None → cards_of deck.now ≡ [] }
{
    let root = &deck.root;
    note_root(alloc, notes, root.tag)?;
    let attributes = mended_attributes(alloc, notes, Tag::Wml, root)?;
    let mut top = Top::new(alloc);
    put_items(
        alloc,
        notes,
        LEVEL_LIMIT - 1,
        root.kids.as_slice(),
        &mut top,
    )?;
    if top.is_empty() {
        return Ok(None);
    }
    let content = top.close(alloc)?;
    match Element::of(attributes, content) {
        Ok(element) => Ok(Some(Deck {
            root: element.into_node(),
        })),
        Err(_) => Ok(None),
    }
}
