//! The walk over an element of the deck that was given, in the order of the document. Each element,
//! and each text, is put where it may stand.
ghost use Rattle.std.specs.Prelude.{◌≡◌, ◌≢◌, ◌<◌, ◌∷◌, [], suc, true, false, IfOk, OnOk};
ghost use Rattle.std.specs.Prelude.{IfSome, MatchOption};
ghost use Rattle.std.specs.Option.{is_some};
ghost use Rattle.std.specs.List.{AllByRecursion};
ghost use Rattle.wap_tokens.specs.declared.markup.deck.Item.{out-Item};
ghost use Rattle.wap_tokens.specs.markup.Normal.{IsNode, IsItem};
ghost use Rattle.wap_tokens.specs.markup.Good.{holds_dos};
ghost use Rattle.wap_deckcheck.specs.Places.{names_among};
ghost use Rattle.wap_mend.specs.Accounts.{is_paragraph};
ghost use Rattle.wap_mend.specs.inside.Names.{Takes};
ghost use Rattle.wap_mend.specs.inside.Frames.{nothing, load_if, given_items, given_node};
ghost use Rattle.wap_mend.specs.inside.Frames.{Keeps, Moves, Puts};

use crate::apart::told_apart;
use crate::attributes::mended_attributes;
use crate::change::{Lost, What};
use crate::content::Element;
use crate::frame::{Frame, Place};
use crate::kept::Attributes;
use crate::names::Names;
use crate::needs::is_whole;
use crate::notes::Notes;
use std::alloc::Global;
use wap_base::NoMemory;
use wap_tokens::markup::{Item, LEVEL_LIMIT, Node, Tag};

/// Puts items of so many levels into an element.
#[cycle(walk)]
fn put_items(
    alloc: Global,
    notes: &mut Notes,
    names: &mut Names,
    levels: u32,
    items: &[Item],
    frame: &mut Frame,
) -> Result<(), NoMemory>
    requires { AllByRecursion (λ item. IsItem (IsNode levels) (out-Item item)) items.now }
    ensures { OnOk result (Puts names.old names.new notes.old.changes notes.new.changes
        frame.old frame.new (given_items levels items.now)) }
{
    for (number, item) in items.iter().enumerate() {
        notes.path.add(number)?;
        put_item(alloc, notes, names, levels, item, frame)?;
        notes.path.pop();
    }
    Ok(())
}

/// Puts an item of so many levels into an element.
#[cycle(walk)]
fn put_item(
    alloc: Global,
    notes: &mut Notes,
    names: &mut Names,
    levels: u32,
    item: &Item,
    frame: &mut Frame,
) -> Result<(), NoMemory>
    requires { IsItem (IsNode levels) (out-Item item.now) }
    ensures { OnOk result (Puts names.old names.new notes.old.changes notes.new.changes
        frame.old frame.new (given_items levels (item.now ∷ []))) }
{
    match item {
        Item::Text(parts) => frame.add_text(alloc, notes, parts.as_slice()),
        Item::Node(node) => put_node(alloc, notes, names, levels, node, frame),
    }
}

/// Puts an element of so many levels into another: it stands there, as or in a paragraph if need be
/// (rule 3), or what is in it takes its place (rule 2).
#[cycle(walk)]
fn put_node(
    alloc: Global,
    notes: &mut Notes,
    names: &mut Names,
    levels: u32,
    node: &Node,
    frame: &mut Frame,
) -> Result<(), NoMemory>
    requires { IsNode levels node.now }
    ensures { OnOk result (Puts names.old names.new notes.old.changes notes.new.changes
        frame.old frame.new (given_node levels node.now)) }
{
    let place = frame.place_of(node.tag);
    match place {
        Place::Nowhere => {
            notes.note_opened(alloc, What::Opened(node.tag), node)?;
            let kids = node.kids.as_slice();
            put_items(alloc, notes, names, levels - 1, kids, frame)
        }
        Place::Paragraph => put_paragraph(alloc, notes, names, levels, node, frame),
        Place::Group | Place::Run => {
            put_element(alloc, notes, names, levels, node, place, frame)
        }
    }
}

/// Puts a paragraph of so many levels into an element. It ends the one in which it stands (rule 3).
#[cycle(walk)]
fn put_paragraph(
    alloc: Global,
    notes: &mut Notes,
    names: &mut Names,
    levels: u32,
    node: &Node,
    frame: &mut Frame,
) -> Result<(), NoMemory>
    requires normal { IsNode levels node.now }
    requires paragraph { is_paragraph node.now.tag ≡ true }
    ensures { OnOk result (Puts names.old names.new notes.old.changes notes.new.changes
        frame.old frame.new (given_node levels node.now)) }
{
    let attributes = mended_attributes(alloc, notes, node.tag, node)?;
    let outer = frame.enter(alloc, notes, attributes)?;
    let kids = node.kids.as_slice();
    put_items(alloc, notes, names, levels - 1, kids, frame)?;
    frame.leave(alloc, notes, outer)
}

/// Puts an element of so many levels where it may stand: if it has what it can't do without (rule
/// 5), and there is none of its sort of which there may be one (rules 6 and 7).
#[cycle(walk)]
fn put_element(
    alloc: Global,
    notes: &mut Notes,
    names: &mut Names,
    levels: u32,
    node: &Node,
    place: Place,
    frame: &mut Frame,
) -> Result<(), NoMemory>
    requires normal { IsNode levels node.now }
    requires known { node.now.tag ≢ Tag.Other }
    requires inner { holds_dos node.now.tag ≡ false }
    requires run { place ≡ Place.Run → frame.old.rule.in_order ≡ true }
    ensures { OnOk result (Puts names.old names.new notes.old.changes notes.new.changes
        frame.old frame.new (given_node levels node.now)) }
{
    let kids = node.kids.as_slice();
    if !is_whole(alloc, levels, node)? {
        notes.note_opened(alloc, What::Lacking(node.tag), node)?;
        return put_items(alloc, notes, names, levels - 1, kids, frame);
    }
    if frame.is_second(place, node.tag) {
        return notes.note_lost(
            alloc,
            What::Second(node.tag),
            Lost::of_node(alloc, levels, node)?,
        );
    }
    let room = frame.room_at(place);
    if room == 0 {
        notes.note_opened(alloc, What::Opened(node.tag), node)?;
        return put_items(alloc, notes, names, levels - 1, kids, frame);
    }
    frame.prepare(alloc, notes, place)?;
    match made_with_name(alloc, notes, names, levels, node, room - 1)? {
        Some(element) => frame.add(alloc, notes, place, element),
        None => Ok(()),
    }
}

/// An element of so many levels, its name told apart from those before, put together with room for
/// so many levels.
#[cycle(walk)]
fn made_with_name(
    alloc: Global,
    notes: &mut Notes,
    names: &mut Names,
    levels: u32,
    node: &Node,
    room: u32,
) -> Result<Option<Element>, NoMemory>
    requires normal { IsNode levels node.now }
    requires known { node.now.tag ≢ Tag.Other }
    requires inner { holds_dos node.now.tag ≡ false }
    requires room { room < LEVEL_LIMIT }
    ensures { IfOk result (λ made. Moves names.old names.new notes.old.changes notes.new.changes
        nothing (load_if made) (given_node levels node.now)) }
{
    let attributes = mended_attributes(alloc, notes, node.tag, node)?;
    match told_apart(alloc, notes, names, attributes)? {
        Some(attributes) => made(alloc, notes, names, levels, node, attributes, room),
        None => {
            let lost = Lost::of_bare(alloc, levels, node)?;
            notes.note_lost(alloc, What::Gone(node.tag), lost)?;
            Ok(None)
        }
    }
}

/// An element of so many levels, put together by its rule, with these attributes and room for so
/// many levels.
#[cycle(walk)]
pub(crate) fn made(
    alloc: Global,
    notes: &mut Notes,
    names: &mut Names,
    levels: u32,
    node: &Node,
    attributes: Attributes,
    room: u32,
) -> Result<Option<Element>, NoMemory>
    requires normal { IsNode levels node.now }
    requires tag { attributes.tag ≡ node.now.tag }
    requires known { node.now.tag ≢ Tag.Other }
    requires apart { holds_dos attributes.tag ≡ true → names.old ≡ [] }
    requires room { room < LEVEL_LIMIT }
    ensures same { IfOk result (λ made. IfSome made (λ element. (element.levels ≡ suc room)
        × (element.node.tag ≡ attributes.tag) × (element.node.attrs ≡ attributes.rows))) }
    ensures card { IfOk result (λ made. attributes.tag ≡ Tag.Card → is_some made ≡ true) }
    ensures taken { IfOk result (λ made. MatchOption made (Takes names.old names.new [] [])
        (λ element. Takes names.old names.new []
        (names_among true element.levels element.node.kids))) }
    ensures keeps { IfOk result (λ made. Keeps notes.old.changes notes.new.changes nothing
        (load_if made) (given_node levels (record node.now { attrs = attributes.rows }))) }
{
    let mut frame = Frame::new(alloc, attributes.tag(), room);
    let kids = node.kids.as_slice();
    put_items(alloc, notes, names, levels - 1, kids, &mut frame)?;
    let content = frame.close(alloc, notes)?;
    match Element::of(attributes, content) {
        Ok(element) => Ok(Some(element)),
        Err(node) => {
            let lost = Lost::of_node(alloc, room + 1, &node)?;
            notes.note_lost(alloc, What::Gone(node.tag), lost)?;
            Ok(None)
        }
    }
}
