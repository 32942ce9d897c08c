//! Where the cards and the template of a deck begin in its bytes.
ghost use Rattle.std.specs.Prelude.{◌≡◌, ◌≤◌, ◌-◌, length, drop, IfOk};
ghost use Rattle.std.specs.List.{filter_map};
ghost use Rattle.wap_tokens.specs.markup.Trees.{node_with};
ghost use Rattle.wap_deck.specs.good.Lent.{item_of};
ghost use Rattle.wap_deck.specs.good.Readers.{all_of, IsBehind};
ghost use Rattle.wap_deck.specs.good.inside.Nodes.{item_at, front_node, IsRead};
ghost use Rattle.wap_deck.specs.good.inside.Notes.{AreNotes, AreLent};
ghost use Rattle.wap_deck.specs.good.inside.KeptBytes.{deck_in, IsHeld, StandAt, tagged, IsKept};

use crate::good::children::next_child;
use crate::good::hashes::hashes_of;
use crate::good::head::kids_begin;
use crate::good::kids::Child;
use crate::good::notes::{Note, notes_from, notes_left};
use crate::good::view::View;
use std::alloc::Global;
use wap_base::{Bytes, NoMemory, Rows};
use wap_tokens::markup::{Deck, LEVEL_LIMIT, Tag};

/// The child as a node of this tag, if it is one.
fn node_with(child: Child<'_>, tag: Tag) -> Option<View<'_>>
    ensures { result ≡ node_with tag (item_of child.entry) }
{
    match child {
        Child::Node(node) => { if node.tag() == tag { Some(node) } else { None } }
        Child::Text(_) => None,
    }
}

/// Where a node begins: its place among the bytes, and that of the first note from it on.
#[derive(Clone, Copy)]
pub struct Place {
    pub begin: usize,
    pub note: usize,
}

/// Where the cards of a deck begin, and its templates, of which a good deck has one at most.
#[derive(Drop)]
pub struct Cards {
    pub places: Rows<Place>,
    /// The hashes of the cards' ids.
    pub hashes: Rows<u32>,
    pub templates: Rows<Place>,
}

/// Where the nodes of a tag in a content begin, in the bytes that end with it.
fn places_in(
    alloc: Global,
    table: &Bytes,
    bytes: &[u8],
    notes: &[Note],
    content: &[u8],
    tag: Tag,
) -> Result<Rows<Place>, NoMemory>
    requires behind { IsBehind content.now bytes.now }
    requires lent { AreLent table.now (LEVEL_LIMIT - 1) content.now notes.now }
    ensures { let items = (all_of (item_at table.now (LEVEL_LIMIT - 1)) content.now).0 in
        let nodes = filter_map (node_with tag) items in
        IfOk result (λ places. StandAt table.now bytes.now places nodes) }
{
    let mut places = Rows::new(alloc);
    let mut rest = content;
    let mut left = notes_left(notes, rest);
    while let Some((child, behind, _)) = next_child(table, LEVEL_LIMIT - 1, rest, left) {
        if node_with(child, tag).is_some() {
            let begin = bytes.len() - rest.len();
            let note = notes.len().saturating_sub(left.len());
            places.add(Place { begin, note })?;
        }
        rest = behind;
        left = notes_left(left, rest);
    }
    Ok(places)
}

/// Where the nodes of a tag in the root of a deck begin.
fn places_of(
    alloc: Global,
    table: &Bytes,
    root: usize,
    bytes: &[u8],
    notes: &[Note],
    tag: Tag,
) -> Result<Rows<Place>, NoMemory>
    requires held { IsHeld table.now root bytes.now }
    requires noted { AreNotes bytes.now notes.now }
    ensures { let nodes = tagged tag (deck_in table.now root bytes.now) in
        IfOk result (λ places. StandAt table.now bytes.now places nodes) }
{
    let content = kids_begin(&bytes[root..]);
    places_in(alloc, table, bytes, notes, content, tag)
}

/// Where the cards and the templates of the deck begin.
pub(crate) fn card_places(
    alloc: Global,
    table: &Bytes,
    root: usize,
    bytes: &[u8],
    notes: &[Note],
    deck: &Deck,
) -> Result<Cards, NoMemory>
    requires held { IsHeld table.now root bytes.now }
    requires noted { AreNotes bytes.now notes.now }
    requires same { deck_in table.now root bytes.now ≡ deck.now }
    ensures { IfOk result (λ cards. IsKept table.now root bytes.now cards notes.now) }
{
    let places = places_of(alloc, table, root, bytes, notes, Tag::Card)?;
    let templates = places_of(alloc, table, root, bytes, notes, Tag::Template)?;
    let hashes = hashes_of(alloc, deck)?;
    Ok(Cards {
        places,
        hashes,
        templates,
    })
}

/// The view of the node in the root's content that begins at a place.
pub(crate) fn view_at<'a>(
    table: &'a Bytes,
    bytes: &'a [u8],
    notes: &'a [Note],
    place: Place,
) -> View<'a>
    requires within { place.begin ≤ length bytes.now }
    requires read { IsRead table.now (LEVEL_LIMIT - 1) (drop place.begin bytes.now) }
    requires noted { AreNotes bytes.now notes.now }
    ensures { result ≡ front_node table.now (LEVEL_LIMIT - 1) (drop place.begin bytes.now) }
{
    let notes = notes_from(notes, place.note);
    View::of(table, LEVEL_LIMIT - 1, &bytes[place.begin..], notes)
}
