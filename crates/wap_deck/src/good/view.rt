//! Nodes of a good deck.
ghost use Rattle.std.specs.Prelude.{◌≡◌, ◌≤◌, length};
ghost use Rattle.wap_tokens.specs.markup.Trees.{value_of};
ghost use Rattle.wap_deck.specs.good.inside.Nodes.{front_node};
ghost use Rattle.wap_deck.specs.good.inside.Notes.{IsLent, IsHead};

use crate::good::attrs::find_attr;
use crate::good::front::first;
use crate::good::heads::{content_of, known_at, lacks};
use crate::good::kids::Kids;
use crate::good::notes::{Known, Note, own_note};
use crate::good::run::Run;
use std::marker::Model;
use wap_base::Bytes;
use wap_tokens::markup::{AttrName, Tag};
use wap_tokens::tag_of;
use wap_wbxml::has_attributes;

/// A node of a good deck. A contract sees that node. What it lends lives as long as the deck is
/// lent.
#[derive(Drop)]
pub struct View<'a> {
    table: &'a Bytes,
    bytes: &'a [u8],
    /// Those of the nodes in it and behind it.
    notes: &'a [Note],
    /// So many levels it has at most.
    levels: u32,
    known: Known,
}

impl<'a> Model for View<'a> {
    ghost use Rattle.wap_tokens.specs.declared.markup.deck.Node.{Node};
    ghost use Rattle.std.specs.Coded.{codes};
    ghost use Rattle.wap_tokens.specs.contracts.markup.deck.Item as item;

    ghost Value = { Node };

    ghost coded = { Prim.hlevel (codes, item.the_row.coded) };

    ghost use Rattle.wap_deck.specs.good.inside.Nodes.{front_node};
    ghost use Rattle.wap_deck.specs.good.inside.Notes.{IsSeen};

    ghost view = { λ view. front_node view.table.now view.levels view.bytes.now };

    ghost invariant = { λ view. IsSeen view.table.now view.levels view.bytes.now view.notes.now
        view.known.names view.known.head };
}

impl<'a> View<'a> {
    /// The view of the node that bytes begin with; the notes are true of the bytes.
    pub(crate) fn of(table: &'a Bytes, levels: u32, bytes: &'a [u8], notes: &'a [Note]) -> View<'a>
        requires { IsLent table.now levels bytes.now notes.now }
        ensures { result ≡ front_node table.now levels bytes.now }
    {
        match own_note(notes, bytes) {
            Some((note, inside)) => View::from_note(table, levels, bytes, note, inside),
            None => View::without_note(table, levels, bytes, notes),
        }
    }

    /// The same by the node's own note; the notes are those behind it.
    #[inline(always)]
    pub(crate) fn from_note(
        table: &'a Bytes,
        levels: u32,
        bytes: &'a [u8],
        note: &Note,
        notes: &'a [Note],
    ) -> View<'a>
        requires lent { IsLent table.now levels bytes.now notes.now }
        requires head { IsHead bytes.now note.now.known.names note.now.known.head }
        ensures { result ≡ front_node table.now levels bytes.now }
    {
        View {
            table,
            bytes,
            notes,
            levels,
            known: note.known,
        }
    }

    /// The same of a node that has no note.
    #[inline(always)]
    pub(crate) fn without_note(
        table: &'a Bytes,
        levels: u32,
        bytes: &'a [u8],
        notes: &'a [Note],
    ) -> View<'a>
        requires { IsLent table.now levels bytes.now notes.now }
        ensures { result ≡ front_node table.now levels bytes.now }
    {
        View {
            table,
            bytes,
            notes,
            levels,
            known: known_at(bytes),
        }
    }

    /// The same view once more.
    pub fn again(&self) -> View<'a>
        ensures { result ≡ self.now }
    {
        View {
            table: self.table,
            levels: self.levels,
            bytes: self.bytes,
            notes: self.notes,
            known: self.known,
        }
    }

    /// Its tag; that of a good deck's node is never `Tag::Other`.
    pub fn tag(&self) -> Tag
        ensures { result ≡ self.now.tag }
    {
        match first(self.bytes) {
            Some((mark, _)) => tag_of(0, mark % 64).unwrap_or(Tag::Other),
            None => Tag::Other,
        }
    }

    /// The value of the first attribute of that name.
    // Inlined, so that an attribute which isn't there takes no call.
    #[inline(always)]
    pub fn attr(&self, name: AttrName) -> Option<Run<'a>>
        ensures { result ≡ value_of name self.now }
    {
        if lacks(self.known.names, name) {
            return None;
        }
        self.value(name)
    }

    /// The same, found among the attributes.
    // Inlined, so that only an attribute which may be there takes room for a run.
    #[inline(always)]
    fn value(&self, name: AttrName) -> Option<Run<'a>>
        ensures { result ≡ value_of name self.now }
    {
        let (mark, attrs) = first(self.bytes)?;
        if !has_attributes(mark) {
            return None;
        }
        find_attr(self.table, name, attrs)
    }

    /// The content, in the order of the document.
    pub fn kids(&self) -> Kids<'a>
        ensures kids { result ≡ self.now.kids }
        ensures few { length self.now.kids ≤ usize.MAX }
    {
        let bytes = content_of(self.known.head, self.bytes);
        let _few = bytes.len();
        Kids::of(self.table, self.levels.saturating_sub(1), bytes, self.notes)
    }
}
