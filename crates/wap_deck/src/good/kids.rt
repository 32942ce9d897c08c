//! The content of a node, child by child.
ghost use Rattle.std.specs.Prelude.{◌≡◌};
ghost use Rattle.wap_deck.specs.good.Readers.{all_of};
ghost use Rattle.wap_deck.specs.good.inside.Nodes.{item_at};
ghost use Rattle.wap_deck.specs.good.inside.Notes.{AreLent};

use crate::good::children::next_child;
use crate::good::notes::Note;
use crate::good::run::Run;
use crate::good::view::View;
use std::marker::Model;
use wap_base::Bytes;

/// The content of a node. A contract sees the items that are still to come.
#[derive(Drop)]
pub struct Kids<'a> {
    table: &'a Bytes,
    levels: u32,
    bytes: &'a [u8],
    notes: &'a [Note],
}

impl<'a> Model for Kids<'a> {
    ghost use Rattle.std.specs.Prelude.{List};
    ghost use Rattle.wap_tokens.specs.declared.markup.deck.Item.{Item};
    ghost use Rattle.std.specs.Coded.{codes};
    ghost use Rattle.wap_tokens.specs.contracts.markup.deck.Item as item;

    ghost Value = { List Item };

    ghost coded = { Prim.hlevel (codes, item.the_row.coded) };

    ghost use Rattle.wap_deck.specs.good.Readers.{all_of};
    ghost use Rattle.wap_deck.specs.good.inside.Nodes.{item_at};
    ghost use Rattle.wap_deck.specs.good.inside.Notes.{AreLent};

    ghost view = { λ kids. (all_of (item_at kids.table.now kids.levels) kids.bytes.now).0 };

    ghost invariant = { λ kids. AreLent kids.table.now kids.levels kids.bytes.now kids.notes.now };
}

/// A part of a node's content.
#[derive(Drop)]
pub enum Child<'a> {
    /// A text with at least one part, between nodes.
    Text(Run<'a>),
    /// A node, by a view of it.
    Node(View<'a>),
}

impl<'a> Kids<'a> {
    /// The children that bytes spell, nodes of so many levels at most.
    pub(crate) fn of(table: &'a Bytes, levels: u32, bytes: &'a [u8], notes: &'a [Note]) -> Kids<'a>
        requires { AreLent table.now levels bytes.now notes.now }
        ensures { result ≡ (all_of (item_at table.now levels) bytes.now).0 }
    {
        Kids {
            table,
            levels,
            bytes,
            notes,
        }
    }
}

impl<'a> Iterator for Kids<'a> {
    type Item = Child<'a>;

    ghost use Rattle.std.specs.Iterator.{YieldsFirstBy, item_count};
    ghost use Rattle.wap_deck.specs.good.Lent.{item_of};

    ghost next_gives = { YieldsFirstBy item_of (λ rest. rest) };

    ghost remaining = { item_count (λ rest. rest) };

    // Inlined, since a child takes many words to hand on.
    #[inline(always)]
    fn next(&mut self) -> Option<Child<'a>> {
        let (child, rest, left) = next_child(self.table, self.levels, self.bytes, self.notes)?;
        self.bytes = rest;
        self.notes = left;
        Some(child)
    }
}
