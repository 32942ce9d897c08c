//! Good decks.
ghost use Rattle.std.specs.Prelude.{◌≡◌, ◌≤◌, ◌-◌, length, slice_get, Ok, IfOk, IfErr, OnOk};
ghost use Rattle.std.specs.Option.{option_and_then};
ghost use Rattle.wap_base.specs.Numbers.{mb_at};
ghost use Rattle.wap_tokens.specs.markup.Writing.{document_of};
ghost use Rattle.wap_wbxml.specs.spelling.Characters.{OfNode};
ghost use Rattle.wap_wbxml.specs.spelling.Spelling.{spelling};
ghost use Rattle.wap_wbxml.specs.spelling.Spellable.{IsSpellable};
ghost use Rattle.wap_tokens.specs.markup.Cards.{cards_of, id_of, card_numbered};
ghost use Rattle.wap_tokens.specs.markup.Trees.{is_text, first_with};
ghost use Rattle.wap_tokens.specs.markup.Good.{IsGood};
ghost use Rattle.wap_tokens.specs.markup.Normal.{IsNormal};
ghost use Rattle.wap_deck.specs.declared.good.laws.TheConstants.{HEADER_LENGTH};
ghost use Rattle.wap_deck.specs.good.inside.Header.{HasTable};
ghost use Rattle.wap_deck.specs.good.inside.Hashes.{hash_of};

use crate::good::cards::{Cards, card_places, view_at};
use crate::good::hashes::hash_of;
use crate::good::laws::{HEADER_LENGTH, decks_are_read};
use crate::good::notes::{Note, notes_of};
use crate::good::view::View;
use crate::reading::read_deck;
use crate::writing::spell;
use std::alloc::Global;
use std::marker::Model;
use wap_base::{Bytes, NoMemory, Rows, Text, read_mb};
use wap_tokens::markup::{AttrName, Deck, LEVEL_LIMIT, Tag};
use wap_wbxml::DocFault;
use wap_wbxml::spelling::{decks_are_spellable, spelling_is_read};

/// A good deck (WAP-191, section 11), kept as the bytes that spell its document. A contract sees
/// the deck.
#[derive(Drop)]
pub struct GoodDeck {
    bytes: Bytes,
    /// The string table once more, so that a view has it by one word.
    table: Bytes,
    /// Where the root begins in the bytes.
    root: usize,
    /// Where each card begins, the hashes of their ids, and where the template begins.
    cards: Cards,
    /// Where nodes end, and what they begin with.
    notes: Rows<Note>,
}

impl Model for GoodDeck {
    ghost use Rattle.wap_tokens.specs.declared.markup.deck.Deck.{Deck};
    ghost use Rattle.wap_tokens.specs.contracts.markup.deck.Item as item;
    ghost use Rattle.std.specs.Coded.{codes};

    ghost Value = { Deck };

    ghost coded = { Prim.hlevel (codes, item.the_row.coded) };

    ghost use Rattle.wap_deck.specs.good.inside.KeptBytes.{deck_in, IsKept};

    ghost view = { λ good. deck_in good.table good.root good.bytes };

    ghost invariant = { λ good. IsKept good.table good.root good.bytes good.cards good.notes };
}

/// Where the string table and the root begin in a document in WML 1.3 and UTF-8.
fn places(bytes: &[u8]) -> (usize, usize)
    requires { HasTable bytes.now }
    ensures table { result.0 ≤ result.1 }
    ensures root { result.1 ≤ length bytes.now }
    ensures exact { mb_at bytes.now HEADER_LENGTH ≡ Ok (result.1 - result.0, result.0) }
{
    match read_mb(bytes, HEADER_LENGTH) {
        Ok((count, table)) => (table, table + count as usize),
        Err(_) => unreachable!(),
    }
}

/// The bytes that spell a deck's document, in no more memory than they take.
fn spelled(alloc: Global, deck: &Deck) -> Result<Bytes, NoMemory>
    requires { IsSpellable (document_of deck.now) }
    ensures spelled { IfOk result (λ bytes. bytes ≡ spelling (document_of deck.now)) }
    ensures characters { OnOk result (OfNode LEVEL_LIMIT deck.now.root) }
{
    let mut bytes = spell(alloc, deck)?.into_vec();
    bytes.shrink_to_fit();
    Ok(Bytes::from_vec(bytes))
}

/// Keeps the deck as bytes.
fn keep(alloc: Global, deck: &Deck) -> Result<GoodDeck, NoMemory>
    requires good { IsGood deck.now }
    requires normal { IsNormal deck.now }
    ensures { IfOk result (λ good. good ≡ deck.now) }
{
    decks_are_spellable();
    decks_are_read();
    let bytes = spelled(alloc, deck)?;
    let whole = bytes.as_slice();
    let (table, root) = places(whole);
    let names = Bytes::of(alloc, &whole[table..root])?;
    let notes = notes_of(alloc, whole, root)?;
    let cards = card_places(alloc, &names, root, whole, notes.as_slice(), deck)?;
    Ok(GoodDeck {
        bytes,
        table: names,
        root,
        cards,
        notes,
    })
}

/// Whether a card has this id.
fn has_id(card: &View<'_>, id: &Text) -> bool
    ensures { result ≡ is_text id.now (id_of card.now) }
{
    match card.attr(AttrName::Id) {
        Some(value) => value.is_text(id),
        None => false,
    }
}

impl GoodDeck {
    /// The deck, to be read through views. Where memory runs out it comes back.
    pub fn new(alloc: Global, deck: Deck) -> Result<GoodDeck, (Deck, NoMemory)>
        requires good { IsGood deck }
        requires normal { IsNormal deck }
        ensures same { IfOk result (λ good. good ≡ deck) }
        ensures back { IfErr result (λ refused. refused.0 ≡ deck) }
    {
        match keep(alloc, &deck) {
            Ok(good) => Ok(good),
            Err(error) => Err((deck, error)),
        }
    }

    /// The bytes that spell the deck's document.
    pub fn bytes(&self) -> &[u8]
        ensures { result.now ≡ spelling (document_of self.now) }
    {
        self.bytes.as_slice()
    }

    /// The deck as a tree.
    pub fn tree(&self, alloc: Global) -> Result<Deck, NoMemory>
        ensures { IfOk result (λ deck. deck ≡ self.now) }
    {
        decks_are_spellable();
        spelling_is_read();
        match read_deck(alloc, self.bytes.as_slice()) {
            Ok(deck) => Ok(deck),
            Err(fault) => match fault {
                DocFault::NoMemory => Err(NoMemory),
                _ => unreachable!(),
            },
        }
    }

    /// The root, a node named wml.
    pub fn root(&self) -> View<'_>
        ensures root { result ≡ self.now.root }
        ensures good { IsGood self.now }
        ensures normal { IsNormal self.now }
    {
        let bytes = self.bytes.as_slice();
        View::of(
            &self.table,
            LEVEL_LIMIT,
            &bytes[self.root..],
            self.notes.as_slice(),
        )
    }

    /// How many cards there are.
    pub fn card_count(&self) -> usize
        ensures { result ≡ length (cards_of self.now) }
    {
        self.cards.places.len()
    }

    /// The number, from 0, of the card with this id. An id with a reference to a variable is none.
    pub fn find_card(&self, id: &Text) -> Option<usize>
        ensures { result ≡ card_numbered id.now self.now }
    {
        let hash = hash_of(id);
        for number in 0..self.card_count() {
            if self.is_numbered(id, hash, number) {
                return Some(number);
            }
        }
        None
    }

    /// Whether the card of a number has this id, whose hash is given. The id of a card of another
    /// hash isn't looked at.
    #[inline(always)]
    fn is_numbered(&self, id: &Text, hash: u32, number: usize) -> bool
        requires { hash ≡ hash_of id.now }
        ensures { result
            ≡ is_text id.now (option_and_then id_of (slice_get (cards_of self.now) number)) }
    {
        let Some(other) = self.cards.hashes.get(number) else {
            return false;
        };
        if *other != hash {
            return false;
        }
        match self.card(number) {
            Some(card) => has_id(&card, id),
            None => false,
        }
    }

    /// The card of a number, from 0.
    pub fn card(&self, number: usize) -> Option<View<'_>>
        ensures { result ≡ slice_get (cards_of self.now) number }
    {
        let place = *self.cards.places.get(number)?;
        let bytes = self.bytes.as_slice();
        let notes = self.notes.as_slice();
        Some(view_at(&self.table, bytes, notes, place))
    }

    /// The template.
    pub fn template(&self) -> Option<View<'_>>
        ensures { result ≡ first_with Tag.Template self.now.root.kids }
    {
        let place = *self.cards.templates.get(0)?;
        let bytes = self.bytes.as_slice();
        let notes = self.notes.as_slice();
        Some(view_at(&self.table, bytes, notes, place))
    }
}
