//! Hashes of the ids of cards, by which most cards are passed at once where one is looked for.
ghost use Rattle.std.specs.Prelude.{◌≡◌, IfOk};
ghost use Rattle.std.specs.Option.{option_copied};
ghost use Rattle.wap_tokens.specs.markup.Cards.{id_of};
ghost use Rattle.wap_tokens.specs.markup.Trees.{node_with, plain_text, value_of};
ghost use Rattle.wap_deck.specs.good.inside.Hashes.{hash_of, hash_if, hashes_in};

use std::alloc::Global;
use wap_base::{NoMemory, Part, Rows, Text};
use wap_tokens::markup::{AttrName, Deck, Item, Node, Tag};

/// The hash of a text: texts of other hashes are other texts.
#[tactic(auto, unfolding(crate::specs::good::inside::Hashes::hash_of))]
pub(crate) fn hash_of(text: &Text) -> u32
    ensures { result ≡ hash_of text.now }
{
    let bytes = text.as_str().as_bytes();
    let mut hash = 0u32;
    for byte in bytes {
        hash = hash.wrapping_mul(31).wrapping_add(u32::from(*byte));
    }
    hash
}

/// The hash of a value's text, 0 where it isn't plain.
#[tactic(auto, unfolding(crate::specs::good::inside::Hashes::hash_of))]
fn hash_in(parts: &[Part]) -> u32
    ensures { result ≡ hash_if (plain_text parts.now) }
{
    match parts {
        [] => 0,
        [Part::Lit(text)] => hash_of(text),
        _ => 0,
    }
}

/// The value of a card's first id.
fn id_value(card: &Node) -> Option<&Rows<Part>>
    ensures { option_copied result ≡ value_of AttrName.Id card.now }
{
    card.attrs
        .as_slice()
        .iter()
        .find(|attr| attr.0 == AttrName::Id)
        .map(|attr| &attr.1)
}

/// The hash of a card's id.
fn id_hash(card: &Node) -> u32
    ensures { result ≡ hash_if (id_of card.now) }
{
    match id_value(card) {
        Some(value) => hash_in(value.as_slice()),
        None => 0,
    }
}

/// An item as a card, if it is one.
fn card_of(item: &Item) -> Option<&Node>
    ensures { option_copied result ≡ node_with Tag.Card item.now }
{
    match item {
        Item::Node(node) => {
            if node.tag == Tag::Card {
                Some(node)
            } else {
                None
            }
        }
        Item::Text(_) => None,
    }
}

/// The hashes of the cards of a deck.
pub(crate) fn hashes_of(alloc: Global, deck: &Deck) -> Result<Rows<u32>, NoMemory>
    ensures { IfOk result (λ hashes. hashes ≡ hashes_in deck.now) }
{
    let mut hashes = Vec::new(alloc);
    for item in deck.root.kids.as_slice() {
        if let Some(card) = card_of(item) {
            hashes.push(id_hash(card))?;
        }
    }
    hashes.shrink_to_fit();
    Ok(Rows::from_vec(hashes))
}
