//! The cards of a deck.
ghost use Rattle.std.specs.Prelude.{◌≡◌, length};
ghost use Rattle.std.specs.Option.{is_some};
ghost use Rattle.std.specs.List.{filter_map};
ghost use Rattle.wap_tokens.specs.markup.Trees.{node_with};
ghost use Rattle.wap_tokens.specs.markup.Cards.{cards_of};

use wap_tokens::markup::{Deck, Item, Tag};

/// Whether an item is a card.
fn is_card(item: &Item) -> bool
    ensures { result ≡ is_some (node_with Tag.Card item.now) }
{
    match item {
        Item::Node(node) => node.tag == Tag::Card,
        Item::Text(_) => false,
    }
}

/// How many cards there are among items.
fn cards_among(items: &[Item]) -> usize
    ensures { result ≡ length (filter_map (node_with Tag.Card) items.now) }
{
    let mut count = 0;
    for item in items {
        if is_card(item) {
            count += 1;
        }
    }
    count
}

/// How many cards a deck has.
pub fn card_count(deck: &Deck) -> usize
    ensures { result ≡ length (cards_of deck.now) }
{
    cards_among(deck.root.kids.as_slice())
}
