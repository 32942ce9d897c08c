//! The card at hand: the current one, and its deck.
ghost use Rattle.std.specs.Prelude.{◌≡◌};
ghost use Rattle.wap_state.specs.CardAtHand.{held_in};

use std::marker::Model;
use wap_deck::good::{GoodDeck, View};
use wap_world::site::Shared;

/// A card and its deck. A contract sees both.
#[derive(Drop)]
pub struct Current<'a> {
    /// The deck that is shown.
    pub deck: &'a GoodDeck,
    /// The card of this deck that is shown.
    pub card: View<'a>,
}

impl<'a> Model for Current<'a> {
    ghost use Rattle.wap_state.specs.CardAtHand.{Held};
    ghost use Rattle.wap_tokens.specs.contracts.markup.deck.Item as item;
    ghost use Rattle.std.specs.Coded.{codes};

    ghost Value = { Held };

    ghost coded = { Prim.hlevel (codes, item.the_row.coded) };

    ghost view = { λ here. record { deck = here.deck.now; card = here.card } };
}

/// The card of a number in the deck at hand.
pub fn here<'a>(deck: &'a Option<Shared<GoodDeck>>, number: Option<usize>) -> Option<Current<'a>>
    ensures { result ≡ held_in deck.now number }
{
    match (deck, number) {
        (Some(deck), Some(number)) => match deck.card(number) {
            Some(card) => Some(Current { deck, card }),
            None => None,
        },
        (Some(_), None) | (None, _) => None,
    }
}
