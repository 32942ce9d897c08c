//! The current card, with the deck at hand.
ghost use Rattle.std.specs.Prelude.{◌≡◌};
ghost use Rattle.wap_world.specs.scripting.Views.{place_with};

use std::marker::Model;
use wap_deck::good::{GoodDeck, View};
use wap_state::State;
use wap_url::Url;
use wap_world::site::Shared;

/// A card, its deck, and the deck's URL. A contract sees them.
#[derive(Drop)]
pub(crate) struct Standing<'a> {
    pub(crate) url: &'a Url,
    pub(crate) deck: &'a GoodDeck,
    pub(crate) card: View<'a>,
}

impl<'a> Model for Standing<'a> {
    ghost use Rattle.wap_world.specs.World.{Place};
    ghost use Rattle.wap_tokens.specs.contracts.markup.deck.Item as item;
    ghost use Rattle.std.specs.Coded.{codes};

    ghost Value = { Place };

    ghost coded = { Prim.hlevel (codes, item.the_row.coded) };

    ghost view = { λ it. record { url = it.url.now; deck = it.deck.now; card = it.card } };
}

/// The current card, if there is one.
pub(crate) fn place_at_hand<'a>(
    state: &'a State,
    deck: &'a Option<Shared<GoodDeck>>,
) -> Option<Standing<'a>>
    ensures { result ≡ place_with deck.now state.now }
{
    match (state.last(), deck) {
        (Some(entry), Some(deck)) => match deck.card(entry.card()) {
            Some(card) => Some(Standing {
                url: entry.url(),
                deck,
                card,
            }),
            None => None,
        },
        (Some(_), None) | (None, _) => None,
    }
}
