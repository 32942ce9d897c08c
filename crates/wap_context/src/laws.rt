//! What follows from what is seen of contexts. The function here does nothing when it is called.
ghost use Rattle.std.specs.Prelude.{◌≡◌, ◌↔◌, [], None, is_some};
ghost use Rattle.wap_world.specs.Shelves.{Shelf};
ghost use Rattle.wap_world.specs.session_laws.Standing.{StandsOnCard};
ghost use Rattle.wap_context.specs.Browsers.{Browser, IsOver, place_held};

/// A browser whose world stands on a card, as each does after keys that begin in a world in which
/// nothing was done, has a deck at hand exactly where a card was entered, and this is one of that
/// deck.
pub fn a_card_has_its_deck_at_hand()
    ensures deck { (shelf : Shelf) (browser : Browser) → IsOver shelf browser
        → StandsOnCard shelf browser.world
        → (browser.deck ≡ None) ↔ (browser.world.history ≡ []) }
    ensures card { (shelf : Shelf) (browser : Browser) → IsOver shelf browser
        → StandsOnCard shelf browser.world
        → is_some (place_held browser) ≡ is_some browser.deck }
{}
