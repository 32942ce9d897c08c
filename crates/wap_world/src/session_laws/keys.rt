//! Keys that fit nothing.
ghost use Rattle.std.specs.Prelude.{◌≡◌, ℕ, List, Some, None, false, true};
ghost use Rattle.wap_tokens.specs.declared.markup.name.Tag.TheVariants as tags;
ghost use Rattle.wap_base.specs.declared.key.Key.{Key};
ghost use Rattle.wap_base.specs.declared.key.Key.TheVariants as key;
ghost use Rattle.wap_cardrules.specs.Dos.{do_task};
ghost use Rattle.wap_cardrules.specs.Fields.{link_task, field_with};
ghost use Rattle.wap_world.specs.Sites.{Site};
ghost use Rattle.wap_world.specs.World.{World, Place, place_now};
ghost use Rattle.wap_world.specs.Steps.{quiet};
ghost use Rattle.wap_world.specs.Keys.{react, renewed, ignored};
ghost use Rattle.wap_world.specs.session_laws.Ignored.{IsIgnored, is_for_card, option_with};
ghost use Rattle.wap_world.specs.session_laws.Ignored.{is_running};

/// A key that fits nothing shows its line alone, and changes nothing but that it has its turns: a
/// do, a link, an input or an option that the current card doesn't have, time where no timer runs,
/// a dialog's keys, an inbox's, and any key for a card where there is none.
pub fn keys_that_fit_nothing_are_ignored()
    ensures of_do { (site : Site) (keys : List Key) (world : World) (place : Place)
        (name : List ℕ) → place_now site.shelf (renewed world) ≡ Some place
        → do_task world.vars place.deck place.card name ≡ None
        → react site (key.Do name) keys world ≡ quiet keys (ignored (renewed world)) }
    ensures of_link { (site : Site) (keys : List Key) (world : World) (place : Place) (n : ℕ)
        → place_now site.shelf (renewed world) ≡ Some place
        → link_task world.vars place.card n ≡ None
        → react site (key.Pick n) keys world ≡ quiet keys (ignored (renewed world)) }
    ensures of_input { (site : Site) (keys : List Key) (world : World) (place : Place) (n : ℕ)
        (text : List ℕ) → place_now site.shelf (renewed world) ≡ Some place
        → field_with tags.Input place.card n ≡ None
        → IsIgnored site (key.Enter n text) keys world }
    ensures of_option { (site : Site) (keys : List Key) (world : World) (place : Place)
        (n m : ℕ) → place_now site.shelf (renewed world) ≡ Some place
        → option_with place.card n m ≡ None → IsIgnored site (key.Choose n m) keys world }
    ensures of_timer { (site : Site) (keys : List Key) (world : World) (n : ℕ)
        → is_running world.timer ≡ false → IsIgnored site (key.Tick n) keys world }
    ensures of_dialog { (site : Site) (keys : List Key) (world : World) (text : List ℕ)
        → IsIgnored site key.Ok keys world × IsIgnored site key.Cancel keys world
        × IsIgnored site (key.Answer text) keys world × IsIgnored site key.Stop keys world }
    ensures of_inbox { (site : Site) (keys : List Key) (world : World) (bytes : List ℕ) (n : ℕ)
        → IsIgnored site (key.Push bytes) keys world × IsIgnored site key.Inbox keys world
        × IsIgnored site (key.Follow n) keys world }
    ensures without_card { (site : Site) (one : Key) (keys : List Key) (world : World)
        → is_for_card one ≡ true → place_now site.shelf (renewed world) ≡ None
        → IsIgnored site one keys world }
    ensures unchanged { (keys : List Key) (world : World)
        → (quiet keys (ignored world)).world ≡ world }
{}
