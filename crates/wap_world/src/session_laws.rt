//! What follows from the definitions of sessions. These functions do nothing when they are called.

mod fields;
mod keys;

ghost use Rattle.std.specs.Prelude.{◌≡◌, ◌≤◌, ◌<◌, suc, ◌++◌, ◌∷◌, [], ℕ, List};
ghost use Rattle.std.specs.Prelude.{Option, Some, Ok, false, IfSome, Result};
ghost use Rattle.wap_base.specs.declared.limits.Limits.{Limits};
ghost use Rattle.wap_url.specs.declared.url.Url.{Url};
ghost use Rattle.wap_url.specs.Printing.{name_for};
ghost use Rattle.wap_tokens.specs.declared.markup.deck.Deck.{Deck};
ghost use Rattle.wap_base.specs.declared.key.Key.{Key};
ghost use Rattle.wap_push.specs.declared.indication.Indication.{Indication};
ghost use Rattle.wap_push.specs.declared.fault.PushFault.{PushFault};
ghost use Rattle.wap_execution.specs.declared.fatal.Fatal.TheVariants as fatal;
ghost use Rattle.wap_cardrules.specs.declared.task.Go.{Go};
ghost use Rattle.wap_cardrules.specs.declared.task.Task.TheVariants as task;
ghost use Rattle.wap_cardrules.specs.Values.{Pairs};
ghost use Rattle.wap_world.specs.site.Pages.{Pages};
ghost use Rattle.wap_world.specs.declared.refusal.Refusal.TheVariants as refusals;
ghost use Rattle.wap_world.specs.Shelves.{Shelf, Entrance, deck_page, script_page};
ghost use Rattle.wap_world.specs.Sites.{Site};
ghost use Rattle.wap_world.specs.Decks.{decks_site};
ghost use Rattle.wap_world.specs.World.{World, Place, first_world, place_now};
ghost use Rattle.wap_world.specs.Steps.{Next, then_task, still, quiet, settled};
ghost use Rattle.wap_world.specs.History.{KeepsToLimit};
ghost use Rattle.wap_world.specs.Urls.{target_of};
ghost use Rattle.wap_world.specs.Screens.{refuse, show};
ghost use Rattle.wap_world.specs.Access.{may_enter, entrance_of};
ghost use Rattle.wap_world.specs.Requests.{Request, request_of, request_line, answer_to};
ghost use Rattle.wap_world.specs.Starting.{script_line};
ghost use Rattle.wap_world.specs.Tasks.{request, is_here, open_by, task_once};
ghost use Rattle.wap_world.specs.Tasks.{onward, act, visit};
ghost use Rattle.wap_world.specs.Keys.{react};
ghost use Rattle.wap_world.specs.inboxes.Inboxes.{Phone, taking_none, react_with};
ghost use Rattle.wap_world.specs.Sessions.{followed_with, played};
ghost use Rattle.wap_world.specs.session_laws.Scripts.{GivesNoTurns, MakesNoKeys, ScriptsKeep};
ghost use Rattle.wap_world.specs.session_laws.Standing.{HaveCards, StandsOnCard};

pub use fields::fields_show_their_numbers;
pub use keys::keys_that_fit_nothing_are_ignored;

/// After a key no more turns are left than a key has, and the history keeps to its limit, where
/// the scripts of a site keep to that.
pub fn keys_keep_bounds()
    ensures turns { (site : Site) (one : Key) (keys : List Key) (world : World)
        → GivesNoTurns site → (react site one keys world).world.turns ≤ world.budget }
    ensures history { (site : Site) (one : Key) (keys : List Key) (world : World)
        → ScriptsKeep KeepsToLimit site → KeepsToLimit world
        → KeepsToLimit (react site one keys world).world }
{}

/// Where no page is a script, none is run: so what is asked of scripts is so of these sites.
pub fn decks_run_no_script()
    ensures turns { (pages : Pages) → GivesNoTurns (decks_site pages) }
    ensures keys { (pages : Pages) → MakesNoKeys (decks_site pages) }
    ensures history { (pages : Pages) → ScriptsKeep KeepsToLimit (decks_site pages) }
    ensures card { (pages : Pages) (shelf : Shelf)
        → ScriptsKeep (StandsOnCard shelf) (decks_site pages) }
{}

/// Keys in two parts show what they show as one list, where no page is a script: a script reads
/// keys that are left.
pub fn keys_play_in_parts()
    ensures { (read : List ℕ → Result Indication PushFault) (pages : Pages)
        (first others : List Key) (phone : Phone) → let site = decks_site pages in
        played read site (first ++ others) phone
        ≡ followed_with (played read site first phone)
        (λ left after. played read site others after) }
{}

/// A deck that may not be entered adds its request's line, its name and its test; then the current
/// card is shown again after the refusal, and that is all. So a go that asks for such a deck takes
/// its turn, and neither leaves the card nor sets its variables nor enters.
pub fn denied_decks_are_not_entered()
    ensures of_request { (site : Site) (place : Option Place) (keys : List Key) (sets : Pairs)
        (caller : Option Url) (one : Request) (world : World) (deck : Deck)
        → answer_to site.shelf one ≡ deck_page deck
        → may_enter one.url (entrance_of deck) caller ≡ false
        → let again = refuse place refusals.Denied world in
        request site place keys sets caller one world ≡ settled (record {
          world = again.world;
          keys = keys;
          lines = request_line one ∷ again.lines;
          asked = (name_for one.url, one.fresh) ∷ [];
          tests = record { page = name_for one.url; caller = caller; allowed = false } ∷ [];
          is_open = false;
        }) }
    ensures of_go { (site : Site) (keys : List Key) (one : Go) (world : World) (place : Place)
        (url : Url) (deck : Deck) (turns : ℕ)
        → let caller = Some place.url in
        let asked = request_of caller one url in
        let again = refuse (Some place) refusals.Denied (record world { turns = turns }) in
        world.turns ≡ suc turns → place_now site.shelf world ≡ Some place
        → target_of caller one.href ≡ Ok url → is_here asked place ≡ false
        → answer_to site.shelf asked ≡ deck_page deck
        → may_enter asked.url (entrance_of deck) caller ≡ false
        → act site keys world (then_task (task.Go one)) ≡ record {
          world = again.world;
          keys = keys;
          lines = request_line asked ∷ again.lines;
          asked = (name_for asked.url, asked.fresh) ∷ [];
          tests = record { page = name_for asked.url; caller = caller; allowed = false } ∷ [];
          is_open = false;
        } }
{}

/// Nor is a script started that may not be: the line of a script that is denied stands in place of
/// the refusal's, and its arguments aren't looked at.
pub fn denied_scripts_are_not_started()
    ensures { (site : Site) (place : Option Place) (keys : List Key) (sets : Pairs)
        (caller : Option Url) (one : Request) (world : World) (entrance : Option Entrance)
        → answer_to site.shelf one ≡ script_page entrance
        → may_enter one.url entrance caller ≡ false
        → let again = show place world in
        request site place keys sets caller one world ≡ settled (record {
          world = again.world;
          keys = keys;
          lines = request_line one ∷ script_line fatal.Denied ∷ again.lines;
          asked = (name_for one.url, one.fresh) ∷ [];
          tests = record { page = name_for one.url; caller = caller; allowed = false } ∷ [];
          is_open = false;
        }) }
{}

/// After a key a world stands on a card, where it did before and scripts keep to that, and a world
/// in which nothing was done does: no key makes a browser lose its deck or name a card that it
/// hasn't.
pub fn keys_keep_the_card()
    ensures first { (shelf : Shelf) (seed budget : ℕ) (limits : Limits)
        → StandsOnCard shelf (first_world seed budget limits) }
    ensures kept { (site : Site) (one : Key) (keys : List Key) (world : World)
        → ScriptsKeep (StandsOnCard site.shelf) site → HaveCards site.shelf
        → StandsOnCard site.shelf world
        → StandsOnCard site.shelf (react site one keys world).world }
{}

/// A task or a URL that is opened is followed to its end, where no script gives turns back: no
/// count of turns cuts short what it leads to, since each task that leads to another takes a turn.
pub fn tasks_are_followed_to_their_end()
    ensures of_task { (site : Site) (keys : List Key) (world : World) (one : Next)
        → GivesNoTurns site
        → act site keys world one ≡ onward (act site) (task_once site keys world one) }
    ensures of_url { (site : Site) (place : Option Place) (keys : List Key) (world : World)
        (text : List ℕ) → visit site place keys world text
        ≡ onward (act site) (open_by site place keys text world) }
    ensures turns { (site : Site) (keys : List Key) (world : World) (one : Next)
        → GivesNoTurns site → let once = task_once site keys world one in
        IfSome once.next (λ next. once.step.world.turns < world.turns) }
{}

/// Keys are played one after the other, and none is left, where no script makes keys.
pub fn keys_are_played_to_the_last()
    ensures none { (read : List ℕ → Result Indication PushFault) (site : Site) (phone : Phone)
        → played read site [] phone ≡ taking_none phone (quiet [] (still phone.world)) }
    ensures first { (read : List ℕ → Result Indication PushFault) (site : Site) (one : Key)
        (keys : List Key) (phone : Phone) → MakesNoKeys site
        → played read site (one ∷ keys) phone
        ≡ followed_with (react_with read site one keys phone) (played read site) }
    ensures left { (read : List ℕ → Result Indication PushFault) (pages : Pages) (one : Key)
        (keys : List Key) (phone : Phone)
        → (react_with read (decks_site pages) one keys phone).step.keys ≡ keys }
    ensures all { (read : List ℕ → Result Indication PushFault) (site : Site) (keys : List Key)
        (phone : Phone) → MakesNoKeys site → (played read site keys phone).step.keys ≡ [] }
{}
