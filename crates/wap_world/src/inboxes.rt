//! Sessions with an inbox of service indications, and what follows from their definitions. These
//! functions do nothing when they are called.
ghost use Rattle.std.specs.Prelude.{◌≡◌, ◌++◌, ◌∷◌, [], ℕ, List, Some, None, Ok, Err, false};
ghost use Rattle.std.specs.List.{AllByRecursion};
ghost use Rattle.std.specs.Prelude.{Result, ◌↔◌, ◌&&◌, true};
ghost use Rattle.wap_base.specs.declared.key.Key.{Key};
ghost use Rattle.wap_base.specs.declared.key.Key.TheVariants as key;
ghost use Rattle.wap_push.specs.declared.indication.Indication.{Indication};
ghost use Rattle.wap_push.specs.declared.fault.PushFault.{PushFault};
ghost use Rattle.wap_world.specs.site.Pages.{Pages};
ghost use Rattle.wap_world.specs.Decks.{decks_site};
ghost use Rattle.wap_world.specs.Sites.{Site};
ghost use Rattle.wap_world.specs.World.{World};
ghost use Rattle.wap_world.specs.Steps.{still, quiet};
ghost use Rattle.wap_world.specs.Keys.{ignored, renewed, react};
ghost use Rattle.wap_push.specs.Inbox.{HaveWinners, alerts, IsAlert};
ghost use Rattle.wap_world.specs.inboxes.Winners.{winners_of, Alike};
ghost use Rattle.wap_world.specs.inboxes.Notices.{is_latest, no_push_line, notice_lines};
ghost use Rattle.wap_world.specs.inboxes.Inboxes.{Phone, taking_none, telling, url_at};
ghost use Rattle.wap_world.specs.inboxes.Inboxes.{is_of_inbox};
ghost use Rattle.wap_world.specs.inboxes.Inboxes.{react_with};
ghost use Rattle.wap_world.specs.Sessions.{unpushed, played, StepAlike};

/// The winners that are calculated are the winners of all pushes, and no other list is.
pub fn winners_are_calculated()
    ensures { (pushes winners : List Indication)
        → HaveWinners pushes winners ↔ (winners ≡ winners_of pushes) }
{}

/// What keys come to hangs on the winners of the pushes alone, and so do the winners afterwards.
/// Winners have themselves as winners, so they stand for all pushes of which they are the winners.
pub fn winners_stand_for_pushes()
    ensures own { (pushes winners : List Indication) → HaveWinners pushes winners
        → HaveWinners winners winners }
    ensures alike { (read : List ℕ → Result Indication PushFault) (site : Site)
        (keys : List Key) (world : World) (one other : List Indication) → Alike one other
        → StepAlike (played read site keys (record { world = world; pushes = one }))
        (played read site keys (record { world = world; pushes = other })) }
{}

/// An indication is shown when it comes exactly where an inbox, into which it is put after these
/// pushes, says so.
pub fn notices_are_alerts()
    ensures { (pushes : List Indication) (pushed : Indication)
        → ((alerts pushed.action && is_latest pushes pushed) ≡ true)
        ↔ IsAlert (pushes ++ pushed ∷ []) pushed }
{}

/// A key that is none of an inbox does what it does without one, and no push is taken.
pub fn other_keys_are_as_before()
    ensures { (read : List ℕ → Result Indication PushFault) (site : Site) (one : Key)
        (keys : List Key) (phone : Phone) → is_of_inbox one ≡ false
        → react_with read site one keys phone
        ≡ taking_none phone (react site one keys phone.world) }
{}

/// So over decks keys of which none is one of an inbox come to the same whatever was pushed, and
/// however what is pushed is read: they come to what they come to without an inbox.
pub fn keys_are_played_as_before()
    ensures { (read other : List ℕ → Result Indication PushFault) (pages : Pages)
        (keys : List Key) (phone : Phone) (pushes : List Indication)
        → AllByRecursion (λ (one : Key). is_of_inbox one ≡ false) keys
        → played read (decks_site pages) keys phone ≡ taking_none phone
        (played other (decks_site pages) keys (record phone { pushes = pushes })).step }
{}

/// A push changes nothing but the pushes that were taken: an indication is taken, and shown if it
/// is to be; of anything else only the reason is shown.
pub fn pushes_change_nothing_else()
    ensures taken { (read : List ℕ → Result Indication PushFault) (site : Site) (keys : List Key)
        (phone : Phone) (bytes : List ℕ) (pushed : Indication) → read bytes ≡ Ok pushed
        → react_with read site (key.Push bytes) keys phone ≡ record {
          step = telling keys (renewed phone.world) (notice_lines phone.pushes pushed);
          pushes = phone.pushes ++ pushed ∷ [];
        } }
    ensures refused { (read : List ℕ → Result Indication PushFault) (site : Site)
        (keys : List Key) (phone : Phone) (bytes : List ℕ) (why : PushFault)
        → read bytes ≡ Err why
        → react_with read site (key.Push bytes) keys phone
        ≡ taking_none phone (telling keys (renewed phone.world) (no_push_line why ∷ [])) }
{}

/// To follow an entry is to open its URL; where there is no such entry, or it has none, the key is
/// ignored.
pub fn entries_are_opened()
    ensures opened { (read : List ℕ → Result Indication PushFault) (site : Site)
        (keys : List Key) (phone : Phone) (n : ℕ) (url : List ℕ)
        → url_at phone.pushes n ≡ Some url
        → react_with read site (key.Follow n) keys phone
        ≡ taking_none phone (react site (key.Open url) keys phone.world) }
    ensures none { (read : List ℕ → Result Indication PushFault) (site : Site)
        (keys : List Key) (phone : Phone) (n : ℕ) → url_at phone.pushes n ≡ None
        → react_with read site (key.Follow n) keys phone
        ≡ taking_none phone (quiet keys (ignored (renewed phone.world))) }
{}

/// Before the first push the inbox shows nothing, and there is nothing to follow.
pub fn nothing_is_in_an_empty_inbox()
    ensures shown { (read : List ℕ → Result Indication PushFault) (site : Site) (keys : List Key)
        (world : World) → react_with read site key.Inbox keys (unpushed world)
        ≡ taking_none (unpushed world) (quiet keys (still (renewed world))) }
    ensures followed { (read : List ℕ → Result Indication PushFault) (site : Site)
        (keys : List Key) (world : World) (n : ℕ)
        → react_with read site (key.Follow n) keys (unpushed world)
        ≡ taking_none (unpushed world) (react site (key.Follow n) keys world) }
{}
