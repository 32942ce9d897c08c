//! What follows from the definitions of sessions. These functions do nothing when they are called.
ghost use Rattle.std.specs.Prelude.{◌≡◌, ◌∷◌, [], true, List, Some};
ghost use Rattle.wap_base.specs.declared.key.Key.{Key};
ghost use Rattle.wap_base.specs.declared.key.Key.TheVariants as key;
ghost use Rattle.wap_push.specs.declared.indication.Indication.{Indication};
ghost use Rattle.wap_push.specs.Inbox.{HaveWinners};
ghost use Rattle.wap_push.specs.Pushes.{push_at};
ghost use Rattle.wap_world.specs.Keys.{ignored};
ghost use Rattle.wap_world.specs.Steps.{quiet};
ghost use Rattle.wap_world.specs.inboxes.Inboxes.{is_of_inbox};
ghost use Rattle.wap_world.specs.Sessions.{Begun, session, StepAlike};
ghost use Rattle.wap_world.specs.scripting.UnitSites.{Pages};
ghost use Rattle.wap_world.specs.scripting.Waiting.{Waits, played_from};
ghost use Rattle.wap_context.specs.Sites.{fragment_call, site_of};
ghost use Rattle.wap_session.specs.Feeding.{State, beginning, between, stepped_of};

/// A session counts as each whose pushes have its winners: keys come to the same step in all of
/// these, and to pushes with the same winners.
pub fn winners_stand_for_pushes()
    ensures { (pages : Pages) (state : State) (pushes : List Indication)
        → HaveWinners pushes state.winners → (keys : List Key)
        → StepAlike (played_from push_at fragment_call pages (between pushes state) keys)
        (stepped_of pages keys state) }
{}

/// A session in which nothing was done comes to what the definition of sessions says, once it has
/// opened its URL.
pub fn sessions_begin_without_pushes()
    ensures { (pages : Pages) (begun : Begun) (keys : List Key)
        → stepped_of pages (key.Open begun.url ∷ keys) (beginning begun)
        ≡ session push_at (site_of pages) begun keys }
{}

/// In a dialog no push is taken: a key of an inbox is ignored, and the dialog stays open.
pub fn dialogs_take_no_push()
    ensures { (pages : Pages) (state : State) (waits : Waits) (one : Key)
        → state.waiting ≡ Some waits → is_of_inbox one ≡ true
        → stepped_of pages (one ∷ []) state ≡ record {
          step = record (quiet [] (ignored state.browser.world)) { is_open = true };
          pushes = state.winners;
        } }
{}
