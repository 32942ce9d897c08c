//! Keys leave worlds at rest, so that what is saved of these is all.
ghost use Rattle.std.specs.Prelude.{◌≡◌, ℕ, false, List, Result};
ghost use Rattle.wap_base.specs.declared.key.Key.{Key};
ghost use Rattle.wap_push.specs.declared.indication.Indication.{Indication};
ghost use Rattle.wap_push.specs.declared.fault.PushFault.{PushFault};
ghost use Rattle.wap_world.specs.Sites.{Site};
ghost use Rattle.wap_world.specs.World.{first_world};
ghost use Rattle.wap_world.specs.inboxes.Inboxes.{Phone};
ghost use Rattle.wap_world.specs.Sessions.{played};
ghost use Rattle.wap_base.specs.declared.limits.Limits.{Limits};
ghost use Rattle.wap_world.specs.session_laws.Scripts.{ScriptsKeep};
ghost use Rattle.wap_world.specs.session_laws.Standing.{HaveCards, StandsOnCard};
ghost use Rattle.wap_state.specs.Saved.{IsAtRest};

/// Keys that end outside a dialog lead from a world at rest to one, over good decks; and a world in
/// which nothing was done is at rest.
pub fn keys_leave_worlds_at_rest()
    ensures first { (seed budget : ℕ) (limits : Limits)
        → IsAtRest (first_world seed budget limits) }
    ensures kept { (read : List ℕ → Result Indication PushFault) (site : Site) (keys : List Key)
        (phone : Phone) → ScriptsKeep (StandsOnCard site.shelf) site → HaveCards site.shelf
        → StandsOnCard site.shelf phone.world → IsAtRest phone.world
        → (played read site keys phone).step.is_open ≡ false
        → IsAtRest (played read site keys phone).step.world }
{}
