//! What holds of keys that go on from what was saved.
ghost use Rattle.std.specs.Prelude.{◌≡◌, ◌++◌, List};
ghost use Rattle.wap_base.specs.declared.key.Key.{Key};
ghost use Rattle.wap_image.specs.declared.context_parts.parts.ContextParts.{ContextParts};
ghost use Rattle.wap_world.specs.Sessions.{Begun};
ghost use Rattle.wap_world.specs.session_laws.Standing.{HaveCards};
ghost use Rattle.wap_world.specs.scripting.UnitSites.{Pages, shelf_of};
ghost use Rattle.wap_cli.specs.browse.Handling.{bytes_of};
ghost use Rattle.wap_cli.specs.browse.Plays.{opened, HaveNoPush};
ghost use Rattle.wap_cli.specs.resume.Saving.{EndsIn, IsWhole};
ghost use Rattle.wap_cli.specs.resume.Resuming.{resumed};

/// Keys that go on from what a session is saved as show what they show where the session itself
/// goes on: what first keys show, of which none is a push, and then what others show from there, is
/// what all of them show. This function does nothing when it is called.
pub fn saved_sessions_go_on()
    ensures { (begun : Begun) (pages : Pages) (first others : List Key) (parts : ContextParts)
        → EndsIn begun pages first parts → IsWhole parts (opened begun pages first).world
        → HaveNoPush first → HaveCards (shelf_of pages)
        → bytes_of (opened begun pages (first ++ others))
        ≡ bytes_of (opened begun pages first)
        ++ bytes_of (resumed parts begun.budget pages others) }
{}
