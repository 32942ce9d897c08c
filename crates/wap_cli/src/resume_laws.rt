//! What follows from the definitions of images for the pages of stores. The functions here do
//! nothing when they are called.
ghost use Rattle.std.specs.Prelude.{◌≡◌, ◌++◌, ℕ, false, List};
ghost use Rattle.wap_base.specs.Contents.{Contents, names_of};
ghost use Rattle.wap_base.specs.Texts.{is_same_text, AreDistinct};
ghost use Rattle.wap_base.specs.declared.key.Key.{Key};
ghost use Rattle.wap_image.specs.declared.context_parts.parts.ContextParts.{ContextParts};
ghost use Rattle.wap_pages.specs.Judged.{judged};
ghost use Rattle.wap_world.specs.Sessions.{Begun};
ghost use Rattle.wap_world.specs.scripting.Sources.{AllPages, site_of};
ghost use Rattle.wap_world.specs.scripting.UnitSites.{unit_pages};
ghost use Rattle.wap_site_laws.specs.unasked.Unasked.{is_asked};
ghost use Rattle.wap_site_laws.specs.programs.Programs.{Accepted, programs};
ghost use Rattle.wap_site_laws.specs.pages.SourcePages.{ArePages};
ghost use Rattle.wap_context.specs.Sites.{fragment_call};
ghost use Rattle.wap_cli.specs.browse.Handling.{bytes_of};
ghost use Rattle.wap_cli.specs.browse.Plays.{opened, HaveNoPush};
ghost use Rattle.wap_cli.specs.Networks.{over};
ghost use Rattle.wap_cli.specs.resume.Saving.{opened_at, EndsAt, EndsIn, IsWhole};
ghost use Rattle.wap_cli.specs.resume.Resuming.{resumed_at, resumed};
ghost use Rattle.wap_cli.specs.resume_laws.Stores.{AgreeBut};

/// Over the pages of a store keys that go on from an image show what the session itself shows that
/// goes on: what first keys show, of which none is a push, and then what others show from their
/// image, is what all of them show.
pub fn saved_sessions_go_on_over_stores()
    ensures { (begun : Begun) (contents : Contents) (first others : List Key)
        (parts : ContextParts) → AreDistinct (names_of contents)
        → let pages = unit_pages (judged contents) in
        EndsIn begun pages first parts → IsWhole parts (opened begun pages first).world
        → HaveNoPush first → bytes_of (opened begun pages (first ++ others))
        ≡ bytes_of (opened begun pages first)
        ++ bytes_of (resumed parts begun.budget pages others) }
{}

/// So they do over the pages of another store, which differ by one at most, as by the image itself
/// where it was written into the folder, and where the session that goes on by itself never asks
/// for that one.
pub fn saved_sessions_go_on_over_two_stores()
    ensures { (begun : Begun) (contents later : Contents) (name : List ℕ)
        (first others : List Key) (parts : ContextParts) → AreDistinct (names_of contents)
        → AgreeBut name contents later → let pages = unit_pages (judged contents) in
        EndsIn begun pages first parts → IsWhole parts (opened begun pages first).world
        → HaveNoPush first
        → is_asked (is_same_text name) (opened begun pages (first ++ others)).asked ≡ false
        → bytes_of (opened begun pages (first ++ others))
        ≡ bytes_of (opened begun pages first)
        ++ bytes_of (resumed parts begun.budget (unit_pages (judged later)) others) }
{}

/// So they do over the site of a store's pages in which sources mean what their programs mean, and
/// over that of another store, which differs by a page that was never asked for.
pub fn saved_sessions_go_on_over_sources()
    ensures one_store { (begun : Begun) (contents : Contents) (pages : AllPages Accepted)
        (first others : List Key) (parts : ContextParts) → AreDistinct (names_of contents)
        → ArePages contents pages → let network = over (site_of programs fragment_call pages) in
        EndsAt begun network first parts → IsWhole parts (opened_at begun network first).world
        → HaveNoPush first → bytes_of (opened_at begun network (first ++ others))
        ≡ bytes_of (opened_at begun network first)
        ++ bytes_of (resumed_at parts begun.budget network others) }
    ensures two_stores { (begun : Begun) (contents later : Contents) (name : List ℕ)
        (pages other_pages : AllPages Accepted) (first others : List Key) (parts : ContextParts)
        → AreDistinct (names_of contents) → AgreeBut name contents later
        → ArePages contents pages → ArePages later other_pages
        → let network = over (site_of programs fragment_call pages) in
        let other = over (site_of programs fragment_call other_pages) in
        EndsAt begun network first parts → IsWhole parts (opened_at begun network first).world
        → HaveNoPush first
        → is_asked (is_same_text name) (opened_at begun network (first ++ others)).asked ≡ false
        → bytes_of (opened_at begun network (first ++ others))
        ≡ bytes_of (opened_at begun network first)
        ++ bytes_of (resumed_at parts begun.budget other others) }
{}
