//! What follows where other scripts stand in place of those of a site: units in place of the
//! sources that they agree with, and any in place of scripts that were only ever denied. These
//! functions do nothing when they are called.
ghost use Rattle.std.specs.Prelude.{◌≡◌, ℕ, Bool, false, List, Option, Result};
ghost use Rattle.wap_unit.specs.declared.unit.Unit.{Unit as TheUnit};
ghost use Rattle.wap_base.specs.Contents.{Contents};
ghost use Rattle.wap_base.specs.declared.key.Key.{Key};
ghost use Rattle.wap_push.specs.declared.indication.Indication.{Indication};
ghost use Rattle.wap_push.specs.declared.fault.PushFault.{PushFault};
ghost use Rattle.wap_world.specs.Sites.{Call};
ghost use Rattle.wap_world.specs.inboxes.Inboxes.{Phone};
ghost use Rattle.wap_world.specs.Sessions.{played};
ghost use Rattle.wap_world.specs.scripting.UnitSites.{units_site};
ghost use Rattle.wap_world.specs.scripting.Sources.{LanguageOf, AllPages, Agrees, site_of};
ghost use Rattle.wap_world.specs.scripting.Sources.{compiled_pages};
ghost use Rattle.wap_site_laws.specs.exchange.Denial.{is_let_in, DifferInScripts};
ghost use Rattle.wap_site_laws.specs.programs.Programs.{Accepted, programs};

/// What the programs of sources are, and what a browser makes of them.
pub trait Language {
    ghost Program: { Type 0 };

    ghost language: { LanguageOf Program };
}

/// Sources that are replaced by units that agree with them leave the site as it is, and so all that
/// is said of it.
pub fn sources_may_be_compiled<L: Language>()
    ensures { (compiler : L.Program → TheUnit)
        (agrees : (one : L.Program) → Agrees L.language one (compiler one))
        (call : List ℕ → Option Call) (pages : AllPages L.Program)
        → site_of L.language call pages
        ≡ units_site call (compiled_pages L.language compiler pages) }
{}

/// Stores that differ in scripts alone, which let the same in, show the same over keys by which no
/// such script was entered: each access test of one was a denial.
pub fn denied_scripts_do_not_matter()
    ensures { (call : List ℕ → Option Call) (among : List ℕ → Bool)
        (one other : Contents) (pages others : AllPages Accepted)
        → DifferInScripts among one other pages others
        → (read : List ℕ → Result Indication PushFault) (keys : List Key) (phone : Phone)
        → let here = site_of programs call pages in
        let there = site_of programs call others in
        is_let_in among (played read here keys phone).step.tests ≡ false
        → played read here keys phone ≡ played read there keys phone }
{}
