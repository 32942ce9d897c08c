//! Sites whose scripts are sources of programs, beside the sites of the units that these are
//! compiled to. These functions do nothing when they are called.
ghost use Rattle.std.specs.Prelude.{◌≡◌, ℕ, List, Option};
ghost use Rattle.wap_grammar.specs.declared.program.program.Program.{Program as TheProgram};
ghost use Rattle.wap_world.specs.Sites.{Call};
ghost use Rattle.wap_meaning.specs.compiled.Units.{compiled};
ghost use Rattle.wap_world.specs.scripting.Units.{entrance_in, external_in};
ghost use Rattle.wap_world.specs.scripting.UnitSites.{units_site};
ghost use Rattle.wap_world.specs.scripting.Sources.{AllPages, site_of, compiled_pages};
ghost use Rattle.wap_site_laws.specs.programs.Entrances.{entrance, external};
ghost use Rattle.wap_site_laws.specs.programs.Programs.{Accepted, programs, unit_of};

/// The unit that a program is compiled to lets the same call it, and has the same external
/// functions.
pub fn units_have_the_same_entrances()
    ensures entrances { (p : TheProgram) → entrance_in (compiled p) ≡ entrance p }
    ensures names { (p : TheProgram) (name : List ℕ)
        → external_in (compiled p) name ≡ external p name }
{}

/// Programs that are replaced by the units that they are compiled to leave the site as it is, and
/// so every session over it.
pub fn programs_may_be_compiled()
    ensures { (call : List ℕ → Option Call) (pages : AllPages Accepted)
        → site_of programs call pages
        ≡ units_site call (compiled_pages programs unit_of pages) }
{}
