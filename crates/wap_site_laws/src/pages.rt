//! Pages of a store in which scripts stand as sources, and the judged pages in which units stand
//! for them. These functions do nothing when they are called.
ghost use Rattle.std.specs.Prelude.{◌≡◌, ℕ, All, List, Option};
ghost use Rattle.wap_base.specs.Contents.{Contents};
ghost use Rattle.wap_world.specs.Sites.{Call};
ghost use Rattle.wap_world.specs.scripting.UnitSites.{unit_pages, units_site};
ghost use Rattle.wap_world.specs.scripting.Sources.{AllPages, site_of, compiled_pages};
ghost use Rattle.wap_site_laws.specs.programs.Programs.{Accepted, programs, unit_of};
ghost use Rattle.wap_pages.specs.Judged.{judged};
ghost use Rattle.wap_site_laws.specs.pages.SourcePages.{ArePages, IsStored};

/// Whatever a store holds, it has pages.
pub fn every_store_has_pages()
    ensures { (contents : Contents) → All IsStored contents
        → (pages : AllPages Accepted) × ArePages contents pages }
{}

/// A store's pages with a unit in place of each source are the judged pages.
pub fn pages_are_those_judged()
    ensures { (contents : Contents) (pages : AllPages Accepted) → ArePages contents pages
        → unit_pages (judged contents) ≡ compiled_pages programs unit_of pages }
{}

/// So the site of a store's pages, in which sources mean what their programs mean, is the site of
/// the judged pages, in which units are run.
pub fn sources_mean_what_is_judged()
    ensures { (call : List ℕ → Option Call) (contents : Contents) (pages : AllPages Accepted)
        → ArePages contents pages
        → site_of programs call pages ≡ units_site call (unit_pages (judged contents)) }
{}
