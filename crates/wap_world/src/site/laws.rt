//! What follows from the definitions that the contracts cite, for the crates that cite them too.
ghost use Rattle.std.specs.Prelude.{◌≡◌, ◌↔◌, ℕ, List, None};
ghost use Rattle.wap_world.specs.site.Pages.{Pages, page_under, page_of, AreSitePages};
ghost use Rattle.wap_world.specs.declared.site.page.Page.TheVariants.{Missing};

/// The page of a name is missing exactly where the site has none under it. This function does
/// nothing.
#[tactic(auto, using(crate::proofs::SiteLemmas::Missing::missing_without_a_page))]
pub fn a_page_is_missing_where_there_is_none()
    ensures { (name : List ℕ) (pages : Pages) → AreSitePages pages
        → (page_of name pages ≡ Missing) ↔ (page_under name pages ≡ None) }
{}
