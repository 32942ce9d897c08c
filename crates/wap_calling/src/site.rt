//! Which pages may be those of a site.
ghost use Rattle.std.specs.Prelude.{◌≡◌, All, IfOk, IsTrue, ◌↔◌};
ghost use Rattle.std.specs.Map.{keys_of};
ghost use Rattle.wap_world.specs.site.Pages.{IsThere, AreSitePages};

use std::alloc::Global;
use wap_base::{NoMemory, Text, are_distinct};
use wap_world::site::Page;

/// Whether there is a page.
fn is_there(page: &Page) -> bool
    ensures { IsTrue result ↔ IsThere page.now }
{
    match page {
        Page::Deck(_) | Page::Script(_) | Page::Words(_) | Page::Refused => true,
        Page::Missing => false,
    }
}

fn are_there(pages: &[(Text, Page)]) -> bool
    ensures { IsTrue result ↔ All (λ page. IsThere page.1) pages.now }
{
    pages.iter().all(|page| is_there(&page.1))
}

/// A copy of each name, in order.
fn names(alloc: Global, pages: &[(Text, Page)]) -> Result<Vec<Text>, NoMemory>
    ensures { IfOk result (λ names. names.items ≡ keys_of pages.now) }
{
    let mut names = Vec::new(alloc);
    for (name, _) in pages {
        names.push(name.copy(alloc)?)?;
    }
    Ok(names)
}

/// Whether these may be the pages of a site: no name stands twice, and none of them is missing.
pub fn are_site_pages(alloc: Global, pages: &[(Text, Page)]) -> Result<bool, NoMemory>
    ensures { IfOk result (λ fit. IsTrue fit ↔ AreSitePages pages.now) }
{
    let distinct = are_distinct(names(alloc, pages)?);
    Ok(distinct && are_there(pages))
}
