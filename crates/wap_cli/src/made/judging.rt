//! How many pages are accepted.
ghost use Rattle.std.specs.Prelude.{◌≡◌, ◌≤◌, ◌∷◌, [], if◌then◌else◌};
ghost use Rattle.std.specs.Prelude.{IfOk, OnOk, length};
ghost use Rattle.wap_base.specs.Contents.{names_of};
ghost use Rattle.wap_world.specs.site.Asking.{MayBe, Stays};
ghost use Rattle.wap_world.specs.site.Pages.{Pages as JudgedPages};
ghost use Rattle.wap_cli.specs.made.inside.Counting.{is_accepted, accepted_in};

use std::alloc::Global;
use wap_base::{Bytes, NoMemory, RunErr, Text};
use wap_world::site::{Page, Pages};

/// The names of pages.
pub(crate) fn names_in(alloc: Global, pages: &[(Text, Bytes)]) -> Result<Vec<Text>, NoMemory>
    ensures { IfOk result (λ names. names.items ≡ names_of pages.now) }
{
    let mut names = Vec::with_capacity(alloc, pages.len())?;
    for page in pages {
        names.push(page.0.copy(alloc)?)?;
    }
    Ok(names)
}

/// Whether a page is accepted.
fn is_accepted(page: &Page) -> bool
    ensures { result ≡ is_accepted page.now }
{
    match page {
        Page::Deck(_) | Page::Script(_) | Page::Words(_) => true,
        Page::Refused | Page::Missing => false,
    }
}

/// 1 for what is accepted, and else 0.
fn as_count(accepted: bool) -> usize
    ensures count { result ≡ (if accepted then 1 else 0) }
    ensures few { result ≤ 1 }
{
    if accepted { 1 } else { 0 }
}

/// 1 where the page of a name is accepted, and else 0.
fn count_one<P: Pages>(alloc: Global, pages: &mut P, name: &Text) -> Result<usize, RunErr>
    ensures count { IfOk result (λ count. (known : JudgedPages) → MayBe (P.seen pages.new) known
        → count ≡ length (accepted_in known (name.now ∷ []))) }
    ensures few { IfOk result (λ count. count ≤ 1) }
    ensures stays { Stays (P.seen pages.old) (P.seen pages.new) }
{
    let page = pages.page(alloc, name, false)?;
    Ok(as_count(is_accepted(&page)))
}

/// How many of the pages of these names are accepted.
pub(crate) fn count_accepted<P: Pages>(
    alloc: Global,
    pages: &mut P,
    names: &[Text],
) -> Result<usize, RunErr>
    ensures count { IfOk result (λ count. (known : JudgedPages) → MayBe (P.seen pages.new) known
        → count ≡ length (accepted_in known names.now)) }
    ensures stays { OnOk result (Stays (P.seen pages.old) (P.seen pages.new)) }
{
    let mut count = 0usize;
    for name in names {
        count += count_one(alloc, pages, name)?;
    }
    Ok(count)
}
