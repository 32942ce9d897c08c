//! Pages of one's own: what a caller owes to a session.
ghost use Rattle.std.specs.Prelude.{◌≡◌, [], ◌∷◌, IfOk, OnOk, IfErr, IsErrOf};
ghost use Rattle.std.specs.Option.{option_copied};
ghost use Rattle.wap_world.specs.site.Pages.{Pages as JudgedPages, page_under, page_of};
ghost use Rattle.wap_world.specs.site.Pages.{AreSitePages};
ghost use Rattle.wap_world.specs.site.Asking.{MayBe, Stays, Asks, Fails, in_memory};

use std::alloc::Global;
use std::marker::Model;
use wap_base::{NoMemory, RunErr, Text};
use wap_world::site::{Page, Pages};

/// Pages in memory, by their names. No name stands twice, and none of them is missing.
#[derive(Drop)]
pub struct Shelf {
    pages: Vec<(Text, Page)>,
}

impl Model for Shelf {
    ghost use Rattle.wap_tokens.specs.contracts.markup.deck.Item as item;
    ghost use Rattle.std.specs.Coded.{codes};
    ghost use Rattle.wap_world.specs.site.Pages.{Pages as Site, AreSitePages};

    ghost Value = { Site };

    ghost coded = { Prim.hlevel (codes, item.the_row.coded) };

    ghost view = { λ shelf. shelf.pages.items };

    ghost invariant = { λ shelf. AreSitePages shelf.pages.items };
}

impl Shelf {
    /// These pages.
    pub fn new(pages: Vec<(Text, Page)>) -> Shelf
        requires { AreSitePages pages.items }
        ensures { result ≡ pages.items }
    {
        Shelf { pages }
    }
}

/// The page of a name, if there is one.
fn find<'a>(pages: &'a [(Text, Page)], name: &Text) -> Option<&'a Page>
    ensures { option_copied result ≡ page_under name.now pages.now }
{
    for (page_name, page) in pages {
        if page_name == name {
            return Some(page);
        }
    }
    None
}

/// What the pages answer for a name; they share the page, and copy none of it.
fn answer(pages: &[(Text, Page)], name: &Text) -> Result<Page, NoMemory>
    ensures { IfOk result (λ page. page ≡ page_of name.now pages.now) }
{
    match find(pages, name) {
        Some(page) => page.share(),
        None => Ok(Page::Missing),
    }
}

impl Pages for Shelf {
    ghost seen = { in_memory };

    fn page(&mut self, _alloc: Global, name: &Text, fresh: bool) -> Result<Page, RunErr>
        ensures found { IfOk result (λ page. (pages : JudgedPages) → MayBe (in_memory self.new) pages
            → page ≡ page_of name.now pages) }
        ensures site { (pages : JudgedPages) → MayBe (in_memory self.new) pages
            → AreSitePages pages }
        ensures same { self.new ≡ self.old }
        ensures never { IfErr result (λ fault. fault ≡ RunErr.NoMemory) }
        ensures asks { OnOk result
            (Asks ((name.now, fresh) ∷ []) (in_memory self.old) (in_memory self.new)) }
        ensures failed { IsErrOf result RunErr.Store
            → Fails ((name.now, fresh) ∷ []) (in_memory self.old) (in_memory self.new) }
        ensures stays { Stays (in_memory self.old) (in_memory self.new) }
    {
        Ok(answer(self.pages.as_slice(), name)?)
    }
}
