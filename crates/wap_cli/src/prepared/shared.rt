//! Pages that a session shares with others.
ghost use Rattle.std.specs.Prelude.{◌≡◌, [], ◌∷◌, IfOk, OnOk, IfErr, IsErrOf};
ghost use Rattle.wap_world.specs.site.Pages.{Pages as JudgedPages, page_of, AreSitePages};
ghost use Rattle.wap_world.specs.site.Asking.{MayBe, Stays, Asks, Fails, in_memory};

use crate::prepared::Prepared;
use std::alloc::Global;
use std::marker::Model;
use wap_base::{RunErr, Text};
use wap_world::site::{Page, Pages};

/// Prepared pages, lent to a session. A contract sees the list of them.
#[derive(Drop)]
pub struct Shared<'a> {
    prepared: &'a Prepared,
}

impl<'a> Model for Shared<'a> {
    ghost use Rattle.wap_tokens.specs.contracts.markup.deck.Item as item;
    ghost use Rattle.std.specs.Coded.{codes};
    ghost use Rattle.wap_world.specs.site.Pages.{Pages as Site};

    ghost Value = { Site };

    ghost coded = { Prim.hlevel (codes, item.the_row.coded) };

    ghost view = { λ shared. shared.prepared.now };
}

impl<'a> Shared<'a> {
    /// These pages, lent.
    pub(crate) fn new(prepared: &'a Prepared) -> Shared<'a>
        ensures { result ≡ prepared.now }
    {
        Shared { prepared }
    }
}

impl<'a> Pages for Shared<'a> {
    ghost seen = { in_memory };

    fn page(&mut self, _alloc: Global, name: &Text, fresh: bool) -> Result<Page, RunErr>
        ensures found { IfOk result (λ page. (pages : JudgedPages)
            → MayBe (in_memory self.new) pages → page ≡ page_of name.now pages) }
        ensures site { (pages : JudgedPages) → MayBe (in_memory self.new) pages
            → AreSitePages pages }
        ensures same { self.new ≡ self.old }
        ensures never { IfErr result (λ fault. fault ≡ RunErr.NoMemory) }
        ensures asks { OnOk result
            (Asks ((name.now, fresh) ∷ []) (in_memory self.old) (in_memory self.new)) }
        ensures failed { IsErrOf result RunErr.Store
            → Fails ((name.now, fresh) ∷ []) (in_memory self.old) (in_memory self.new) }
        ensures stays { Stays (in_memory self.old) (in_memory self.new) }
    {
        match self.prepared.page(name) {
            Some(page) => Ok(page.share()?),
            None => Ok(Page::Missing),
        }
    }
}
