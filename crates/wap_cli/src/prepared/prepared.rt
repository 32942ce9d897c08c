//! Judged pages by their names.
ghost use Rattle.std.specs.Prelude.{◌≡◌};
ghost use Rattle.std.specs.Option.{option_copied};
ghost use Rattle.wap_world.specs.site.Pages.{page_under};
ghost use Rattle.wap_cli.specs.prepared.Prepared.{ArePrepared};

use crate::prepared::Shared;
use std::marker::Model;
use wap_base::{Rows, Text};
use wap_world::site::Page;

/// Judged pages that many sessions share, also in several threads. A contract sees the list of
/// them.
#[derive(Drop)]
pub struct Prepared {
    pages: Rows<(Text, Page)>,
}

impl Model for Prepared {
    ghost use Rattle.wap_tokens.specs.contracts.markup.deck.Item as item;
    ghost use Rattle.std.specs.Coded.{codes};
    ghost use Rattle.wap_world.specs.site.Pages.{Pages};
    ghost use Rattle.wap_cli.specs.prepared.Prepared.{ArePrepared};

    ghost Value = { Pages };

    ghost coded = { Prim.hlevel (codes, item.the_row.coded) };

    ghost view = { λ prepared. prepared.pages };

    ghost invariant = { λ prepared. ArePrepared prepared.pages };
}

/// The page of a name, if there is one, by a search by halves.
fn find<'a>(pages: &'a [(Text, Page)], name: &Text) -> Option<&'a Page>
    requires { ArePrepared pages.now }
    ensures { option_copied result ≡ page_under name.now pages.now }
{
    match pages.binary_search_by(|page| page.0.cmp(name)) {
        Ok(at) => Some(&pages[at].1),
        Err(_) => None,
    }
}

impl Prepared {
    /// These pages, which takes no memory.
    pub fn new(pages: Rows<(Text, Page)>) -> Prepared
        requires { ArePrepared pages }
        ensures { result ≡ pages }
    {
        Prepared { pages }
    }

    /// The pages, as a session asks for them. It takes no memory, and each session has its own.
    pub fn pages(&self) -> Shared<'_>
        ensures { result ≡ self.now }
    {
        Shared::new(self)
    }

    /// The page of a name, if there is one.
    pub(crate) fn page(&self, name: &Text) -> Option<&Page>
        ensures page { option_copied result ≡ page_under name.now self.now }
        ensures prepared { ArePrepared self.now }
    {
        find(self.pages.as_slice(), name)
    }
}
