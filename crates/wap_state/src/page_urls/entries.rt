//! The entries of a history (WAP-191, section 9.2).
ghost use Rattle.std.specs.Prelude.{◌≡◌, None, IfOk};
ghost use Rattle.wap_world.specs.History.{entry_of};
ghost use Rattle.wap_state.specs.page_urls.PageUrls.{IsPageEntry};

use crate::page_urls::page_url::PageUrl;
use std::alloc::Global;
use std::marker::Model;
use wap_base::NoMemory;
use wap_url::Url;

/// A card that was entered, by the URL of its deck, which has no fragment. A contract sees the
/// entry.
#[derive(Drop)]
pub struct PageEntry {
    url: PageUrl,
    card: usize,
}

impl Model for PageEntry {
    ghost use Rattle.std.specs.Prelude.{◌≡◌, None};
    ghost use Rattle.wap_world.specs.declared.history.Entry.{Entry};

    ghost Value = { Entry };

    ghost view = { λ entry. record { url = entry.url; card = entry.card } };

    ghost invariant = { λ entry. entry.url.fragment ≡ None };
}

impl PageEntry {
    /// The entry of a card that was reached by a URL.
    pub fn of(url: PageUrl, card: usize) -> PageEntry
        ensures { result ≡ entry_of url card }
    {
        PageEntry {
            url: url.without_fragment(),
            card,
        }
    }

    /// The rules that each entry keeps, for those who rest a proof on them. It does nothing.
    pub fn keep_rules(&self)
        ensures { IsPageEntry self.now }
    {
        let _page = self.url.as_url();
    }

    /// The URL of the deck.
    pub fn url(&self) -> &Url
        ensures { result.now ≡ self.now.url }
    {
        self.url.as_url()
    }

    /// A copy of the URL of the deck.
    pub fn copy_url(&self, alloc: Global) -> Result<PageUrl, NoMemory>
        ensures is { IfOk result (λ url. url ≡ self.now.url) }
        ensures whole { self.now.url.fragment ≡ None }
    {
        self.url.copy(alloc)
    }

    /// The number of the card in the deck, from 0.
    pub fn card(&self) -> usize
        ensures { result ≡ self.now.card }
    {
        self.card
    }

    /// The entry with another card of the deck.
    pub fn with_card(self, card: usize) -> PageEntry
        ensures { result ≡ record self { card = card } }
    {
        let PageEntry { url, card: _ } = self;
        PageEntry { url, card }
    }

    /// A copy of the entry.
    pub fn copy(&self, alloc: Global) -> Result<PageEntry, NoMemory>
        ensures { IfOk result (λ copy. copy ≡ self.now) }
    {
        Ok(PageEntry {
            url: self.url.copy(alloc)?,
            card: self.card,
        })
    }
}
