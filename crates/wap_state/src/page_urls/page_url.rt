//! URLs of pages (WAP-191, section 9.5.1).
ghost use Rattle.std.specs.Prelude.{◌≡◌, IfOk, IfSome};
ghost use Rattle.wap_url.specs.Printing.{without_fragment};
ghost use Rattle.wap_world.specs.Urls.{target_of};
ghost use Rattle.wap_state.specs.page_urls.PageUrls.{IsPageUrl};

use crate::requests::target as target_from;
use std::alloc::Global;
use std::marker::Model;
use wap_base::{NoMemory, Text};
use wap_url::Url;
use wap_world::Refusal;

/// The URL of a page: of http and with a host, and its text is read as this URL again. A contract
/// sees the URL.
#[derive(Drop)]
pub struct PageUrl {
    url: Url,
}

impl Model for PageUrl {
    ghost use Rattle.wap_url.specs.declared.url.Url.{Url};
    ghost use Rattle.wap_state.specs.page_urls.PageUrls.{IsPageUrl};

    ghost Value = { Url };

    ghost view = { λ page. page.url };

    ghost invariant = { λ page. IsPageUrl page.url };
}

impl PageUrl {
    /// A URL that is one of a page.
    pub fn of(url: Url) -> PageUrl
        requires { IsPageUrl url }
        ensures { result ≡ url }
    {
        PageUrl { url }
    }

    /// The URL.
    pub fn as_url(&self) -> &Url
        ensures same { result.now ≡ self.now }
        ensures page { IsPageUrl self.now }
    {
        &self.url
    }

    /// The URL, by itself.
    pub fn into_url(self) -> Url
        ensures same { result ≡ self }
        ensures page { IsPageUrl result }
    {
        let PageUrl { url } = self;
        url
    }

    /// A copy of the URL, by itself.
    pub fn to_url(&self, alloc: Global) -> Result<Url, NoMemory>
        ensures { IfOk result (λ url. url ≡ self.now) }
    {
        self.url.copy(alloc)
    }

    /// A copy of the URL.
    pub fn copy(&self, alloc: Global) -> Result<PageUrl, NoMemory>
        ensures { IfOk result (λ copy. copy ≡ self.now) }
    {
        Ok(PageUrl {
            url: self.url.copy(alloc)?,
        })
    }

    /// The URL without its fragment.
    #[tactic(auto, using(crate::proofs::PageUrlsLemmas::Queries::page_fragment))]
    pub fn without_fragment(self) -> PageUrl
        ensures { result ≡ without_fragment self }
    {
        let PageUrl { mut url } = self;
        url.fragment = None;
        PageUrl { url }
    }

    /// The URL with the fragment of another.
    #[tactic(auto, using(crate::proofs::PageUrlsLemmas::Queries::page_fragment))]
    pub fn with_fragment_of(self, other: PageUrl) -> PageUrl
        ensures { result ≡ record self { fragment = other.fragment } }
    {
        let PageUrl { mut url } = self;
        let PageUrl { url: other } = other;
        url.fragment = other.fragment;
        PageUrl { url }
    }
}

/// The URL of a page, if there is one, by itself.
pub fn plain(page: Option<PageUrl>) -> Option<Url>
    ensures same { result ≡ page }
    ensures page { IfSome result IsPageUrl }
{
    match page {
        Some(page) => Some(page.into_url()),
        None => None,
    }
}

/// The URL that a go or an open leads to from that of a page, or why it leads to no page.
pub fn target(
    alloc: Global,
    base: &Option<Url>,
    href: &Text,
) -> Result<Result<PageUrl, Refusal>, NoMemory>
    requires { IfSome base.now IsPageUrl }
    ensures { IfOk result (λ target. target ≡ target_of base.now href.now) }
{
    match target_from(alloc, base, href)? {
        Ok(url) => Ok(Ok(PageUrl::of(url))),
        Err(refusal) => Ok(Err(refusal)),
    }
}
