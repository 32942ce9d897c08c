//! What a go or an open asks for (WAP-191, sections 9.5.1 and 9.3).
ghost use Rattle.std.specs.Prelude.{◌≡◌, IfOk};
ghost use Rattle.wap_world.specs.Requests.{plain_get, request_of};

use crate::page_urls::page_url::PageUrl;
use crate::requests::{Request, plain_get, request_of};
use std::alloc::Global;
use std::marker::Model;
use wap_base::NoMemory;
use wap_cardrules::Go;
use wap_url::Url;

/// A request for a page. A contract sees the request.
#[derive(Drop)]
pub struct PageRequest {
    request: Request,
}

impl Model for PageRequest {
    ghost use Rattle.wap_world.specs.Requests.{Request};
    ghost use Rattle.wap_state.specs.page_urls.PageUrls.{IsPageUrl};

    ghost Value = { Request };

    ghost view = { λ page. page.request };

    ghost invariant = { λ page. IsPageUrl page.request.url };
}

impl PageRequest {
    /// A get of a page, and nothing more.
    pub fn get(url: PageUrl) -> PageRequest
        ensures { result ≡ plain_get url }
    {
        PageRequest {
            request: plain_get(url.into_url()),
        }
    }

    /// What a go asks for from a deck's URL, whose own URL is already joined.
    pub fn of(
        alloc: Global,
        base: &Option<Url>,
        go: &Go,
        url: PageUrl,
    ) -> Result<PageRequest, NoMemory>
        ensures { IfOk result (λ request. request ≡ request_of base.now go.now url) }
    {
        Ok(PageRequest {
            request: request_of(alloc, base, go, url.into_url())?,
        })
    }

    /// The request.
    pub fn as_request(&self) -> &Request
        ensures { result.now ≡ self.now }
    {
        &self.request
    }

    /// The URL of a page with the fragment of that which is asked for.
    #[tactic(auto, using(crate::proofs::PageUrlsLemmas::Queries::page_fragment))]
    pub fn fragment_on(self, page: PageUrl) -> PageUrl
        ensures { result ≡ record page { fragment = self.url.fragment } }
    {
        page.with_fragment_of(self.into_url())
    }

    /// The URL of the page.
    pub fn into_url(self) -> PageUrl
        ensures { result ≡ self.url }
    {
        let PageRequest { request } = self;
        PageUrl::of(request.url)
    }
}
