//! What a go asks for (WAP-191, sections 9.5.1 and 9.3).
ghost use Rattle.std.specs.Prelude.{◌≡◌, None, if◌then◌else◌, IfOk};
ghost use Rattle.std.specs.Option.{option_map};
ghost use Rattle.wap_url.specs.Relative.{relative_form};
ghost use Rattle.wap_world.specs.Requests.{form_text, url_with, plain_get, request_of};

use crate::requests::forms::{form_text, query_before};
use std::alloc::Global;
use std::marker::Model;
use wap_base::{NoMemory, Text};
use wap_cardrules::Go;
use wap_url::{Url, relative};

/// What is asked for.
#[derive(Drop)]
pub struct Request {
    /// Where the page stands.
    pub url: Url,
    /// The body of a post; without one it is a get.
    pub body: Option<Text>,
    /// The URL of the deck from which it is asked for, if that is to be known.
    pub referer: Option<Text>,
    /// Whether the page is fetched anew.
    pub fresh: bool,
}

impl Model for Request {
    ghost use Rattle.wap_world.specs.Requests.{Request as Asked};

    ghost Value = { Asked };

    ghost view = { λ request. record {
      url = request.url;
      body = request.body;
      referer = request.referer;
      fresh = request.fresh;
    } };
}

/// A URL with postfields, if there are some, after its query.
fn url_with(alloc: Global, url: Url, posts: &[(Text, Text)]) -> Result<Url, NoMemory>
    ensures { IfOk result (λ whole. whole ≡ url_with url posts.now) }
{
    if posts.is_empty() {
        return Ok(url);
    }
    let form = form_text(alloc, posts)?;
    let mut whole = url;
    whole.query = Some(query_before(alloc, &whole.query, form)?);
    Ok(whole)
}

/// A get of a page, and nothing more.
pub fn plain_get(url: Url) -> Request
    ensures { result ≡ plain_get url }
{
    Request {
        url,
        body: None,
        referer: None,
        fresh: false,
    }
}

/// The URL of the deck as seen from the page, if it is to be known.
fn referer_of(
    alloc: Global,
    told: bool,
    page: &Url,
    base: &Option<Url>,
) -> Result<Option<Text>, NoMemory>
    ensures { IfOk result (λ referer. referer
        ≡ if told then option_map (relative_form page.now) base.now else None) }
{
    match base {
        Some(base) if told => Ok(Some(relative(alloc, page, base)?)),
        Some(_) | None => Ok(None),
    }
}

/// What a go asks for from a deck's URL, whose own URL is already joined.
pub fn request_of(alloc: Global, base: &Option<Url>, go: &Go, url: Url) -> Result<Request, NoMemory>
    ensures { IfOk result (λ request. request ≡ request_of base.now go.now url) }
{
    let (url, body) = if go.post {
        (url, Some(form_text(alloc, go.posts.as_slice())?))
    } else {
        (url_with(alloc, url, go.posts.as_slice())?, None)
    };
    let referer = referer_of(alloc, go.referer, &url, base)?;
    Ok(Request {
        url,
        body,
        referer,
        fresh: go.fresh,
    })
}
