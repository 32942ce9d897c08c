//! The URL of a go or an open (WAP-191, section 9.5.1).
ghost use Rattle.std.specs.Prelude.{◌≡◌, Ok, IfOk, unwrap_or};
ghost use Rattle.wap_url.specs.Joining.{joined};
ghost use Rattle.wap_url.specs.Printing.{text_without_fragment};
ghost use Rattle.wap_world.specs.Urls.{has_other_scheme, page_url, target_of, is_same_page};

use std::alloc::Global;
use wap_base::{NoMemory, Text};
use wap_url::{Url, UrlFault, join, print};
use wap_world::Refusal;

/// The URL as text, without its fragment.
pub fn page_text(alloc: Global, url: &Url) -> Result<Text, NoMemory>
    ensures { IfOk result (λ text. text ≡ text_without_fragment url.now) }
{
    let mut page = url.copy(alloc)?;
    page.fragment = None;
    print(alloc, &page)
}

/// Whether two URLs are those of one page, whatever their fragments.
pub fn is_same_page(alloc: Global, a: &Url, b: &Url) -> Result<bool, NoMemory>
    ensures { IfOk result (λ is_so. is_so ≡ is_same_page a.now b.now) }
{
    let text = page_text(alloc, a)?;
    let other = page_text(alloc, b)?;
    Ok(text == other)
}

/// Whether there is a scheme, and it isn't http.
fn has_other_scheme(url: &Url) -> bool
    ensures { result ≡ has_other_scheme url.now }
{
    match &url.scheme {
        Some(scheme) => scheme.as_str() != "http",
        None => false,
    }
}

/// A URL that is one of a page, by its scheme and with a host.
pub fn page_url(url: Url) -> Result<Url, Refusal>
    ensures { result ≡ page_url url }
{
    if has_other_scheme(&url) {
        return Err(Refusal::Scheme);
    }
    if url.scheme.is_none() || url.host.is_none() {
        return Err(Refusal::Url);
    }
    Ok(url)
}

/// The URL that a reference stands for; without a base it is joined to itself.
fn join_to(alloc: Global, base: &Option<Url>, reference: &Url) -> Result<Url, NoMemory>
    ensures { IfOk result (λ url. url ≡ joined (unwrap_or base.now reference.now) reference.now) }
{
    match base {
        Some(base) => join(alloc, base, reference),
        None => join(alloc, reference, reference),
    }
}

/// The URL that a go or an open leads to from a deck's URL, or why it leads to no page.
pub fn target(
    alloc: Global,
    base: &Option<Url>,
    href: &Text,
) -> Result<Result<Url, Refusal>, NoMemory>
    ensures { IfOk result (λ target. target ≡ target_of base.now href.now) }
{
    match Url::read(alloc, href) {
        Ok(reference) => Ok(page_url(join_to(alloc, base, &reference)?)),
        Err(UrlFault::NoMemory) => Err(NoMemory),
        Err(UrlFault::BadChar { at: _ }) => Ok(Err(Refusal::Url)),
        Err(UrlFault::BadScheme | UrlFault::BadHost | UrlFault::BadPort) => Ok(Err(Refusal::Url)),
    }
}
