//! Why a text may or may not stand in its place: names in order, and URLs of entries.
ghost use Rattle.std.specs.Prelude.{◌≡◌, Ok, IfOk};
ghost use Rattle.wap_base.specs.Names.{is_name};
ghost use Rattle.wap_base.specs.Texts.{is_same_text};
ghost use Rattle.wap_image.specs.Items.{http, is_head, is_after, is_next_name, is_entry};
ghost use Rattle.wap_image.specs.Items.{is_text_of, is_entry_text};

use crate::kind::{FORMAT, LETTER_I, LETTER_W};
use std::alloc::Global;
use wap_base::{NoMemory, Text, is_name};
use wap_url::{Url, UrlFault, print};

/// Whether these are the bytes with which an image begins.
pub(crate) fn is_head(bytes: &[u8]) -> bool
    ensures { result ≡ is_head bytes.now }
{
    bytes == [LETTER_W, LETTER_I, FORMAT].as_slice()
}

/// Whether a variable may have this name after these.
pub(crate) fn is_next_name(before: &[(Text, Text)], name: &Text) -> bool
    ensures { result ≡ is_next_name before.now name.now }
{
    is_name_text(name) && is_after(before, name)
}

/// Whether it is the name of a variable.
fn is_name_text(name: &Text) -> bool
    ensures { result ≡ is_name name.now }
{
    is_name(name.as_str().as_bytes())
}

/// Whether the name comes after that of the last of these variables, if there are some.
fn is_after(before: &[(Text, Text)], name: &Text) -> bool
    ensures { result ≡ is_after before.now name.now }
{
    match before.split_last() {
        Some((last, _)) => last.0.cmp(name).is_lt(),
        None => true,
    }
}

/// Whether the text is how the URL of an entry is written.
pub(crate) fn is_entry_text(alloc: Global, text: &Text) -> Result<bool, NoMemory>
    ensures { IfOk result (λ is. is ≡ is_entry_text text.now) }
{
    match Url::read(alloc, text) {
        Ok(url) => is_written_so(alloc, &url, text),
        Err(UrlFault::NoMemory) => Err(NoMemory),
        Err(UrlFault::BadChar { .. }) => Ok(false),
        Err(UrlFault::BadScheme) => Ok(false),
        Err(UrlFault::BadHost) => Ok(false),
        Err(UrlFault::BadPort) => Ok(false),
    }
}

/// Whether the text is how this URL is written, and it may be that of an entry.
fn is_written_so(alloc: Global, url: &Url, text: &Text) -> Result<bool, NoMemory>
    ensures { IfOk result (λ is. is ≡ is_text_of text.now (Ok url.now)) }
{
    if !is_entry(url) {
        return Ok(false);
    }
    Ok(print(alloc, url)? == *text)
}

/// Whether it is a URL of http with a host and without a fragment.
fn is_entry(url: &Url) -> bool
    ensures { result ≡ is_entry url.now }
{
    match &url.scheme {
        Some(scheme) => is_http(scheme) && url.host.is_some() && !url.fragment.is_some(),
        None => false,
    }
}

fn is_http(scheme: &Text) -> bool
    ensures { result ≡ is_same_text scheme.now http }
{
    scheme.as_str() == "http"
}
