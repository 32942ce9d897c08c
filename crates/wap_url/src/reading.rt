//! Reading a text as a URL.
ghost use Rattle.std.specs.Prelude.{◌≡◌, ◌≢◌, not, false, true, None, IfOk};
ghost use Rattle.std.specs.Prelude.{IfErr, Ok, Err, encode_utf8_all};
ghost use Rattle.std.specs.Option.{option_and_then, option_copied};
ghost use Rattle.wap_base.specs.Outcome.{Meets};
ghost use Rattle.wap_base.specs.Cuts.{begins_with, until, onward};
ghost use Rattle.wap_url.specs.Characters.{is_hash};
ghost use Rattle.wap_url.specs.UrlParts.{url_of, port_number, is_port};
ghost use Rattle.wap_url.specs.Calculation.{url_at, is_stop, has_bad_char, fragment_of};
ghost use Rattle.wap_url.specs.Calculation.{fault_of, passes_if_there};
ghost use Rattle.wap_url.specs.inside.Slices.{parts_in};

use crate::checks::{fault_in, number_of};
use crate::cut::{Cut, cut_at};
use crate::parts::{Slices, cut_parts};
use crate::texts::{lowered_part, text_of, text_of_part};
use crate::{Url, UrlFault};
use std::alloc::Global;
use wap_base::{NoMemory, Text};

impl Url {
    ghost use Rattle.wap_url.specs.declared.url.Url.{Url};
    ghost use Rattle.wap_url.specs.declared.fault.UrlFault.{UrlFault};
    ghost use Rattle.wap_url.specs.UrlParts.{IsUrl};
    ghost use Rattle.wap_url.specs.Refusal.{IsRefused};
    ghost use Rattle.wap_url.specs.Printing.{IsNormal};

    /// Reads a text as a URL or a reference (RFC 2396, appendix B). Scheme and host are put in
    /// lower case.
    pub fn read(alloc: Global, text: &Text) -> Result<Url, UrlFault>
        ensures exact { Meets UrlFault.NoMemory (λ url. url) result (url_at text.now) }

        // The URL is the text's, and a text that has one is read.
        ensures found { IfOk result (IsUrl text.now) }
        ensures only { (url : Url) → IsUrl text.now url
            → Meets UrlFault.NoMemory (λ url. url) result (Ok url) }

        // The fault is the text's first, and a text that has one is refused by it.
        ensures refused { IfErr result
            (λ fault. fault ≢ UrlFault.NoMemory → IsRefused text.now fault) }
        ensures first { (fault : UrlFault) → IsRefused text.now fault
            → Meets UrlFault.NoMemory (λ url. url) result (Err fault) }

        // So its text is read as the same URL again.
        ensures normal { IfOk result IsNormal }
    {
        let (front, onward) = cut_at(text.as_str().as_bytes(), Cut::Fragment);
        if is_bad(onward) {
            return Err(UrlFault::BadChar { at: front.len() });
        }
        let slices = cut_parts(front);
        if let Some(fault) = fault_in(&slices) {
            return Err(fault);
        }
        let fragment = copy_fragment(alloc, text, front, onward)?;
        Ok(url_of(alloc, &slices, fragment)?)
    }
}

/// Whether what follows a prefix begins with a character that is no `#`.
fn is_bad(onward: &[u8]) -> bool
    ensures { result ≡ begins_with (λ c. not (is_hash c)) onward.now }
{
    match onward {
        [] => false,
        [first, ..] => *first != b'#',
    }
}

/// The fragment of a text whose prefix and what follows it are known.
fn copy_fragment(
    alloc: Global,
    text: &Text,
    front: &[u8],
    rest: &[u8],
) -> Result<Option<Text>, NoMemory>
    requires good { has_bad_char text.now ≡ false }
    requires before { front.now ≡ until is_stop (encode_utf8_all text.now) }
    requires after { rest.now ≡ onward is_stop (encode_utf8_all text.now) }
    ensures { IfOk result (λ fragment. fragment ≡ fragment_of text.now) }
{
    if rest.is_empty() {
        return Ok(None);
    }
    let whole = text.as_str();
    Ok(Some(Text::of(alloc, &whole[front.len() + 1..])?))
}

/// The URL of what stands before a fragment.
fn url_of(alloc: Global, slices: &Slices<'_>, fragment: Option<Text>) -> Result<Url, NoMemory>
    requires { fault_of (parts_in slices.now None) ≡ None }
    ensures { IfOk result (λ url. url ≡ url_of (parts_in slices.now fragment)) }
{
    Ok(Url {
        scheme: lowered_part(alloc, slices.scheme)?,
        host: lowered_part(alloc, slices.host)?,
        port: port(slices),
        path: text_of(alloc, slices.path)?,
        query: text_of_part(alloc, slices.query)?,
        fragment,
    })
}

fn port(slices: &Slices<'_>) -> Option<u16>
    requires { fault_of (parts_in slices.now None) ≡ None }
    ensures { result ≡ option_and_then port_number (option_copied slices.now.port) }
{
    port_of(slices.port?)
}

fn port_of(digits: &[u8]) -> Option<u16>
    requires { is_port digits.now ≡ true }
    ensures { result ≡ port_number digits.now }
{
    if digits.is_empty() {
        return None;
    }
    Some(number_of(digits) as u16)
}
