//! Documents read as indications.
ghost use Rattle.std.specs.Prelude.{◌≡◌, ◌≢◌, Some, IfOk, IfErr};
ghost use Rattle.std.specs.Option.{option_copied};
ghost use Rattle.wap_base.specs.Outcome.{Meets};
ghost use Rattle.wap_push.specs.Fields.{elements_of, created_of};
ghost use Rattle.wap_push.specs.Indications.{is_info, IsIndication, IsRefused};
ghost use Rattle.wap_push.specs.Calculation.{body_in, dated, indication_of};

use crate::content::{content_text, is_plain, is_tagged, split_element};
use crate::fault::PushFault;
use crate::fields::{action_of, created_of, href_of, identifier_of};
use crate::indication::Indication;
use crate::names::PushTag;
use std::alloc::Global;
use wap_tokens::markup::{Document, Element, Kid};

/// Whether the elements in content are at most one `info`.
fn is_info(kids: &[Kid]) -> bool
    ensures { result ≡ is_info (elements_of kids.now) }
{
    match split_element(kids) {
        Some((info, rest)) => is_tagged(PushTag::Info, info) && is_plain(rest),
        None => true,
    }
}

/// The indication's element in the content of the root, if the elements there are as they have to
/// be.
fn body_in(kids: &[Kid]) -> Option<&Element>
    ensures { option_copied result ≡ body_in (elements_of kids.now) }
{
    let (body, rest) = split_element(kids)?;
    if is_tagged(PushTag::Indication, body) && is_info(rest) && is_plain(body.kids.as_slice()) {
        Some(body)
    } else {
        None
    }
}

/// The indication of an element, which was made at this time.
fn dated(alloc: Global, body: &Element, created: u64) -> Result<Indication, PushFault>
    ensures { Meets PushFault.NoMemory (λ pushed. pushed) result
        (dated body.now (Some created)) }
{
    let attrs = body.attrs.as_slice();
    let href = href_of(alloc, attrs)?;
    let Some(id) = identifier_of(alloc, attrs, &href)? else {
        return Err(PushFault::NoId);
    };
    Ok(Indication {
        id,
        href,
        created,
        action: action_of(attrs),
        text: content_text(alloc, body.kids.as_slice())?,
    })
}

/// The indication that a document is. What is passed over: literal names, codes of other pages and
/// those of no meaning, extensions, opaque data but for the time, `info`, `si-expires` and `class`.
pub fn indication_of(alloc: Global, document: &Document) -> Result<Indication, PushFault>
    ensures exact { Meets PushFault.NoMemory (λ pushed. pushed) result
        (indication_of document.now) }
    ensures indication { IfOk result (λ pushed. IsIndication document.now pushed) }
    ensures fault { IfErr result (λ fault. fault ≢ PushFault.NoMemory
        → IsRefused document.now fault) }
{
    if !is_tagged(PushTag::Si, &document.root) {
        return Err(PushFault::Root);
    }
    let Some(body) = body_in(document.root.kids.as_slice()) else {
        return Err(PushFault::Child);
    };
    let Some(created) = created_of(body.attrs.as_slice()) else {
        return Err(PushFault::Created);
    };
    dated(alloc, body, created)
}
