//! The page of the current card's deck.
ghost use Rattle.std.specs.Prelude.{◌≡◌, ◌<◌, ◌^◌, true, false, length, map, IfOk, Ok};
ghost use Rattle.std.specs.Option.{option_to_list};
ghost use Rattle.wap_url.specs.declared.url.Url.{Url};
ghost use Rattle.wap_url.specs.Calculation.{url_at};
ghost use Rattle.wap_url.specs.Printing.{name_for};
ghost use Rattle.wap_image.specs.Items.{is_entry_text};
ghost use Rattle.wap_image.specs.Rules.{AreParts};
ghost use Rattle.wap_context.specs.Saved.{asked_for};
ghost use Rattle.wap_cli.specs.resume.inside.Loading.{IsDeckFault, RefusesDeck};

use crate::Status;
use std::alloc::Global;
use wap_base::{NoMemory, Text};
use wap_context::ContextParts;
use wap_devices::{Fetched, Store, StoreErr};
use wap_pages::{PageErr, PageFault, judge};
use wap_url::{Url, UrlFault, name_of};

/// The name of the page of a URL that an entry has.
fn page_name(alloc: Global, text: &Text) -> Result<Text, NoMemory>
    requires { is_entry_text text.now ≡ true }
    ensures { IfOk result (λ name. (url : Url) → url_at text.now ≡ Ok url → name ≡ name_for url) }
{
    match Url::read(alloc, text) {
        Ok(url) => name_of(alloc, &url),
        Err(UrlFault::NoMemory) => Err(NoMemory),
        Err(UrlFault::BadChar { .. }) => unreachable!(),
        Err(UrlFault::BadScheme) => unreachable!(),
        Err(UrlFault::BadHost) => unreachable!(),
        Err(UrlFault::BadPort) => unreachable!(),
    }
}

/// The name of the page with the current card's deck, if there is a card.
pub(crate) fn deck_name(alloc: Global, parts: &ContextParts) -> Result<Option<Text>, NoMemory>
    requires { AreParts parts.now }
    ensures { IfOk result (λ name.
        asked_for parts.now ≡ map (λ one. (one, false)) (option_to_list name)) }
{
    match parts.history.as_slice().split_last() {
        Some((entry, _)) => Ok(Some(page_name(alloc, &entry.0)?)),
        None => Ok(None),
    }
}

/// How a command ends whose page with these bytes is no deck.
fn judge_deck(alloc: Global, name: &Text, bytes: &[u8]) -> Status
    requires { length bytes.now < 2 ^ 31 }
    ensures { IsDeckFault name.now bytes.now result }
{
    match judge(alloc, name, bytes) {
        Ok(_) => Status::Refused(PageFault::NotDeck),
        Err(PageErr::Refused(fault)) => Status::Refused(fault),
        Err(PageErr::NoMemory) => Status::NoMemory,
    }
}

/// How a command ends whose page of this name is no deck: the page is fetched, and judged for its
/// fault.
pub(crate) fn refuse_deck<S: Store>(alloc: Global, name: &Text, store: &mut S) -> Status
    ensures { RefusesDeck name.now (S.seen store.old) (S.seen store.new) result }
{
    match store.fetch(name) {
        Ok(Fetched::Found(bytes)) => judge_deck(alloc, name, bytes.as_slice()),
        Ok(Fetched::Missing) => Status::Refused(PageFault::Missing),
        Err(StoreErr::Failed) => Status::StoreFault,
        Err(StoreErr::NoMemory) => Status::NoMemory,
    }
}
