//! Asking for a page.
ghost use Rattle.std.specs.Prelude.{◌≡◌, IfOk};
ghost use Rattle.wap_world.specs.Access.{may_enter};
ghost use Rattle.wap_world.specs.Requests.{plain_get};
ghost use Rattle.wap_world.specs.Tasks.{deck_or_refusal};
ghost use Rattle.wap_context.specs.host.Finding.{shelved_page};
ghost use Rattle.wap_context.specs.inside.Moving.{Asked, page_answer};

use std::alloc::Global;
use wap_base::{NoMemory, RunErr};
use wap_deck::good::GoodDeck;
use wap_layout::buffer::Lines;
use wap_state::page_urls::{PageEntry, PageRequest, PageUrl};
use wap_state::requests::{Entrance, may_enter as may_be_entered, request_line};
use wap_url::{Url, name_of};
use wap_verify::Verified;
use wap_world::Refusal;
use wap_world::site::{Page, Pages, Shared};

/// The deck that a page is, or why none is gone back to.
pub(crate) fn deck_answer(page: Page) -> Result<Shared<GoodDeck>, Refusal>
    ensures { result ≡ deck_or_refusal (shelved_page page) }
{
    match page {
        Page::Deck(deck) => Ok(deck),
        Page::Script(_) | Page::Words(_) | Page::Refused => Err(Refusal::Refused),
        Page::Missing => Err(Refusal::Missing),
    }
}

/// The deck that a page is, or why none is entered; or the script that it is.
pub(crate) fn page_answer(page: Page) -> Result<Result<Shared<GoodDeck>, Refusal>, Shared<Verified>>
    ensures { result ≡ page_answer page }
{
    match page {
        Page::Deck(deck) => Ok(Ok(deck)),
        Page::Script(unit) => Err(unit),
        Page::Words(_) | Page::Refused => Ok(Err(Refusal::Refused)),
        Page::Missing => Ok(Err(Refusal::Missing)),
    }
}

/// Whether a page may be entered from a URL.
pub(crate) fn may_enter(
    alloc: Global,
    page: &PageUrl,
    entrance: Option<Entrance>,
    caller: &Option<Url>,
) -> Result<bool, NoMemory>
    ensures { IfOk result (λ may. may ≡ may_enter page.now entrance caller.now) }
{
    may_be_entered(alloc, page.as_url(), entrance, caller)
}

/// Adds the line of a request, and asks for the page.
pub(crate) fn ask<P: Pages>(
    alloc: Global,
    pages: &mut P,
    request: &PageRequest,
    lines: &mut Lines,
) -> Result<Page, RunErr>
    ensures { Asked request.now (P.seen pages.old) (P.seen pages.new) lines.old lines.new result }
{
    let asked = request.as_request();
    lines.add(request_line(alloc, asked)?.as_str())?;
    let name = name_of(alloc, &asked.url)?;
    pages.page(alloc, &name, asked.fresh)
}

/// Adds the line of a plain request for the page of an entry, and asks for it.
pub(crate) fn ask_for<P: Pages>(
    alloc: Global,
    pages: &mut P,
    entry: &PageEntry,
    lines: &mut Lines,
) -> Result<Page, RunErr>
    ensures { Asked (plain_get entry.now.url) (P.seen pages.old)
        (P.seen pages.new) lines.old lines.new result }
{
    let request = PageRequest::get(entry.copy_url(alloc)?);
    ask(alloc, pages, &request, lines)
}
