//! Entries of an inbox.
ghost use Rattle.std.specs.Prelude.{◌≡◌, IfOk};
ghost use Rattle.wap_session.specs.notices.Taking.{url_in};

use std::alloc::Global;
use wap_base::{NoMemory, Text};
use wap_push::Inbox;

/// The URL of the entry of a number, if there is such an entry and it has one.
pub fn url_in(inbox: &Inbox, alloc: Global, number: usize) -> Result<Option<Text>, NoMemory>
    ensures { IfOk result (λ url. url ≡ url_in inbox.now number) }
{
    let Some(entry) = inbox.item(number) else {
        return Ok(None);
    };
    match &entry.href {
        Some(href) => Ok(Some(href.copy(alloc)?)),
        None => Ok(None),
    }
}
