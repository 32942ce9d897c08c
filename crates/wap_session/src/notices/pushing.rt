//! What is pushed.
ghost use Rattle.std.specs.Prelude.{◌≡◌, ◌∷◌, ◌++◌, [], IfOk, OnOk, OnErr};
ghost use Rattle.wap_push.specs.Pushes.{push_at};
ghost use Rattle.wap_push.specs.Inbox.{HaveWinners};
ghost use Rattle.wap_world.specs.inboxes.Notices.{notice_lines};
ghost use Rattle.wap_world.specs.inboxes.Inboxes.{push_lines, pushes_with};

use crate::notices::lines::{no_push_line, notice_line, one_line};
use std::alloc::Global;
use wap_base::NoMemory;
use wap_layout::buffer::Lines;
use wap_push::{Inbox, Indication, PushFault, read_push};

/// Takes an indication, and gives the line that is shown of it, if one is.
fn take(inbox: &mut Inbox, alloc: Global, pushed: Indication) -> Result<Lines, NoMemory>
    requires own { HaveWinners inbox.old inbox.old }
    ensures lines { IfOk result (λ lines. lines ≡ notice_lines inbox.old pushed) }
    ensures taken { OnOk result (HaveWinners (inbox.old ++ pushed ∷ []) inbox.new) }
    ensures kept { OnErr result (inbox.new ≡ inbox.old) }
{
    let lines = one_line(alloc, &notice_line(alloc, &pushed)?)?;
    match inbox.put(pushed) {
        Ok(true) => Ok(lines),
        Ok(false) => Ok(Lines::new(alloc)),
        Err(_) => Err(NoMemory),
    }
}

/// Takes what was pushed, if it is an indication, and gives the lines that are shown.
pub fn take_push(inbox: &mut Inbox, alloc: Global, bytes: &[u8]) -> Result<Lines, NoMemory>
    requires own { HaveWinners inbox.old inbox.old }
    ensures lines { IfOk result (λ lines. lines ≡ push_lines inbox.old (push_at bytes.now)) }
    ensures taken { OnOk result (HaveWinners (pushes_with inbox.old (push_at bytes.now)) inbox.new) }
    ensures kept { OnErr result (inbox.new ≡ inbox.old) }
{
    match read_push(alloc, bytes) {
        Ok(pushed) => take(inbox, alloc, pushed),
        Err(PushFault::NoMemory) => Err(NoMemory),
        Err(fault) => one_line(alloc, &no_push_line(alloc, fault)?),
    }
}
