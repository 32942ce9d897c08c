//! How a session stands between two keys, and what a key does there.
ghost use Rattle.std.specs.Prelude.{◌≡◌, false, map, IfOk, OnOk};
ghost use Rattle.wap_base.specs.Controls.{shown_text};
ghost use Rattle.wap_push.specs.Inbox.{HaveWinners};
ghost use Rattle.wap_context.specs.Pausing.{waits_of};
ghost use Rattle.wap_context.specs.Acting.{Acts, lines_in};
ghost use Rattle.wap_session.specs.inside.Turns.{waiting_of, is_over, resumed_rule, turn_rule};
ghost use Rattle.wap_session.specs.inside.Turns.{taken_by, IsAfter};

use crate::dots::shown_lines;
use crate::keys::press;
use crate::replies::play_in_dialog;
use std::alloc::Global;
use wap_base::{Key, NoMemory, RunErr};
use wap_context::{Context, Step, Waiting};
use wap_execution::Dialog;
use wap_layout::buffer::Lines;
use wap_push::Inbox;
use wap_world::site::Pages;

/// A dialog, and the script that goes on with its answer.
#[derive(Drop)]
pub(crate) struct Asked {
    dialog: Dialog,
    waiting: Waiting,
}

/// How a session stands between two keys.
#[derive(Drop)]
pub(crate) enum Standing {
    /// No script is at work.
    Rest,
    /// A script asks its user. That stands in memory of its own, so that other keys move little.
    Waits(Box<Asked>),
    /// A key failed.
    Over,
}

/// Plays a key in a dialog.
// A call, so that keys outside a dialog take no room for it.
#[inline(never)]
fn play_asked<P: Pages>(
    context: &mut Context,
    alloc: Global,
    asked: Box<Asked>,
    key: &Key,
    pages: &mut P,
) -> Result<Step, RunErr>
    ensures { Acts (resumed_rule (waits_of asked.value.dialog asked.value.waiting) key.now)
        (P.seen pages.old) (P.seen pages.new) context.old context.new result }
{
    let Asked { dialog, waiting } = Box::into_inner(asked);
    play_in_dialog(context, alloc, dialog, waiting, key, pages)
}

/// Plays a key by how the session stands: outside a dialog it has its turns, and in one those that
/// are left, and no push is taken.
pub(crate) fn turn<P: Pages>(
    context: &mut Context,
    inbox: &mut Inbox,
    alloc: Global,
    standing: Standing,
    key: &Key,
    pages: &mut P,
) -> Result<Step, RunErr>
    requires going { is_over standing ≡ false }
    requires own { HaveWinners inbox.old inbox.old }
    ensures acts { Acts (turn_rule (waiting_of standing) inbox.old key.now)
        (P.seen pages.old) (P.seen pages.new) context.old context.new result }
    ensures taken { OnOk result
        (HaveWinners (taken_by (waiting_of standing) inbox.old key.now) inbox.new) }
    ensures own { HaveWinners inbox.new inbox.new }
{
    match standing {
        Standing::Rest => {
            let budget = context.budget();
            context.begin_key(budget);
            press(context, inbox, alloc, key, pages)
        }
        Standing::Waits(asked) => play_asked(context, alloc, asked, key, pages),
        Standing::Over => unreachable!(),
    }
}

/// The lines of what a key did as they are shown, and how the session stands after it.
pub(crate) fn after(alloc: Global, did: Step) -> Result<(Lines, Standing), NoMemory>
    ensures lines { IfOk result (λ it. it.0 ≡ map shown_text (lines_in did)) }
    ensures standing { IfOk result (λ it. IsAfter it.1 did) }
{
    match did {
        Step::Settled(lines) => Ok((shown_lines(alloc, lines)?, Standing::Rest)),
        Step::Asks(lines, dialog, waiting) => {
            let asked = Box::new(alloc, Asked { dialog, waiting })?;
            Ok((shown_lines(alloc, lines)?, Standing::Waits(asked)))
        }
    }
}
