//! Keys in a dialog (WAP-194, "Dialogs Library").
ghost use Rattle.std.specs.Prelude.{◌≡◌, [], IfOk};
ghost use Rattle.wap_world.specs.scripting.Dialogs.{reply_to_prompt, reply_to_buttons, reply_to};
ghost use Rattle.wap_world.specs.scripting.Dialogs.{meanwhile};
ghost use Rattle.wap_base.specs.declared.key.Key.TheVariants as the_keys;
ghost use Rattle.wap_context.specs.Browsers.{Shows};
ghost use Rattle.wap_context.specs.Pausing.{waits_of};
ghost use Rattle.wap_context.specs.Acting.{Acts};
ghost use Rattle.wap_session.specs.inside.Turns.{meant, resumed_rule};

use crate::lines::{refusal_lines, variable_lines};
use std::alloc::Global;
use wap_base::{Key, NoMemory, RunErr, Text};
use wap_context::{Context, Step, Ticked, Waiting};
use wap_execution::Dialog;
use wap_layout::buffer::Lines;
use wap_value::Value;
use wap_world::Refusal;
use wap_world::site::Pages;

/// What a key is to a dialog.
#[derive(Drop)]
pub(crate) enum Reply {
    /// The dialog gives a value.
    Answers(Value),
    /// The script is stopped.
    Ends,
    /// The dialog stays.
    Passes,
}

/// The reply of a text.
fn answer(alloc: Global, text: &Text) -> Result<Reply, NoMemory>
    ensures { IfOk result (λ reply. reply ≡ Reply.Answers (Value.Str text.now)) }
{
    Ok(Reply::Answers(Value::Str(text.copy(alloc)?)))
}

/// A key in a prompt with this default.
fn reply_to_prompt(alloc: Global, first: &Text, key: &Key) -> Result<Reply, NoMemory>
    ensures { IfOk result (λ reply. meant reply ≡ reply_to_prompt first.now key.now) }
{
    match key {
        Key::Ok | Key::Cancel => answer(alloc, first),
        Key::Answer(text) => answer(alloc, text),
        Key::Stop => Ok(Reply::Ends),
        Key::Open(_)
        | Key::Do(_)
        | Key::Pick(_)
        | Key::Enter(_, _)
        | Key::Choose(_, _)
        | Key::Back
        | Key::Tick(_)
        | Key::Vars
        | Key::Push(_)
        | Key::Inbox
        | Key::Follow(_) => Ok(Reply::Passes),
    }
}

/// A key in a dialog whose two buttons give these values.
fn reply_to_buttons(first: Value, second: Value, key: &Key) -> Reply
    ensures { meant result ≡ reply_to_buttons first second key.now }
{
    match key {
        Key::Ok => Reply::Answers(first),
        Key::Cancel => Reply::Answers(second),
        Key::Stop => Reply::Ends,
        Key::Open(_)
        | Key::Do(_)
        | Key::Pick(_)
        | Key::Enter(_, _)
        | Key::Choose(_, _)
        | Key::Back
        | Key::Tick(_)
        | Key::Answer(_)
        | Key::Vars
        | Key::Push(_)
        | Key::Inbox
        | Key::Follow(_) => Reply::Passes,
    }
}

/// A key in a dialog.
fn reply_to(alloc: Global, dialog: &Dialog, key: &Key) -> Result<Reply, NoMemory>
    ensures { IfOk result (λ reply. meant reply ≡ reply_to dialog.now key.now) }
{
    match dialog {
        Dialog::Prompt(_, first) => reply_to_prompt(alloc, first, key),
        Dialog::Confirm(_, _, _) => {
            Ok(reply_to_buttons(Value::Bool(true), Value::Bool(false), key))
        }
        Dialog::Alert(_) => {
            let (first, second) = (Text::new(alloc), Text::new(alloc));
            Ok(reply_to_buttons(Value::Str(first), Value::Str(second), key))
        }
    }
}

/// Lets so many tenths of a second pass in a dialog.
fn pass_time(context: &mut Context, alloc: Global, time: u32) -> Result<Lines, NoMemory>
    ensures { IfOk result (Shows (λ place. meanwhile place (the_keys.Tick time))
        context.old context.new []) }
{
    match context.tick_waiting(alloc, time)? {
        Ticked::Counted(lines) => Ok(lines),
        Ticked::NotRunning => refusal_lines(alloc, Refusal::Ignored),
    }
}

/// What a key does that leaves a dialog open.
fn meanwhile(context: &mut Context, alloc: Global, key: &Key) -> Result<Lines, NoMemory>
    ensures { IfOk result (Shows (λ place. meanwhile place key.now)
        context.old context.new []) }
{
    match key {
        Key::Tick(time) => pass_time(context, alloc, *time),
        Key::Vars => variable_lines(alloc, context.vars()),
        Key::Open(_)
        | Key::Do(_)
        | Key::Pick(_)
        | Key::Enter(_, _)
        | Key::Choose(_, _)
        | Key::Back
        | Key::Ok
        | Key::Cancel
        | Key::Answer(_)
        | Key::Stop
        | Key::Push(_)
        | Key::Inbox
        | Key::Follow(_) => refusal_lines(alloc, Refusal::Ignored),
    }
}

/// Plays a key in a dialog: an answer goes on with the script, `stop` ends it, and with any other
/// key the dialog stays.
pub(crate) fn play_in_dialog<P: Pages>(
    context: &mut Context,
    alloc: Global,
    dialog: Dialog,
    waiting: Waiting,
    key: &Key,
    pages: &mut P,
) -> Result<Step, RunErr>
    ensures { Acts (resumed_rule (waits_of dialog waiting) key.now)
        (P.seen pages.old) (P.seen pages.new) context.old context.new result }
{
    match reply_to(alloc, &dialog, key)? {
        Reply::Answers(value) => context.answer(alloc, pages, waiting, value),
        Reply::Ends => context.stop(alloc, pages, waiting),
        Reply::Passes => Ok(Step::Asks(meanwhile(context, alloc, key)?, dialog, waiting)),
    }
}
