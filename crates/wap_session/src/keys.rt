//! What each key does, one function for each that is more than one call.
ghost use Rattle.std.specs.Prelude.{◌≡◌, ◌∷◌, [], IfOk, OnOk};
ghost use Rattle.std.specs.Option.{option_and_then};
ghost use Rattle.std.specs.Prelude.{is_some};
ghost use Rattle.wap_cardrules.specs.Dos.{do_task};
ghost use Rattle.wap_cardrules.specs.Fields.{link_task};
ghost use Rattle.wap_base.specs.declared.key.Key.TheVariants as the_keys;
ghost use Rattle.wap_world.specs.declared.refusal.Refusal.TheVariants as refusals;
ghost use Rattle.wap_world.specs.Lines.{refusal_line};
ghost use Rattle.wap_world.specs.Steps.{behind};
ghost use Rattle.wap_world.specs.Screens.{show, show_screen, refuse};
ghost use Rattle.wap_world.specs.Keys.{ignored, act_or, apply};
ghost use Rattle.wap_world.specs.inboxes.Inboxes.{pushes_after, opening, play_pressed};
ghost use Rattle.wap_push.specs.Pushes.{push_at};
ghost use Rattle.wap_push.specs.Inbox.{HaveWinners};
ghost use Rattle.wap_context.specs.Browsers.{place_held, Shows};
ghost use Rattle.wap_context.specs.Sites.{site_of};
ghost use Rattle.wap_context.specs.Acting.{Acts};
ghost use Rattle.wap_session.specs.Ignoring.{fits_nothing};
ghost use Rattle.wap_session.specs.inside.Turns.{IsBehind};
ghost use Rattle.wap_session.specs.inside.Pressing.{typed, press_rule};
ghost use Rattle.wap_session.specs.notices.Taking.{url_in};

use crate::lines::{refusal_lines, variable_lines};
use crate::notices::{entry_lines, take_push, url_in};
use std::alloc::Global;
use wap_base::{Key, NoMemory, Rows, RunErr, Text};
use wap_cardrules::{Chosen, Entered, Task};
use wap_cards::{do_task, link_task};
use wap_context::{Context, Step};
use wap_layout::buffer::Lines;
use wap_push::Inbox;
use wap_state::screen_lines::add_fault_lines;
use wap_world::Refusal;
use wap_world::site::Pages;

/// A key that fits nothing.
fn ignore(alloc: Global) -> Result<Step, NoMemory>
    ensures { IfOk result (λ did. did ≡ Step.Settled (refusal_line refusals.Ignored ∷ [])) }
{
    Ok(Step::Settled(refusal_lines(alloc, Refusal::Ignored)?))
}

/// Whether a key fits nothing outside a dialog, as far as that shows without a look at the card.
pub(crate) fn fits_nothing(context: &Context, key: &Key) -> bool
    ensures { result ≡ fits_nothing (is_some (place_held context.now)) key.now }
{
    match key {
        Key::Ok | Key::Cancel | Key::Answer(_) | Key::Stop => true,
        Key::Open(_) | Key::Vars | Key::Push(_) | Key::Inbox | Key::Follow(_) => false,
        Key::Do(_)
        | Key::Pick(_)
        | Key::Enter(_, _)
        | Key::Choose(_, _)
        | Key::Back
        | Key::Tick(_) => !context.has_card(),
    }
}

/// What was done, after further lines.
fn behind(mut lines: Lines, did: Step) -> Result<Step, NoMemory>
    ensures { IfOk result (IsBehind lines did) }
{
    match did {
        Step::Settled(more) => {
            lines.append(&more)?;
            Ok(Step::Settled(lines))
        }
        Step::Asks(more, dialog, waiting) => {
            lines.append(&more)?;
            Ok(Step::Asks(lines, dialog, waiting))
        }
    }
}

/// Plays a key outside a dialog, which has its turns already.
///
/// # Errors
/// `Store` where a page couldn't be fetched, and `NoMemory`.
pub(crate) fn press<P: Pages>(
    context: &mut Context,
    inbox: &mut Inbox,
    alloc: Global,
    key: &Key,
    pages: &mut P,
) -> Result<Step, RunErr>
    requires own { HaveWinners inbox.old inbox.old }
    ensures acts { Acts (press_rule (place_held context.old) inbox.old key.now)
        (P.seen pages.old) (P.seen pages.new) context.old context.new result }
    ensures taken { OnOk result (HaveWinners (pushes_after push_at inbox.old key.now) inbox.new) }
    ensures own { HaveWinners inbox.new inbox.new }
{
    match key {
        Key::Open(url) => context.open(alloc, pages, url),
        Key::Do(name) => run_do(context, alloc, name, pages),
        Key::Pick(number) => follow_link(context, alloc, *number, pages),
        Key::Enter(number, text) => {
            Ok(Step::Settled(enter_text(context, alloc, *number, text)?))
        }
        Key::Choose(field, option) => choose_option(context, alloc, *field, *option, pages),
        Key::Back => go_back(context, alloc, pages),
        Key::Tick(time) => context.tick(alloc, pages, *time),
        Key::Vars => Ok(Step::Settled(variable_lines(alloc, context.vars())?)),
        Key::Ok | Key::Cancel | Key::Answer(_) | Key::Stop => Ok(ignore(alloc)?),
        Key::Push(bytes) => Ok(Step::Settled(take_push(inbox, alloc, bytes.as_slice())?)),
        Key::Inbox => Ok(Step::Settled(entry_lines(alloc, inbox)?)),
        Key::Follow(number) => follow_entry(context, inbox, alloc, *number, pages),
    }
}

/// Opens the URL of the entry of a number; without one the key fits nothing.
// A call, so that other keys take no room for it.
#[inline(never)]
fn follow_entry<P: Pages>(
    context: &mut Context,
    inbox: &Inbox,
    alloc: Global,
    number: u16,
    pages: &mut P,
) -> Result<Step, RunErr>
    ensures { Acts (λ of keys world.
        play_pressed (site_of of) (place_held context.old) keys world
        (opening (url_in inbox.now number)))
        (P.seen pages.old) (P.seen pages.new) context.old context.new result }
{
    match url_in(inbox, alloc, usize::from(number))? {
        Some(url) => context.open(alloc, pages, &url),
        None => Ok(ignore(alloc)?),
    }
}

/// Takes a task; without one the key fits nothing.
fn act_or_ignore<P: Pages>(
    context: &mut Context,
    alloc: Global,
    task: Option<Task>,
    pages: &mut P,
) -> Result<Step, RunErr>
    ensures { Acts (λ of keys world. act_or (ignored world) (site_of of) keys world task)
        (P.seen pages.old) (P.seen pages.new) context.old context.new result }
{
    match task {
        Some(task) => context.act(alloc, pages, task),
        None => Ok(ignore(alloc)?),
    }
}

/// Takes a task; without one the card is shown.
fn act_or_show<P: Pages>(
    context: &mut Context,
    alloc: Global,
    task: Option<Task>,
    pages: &mut P,
) -> Result<Step, RunErr>
    ensures { Acts (λ of keys world.
        act_or (show (place_held context.old) world) (site_of of) keys world task)
        (P.seen pages.old) (P.seen pages.new) context.old context.new result }
{
    match task {
        Some(task) => context.act(alloc, pages, task),
        None => Ok(Step::Settled(context.show(alloc)?)),
    }
}

/// The task of the active do of a name, if there is one.
fn task_of_do(context: &Context, alloc: Global, name: &Text) -> Result<Option<Task>, NoMemory>
    ensures { IfOk result (λ task. task ≡ option_and_then
        (λ place. do_task context.now.world.vars place.deck place.card name.now)
        (place_held context.now)) }
{
    match (context.deck(), context.card()) {
        (Some(deck), Some(card)) => do_task(alloc, deck, &card, name, context.vars()),
        (Some(_), None) | (None, _) => Ok(None),
    }
}

/// Runs the do of a name, once a card was entered.
fn run_do<P: Pages>(
    context: &mut Context,
    alloc: Global,
    name: &Text,
    pages: &mut P,
) -> Result<Step, RunErr>
    ensures { Acts (λ of keys world.
        apply (site_of of) (place_held context.old) keys world (the_keys.Do name.now))
        (P.seen pages.old) (P.seen pages.new) context.old context.new result }
{
    if context.has_card() {
        return run_do_here(context, alloc, name, pages);
    }
    Ok(ignore(alloc)?)
}

/// Runs the do of a name of the current card.
fn run_do_here<P: Pages>(
    context: &mut Context,
    alloc: Global,
    name: &Text,
    pages: &mut P,
) -> Result<Step, RunErr>
    ensures { Acts (λ of keys world.
        apply (site_of of) (place_held context.old) keys world (the_keys.Do name.now))
        (P.seen pages.old) (P.seen pages.new) context.old context.new result }
{
    let task = task_of_do(context, alloc, name)?;
    act_or_ignore(context, alloc, task, pages)
}

/// The task of the link of a number, if there is one.
fn task_of_link(context: &Context, alloc: Global, number: u16) -> Result<Option<Task>, NoMemory>
    ensures { IfOk result (λ task. task ≡ option_and_then
        (λ place. link_task context.now.world.vars place.card number) (place_held context.now)) }
{
    match context.card() {
        Some(card) => link_task(alloc, &card, number, context.vars()),
        None => Ok(None),
    }
}

/// Follows the link of a number.
fn follow_link<P: Pages>(
    context: &mut Context,
    alloc: Global,
    number: u16,
    pages: &mut P,
) -> Result<Step, RunErr>
    ensures { Acts (λ of keys world.
        apply (site_of of) (place_held context.old) keys world (the_keys.Pick number))
        (P.seen pages.old) (P.seen pages.new) context.old context.new result }
{
    let task = task_of_link(context, alloc, number)?;
    act_or_ignore(context, alloc, task, pages)
}

/// Goes back to the card before, once a card was entered.
fn go_back<P: Pages>(context: &mut Context, alloc: Global, pages: &mut P) -> Result<Step, RunErr>
    ensures { Acts (λ of keys world.
        apply (site_of of) (place_held context.old) keys world the_keys.Back)
        (P.seen pages.old) (P.seen pages.new) context.old context.new result }
{
    if context.has_card() {
        return context.act(alloc, pages, Task::Prev(Rows::new(alloc)));
    }
    Ok(ignore(alloc)?)
}

/// A refusal, and then the screen of the current card alone.
fn then_screen(context: &Context, alloc: Global, refusal: Refusal) -> Result<Lines, NoMemory>
    ensures { IfOk result (Shows
        (λ place world. behind (refusal_line refusal ∷ []) (show_screen place world))
        context.now context.now []) }
{
    let mut lines = refusal_lines(alloc, refusal)?;
    lines.append(&context.screen(alloc)?)?;
    Ok(lines)
}

/// A refusal, and then the current card.
fn refuse(context: &mut Context, alloc: Global, refusal: Refusal) -> Result<Lines, NoMemory>
    ensures { IfOk result (Shows (λ place. refuse place refusal) context.old context.new []) }
{
    let mut lines = refusal_lines(alloc, refusal)?;
    lines.append(&context.show(alloc)?)?;
    Ok(lines)
}

/// Enters a text into the field of a number.
// A call, as is `choose_option`, so that other keys take no room for it.
#[inline(never)]
fn enter_text(
    context: &mut Context,
    alloc: Global,
    number: u16,
    text: &Text,
) -> Result<Lines, NoMemory>
    ensures { IfOk result (Shows (typed number text.now) context.old context.new []) }
{
    match context.enter_text(alloc, number, text)? {
        Entered::NoInput => refusal_lines(alloc, Refusal::Ignored),
        Entered::Refused => then_screen(context, alloc, Refusal::Mask),
        Entered::Full => refuse(context, alloc, Refusal::Full),
        Entered::Set => context.show(alloc),
    }
}

/// Chooses in the field of a number the option of another.
#[inline(never)]
fn choose_option<P: Pages>(
    context: &mut Context,
    alloc: Global,
    field: u16,
    option: u16,
    pages: &mut P,
) -> Result<Step, RunErr>
    ensures { Acts (λ of keys world.
        apply (site_of of) (place_held context.old) keys world (the_keys.Choose field option))
        (P.seen pages.old) (P.seen pages.new) context.old context.new result }
{
    match context.choose(alloc, field, option)? {
        Chosen::NoOption => Ok(ignore(alloc)?),
        Chosen::Set(faults, task) => {
            let mut lines = Lines::new(alloc);
            add_fault_lines(faults.as_slice(), &mut lines)?;
            let did = act_or_show(context, alloc, task, pages)?;
            Ok(behind(lines, did)?)
        }
    }
}
