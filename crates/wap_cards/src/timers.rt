//! The timer of a card (WAP-191, section 11.7).
ghost use Rattle.std.specs.Prelude.{◌≡◌, IfOk};
ghost use Rattle.std.specs.Option.{option_and_then};
ghost use Rattle.wap_vars.specs.Variables.{text_of};
ghost use Rattle.wap_cardrules.specs.Timers.{time_in, timer_variable, timer_text, timer_of};

use crate::filling::fill_value;
use crate::numbers::number_in;
use crate::tasks::first_with;
use crate::values::variable_in;
use std::alloc::Global;
use wap_base::{Name, NameFault, NoMemory, Text};
use wap_deck::good::{AttrName, Tag, View};
use wap_vars::Vars;

/// A copy of the text under a name, where one is set.
pub fn text_under(alloc: Global, vars: &Vars, name: &Text) -> Result<Option<Text>, NoMemory>
    ensures { IfOk result (λ text. text ≡ text_of vars.now name.now) }
{
    match Name::of(alloc, name) {
        Ok(name) => match vars.get(&name) {
            Some(text) => Ok(Some(text.copy(alloc)?)),
            None => Ok(None),
        },
        Err(NameFault::BadName) => {
            vars.keep_rules();
            Ok(None)
        }
        Err(NameFault::NoMemory) => Err(NoMemory),
    }
}

/// The time that a text says, in tenths of a second.
fn time_in(text: &Text) -> u32
    ensures { result ≡ time_in text.now }
{
    match number_in(text) {
        Some(number) => number.min(u64::from(u32::MAX)) as u32,
        None => 0,
    }
}

/// The text of a timer's variable, where it has one that is set.
fn kept_text(alloc: Global, vars: &Vars, timer: &View<'_>) -> Result<Option<Text>, NoMemory>
    ensures { IfOk result (λ text. text
        ≡ option_and_then (text_of vars.now) (timer_variable timer.now)) }
{
    match variable_in(alloc, timer, AttrName::Name)? {
        Some(name) => text_under(alloc, vars, &name),
        None => Ok(None),
    }
}

/// The text that says where a timer starts.
fn timer_text(alloc: Global, vars: &Vars, timer: &View<'_>) -> Result<Text, NoMemory>
    ensures { IfOk result (λ text. text ≡ timer_text vars.now timer.now) }
{
    match kept_text(alloc, vars, timer)? {
        Some(text) => Ok(text),
        None => fill_value(alloc, vars, timer, AttrName::Value),
    }
}

/// The variable of a card's timer, if it has one, and where the timer starts, in tenths of a
/// second. There is none where the card has no timer element.
pub fn timer_of(
    alloc: Global,
    card: &View<'_>,
    vars: &Vars,
) -> Result<Option<(Option<Text>, u32)>, NoMemory>
    ensures { IfOk result (λ timer. timer ≡ timer_of vars.now card.now) }
{
    match first_with(card, Tag::Timer) {
        Some(timer) => {
            let text = timer_text(alloc, vars, &timer)?;
            Ok(Some((variable_in(alloc, &timer, AttrName::Name)?, time_in(&text))))
        }
        None => Ok(None),
    }
}
