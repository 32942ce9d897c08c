//! The timer of the current card (WAP-191, section 11.7).
ghost use Rattle.std.specs.Prelude.{◌≡◌, ℕ, IfOk, OnOk, OnErr};
ghost use Rattle.std.specs.Option.{option_and_then};
ghost use Rattle.std.specs.Fmt.{decimal};
ghost use Rattle.wap_cardrules.specs.Timers.{timer_in, timer_variable, timer_of};
ghost use Rattle.wap_cards.specs.inputs.Stopped.{FirstStand};
ghost use Rattle.wap_world.specs.declared.timer.Timer.TheVariants.{Running, Off, Expired};
ghost use Rattle.wap_world.specs.Timers.{timer_from, start_timer, timer_started};
ghost use Rattle.wap_world.specs.Timers.{store_time, store_left, end_timer};
ghost use Rattle.wap_state.specs.Scenes.{Plays, Leaves};
ghost use Rattle.wap_state.specs.CardAtHand.{store_pairs, time_pairs};

use crate::state::State;
use std::alloc::Global;
use wap_base::{NoMemory, Rows, Text};
use wap_cards::{first_with, timer_of, variable_in};
use wap_deck::good::{AttrName, Tag, View};
use wap_layout::buffer::Lines;
use wap_world::Timer;

/// A timer that starts; 0 is no time.
fn timer_from(start: Option<(Option<Text>, u32)>) -> Timer
    ensures { result ≡ timer_from start }
{
    match start {
        Some((_, 0)) | None => Timer::Off,
        Some((_, time)) => Timer::Running(time),
    }
}

/// The variable of a card's timer, if it has one.
fn timer_name(alloc: Global, card: &View<'_>) -> Result<Option<Text>, NoMemory>
    ensures { IfOk result (λ name. name ≡ option_and_then timer_variable (timer_in card.now)) }
{
    match first_with(card, Tag::Timer) {
        Some(timer) => variable_in(alloc, &timer, AttrName::Name),
        None => Ok(None),
    }
}

/// A number in decimal digits.
fn digits(alloc: Global, number: u32) -> Result<Text, NoMemory>
    ensures { IfOk result (λ text. text ≡ decimal number) }
{
    let mut text = Text::new(alloc);
    text.add_number(u64::from(number))?;
    Ok(text)
}

/// A name and a time, if there is a name.
fn pair_of(alloc: Global, name: Option<Text>, time: u32) -> Result<Rows<(Text, Text)>, NoMemory>
    ensures { IfOk result (λ pairs. pairs ≡ store_pairs name time) }
{
    let mut pairs = Rows::new(alloc);
    if let Some(name) = name {
        pairs.add((name, digits(alloc, time)?))?;
    }
    Ok(pairs)
}

impl State {
    /// Starts the timer of a card, whatever its state.
    #[tactic(auto, using(crate::proofs::Keeping::keeps_from))]
    pub fn start_timer(&mut self, alloc: Global, card: &View<'_>) -> Result<(), NoMemory>
        ensures starts { OnOk result (self.new ≡ start_timer card.now self.old) }
        ensures history { self.new.history ≡ self.old.history }
        ensures kept { OnErr result (self.new ≡ self.old) }
    {
        self.timer = timer_from(timer_of(alloc, card, &self.vars)?);
        Ok(())
    }

    /// Starts the timer of a card, unless it has since the card was entered.
    pub fn start(&mut self, alloc: Global, card: &View<'_>) -> Result<(), NoMemory>
        ensures starts { OnOk result (self.new ≡ timer_started self.old.timer card.now self.old) }
        ensures history { self.new.history ≡ self.old.history }
        ensures kept { OnErr result (self.new ≡ self.old) }
    {
        match self.timer {
            Timer::NotStarted => self.start_timer(alloc, card),
            Timer::Running(_) | Timer::Off | Timer::Expired => Ok(()),
        }
    }

    /// Stores a time under the name of a card's timer, if it has one.
    fn store_time(
        &mut self,
        alloc: Global,
        card: &View<'_>,
        time: u32,
        lines: &mut Lines,
    ) -> Result<(), NoMemory>
        ensures plays { OnOk result (Plays (store_time card.now time self.old)
            self.old self.new lines.old lines.new) }
        ensures history { self.new.history ≡ self.old.history }
        ensures timer { self.new.timer ≡ self.old.timer }
        ensures left { OnErr result (Leaves self.old self.new lines.old lines.new) }
        ensures stopped { OnErr result
            (FirstStand self.old.vars (time_pairs card.now time) self.new.vars) }
    {
        let pairs = pair_of(alloc, timer_name(alloc, card)?, time)?;
        self.set_variables(alloc, pairs, lines)
    }

    /// Stores what remains of a timer that runs.
    pub fn store_left(
        &mut self,
        alloc: Global,
        card: &View<'_>,
        lines: &mut Lines,
    ) -> Result<(), NoMemory>
        ensures plays { OnOk result (Plays (store_left self.old.timer card.now self.old)
            self.old self.new lines.old lines.new) }
        ensures history { self.new.history ≡ self.old.history }
        ensures timer { self.new.timer ≡ self.old.timer }
        ensures left { OnErr result (Leaves self.old self.new lines.old lines.new) }
        ensures stopped { OnErr result ((time : ℕ) × (self.old.timer ≡ Running time)
            × FirstStand self.old.vars (time_pairs card.now time) self.new.vars) }
    {
        match self.timer {
            Timer::Running(time) => self.store_time(alloc, card, time, lines),
            Timer::NotStarted | Timer::Off | Timer::Expired => Ok(()),
        }
    }

    /// The timer of a card has run out.
    #[tactic(auto, using(crate::proofs::Keeping::keeps_off))]
    pub fn end_timer(
        &mut self,
        alloc: Global,
        card: &View<'_>,
        lines: &mut Lines,
    ) -> Result<(), NoMemory>
        ensures plays { OnOk result (Plays (end_timer card.now self.old)
            self.old self.new lines.old lines.new) }
        ensures history { self.new.history ≡ self.old.history }
        ensures timer { self.new.timer ≡ Off }
        ensures left { OnErr result (Leaves self.old self.new lines.old lines.new) }
        ensures stopped { OnErr result
            (FirstStand self.old.vars (time_pairs card.now 0) self.new.vars) }
    {
        self.timer = Timer::Off;
        self.store_time(alloc, card, 0, lines)
    }

    /// The timer of a card has run out while a script waits.
    #[tactic(auto, using(crate::proofs::Keeping::keeps_expired))]
    pub fn expire(
        &mut self,
        alloc: Global,
        card: &View<'_>,
        lines: &mut Lines,
    ) -> Result<(), NoMemory>
        ensures plays { OnOk result
            (Plays (store_time card.now 0 (record self.old { timer = Expired }))
            self.old self.new lines.old lines.new) }
        ensures history { self.new.history ≡ self.old.history }
        ensures timer { self.new.timer ≡ Expired }
        ensures left { OnErr result (Leaves self.old self.new lines.old lines.new) }
        ensures stopped { OnErr result
            (FirstStand self.old.vars (time_pairs card.now 0) self.new.vars) }
    {
        self.timer = Timer::Expired;
        self.store_time(alloc, card, 0, lines)
    }
}
