//! Scripts that run, and what follows their end (WAP-193, section 12).
ghost use Rattle.std.specs.Prelude.{◌≡◌, [], None, Some, IfOk};
ghost use Rattle.wap_base.specs.Limits.{AreInRange};
ghost use Rattle.wap_world.specs.Steps.{still, quiet};
ghost use Rattle.wap_world.specs.Starting.{rest, end_done, end_failed};
ghost use Rattle.wap_world.specs.Timers.{settled_timer};
ghost use Rattle.wap_context.specs.Browsers.{IsOver, place_held};
ghost use Rattle.wap_context.specs.inside.Moving.{Moves, Takes};
ghost use Rattle.wap_context.specs.inside.Starting.{RunsTo, run_with, end_at, waits_by};

use crate::context::Context;
use crate::host::Running;
use crate::script_lines::add_script_line;
use crate::waiting::{Waiting, Went};
use std::alloc::Global;
use std::mem::replace;
use wap_base::{Limits, NoMemory, RunErr};
use wap_cardrules::Event;
use wap_execution::Fatal;
use wap_layout::buffer::Lines;
use wap_machine::{Machine, Outcome};
use wap_state::State;
use wap_state::page_urls::PageUrl;
use wap_world::Timer;
use wap_world::site::Pages;

/// What a timer is before the navigation that a script asked for.
fn settled_timer(timer: Timer) -> Timer
    ensures { result ≡ settled_timer timer }
{
    match timer {
        Timer::Expired => Timer::Off,
        Timer::NotStarted | Timer::Running(_) | Timer::Off => timer,
    }
}

impl Context {
    /// The limits of the run.
    pub(crate) fn limits(&self) -> Limits
        ensures value { result ≡ self.now.world.limits }
        ensures range { AreInRange result }
    {
        self.state.keep_limits();
        self.state.limits
    }

    /// Lends a machine the browser until it ends or asks its user, with the lines of its run.
    #[tactic(auto, using(crate::proofs::Standing::stands_first))]
    fn run<P: Pages>(
        &mut self,
        alloc: Global,
        pages: &mut P,
        machine: Machine,
        first: Lines,
    ) -> Result<(Outcome, Lines), RunErr>
        ensures { RunsTo machine first (P.seen pages.old) (P.seen pages.new) self.old self.new
            result }
    {
        let limits = self.limits();
        let state = replace(&mut self.state, State::new(alloc, 0, limits));
        let deck = replace(&mut self.deck, None);
        let mut host = Running::new(alloc, state, deck, first);
        let outcome = machine.run(&mut host, pages)?;
        let (state, deck, lines) = host.into_parts();
        self.state = state;
        self.deck = deck;
        Ok((outcome, lines))
    }

    /// No navigation is done: where the timer ran out meanwhile, its task is next, else the card is
    /// shown.
    #[tactic(auto, using(wap_state::proofs::Keeping::keeps_off))]
    fn rest(&mut self, alloc: Global, lines: &mut Lines) -> Result<Went, NoMemory>
        ensures { IfOk result (λ went.
            Moves (rest (place_held self.old) [] self.old.world.timer self.old.world) None
            (λ shelf. IsOver shelf self.old) self.old self.new lines.old lines.new went) }
    {
        match self.state.timer {
            Timer::Expired => {
                self.state.timer = Timer::Off;
                self.begin_event(alloc, Event::Timer, lines)
            }
            Timer::NotStarted | Timer::Running(_) | Timer::Off => {
                self.add_show(alloc, lines)?;
                Ok(Went::Settled)
            }
        }
    }

    /// A script came to its end: what it asked for is next, else the card is shown.
    #[tactic(auto, using(wap_state::proofs::Keeping::keeps_settled))]
    fn end_done(
        &mut self,
        alloc: Global,
        base: PageUrl,
        lines: &mut Lines,
    ) -> Result<Went, NoMemory>
        ensures { IfOk result (λ went.
            Moves (end_done (place_held self.old) base self.old.world.pending
            (quiet [] (still self.old.world))) None
            (λ shelf. IsOver shelf self.old) self.old self.new lines.old lines.new went) }
    {
        match replace(&mut self.state.pending, None) {
            Some(task) => {
                self.state.timer = settled_timer(self.state.timer);
                Ok(Went::Leads(task, Some(base)))
            }
            None => self.rest(alloc, lines),
        }
    }

    /// A script ended abnormally: its line is added, and what it asked for is dropped.
    fn end_failed(
        &mut self,
        alloc: Global,
        why: &Fatal,
        lines: &mut Lines,
    ) -> Result<Went, NoMemory>
        ensures { IfOk result (λ went.
            Moves (end_failed (place_held self.old) why.now (quiet [] (still self.old.world))) None
            (λ shelf. IsOver shelf self.old) self.old self.new lines.old lines.new went) }
    {
        self.state.pending = None;
        add_script_line(alloc, why, lines)?;
        Ok(self.rest(alloc, lines)?)
    }

    /// A script ended, or asks its user.
    pub(crate) fn end_script(
        &mut self,
        alloc: Global,
        base: PageUrl,
        outcome: Outcome,
        lines: &mut Lines,
    ) -> Result<Went, NoMemory>
        ensures { IfOk result (λ went.
            Moves (end_at (place_held self.old) base outcome self.old.world)
            (waits_by base outcome)
            (λ shelf. IsOver shelf self.old) self.old self.new lines.old lines.new went) }
    {
        match outcome {
            Outcome::Done(_) => self.end_done(alloc, base, lines),
            Outcome::Exited(_) => self.end_done(alloc, base, lines),
            Outcome::Fatal(why) => self.end_failed(alloc, &why, lines),
            Outcome::Asks(dialog, machine) => {
                Ok(Went::Asks(dialog, Waiting::of(alloc, machine, base)?))
            }
        }
    }

    /// Goes on with the frames of a script, which was started by a URL, with the lines of its run.
    pub(crate) fn go_on<P: Pages>(
        &mut self,
        alloc: Global,
        pages: &mut P,
        machine: Machine,
        base: PageUrl,
        first: Lines,
        lines: &mut Lines,
    ) -> Result<Went, RunErr>
        ensures { Takes (run_with machine base first)
            (P.seen pages.old) (P.seen pages.new) self.old self.new lines.old lines.new result }
    {
        let (outcome, more) = self.run(alloc, pages, machine, first)?;
        lines.append(&more)?;
        Ok(self.end_script(alloc, base, outcome, lines)?)
    }
}
