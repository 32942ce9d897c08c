//! Time that passes on a card (WAP-191, section 11.7), and in a dialog.
ghost use Rattle.std.specs.Prelude.{◌≡◌, OnOk, OnErr};
ghost use Rattle.wap_world.specs.Screens.{at_place};
ghost use Rattle.wap_context.specs.Acting.{tick};
ghost use Rattle.wap_world.specs.declared.timer.Timer.TheVariants.{Running};
ghost use Rattle.wap_world.specs.scripting.Dialogs.{run_out as expires, tick_waiting};
ghost use Rattle.wap_context.specs.Browsers.{place_held, Shows, ChangesVarsAndTimer};
ghost use Rattle.wap_context.specs.inside.Moving.{Pursues};
ghost use Rattle.wap_context.specs.inside.Ticking.{left_at, end_place, run_out};

use crate::context::Context;
use crate::waiting::{Step, went_to};
use std::alloc::Global;
use wap_base::{NoMemory, RunErr};
use wap_cardrules::Event;
use wap_layout::buffer::Lines;
use wap_state::here;
use wap_state::screen_lines::add_refusal;
use wap_world::site::Pages;
use wap_world::{Refusal, Timer};

impl Context {
    /// What remains of the timer of the current card, while it runs.
    fn time_left(&self) -> Option<u32>
        ensures { result ≡ left_at (place_held self.now) self.now.world.timer }
    {
        if !self.has_card() {
            return None;
        }
        match self.timer() {
            Timer::Running(left) => Some(left),
            Timer::NotStarted | Timer::Off | Timer::Expired => None,
        }
    }

    /// The timer of the current card, if there is one, has run out.
    #[tactic(auto, using(wap_state::proofs::Standing::stands_same))]
    fn end_timer(&mut self, alloc: Global, lines: &mut Lines) -> Result<(), NoMemory>
        ensures { OnOk result
            (Shows (at_place end_place) self.old self.new lines.old lines.new) }
    {
        let number = self.state.card_number();
        match here(&self.deck, number) {
            Some(here) => self.state.end_timer(alloc, &here.card, lines),
            None => Ok(()),
        }
    }

    /// The timer has run out, and the task of its event follows, if there is one.
    fn run_out<P: Pages>(
        &mut self,
        alloc: Global,
        pages: &mut P,
        lines: Lines,
    ) -> Result<Step, RunErr>
        ensures { Pursues (run_out (place_held self.old))
            (P.seen pages.old) (P.seen pages.new) self.old self.new lines result }
    {
        let mut shown = lines;
        self.end_timer(alloc, &mut shown)?;
        let task = self.event_task(alloc, Event::Timer)?;
        self.follow(alloc, pages, went_to(task), shown)
    }

    /// Lets so many tenths of a second pass: less than remains of the timer, or all.
    #[tactic(auto, using(wap_state::proofs::Keeping::keeps_counted))]
    pub(crate) fn pass_time<P: Pages>(
        &mut self,
        alloc: Global,
        pages: &mut P,
        time: u32,
        lines: Lines,
    ) -> Result<Step, RunErr>
        ensures { Pursues (tick time (place_held self.old))
            (P.seen pages.old) (P.seen pages.new) self.old self.new lines result }
    {
        let Some(left) = self.time_left() else {
            let mut shown = lines;
            add_refusal(Refusal::Ignored, &mut shown)?;
            return Ok(Step::Settled(shown));
        };
        if time < left {
            self.state.timer = Timer::Running(left - time);
            return Ok(Step::Settled(lines));
        }
        self.run_out(alloc, pages, lines)
    }

    /// The timer of the current card, if there is one, has run out while a script waits: its task
    /// waits for the end of the script.
    #[tactic(auto, using(wap_state::proofs::Standing::stands_same))]
    fn expire(&mut self, alloc: Global, lines: &mut Lines) -> Result<(), NoMemory>
        ensures plays { OnOk result
            (Shows (at_place expires) self.old self.new lines.old lines.new) }
        ensures left { OnErr result (ChangesVarsAndTimer self.old self.new) }
    {
        let number = self.state.card_number();
        match here(&self.deck, number) {
            Some(here) => self.state.expire(alloc, &here.card, lines),
            None => Ok(()),
        }
    }

    /// Lets so many tenths of a second pass while a script waits, of what remains of the timer.
    #[tactic(auto, using(wap_state::proofs::Keeping::keeps_counted))]
    pub(crate) fn count_down(
        &mut self,
        alloc: Global,
        time: u32,
        left: u32,
        lines: &mut Lines,
    ) -> Result<(), NoMemory>
        ensures plays { OnOk result (Shows (λ place. tick_waiting place time (Running left))
            self.old self.new lines.old lines.new) }
        ensures left { OnErr result (ChangesVarsAndTimer self.old self.new) }
    {
        if time < left {
            self.state.timer = Timer::Running(left - time);
            return Ok(());
        }
        self.expire(alloc, lines)
    }
}
