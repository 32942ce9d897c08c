//! What a browser shows of its current card, and what it sets.
ghost use Rattle.std.specs.Prelude.{◌≡◌, OnOk, OnErr};
ghost use Rattle.wap_world.specs.Screens.{at_place, show, show_screen, refuse, restart_place};
ghost use Rattle.wap_world.specs.Entering.{leave};
ghost use Rattle.wap_world.specs.Tasks.{leave_and_set, refresh};
ghost use Rattle.wap_context.specs.Browsers.{Shows, ChangesVarsAndTimer};
ghost use Rattle.wap_context.specs.inside.AtHand.{held};
ghost use Rattle.wap_world.specs.Setting.{set_variables};

use crate::context::Context;
use std::alloc::Global;
use wap_base::{NoMemory, Rows, Text};
use wap_layout::buffer::Lines;
use wap_state::screen_lines::add_refusal;
use wap_state::{Current, here};
use wap_world::Refusal;

impl Context {
    /// The current card and its deck.
    pub(crate) fn here(&self) -> Option<Current<'_>>
        ensures { result ≡ held self.now }
    {
        here(&self.deck, self.state.card_number())
    }

    /// Shows the current card, if there is one.
    #[tactic(auto, using(wap_state::proofs::Standing::stands_same))]
    pub(crate) fn add_show(&mut self, alloc: Global, lines: &mut Lines) -> Result<(), NoMemory>
        ensures plays { OnOk result (Shows show self.old self.new lines.old lines.new) }
        ensures left { OnErr result (ChangesVarsAndTimer self.old self.new) }
    {
        let number = self.state.card_number();
        match here(&self.deck, number) {
            Some(here) => self.state.show(alloc, &here, lines),
            None => Ok(()),
        }
    }

    /// Adds the screen of the current card, if there is one.
    pub(crate) fn add_screen(&self, alloc: Global, lines: &mut Lines) -> Result<(), NoMemory>
        ensures { OnOk result (Shows show_screen self.now self.now lines.old lines.new) }
    {
        match self.here() {
            Some(here) => self.state.add_screen(alloc, &here, lines),
            None => Ok(()),
        }
    }

    /// Adds the line of a refusal, and shows the current card.
    pub(crate) fn add_refusal(
        &mut self,
        alloc: Global,
        refusal: Refusal,
        lines: &mut Lines,
    ) -> Result<(), NoMemory>
        ensures { OnOk result
            (Shows (λ place. refuse place refusal) self.old self.new lines.old lines.new) }
    {
        add_refusal(refusal, lines)?;
        self.add_show(alloc, lines)
    }

    /// Leaves the current card, if there is one: a timer that runs stores what remains.
    #[tactic(auto, using(wap_state::proofs::Standing::stands_same))]
    fn leave(&mut self, alloc: Global, lines: &mut Lines) -> Result<(), NoMemory>
        ensures { OnOk result
            (Shows leave self.old self.new lines.old lines.new) }
    {
        let number = self.state.card_number();
        match here(&self.deck, number) {
            Some(here) => self.state.store_left(alloc, &here.card, lines),
            None => Ok(()),
        }
    }

    /// Sets variables.
    #[tactic(auto, using(wap_state::proofs::Standing::stands_same))]
    pub(crate) fn set_variables(
        &mut self,
        alloc: Global,
        sets: Rows<(Text, Text)>,
        lines: &mut Lines,
    ) -> Result<(), NoMemory>
        ensures { OnOk result
            (Shows (λ place. set_variables sets) self.old self.new lines.old lines.new) }
    {
        self.state.set_variables(alloc, sets, lines)
    }

    /// Leaves the current card, and sets variables.
    pub(crate) fn leave_and_set(
        &mut self,
        alloc: Global,
        sets: Rows<(Text, Text)>,
        lines: &mut Lines,
    ) -> Result<(), NoMemory>
        ensures { OnOk result
            (Shows (λ place. leave_and_set place sets) self.old self.new lines.old lines.new) }
    {
        self.leave(alloc, lines)?;
        self.set_variables(alloc, sets, lines)
    }

    /// Starts the timer of the current card anew, and draws its screen.
    #[tactic(auto, using(wap_state::proofs::Standing::stands_same))]
    fn restart(&mut self, alloc: Global, lines: &mut Lines) -> Result<(), NoMemory>
        ensures { OnOk result
            (Shows (at_place restart_place) self.old self.new lines.old lines.new) }
    {
        let number = self.state.card_number();
        match here(&self.deck, number) {
            Some(here) => self.state.restart(alloc, &here, lines),
            None => Ok(()),
        }
    }

    /// Shows the current card again, if there is one, with variables set: it is left and shown, and
    /// its timer starts anew.
    pub(crate) fn refresh(
        &mut self,
        alloc: Global,
        sets: Rows<(Text, Text)>,
        lines: &mut Lines,
    ) -> Result<(), NoMemory>
        ensures { OnOk result
            (Shows (λ place. refresh place sets) self.old self.new lines.old lines.new) }
    {
        if self.here().is_none() {
            return Ok(());
        }
        self.leave_and_set(alloc, sets, lines)?;
        self.restart(alloc, lines)
    }
}
