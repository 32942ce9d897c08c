//! The screen of the current card (WAP-191, section 11.5).
ghost use Rattle.std.specs.Prelude.{◌≡◌, ◌⊎◌, OnOk, OnErr};
ghost use Rattle.wap_url.specs.Segments.{IsPrefix};
ghost use Rattle.wap_cardrules.specs.Setting.{defaults};
ghost use Rattle.wap_cards.specs.inputs.Stopped.{DefaultsStand};
ghost use Rattle.wap_world.specs.Setting.{with_set};
ghost use Rattle.wap_state.specs.CardAtHand.{placed};
ghost use Rattle.wap_url.specs.declared.url.Url.{Url};
ghost use Rattle.wap_world.specs.Screens.{screen_lines, show_place, restart_place};
ghost use Rattle.wap_state.specs.Scenes.{Plays, Leaves};

use crate::hand::Current;
use crate::screen_lines::{add_fault_lines, add_screen};
use crate::state::State;
use std::alloc::Global;
use wap_base::NoMemory;
use wap_cards::inputs::apply_defaults;
use wap_deck::good::View;
use wap_layout::buffer::Lines;

impl State {
    /// Adds the screen of a card.
    pub fn add_screen(
        &self,
        alloc: Global,
        here: &Current<'_>,
        lines: &mut Lines,
    ) -> Result<(), NoMemory>
        ensures plays { (url : Url) → OnOk result
            (Plays (screen_lines (placed url here.now) self.now)
            self.now self.now lines.old lines.new) }
        ensures left { OnErr result (IsPrefix lines.old lines.new) }
    {
        add_screen(alloc, here.deck, &here.card, &self.vars, lines)
    }

    /// Gives the fields of a card their defaults, and adds a line for each set that was refused.
    fn apply_defaults(
        &mut self,
        alloc: Global,
        card: &View<'_>,
        lines: &mut Lines,
    ) -> Result<(), NoMemory>
        ensures plays { OnOk result
            (Plays (with_set self.old (defaults self.old.vars card.now))
            self.old self.new lines.old lines.new) }
        ensures history { self.new.history ≡ self.old.history }
        ensures timer { self.new.timer ≡ self.old.timer }
        ensures left { OnErr result (Leaves self.old self.new lines.old lines.new) }
        ensures stopped { OnErr result (DefaultsStand self.old.vars card.now self.new.vars) }
    {
        let refused = apply_defaults(alloc, card, &mut self.vars)?;
        add_fault_lines(refused.as_slice(), lines)
    }

    /// Shows a card: its fields get their defaults, its timer starts unless it has since the card
    /// was entered, and its screen is drawn.
    pub fn show(
        &mut self,
        alloc: Global,
        here: &Current<'_>,
        lines: &mut Lines,
    ) -> Result<(), NoMemory>
        ensures plays { (url : Url) → OnOk result
            (Plays (show_place (placed url here.now) self.old)
            self.old self.new lines.old lines.new) }
        ensures history { self.new.history ≡ self.old.history }
        ensures left { OnErr result (Leaves self.old self.new lines.old lines.new) }
        ensures stopped { OnErr result
            (DefaultsStand self.old.vars here.now.card self.new.vars) }
        ensures timer { (url : Url) → OnErr result ((self.new.timer ≡ self.old.timer)
            ⊎ (self.new.timer ≡ (show_place (placed url here.now) self.old).world.timer)) }
    {
        self.apply_defaults(alloc, &here.card, lines)?;
        self.start(alloc, &here.card)?;
        self.add_screen(alloc, here, lines)
    }

    /// Starts the timer of a card anew, and draws its screen.
    pub fn restart(
        &mut self,
        alloc: Global,
        here: &Current<'_>,
        lines: &mut Lines,
    ) -> Result<(), NoMemory>
        ensures plays { (url : Url) → OnOk result
            (Plays (restart_place (placed url here.now) self.old)
            self.old self.new lines.old lines.new) }
        ensures history { self.new.history ≡ self.old.history }
        ensures left { OnErr result (Leaves self.old self.new lines.old lines.new) }
        ensures vars { self.new.vars ≡ self.old.vars }
        ensures timer { (url : Url) → OnErr result ((self.new.timer ≡ self.old.timer)
            ⊎ (self.new.timer ≡ (restart_place (placed url here.now) self.old).world.timer)) }
    {
        self.start_timer(alloc, &here.card)?;
        self.add_screen(alloc, here, lines)
    }
}
