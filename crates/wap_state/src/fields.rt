//! The fields of the current card (WAP-191, section 11.6).
ghost use Rattle.std.specs.Prelude.{◌≡◌, IfOk, OnOk, OnErr};
ghost use Rattle.wap_cardrules.specs.Entering.{enter_text, choose};
ghost use Rattle.wap_cards.specs.inputs.Stopped.{ChoiceStands};

use crate::hand::Current;
use crate::state::State;
use std::alloc::Global;
use wap_base::{NoMemory, Text};
use wap_cardrules::{Chosen, Entered};
use wap_cards::inputs::{choose, enter_text};

impl State {
    /// Enters a text into the field of a number.
    pub fn enter_text(
        &mut self,
        alloc: Global,
        here: &Current<'_>,
        number: u16,
        text: &Text,
    ) -> Result<Entered, NoMemory>
        ensures vars { OnOk result (self.new ≡ record self.old {
          vars = (enter_text self.old.vars here.now.card number text.now).vars;
        }) }
        ensures answer { IfOk result (λ answer. answer
            ≡ (enter_text self.old.vars here.now.card number text.now).answer) }
        ensures history { self.new.history ≡ self.old.history }
        ensures kept { OnErr result (self.new ≡ self.old) }
    {
        enter_text(alloc, &here.card, number, text, &mut self.vars)
    }

    /// Chooses an option in the field of a number.
    pub fn choose(
        &mut self,
        alloc: Global,
        here: &Current<'_>,
        field: u16,
        option: u16,
    ) -> Result<Chosen, NoMemory>
        ensures vars { OnOk result (self.new ≡ record self.old {
          vars = (choose self.old.vars here.now.card field option).vars;
        }) }
        ensures answer { IfOk result (λ answer. answer
            ≡ (choose self.old.vars here.now.card field option).answer) }
        ensures history { self.new.history ≡ self.old.history }
        ensures left { OnErr result (self.new ≡ record self.old { vars = self.new.vars }) }
        ensures stopped { OnErr result
            (ChoiceStands self.old.vars here.now.card field option self.new.vars) }
    {
        choose(alloc, &here.card, field, option, &mut self.vars)
    }
}
