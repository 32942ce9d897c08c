//! Setting variables (WAP-191, sections 9.4 and 10.3.4).
ghost use Rattle.std.specs.Prelude.{◌≡◌, IfOk, OnOk, OnErr};
ghost use Rattle.wap_cardrules.specs.Setting.{set_all};
ghost use Rattle.wap_cards.specs.inputs.Stopped.{FirstStand};
ghost use Rattle.wap_world.specs.Setting.{set_variables};
ghost use Rattle.wap_state.specs.Scenes.{Plays, Leaves};

use crate::screen_lines::add_fault_lines;
use crate::state::State;
use std::alloc::Global;
use wap_base::{NoMemory, Rows, Text};
use wap_cards::inputs::set_one;
use wap_layout::buffer::Lines;
use wap_vars::{VarFault, Vars};

/// Sets variables in order, and tells why others were refused.
fn set_all(
    alloc: Global,
    pairs: Rows<(Text, Text)>,
    vars: &mut Vars,
) -> Result<Rows<VarFault>, NoMemory>
    ensures vars { OnOk result (vars.new ≡ (set_all vars.old pairs).vars) }
    ensures refused { IfOk result (λ refused. refused ≡ (set_all vars.old pairs).refused) }
    ensures stopped { OnErr result (FirstStand vars.old pairs vars.new) }
{
    let mut refused = Rows::new(alloc);
    for (name, text) in pairs.into_vec() {
        set_one(vars, &name, text, &mut refused)?;
    }
    Ok(refused)
}

impl State {
    /// Sets variables in order, and adds a line for each that was refused.
    pub fn set_variables(
        &mut self,
        alloc: Global,
        pairs: Rows<(Text, Text)>,
        lines: &mut Lines,
    ) -> Result<(), NoMemory>
        ensures plays { OnOk result
            (Plays (set_variables pairs self.old) self.old self.new lines.old lines.new) }
        ensures history { self.new.history ≡ self.old.history }
        ensures timer { self.new.timer ≡ self.old.timer }
        ensures left { OnErr result (Leaves self.old self.new lines.old lines.new) }
        ensures stopped { OnErr result (FirstStand self.old.vars pairs self.new.vars) }
    {
        let refused = set_all(alloc, pairs, &mut self.vars)?;
        add_fault_lines(refused.as_slice(), lines)
    }
}
