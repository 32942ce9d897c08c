//! The lines of keys.
ghost use Rattle.std.specs.Prelude.{◌≡◌, ◌∷◌, [], map, IfOk};
ghost use Rattle.wap_world.specs.Lines.{refusal_line, variable_line};

use std::alloc::Global;
use wap_base::{NoMemory, Text};
use wap_layout::buffer::Lines;
use wap_state::screen_lines::add_refusal;
use wap_vars::Vars;
use wap_world::Refusal;

/// The lines of a refusal, which is one line.
pub fn refusal_lines(alloc: Global, refusal: Refusal) -> Result<Lines, NoMemory>
    ensures { IfOk result (λ lines. lines ≡ refusal_line refusal ∷ []) }
{
    let mut lines = Lines::new(alloc);
    add_refusal(refusal, &mut lines)?;
    Ok(lines)
}

/// The line of a variable.
#[tactic(auto, using(wap_base::proofs::Plain::words))]
fn variable_line(alloc: Global, variable: &(Text, Text)) -> Result<Text, NoMemory>
    ensures { IfOk result (λ line. line ≡ variable_line variable.now) }
{
    let mut line = Text::of(alloc, "$ ")?;
    line.add(variable.0.as_str())?;
    line.push('=')?;
    line.add(variable.1.as_str())?;
    Ok(line)
}

/// The lines of the variables, in ascending order of names.
pub(crate) fn variable_lines(alloc: Global, vars: &Vars) -> Result<Lines, NoMemory>
    ensures { IfOk result (λ lines. lines ≡ map variable_line vars.now) }
{
    let variables = vars.entries(alloc)?;
    let mut lines = Lines::new(alloc);
    for variable in &variables {
        lines.add(variable_line(alloc, variable)?.as_str())?;
    }
    Ok(lines)
}
