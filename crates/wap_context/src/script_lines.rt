//! The line of a script that isn't started or ends abnormally.
ghost use Rattle.std.specs.Prelude.{◌≡◌, IfOk, OnOk, ◌++◌, ◌∷◌, []};
ghost use Rattle.wap_world.specs.Starting.{script_line};

use std::alloc::Global;
use wap_base::{NoMemory, Text};
use wap_execution::Fatal;
use wap_layout::buffer::Lines;

/// The line of a script that ends for a reason.
#[tactic(auto, using(wap_base::proofs::Plain::words))]
fn script_line(alloc: Global, why: &Fatal) -> Result<Text, NoMemory>
    ensures { IfOk result (λ line. line ≡ script_line why.now) }
{
    let mut line = Text::of(alloc, "! script ")?;
    match why {
        Fatal::Budget => line.add("budget")?,
        Fatal::Depth => line.add("depth")?,
        Fatal::NoUnit => line.add("missing")?,
        Fatal::UnitRefused => line.add("refused")?,
        Fatal::NoFunction => line.add("function")?,
        Fatal::Arguments => line.add("arguments")?,
        Fatal::Denied => line.add("denied")?,
        Fatal::Aborted(text) => {
            line.add("aborted ")?;
            line.add(text.as_str())?;
        }
        Fatal::TooLong => line.add("long")?,
        Fatal::Stopped => line.add("stopped")?,
    }
    Ok(line)
}

/// Adds that line.
pub(crate) fn add_script_line(alloc: Global, why: &Fatal, lines: &mut Lines) -> Result<(), NoMemory>
    ensures { OnOk result (lines.new ≡ lines.old ++ script_line why.now ∷ []) }
{
    lines.add(script_line(alloc, why)?.as_str())
}
