//! What calls come to.
ghost use Rattle.std.specs.Prelude.{◌≡◌, List, ◌∷◌, length, IfOk};
ghost use Rattle.wap_execution.specs.Frames.{Frame as TheFrame};
ghost use Rattle.wap_execution.specs.Effects.{local};
ghost use Rattle.wap_machine.specs.Hosts.{IsCallable};
ghost use Rattle.wap_machine.specs.inside.Efforts.{IsLight};
ghost use Rattle.wap_machine.specs.inside.MachineSteps.{CanCallFrom, goes_with, GoesLocally, GoesFound};

use crate::Script;
use crate::machine::{Outcome, Step, Waiting};
use wap_base::{NoMemory, Shared};
use wap_execution::{Fatal, Found, HostOut};
use wap_value::Value;
use wap_verify::Verified;

/// Goes into a function of the unit, unless so many are at work already.
pub(crate) fn enter_local(
    waiting: Waiting,
    index: u8,
    arguments: Vec<Value>,
) -> Result<Step, NoMemory>
    requires { CanCallFrom waiting.frames (local index) arguments.items }
    ensures goes { IfOk result (GoesLocally waiting.limits waiting.frames index arguments.items) }
    ensures light { IfOk result IsLight }
{
    if waiting.depth() >= waiting.limits().depth as usize {
        return Ok(Step::Ends(Outcome::Fatal(Fatal::Depth)));
    }
    let script = waiting.frame().script().share()?;
    Ok(Step::Goes(waiting.enter(script, index, arguments)?))
}

/// Goes on with what a library gave.
pub(crate) fn go_with(waiting: Waiting, out: HostOut) -> Step
    ensures goes { result ≡ goes_with waiting.limits waiting.frames out }
    ensures light { IsLight result }
{
    match out {
        HostOut::Value(value) => Step::Goes(waiting.go_on(value)),
        HostOut::Exit(value) => Step::Ends(Outcome::Exited(value)),
        HostOut::Fatal(why) => Step::Ends(Outcome::Fatal(why)),
        HostOut::Asks(dialog) => Step::Ends(Outcome::Asks(dialog, waiting)),
    }
}

/// Goes into a function of another unit, if one was found.
pub(crate) fn enter_found(
    waiting: Waiting,
    found: Found<Shared<Verified>>,
    arguments: Vec<Value>,
) -> Result<Step, NoMemory>
    requires { IsCallable (length arguments.items) (length waiting.frames) found }
    ensures goes { IfOk result (λ step. (frame : TheFrame) (outer : List TheFrame)
        → waiting.frames ≡ frame ∷ outer
        → GoesFound waiting.limits waiting.frames frame.function.base
        found arguments.items step) }
    ensures light { IfOk result IsLight }
{
    match found {
        Found::Not(why) => Ok(Step::Ends(Outcome::Fatal(why))),
        Found::Callee(unit, base, index) => {
            let alloc = waiting.alloc();
            let caller = waiting.frame().script().base.copy(alloc)?;
            let script = Script {
                unit,
                base,
                referer: Some(caller),
            };
            let script = Shared::new(alloc, script)?;
            Ok(Step::Goes(waiting.enter(script, index, arguments)?))
        }
    }
}
