//! Instructions, one after the other.
ghost use Rattle.std.specs.Prelude.{◌≡◌, ◌≤◌, IfOk};
ghost use Rattle.wap_base.specs.Limits.{IsStringLimit, AreInRange};
ghost use Rattle.wap_execution.specs.Frames.{code_of};
ghost use Rattle.wap_machine.specs.Standing.{Stands};
ghost use Rattle.wap_machine.specs.Doing.{StandsFor};
ghost use Rattle.wap_machine.specs.inside.Goings.{HasGone};
ghost use Rattle.wap_machine.specs.inside.Rounds.{HasRounded};

use crate::{Frame, Host, Next, act};
use std::alloc::Global;
use wap_base::{Limits, NoMemory};

/// Does instructions up to one after which the frame doesn't simply go on further on. A function
/// that comes to its end gives the empty String.
#[inline(always)]
fn go_on(alloc: Global, frame: &mut Frame, code: &[u8], string: u32) -> Result<Next, NoMemory>
    requires limit { IsStringLimit string }
    requires code { code.now ≡ code_of frame.old.function }
    requires stands { Stands frame.old 0 }
    ensures gone { IfOk result (HasGone string frame.old frame.new) }
    ensures stands { IfOk result (StandsFor frame.new) }
{
    loop {
        match act(alloc, frame, code, string)? {
            Next::Onward => {}
            next => return Ok(next),
        }
    }
}

/// Does instructions up to one after which the frame doesn't simply go on, and takes the turn of
/// each jump back but one for which none is left.
// In `run`, where the frame stands.
#[inline(always)]
pub(crate) fn go_round<P, H: Host<P>>(
    alloc: Global,
    frame: &mut Frame,
    limits: Limits,
    host: &mut H,
) -> Result<Next, NoMemory>
    requires limits { AreInRange limits }
    requires stands { Stands frame.old 0 }
    ensures rounded { IfOk result (HasRounded H.meaning limits
        (H.turns host.old) (H.turns host.new) frame.old frame.new) }
    ensures stands { IfOk result (StandsFor frame.new) }
    ensures turns { H.turns host.new ≤ H.turns host.old }
    ensures state { (pages : P) (under : H.Under)
        → H.state host.new pages under ≡ H.state host.old pages under }
{
    let script = frame.script().share()?;
    let code = script.code(frame.index());
    loop {
        match go_on(alloc, frame, code, limits.string)? {
            Next::Back => {
                if !host.turn() {
                    return Ok(Next::Back);
                }
            }
            next => return Ok(next),
        }
    }
}
