//! Steps of a machine in its host.
ghost use Rattle.std.specs.Prelude.{◌≡◌, ◌≤◌, IfOk, OnOk, IsErrOf, ◌<◌};
ghost use Rattle.wap_machine.specs.Hosts.{Grows, Fetches};
ghost use Rattle.wap_execution.specs.laws.Settings.{uncounted};
ghost use Rattle.wap_machine.specs.Runs.{run_of};
ghost use Rattle.wap_machine.specs.inside.Efforts.{effort, GoesBelow};
ghost use Rattle.wap_machine.specs.inside.MachineSteps.{rest, LimitsStay, Wants};

use crate::asking::call;
use crate::host::Host;
use crate::machine::{Machine, Outcome, Step, Wanted};
use wap_base::RunErr;
use wap_execution::Fatal;

/// Does instructions up to one that asks for more than to go on, or ends the innermost function,
/// with what is wanted of the host for that.
// In `run`, so that what a step leaves isn't moved once more.
#[inline(always)]
pub(crate) fn step<P, H: Host<P>>(
    machine: Machine,
    host: &mut H,
    pages: &mut P,
) -> Result<Step, RunErr>
    ensures told { IfOk result (λ step. (under : H.Under) → H.may_have pages.new under
        → run_of machine H.meaning (H.turns host.old) (H.state host.old pages.old under)
        ≡ rest (uncounted machine.limits H.meaning) step
        (H.turns host.new) (H.state host.new pages.new under)) }
    ensures limits { IfOk result (LimitsStay machine.limits) }
    ensures wants { IfOk result (Wants (H.turns host.new)) }
    ensures falls { IfOk result
        (GoesBelow (effort (H.turns host.old) machine.frames) (H.turns host.new)) }
    ensures turns { H.turns host.new ≤ H.turns host.old }
    ensures grown { IfOk result (λ _. (under : H.Under) → H.may_have pages.new under
        → Grows (H.fetched (H.state host.old pages.old under))
        (H.fetched (H.state host.new pages.new under))) }
    ensures kept { H.kept pages.old pages.new }
    ensures steady { OnOk result (H.faults pages.new ≡ H.faults pages.old) }
    ensures faults { H.faults pages.old ≤ H.faults pages.new }
    ensures failed { IsErrOf result RunErr.Store
        → (H.faults pages.old) < (H.faults pages.new) }
    ensures fetches { H.fetches pages.old ≤ H.fetches pages.new }
    ensures fetched { IsErrOf result RunErr.Store → (under : H.Under)
        → H.may_have pages.new under
        → Fetches (H.fetched (H.state host.old pages.old under)) (H.fetches pages.new)
        (H.fetched (run_of machine H.meaning (H.turns host.old)
        (H.state host.old pages.old under)).state) }
{
    match machine.advance(host) {
        Ok(Wanted::Nothing(step)) => Ok(step),
        Ok(Wanted::Turn(machine)) => {
            if host.turn() {
                Ok(Step::Goes(machine))
            } else {
                Ok(Step::Ends(Outcome::Fatal(Fatal::Budget)))
            }
        }
        Ok(Wanted::Call(waiting, callee, arguments)) => {
            if host.turn() {
                call(waiting, host, pages, callee, arguments)
            } else {
                Ok(Step::Ends(Outcome::Fatal(Fatal::Budget)))
            }
        }
        Err(_) => Err(RunErr::NoMemory),
    }
}
