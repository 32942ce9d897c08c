//! Runs of machines.
ghost use Rattle.std.specs.Prelude.{◌≡◌, ◌≤◌, IfOk, OnOk, IsErrOf, ◌<◌};
ghost use Rattle.wap_machine.specs.Hosts.{Fetches};
ghost use Rattle.wap_machine.specs.Runs.{run_of, IsEnd, IsBounded};
ghost use Rattle.wap_machine.specs.Runs.{KeepsLimits, WantsNoTurn};

use crate::host::Host;
use crate::machine::{Machine, Outcome, Step};
use crate::stepping::step;
use wap_base::RunErr;

impl Machine {
    /// Runs until the function gives a value, the script ends, or it asks its user.
    ///
    /// # Errors
    /// `Store` where the host's pages failed, and `NoMemory`.
    pub fn run<P, H: Host<P>>(self, host: &mut H, pages: &mut P) -> Result<Outcome, RunErr>
        // For all that the pages may have then, the outcome, the turns and the state are those of
        // the definition.
        ensures told { IfOk result (λ outcome. (under : H.Under) → H.may_have pages.new under
            → IsEnd (run_of self H.meaning (H.turns host.old) (H.state host.old pages.old under))
            outcome (H.turns host.new) (H.state host.new pages.new under)) }
        // The definition's run does no more instructions than the turns that were taken allow.
        ensures bounded { IfOk result (λ outcome. (under : H.Under) → H.may_have pages.new under
            → IsBounded self H.meaning (H.turns host.old) (H.turns host.new)
            (H.state host.old pages.old under)) }
        // It ends because turns ran out only where none is left.
        ensures budget { IfOk result (WantsNoTurn (H.turns host.new)) }
        ensures limits { IfOk result (KeepsLimits self.limits) }
        ensures turns { H.turns host.new ≤ H.turns host.old }

        // What calls keep of the pages, the run keeps; and where it ends, no store has failed.
        ensures kept { H.kept pages.old pages.new }
        ensures steady { OnOk result (H.faults pages.new ≡ H.faults pages.old) }
        // A store that failed has counted it, and no more was fetched than by the whole run.
        ensures faults { H.faults pages.old ≤ H.faults pages.new }
        ensures failed { IsErrOf result RunErr.Store
            → (H.faults pages.old) < (H.faults pages.new) }
        ensures fetches { H.fetches pages.old ≤ H.fetches pages.new }
        ensures fetched { IsErrOf result RunErr.Store → (under : H.Under)
            → H.may_have pages.new under
            → Fetches (H.fetched (H.state host.old pages.old under)) (H.fetches pages.new)
            (H.fetched (run_of self H.meaning (H.turns host.old)
            (H.state host.old pages.old under)).state) }
    {
        let mut machine = self;
        loop {
            match step(machine, host, pages)? {
                Step::Goes(next) => machine = next,
                Step::Ends(outcome) => return Ok(outcome),
            }
        }
    }
}
