//! Calls that ask the host.
ghost use Rattle.std.specs.Prelude.{◌≡◌, ◌<◌, ◌≤◌, length, IfOk, OnOk, IsErrOf};
ghost use Rattle.wap_execution.specs.Effects.{library, external};
ghost use Rattle.wap_machine.specs.Seen.{called_of};
ghost use Rattle.wap_machine.specs.Doing.{AreFew};
ghost use Rattle.wap_machine.specs.Hosts.{Grows, Fetches};
ghost use Rattle.wap_execution.specs.laws.Settings.{uncounted};
ghost use Rattle.wap_machine.specs.inside.MachineSteps.{rest, called_from};
ghost use Rattle.wap_machine.specs.inside.MachineSteps.{CanCallFrom, IsInOrderFor};

use crate::Callee;
use crate::calls::{enter_found, enter_local, go_with};
use crate::host::Host;
use crate::machine::{Step, Waiting};
use wap_base::{RunErr, Text};
use wap_value::Value;

/// Calls a function of a library.
fn call_library<P, H: Host<P>>(
    waiting: Waiting,
    host: &mut H,
    pages: &mut P,
    number: u16,
    index: u8,
    arguments: Vec<Value>,
) -> Result<Step, RunErr>
    requires { CanCallFrom waiting.frames (library number index) arguments.items }
    ensures told { IfOk result (λ step. (under : H.Under) → H.may_have pages.new under
        → called_from waiting H.meaning (library number index) arguments.items
        (H.turns host.old) (H.state host.old pages.old under)
        ≡ rest (uncounted waiting.limits H.meaning) step
        (H.turns host.new) (H.state host.new pages.new under)) }
    ensures order { IfOk result (IsInOrderFor waiting.limits) }
    ensures turns { H.turns host.new ≡ H.turns host.old }
    ensures grown { IfOk result (λ _. (under : H.Under) → H.may_have pages.new under
        → Grows (H.fetched (H.state host.old pages.old under))
        (H.fetched (H.state host.new pages.new under))) }
    ensures kept { H.kept pages.old pages.new }
    ensures steady { OnOk result (H.faults pages.new ≡ H.faults pages.old) }
    ensures faults { H.faults pages.old ≤ H.faults pages.new }
    ensures failed { IsErrOf result RunErr.Store
        → (H.faults pages.old) < (H.faults pages.new) }
    ensures fetches { H.fetches pages.old ≤ H.fetches pages.new }
    ensures fetched { IsErrOf result RunErr.Store → (under : H.Under)
        → H.may_have pages.new under
        → Fetches (H.fetched (H.state host.old pages.old under)) (H.fetches pages.new) (H.fetched
        (called_from waiting H.meaning (library number index) arguments.items
        (H.turns host.old) (H.state host.old pages.old under)).state) }
{
    let script = waiting.frame().script();
    let referer = script.referer.as_ref();
    let out = host.library(pages, &script.base, referer, number, index, arguments)?;
    Ok(go_with(waiting, out))
}

/// Calls a function of another unit.
fn call_external<P, H: Host<P>>(
    waiting: Waiting,
    host: &mut H,
    pages: &mut P,
    url: Text,
    name: Text,
    arguments: Vec<Value>,
) -> Result<Step, RunErr>
    requires few { length arguments.items < 256 }
    ensures told { IfOk result (λ step. (under : H.Under) → H.may_have pages.new under
        → called_from waiting H.meaning (external url name) arguments.items
        (H.turns host.old) (H.state host.old pages.old under)
        ≡ rest (uncounted waiting.limits H.meaning) step
        (H.turns host.new) (H.state host.new pages.new under)) }
    ensures order { IfOk result (IsInOrderFor waiting.limits) }
    ensures turns { H.turns host.new ≡ H.turns host.old }
    ensures grown { IfOk result (λ _. (under : H.Under) → H.may_have pages.new under
        → Grows (H.fetched (H.state host.old pages.old under))
        (H.fetched (H.state host.new pages.new under))) }
    ensures kept { H.kept pages.old pages.new }
    ensures steady { OnOk result (H.faults pages.new ≡ H.faults pages.old) }
    ensures faults { H.faults pages.old ≤ H.faults pages.new }
    ensures failed { IsErrOf result RunErr.Store
        → (H.faults pages.old) < (H.faults pages.new) }
    ensures fetches { H.fetches pages.old ≤ H.fetches pages.new }
    ensures fetched { IsErrOf result RunErr.Store → (under : H.Under)
        → H.may_have pages.new under
        → Fetches (H.fetched (H.state host.old pages.old under)) (H.fetches pages.new) (H.fetched
        (called_from waiting H.meaning (external url name) arguments.items
        (H.turns host.old) (H.state host.old pages.old under)).state) }
{
    let depth = waiting.depth() as u32;
    let count = arguments.len() as u8;
    let caller = &waiting.frame().script().base;
    let found = host.external(pages, caller, &url, &name, count, depth)?;
    Ok(enter_found(waiting, found, arguments)?)
}

/// Makes a call, whose turn was taken.
pub(crate) fn call<P, H: Host<P>>(
    waiting: Waiting,
    host: &mut H,
    pages: &mut P,
    callee: Callee,
    arguments: Vec<Value>,
) -> Result<Step, RunErr>
    requires few { AreFew callee (length arguments.items) }
    requires can { CanCallFrom waiting.frames (called_of callee) arguments.items }
    ensures told { IfOk result (λ step. (under : H.Under) → H.may_have pages.new under
        → called_from waiting H.meaning (called_of callee) arguments.items
        (H.turns host.old) (H.state host.old pages.old under)
        ≡ rest (uncounted waiting.limits H.meaning) step
        (H.turns host.new) (H.state host.new pages.new under)) }
    ensures order { IfOk result (IsInOrderFor waiting.limits) }
    ensures turns { H.turns host.new ≡ H.turns host.old }
    ensures grown { IfOk result (λ _. (under : H.Under) → H.may_have pages.new under
        → Grows (H.fetched (H.state host.old pages.old under))
        (H.fetched (H.state host.new pages.new under))) }
    ensures kept { H.kept pages.old pages.new }
    ensures steady { OnOk result (H.faults pages.new ≡ H.faults pages.old) }
    ensures faults { H.faults pages.old ≤ H.faults pages.new }
    ensures failed { IsErrOf result RunErr.Store
        → (H.faults pages.old) < (H.faults pages.new) }
    ensures fetches { H.fetches pages.old ≤ H.fetches pages.new }
    ensures fetched { IsErrOf result RunErr.Store → (under : H.Under)
        → H.may_have pages.new under
        → Fetches (H.fetched (H.state host.old pages.old under)) (H.fetches pages.new) (H.fetched
        (called_from waiting H.meaning (called_of callee) arguments.items
        (H.turns host.old) (H.state host.old pages.old under)).state) }
{
    match callee {
        Callee::Local(index) => match enter_local(waiting, index, arguments) {
            Ok(step) => Ok(step),
            Err(_) => Err(RunErr::NoMemory),
        },
        Callee::Library(number, index) => {
            call_library(waiting, host, pages, number, index, arguments)
        }
        Callee::External(url, name) => call_external(waiting, host, pages, url, name, arguments),
    }
}
