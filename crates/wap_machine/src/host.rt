//! Hosts of machines.
ghost use Rattle.std.specs.Prelude.{◌≡◌, ℕ, ◌-◌, ◌<◌, ◌≤◌, List, Option, Some};
ghost use Rattle.std.specs.Prelude.{length, IsTrue, ◌↔◌, IfSome, IfOk, OnOk, IsErrOf};
ghost use Rattle.std.specs.Option.{option_copied};
ghost use Rattle.wap_url.specs.declared.url.Url.{Url as TheUrl};
ghost use Rattle.wap_value.specs.declared.value.Value.{Value as TheValue};
ghost use Rattle.wap_unit.specs.Libraries.{lib_args};
ghost use Rattle.wap_execution.specs.Outcomes.{Hosting};
ghost use Rattle.wap_machine.specs.Hosts.{Gives, Grows, Fetches, IsCallable, IsNoBudget};

use wap_base::{RunErr, Shared, Text};
use wap_execution::{Found, HostOut};
use wap_url::Url;
use wap_value::Value;
use wap_verify::Verified;

/// What machines run in: it counts turns, finds functions of other units, and has the libraries.
/// The pages, which calls may ask, are passed beside it.
pub trait Host<P> {
    /// What the pages have, as far as it matters to calls.
    ghost Under: { Type 0 };

    /// The pages may have this, by all that they answered so far.
    ghost may_have: { P → Under → Type 0 };

    /// What host and pages are in, as far as calls depend on it.
    ghost State: { Type 0 };

    /// How many turns are left.
    ghost turns: { Self → ℕ };

    /// The state, where the pages have this.
    ghost state: { Self → P → Under → State };

    /// What the calls answer, and the state that they leave.
    ghost meaning: { Hosting State };

    /// How often the pages have failed.
    ghost faults: { P → ℕ };

    /// How often the pages were fetched.
    ghost fetches: { P → ℕ };

    /// The same, where the state tells it.
    ghost fetched: { State → Option ℕ };

    /// What calls keep of the pages, however they end, as what a store holds.
    ghost kept: { P → P → Type 0 };

    /// Takes a turn, if one is left.
    fn turn(&mut self) -> bool
        ensures some { IsTrue result ↔ (0 < turns self.old) }
        ensures turns { turns self.new ≡ turns self.old - 1 }
        ensures state { (pages : P) (under : Under)
            → state self.new pages under ≡ state self.old pages under };

    /// A function of another unit, by the calling unit's URL, the other's, and its name, for so
    /// many arguments, while so many functions are at work.
    ///
    /// # Errors
    /// `Store` where the pages failed, and `NoMemory`.
    fn external(
        &mut self,
        pages: &mut P,
        caller: &Url,
        target: &Text,
        function: &Text,
        count: u8,
        depth: u32,
    ) -> Result<Found<Shared<Verified>>, RunErr>
        // It is so for all that the pages may have then.
        ensures told { IfOk result (λ found. (under : Under) → may_have pages.new under → Gives
            (meaning.external (state self.old pages.old under)
            caller.now target.now function.now count depth)
            found (state self.new pages.new under)) }
        ensures callable { IfOk result (λ found. IsCallable count depth found) }
        ensures turns { turns self.new ≡ turns self.old }

        ensures kept { kept pages.old pages.new }
        ensures steady { OnOk result (faults pages.new ≡ faults pages.old) }
        ensures faults { faults pages.old ≤ faults pages.new }
        ensures failed { IsErrOf result RunErr.Store
            → (faults pages.old) < (faults pages.new) }
        ensures fetches { fetches pages.old ≤ fetches pages.new }
        ensures fetched { IsErrOf result RunErr.Store → (under : Under) → may_have pages.new under
            → Fetches (fetched (state self.old pages.old under)) (fetches pages.new) (fetched
            (meaning.external (state self.old pages.old under)
            caller.now target.now function.now count depth).1) };

    /// What a function of a library gives, by the unit's URL and that of the unit that called it.
    ///
    /// # Errors
    /// `Store` where the pages failed, and `NoMemory`.
    fn library(
        &mut self,
        pages: &mut P,
        base: &Url,
        referer: Option<&Url>,
        library: u16,
        function: u8,
        arguments: Vec<Value>,
    ) -> Result<HostOut, RunErr>
        requires { lib_args library function ≡ Some (length arguments.items) }
        ensures told { IfOk result (λ out. (under : Under) → may_have pages.new under → Gives
            (meaning.library (state self.old pages.old under) base.now
            (option_copied referer.entry) library function arguments.items)
            out (state self.new pages.new under)) }
        ensures no_budget { IfOk result IsNoBudget }
        ensures turns { turns self.new ≡ turns self.old }

        ensures kept { kept pages.old pages.new }
        ensures steady { OnOk result (faults pages.new ≡ faults pages.old) }
        ensures faults { faults pages.old ≤ faults pages.new }
        ensures failed { IsErrOf result RunErr.Store
            → (faults pages.old) < (faults pages.new) }
        ensures fetches { fetches pages.old ≤ fetches pages.new }
        ensures fetched { IsErrOf result RunErr.Store → (under : Under) → may_have pages.new under
            → Fetches (fetched (state self.old pages.old under)) (fetches pages.new) (fetched
            (meaning.library (state self.old pages.old under) base.now
            (option_copied referer.entry) library function arguments.items).1) };

    /// The state tells what the pages count.
    ghost counted: { (host : Self) (pages : P) (under : Under)
        → IfSome (fetched (state host pages under)) (λ count. count ≡ fetches pages) };

    /// What is kept is so where nothing was called.
    ghost kept_still: { (pages : P) → kept pages pages };

    /// What each of two calls keeps, both keep.
    ghost kept_then: { (one two three : P) → kept one two → kept two three → kept one three };

    /// What pages may have after calls, they may have had before.
    ghost kept_may: { (before after : P) (under : Under) → kept before after
        → may_have after under → may_have before under };

    /// No call takes a fetch back.
    ghost external_grows: { (before : State) (caller : TheUrl) (target name : List ℕ)
        (count depth : ℕ) → Grows (fetched before)
        (fetched (meaning.external before caller target name count depth).1) };

    ghost library_grows: { (before : State) (base : TheUrl) (referer : Option TheUrl)
        (library function : ℕ) (arguments : List TheValue) → Grows (fetched before)
        (fetched (meaning.library before base referer library function arguments).1) };
}
