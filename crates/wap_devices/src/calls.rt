//! Which calls of a fake fail.
ghost use Rattle.std.specs.Prelude.{◌≡◌, ◌≤◌};
ghost use Rattle.wap_devices.specs.Fakes.{fresh, called, fails_next};

use crate::Count;
use std::marker::Model;

/// The calls of a fake so far, and those that are to fail.
#[derive(Drop)]
pub(crate) struct Calls {
    fail: Vec<u64>,
    number: u64,
    made: Count,
    faults: Count,
}

impl Model for Calls {
    ghost use Rattle.std.specs.Prelude.{◌≡◌};
    ghost use Rattle.wap_devices.specs.Fakes.{Schedule, number_of};

    ghost Value = { Schedule };

    ghost view = { λ calls.
        record { fail = calls.fail.items; made = calls.made; faults = calls.faults } };

    ghost invariant = { λ calls. calls.number ≡ number_of calls.made };
}

impl Calls {
    /// No call yet. `fail` has the numbers, from 1, of the calls that fail.
    pub(crate) fn new(fail: Vec<u64>) -> Calls
        ensures { result ≡ fresh fail.items }
    {
        Calls {
            fail,
            number: 0,
            made: Count::new(),
            faults: Count::new(),
        }
    }

    /// Whether the next call is one that fails.
    pub(crate) fn fails_next(&self) -> bool
        ensures { result ≡ fails_next self.now }
    {
        self.fail.contains(&self.number.saturating_add(1))
    }

    /// Counts a call that fails or doesn't.
    pub(crate) fn count(&mut self, failed: bool)
        ensures counted { self.new ≡ called self.old failed }
        ensures ordered { self.old.faults ≤ self.new.faults }
    {
        self.number = self.number.saturating_add(1);
        self.made.add();
        self.faults.add_if(failed);
    }
}
