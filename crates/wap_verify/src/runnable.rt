//! Whether a unit may be run, as a test on the unit alone that takes no memory. It says nothing
//! new of units: it lets definitions speak of the pages of a store as a function of their bytes.
ghost use Rattle.std.specs.Prelude.{◌≡◌, ◌↔◌, true, false};
ghost use Rattle.wap_unit.specs.declared.unit.Unit.{Unit};
ghost use Rattle.wap_verify.specs.declared.fault.VerifyFault.{VerifyFault};
ghost use Rattle.wap_verify.specs.Sound.{IsVerified};
ghost use Rattle.wap_verify.specs.Faults.{IsFault};
ghost use Rattle.wap_verify.specs.runnable.Runnable.{may_run, AreAlike};

/// A law of the test, which does nothing when it is called. A unit passes it exactly where it may
/// be run, and exactly the units that don't pass it have a fault; a second fault there is only
/// where numbers of values don't fit.
pub fn units_may_be_run_or_have_a_fault()
    ensures passes { (unit : Unit) → (may_run unit ≡ true) ↔ IsVerified unit }
    ensures fails { (unit : Unit) → (may_run unit ≡ false)
        ↔ ((fault : VerifyFault) × IsFault unit fault) }
    ensures alike { (unit : Unit) (fault other : VerifyFault) → IsFault unit fault
        → IsFault unit other → AreAlike fault other }
{}
