//! What bytes are: a unit, or refused. The functions here do nothing, and carry the laws alone.
ghost use Rattle.std.specs.Prelude.{◌≡◌, ℕ, ◌<◌, ◌⊎◌, List};
ghost use Rattle.std.specs.List.{AllByRecursion};
ghost use Rattle.wap_unit.specs.declared.unit.Unit.{Unit};
ghost use Rattle.wap_unit.specs.declared.fault.UnitFault.{UnitFault};
ghost use Rattle.wap_unit.specs.Units.{IsUnit};
ghost use Rattle.wap_unit.specs.Refusal.{IsRefused};

/// No bytes have two units.
pub fn no_bytes_have_two_units()
    ensures { (bytes : List ℕ) (one two : Unit) → IsUnit bytes one → IsUnit bytes two → one ≡ two }
{}

/// No bytes have two faults.
pub fn no_bytes_have_two_faults()
    ensures { (bytes : List ℕ) (one two : UnitFault) → IsRefused bytes one → IsRefused bytes two
        → one ≡ two }
{}

/// No bytes are a unit and have a fault.
pub fn no_unit_has_a_fault()
    ensures { (bytes : List ℕ) (unit : Unit) (fault : UnitFault) → IsUnit bytes unit
        → IsRefused bytes fault → ⊥ }
{}

/// Bytes that are no unit have a fault.
pub fn what_is_no_unit_has_a_fault()
    ensures { (bytes : List ℕ) → AllByRecursion (λ byte. byte < 256) bytes
        → ((unit : Unit) × IsUnit bytes unit) ⊎ ((fault : UnitFault) × IsRefused bytes fault) }
{}
