//! What holds of calls. The function here does nothing, and carries the laws alone.
ghost use Rattle.std.specs.Prelude.{◌≡◌, ◌↔◌, ℕ, List};
ghost use Rattle.wap_parse.specs.declared.invocation.invocation.Invocation.{Invocation};
ghost use Rattle.wap_parse.specs.invocation.Calls.{IsCall};
ghost use Rattle.wap_parse.specs.invocation.Calculation.{call_of};

/// A fragment is the call that is read from it, and no other.
pub fn calls_are_read()
    ensures read { (fragment : List ℕ) (call : Invocation) →
        IsCall fragment call ↔ (call_of fragment ≡ Some call) }
    ensures one { (fragment : List ℕ) (call other : Invocation) →
        IsCall fragment call → IsCall fragment other → call ≡ other }
{}
