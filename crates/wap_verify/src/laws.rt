//! What the verifier is good for. The function here does nothing, and carries the law alone.
ghost use Rattle.wap_verify.specs.Ready.{NeverStuck};

/// Wherever a function of a verified unit is reached, what its instruction needs is there.
pub fn verified_is_never_stuck()
    ensures { NeverStuck }
{}
