//! What a listing shows of code. The function here does nothing, and carries the law alone.
ghost use Rattle.std.specs.Prelude.{ℕ, List};
ghost use Rattle.wap_dis.specs.Splitting.{IsListedSplit};

/// Code is listed as whole instructions as far as these go, and from there on as bytes.
pub fn code_is_split_as_far_as_it_goes()
    ensures { (code : List ℕ) → IsListedSplit code }
{}
