//! What follows from the definitions of lists. The function here does nothing when it is called.
ghost use Rattle.std.specs.Prelude.{◌≡◌, ℕ, List};
ghost use Rattle.wap_keys.specs.Lines.{keys_of};
ghost use Rattle.wap_keys.specs.lists.Lists.{lists_of, HasNoDivider, one_list};

/// Where no line of a source is `%`, its keys are one list, and end as the source's do.
pub fn sources_without_dividers_are_one_list()
    ensures { (bytes : List ℕ) → HasNoDivider bytes → lists_of bytes ≡ one_list (keys_of bytes) }
{}
