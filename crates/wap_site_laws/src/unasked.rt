//! What follows where other pages stand in place of those for which a session never asks. The
//! function here does nothing when it is called.
ghost use Rattle.wap_site_laws.specs.unasked.Unasked.{UnaskedMatterNot, EndsBeside};

/// Pages that were never asked for may be any others, or none, where the session doesn't begin on
/// one of them: what is shown and asked for is the same, and so is the world in the end, which is
/// on none of them.
pub fn pages_never_asked_for_do_not_matter()
    ensures same { UnaskedMatterNot }
    ensures beside { EndsBeside }
{}
