//! Laws of the code of programs, each the contract of a function that does nothing. What code is
//! chosen stands in `wap_meaning::coding`, and what programs mean in `wap_meaning`.
ghost use Rattle.wap_meaning.specs.coding.Compiled.{AgreeWithPrograms};

/// What the states of a host are.
pub trait HostStates {
    ghost State: { Type 0 };
}

/// Compiled functions come to what their sources mean, whatever their calls come to.
pub fn units_agree_with_programs<H: HostStates>()
    ensures { AgreeWithPrograms H.State }
{}
