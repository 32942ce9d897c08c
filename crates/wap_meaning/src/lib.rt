//! What source programs mean, and the unit that a program is compiled to, as definitions in
//! `specs/`. There is no code here.
//!
//! - `coding`: The code of WMLScript's programs, the forms of each expression and
//!   statement, what they need of their unit, and its constants.
//! - `compiled`: The unit that a program of WMLScript is compiled to, by definitions that compute:
//!   its constants, its code and all else, its size in wide code, and which programs have a unit.
//! - `accepted`: The program of a source that is accepted, by calculation.
//! - `needs`: Laws of what the programs of sources need: it is drawn from their tokens, and its
//!   constants are those of the unit, each once.
#![tactic(auto)]

ghost use Rattle.wap_base.specs.declared.limits.Limits.{Limits as TheLimits};
ghost use Rattle.wap_execution.specs.Outcomes.{Hosting};
ghost use Rattle.wap_meaning.specs.Functions.{RunsAsMachines};
ghost use Rattle.wap_meaning.specs.Keeping.{KeepTurnsAndVariables};

pub mod accepted;
pub mod needs;

/// What a host of machines does to a state.
pub trait HostMeaning {
    ghost State: { Type 0 };

    ghost meaning: { Hosting State };
}

/// Whatever the host, no part of a source gives turns back, and variables stay as many.
pub fn sources_keep_turns_and_variables<H: HostMeaning>()
    ensures { KeepTurnsAndVariables H.State }
{}

/// Where all scripts are units, what a function comes to by its calls is what machines make of it.
pub fn units_run_as_machines<H: HostMeaning>()
    ensures { (limits : TheLimits) → RunsAsMachines limits H.meaning }
{}
