//! Laws of runs of compiled units, each the contract of a function that does nothing. What runs
//! come to stands in `wap_execution`.
ghost use Rattle.wap_base.specs.declared.limits.Limits.{Limits as TheLimits};
ghost use Rattle.wap_execution.specs.Outcomes.{Hosting};
ghost use Rattle.wap_execution.specs.laws.Bounds.{AreBounded};
ghost use Rattle.wap_execution.specs.laws.Counts.{AgreesUncounted};
ghost use Rattle.wap_execution.specs.laws.Forgetting.{ForgetsFrames};
ghost use Rattle.wap_execution.specs.laws.Instructions.{GoesByInstructions};
ghost use Rattle.wap_execution.specs.laws.Keyed.{Answering, AgreesKeyed, GoesOnKeyed};
ghost use Rattle.wap_execution.specs.laws.Simulation.{AreAlike, RunAlike};

/// What a host of machines does to a state.
pub trait HostMeaning {
    ghost State: { Type 0 };

    ghost meaning: { Hosting State };
}

/// What two hosts do to states that are kin, or lost.
pub trait AlikeHosts {
    ghost One: { Type 0 };

    ghost Other: { Type 0 };

    /// Which states of both are kin.
    ghost Kin: { One → Other → Type 0 };

    /// Which states of the one are lost.
    ghost OneLost: { One → Type 0 };

    /// Which states of the other are lost.
    ghost OtherLost: { Other → Type 0 };

    ghost one: { Hosting One };

    ghost other: { Hosting Other };

    ghost alike: { AreAlike Kin OneLost OtherLost one other };
}

/// What stands where the innermost frame goes on decides what a run comes to.
pub fn runs_go_by_instructions<H: HostMeaning>()
    ensures { (limits : TheLimits) → GoesByInstructions limits H.meaning }
{}

/// A run that starts in one function, and all that goes on after its dialogs, do at most
/// (2T + 1)(S + 1) instructions in T turns, where S is the number of bytes of the longest code
/// among the functions that were entered, as far as they did an instruction. With n functions at
/// work at the start they do at most (2T + n)(S + 1).
pub fn runs_are_bounded<H: HostMeaning>()
    ensures { (limits : TheLimits) → AreBounded limits H.meaning }
{}

/// A run whose instructions are counted is the run itself with a count beside it.
pub fn counts_change_nothing<H: HostMeaning>()
    ensures { (limits : TheLimits) → AgreesUncounted limits H.meaning }
{}

/// Where the host's state itself answers dialogs, as by keys that are left there, runs come to what
/// they come to where each dialog is answered so from outside, in turn.
pub fn keyed_runs_agree<H: HostMeaning>()
    ensures { (limits : TheLimits) (answering : Answering H.State)
        → AgreesKeyed limits H.meaning answering }
{}

/// The same where the first dialog alone is answered from outside.
pub fn keyed_runs_go_on<H: HostMeaning>()
    ensures { (limits : TheLimits) (answering : Answering H.State)
        → GoesOnKeyed limits H.meaning answering }
{}

/// Frames that wait don't matter to what else a run comes to.
pub fn runs_forget_frames<H: HostMeaning>()
    ensures { ForgetsFrames H.State }
{}

/// Two hosts that answer the same from kin states have runs that come to the same, unless both are
/// lost.
pub fn alike_hosts_run_alike<H: AlikeHosts>()
    ensures { (limits : TheLimits) → RunAlike H.Kin H.OneLost H.OtherLost limits H.one H.other }
{}
