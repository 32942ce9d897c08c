//! What a browser keeps between two keys, but for the deck at hand.
ghost use Rattle.std.specs.Prelude.{◌≡◌};
ghost use Rattle.wap_base.specs.Limits.{AreInRange};
ghost use Rattle.wap_world.specs.World.{first_world};

use crate::history::History;
use std::alloc::Global;
use std::marker::Model;
use wap_base::Limits;
use wap_cardrules::Task;
use wap_libs::Gen;
use wap_vars::Vars;
use wap_world::Timer;

/// Variables, history, timer, pending task, turns and the generator. A contract sees the world.
#[derive(Drop)]
pub struct State {
    /// The variables of the context.
    pub vars: Vars,
    /// The cards that were entered, the current one last.
    pub history: History,
    /// The timer of the current card.
    pub timer: Timer,
    /// The task that a script has asked for.
    pub pending: Option<Task>,
    /// How many turns each key has.
    pub budget: u32,
    /// How many of them are left to the key at hand.
    pub turns: u32,
    /// The generator of random numbers, from the seed on.
    pub generator: Gen,
    /// What the run may keep and how deep it may call.
    pub limits: Limits,
}

impl Model for State {
    ghost use Rattle.wap_world.specs.World.{World};
    ghost use Rattle.wap_state.specs.Standing.{KeepsRules};

    ghost Value = { World };

    ghost view = { λ state. record {
      vars = state.vars;
      history = state.history;
      timer = state.timer;
      pending = state.pending;
      budget = state.budget;
      turns = state.turns;
      generator = state.generator;
      limits = state.limits;
    } };

    ghost invariant = { λ state. KeepsRules state.limits state.history state.timer };
}

impl State {
    /// A world in which nothing was done.
    #[tactic(auto, using(crate::proofs::Keeping::keeps_first))]
    pub fn new(alloc: Global, seed: u32, limits: Limits) -> State
        requires { AreInRange limits }
        ensures { result ≡ first_world seed 0 limits }
    {
        State {
            vars: Vars::new(alloc),
            history: History::new(alloc),
            timer: Timer::NotStarted,
            pending: None,
            budget: 0,
            turns: 0,
            generator: Gen::new(seed),
            limits,
        }
    }
    /// The limits are ones that may be chosen, for those who rest a proof on it. It does nothing.
    #[tactic(auto, using(crate::proofs::Keeping::range_of))]
    pub fn keep_limits(&self)
        ensures { AreInRange self.now.limits }
    {
        let _limits = &self.limits;
    }
}
