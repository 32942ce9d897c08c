//! The context of a browser.
ghost use Rattle.std.specs.Prelude.{◌≡◌, ◌↔◌, [], None, is_some, IfOk, OnOk, OnErr};
ghost use Rattle.std.specs.Option.{option_map, option_copied};
ghost use Rattle.wap_world.specs.World.{first_world};
ghost use Rattle.wap_world.specs.Steps.{then_task};
ghost use Rattle.wap_world.specs.Screens.{show, show_screen};
ghost use Rattle.wap_world.specs.Tasks.{act, visit};
ghost use Rattle.wap_base.specs.Limits.{AreInRange};
ghost use Rattle.wap_context.specs.Browsers.{place_held, Shows, with_vars, typed_in, chosen_in};
ghost use Rattle.wap_context.specs.Browsers.{ChangesVarsAndTimer};
ghost use Rattle.wap_context.specs.Sites.{site_of};
ghost use Rattle.wap_context.specs.Acting.{Acts, tick, answer, stop, Ticks};

use crate::waiting::{Step, Ticked, Waiting, Went};
use std::alloc::Global;
use std::marker::Model;
use wap_base::{Limits, NoMemory, RunErr, Text};
use wap_cardrules::{Chosen, Entered, Task};
use wap_deck::good::{GoodDeck, View};
use wap_execution::Fatal;
use wap_layout::buffer::Lines;
use wap_machine::Outcome;
use wap_state::{State, here};
use wap_value::Value;
use wap_vars::Vars;
use wap_world::Timer;
use wap_world::site::{Pages, Shared};

/// A browser's variables, history, timer and turns, and the deck of its current card. A contract
/// sees its world and that deck, which is there exactly where a card was entered. After a call that
/// ends with a fault it is not to be used further: what else is left is said only of
/// `tick_waiting`, `show`, `enter_text` and `choose`.
#[derive(Drop)]
pub struct Context {
    pub(crate) state: State,
    pub(crate) deck: Option<Shared<GoodDeck>>,
}

impl Model for Context {
    ghost use Rattle.wap_world.specs.World.{last_entry};
    ghost use Rattle.wap_state.specs.Standing.{StandsIn};
    ghost use Rattle.wap_context.specs.Browsers.{Browser};
    ghost use Rattle.wap_tokens.specs.contracts.markup.deck.Item as item;
    ghost use Rattle.std.specs.Coded.{codes};

    ghost Value = { Browser };

    ghost coded = { Prim.hlevel (codes, item.the_row.coded) };

    ghost view = { λ context. record { world = context.state; deck = context.deck } };

    ghost invariant = { λ context. StandsIn (last_entry context.state) context.deck };
}

impl Context {
    /// A browser that did nothing yet. It has no turns until a key begins. The limits have to be in
    /// their ranges (`are_in_range`).
    pub fn new(alloc: Global, seed: u32, limits: Limits) -> Context
        requires limits { AreInRange limits }
        ensures { result ≡ record { world = first_world seed 0 limits; deck = None } }
    {
        Context {
            state: State::new(alloc, seed, limits),
            deck: None,
        }
    }

    /// A key begins, which has so many turns.
    pub fn begin_key(&mut self, budget: u32)
        ensures { self.new ≡ record self.old {
          world = record self.old.world { budget = budget; turns = budget };
        } }
    {
        self.state.budget = budget;
        self.state.turns = budget;
    }

    /// Goes to a URL that a user opens, and on to all that it leads to.
    ///
    /// # Errors
    /// `Store` where a page couldn't be fetched, and `NoMemory`.
    pub fn open<P: Pages>(
        &mut self,
        alloc: Global,
        pages: &mut P,
        url: &Text,
    ) -> Result<Step, RunErr>
        ensures { Acts (λ pages keys world.
            visit (site_of pages) (place_held self.old) keys world url.now)
            (P.seen pages.old) (P.seen pages.new) self.old self.new result }
    {
        let mut lines = Lines::new(alloc);
        let went = self.visit_once(alloc, pages, url, &mut lines)?;
        self.follow(alloc, pages, went, lines)
    }

    /// Takes a task, and all that it leads to.
    ///
    /// # Errors
    /// Those of `open`.
    pub fn act<P: Pages>(
        &mut self,
        alloc: Global,
        pages: &mut P,
        task: Task,
    ) -> Result<Step, RunErr>
        ensures { Acts (λ pages keys world. act (site_of pages) keys world (then_task task))
            (P.seen pages.old) (P.seen pages.new) self.old self.new result }
    {
        let lines = Lines::new(alloc);
        self.follow(alloc, pages, Went::Leads(task, None), lines)
    }

    /// Lets so many tenths of a second pass. Where no timer runs the line is `! ignored`.
    ///
    /// # Errors
    /// Those of `open`.
    pub fn tick<P: Pages>(
        &mut self,
        alloc: Global,
        pages: &mut P,
        time: u32,
    ) -> Result<Step, RunErr>
        ensures { Acts (tick time (place_held self.old))
            (P.seen pages.old) (P.seen pages.new) self.old self.new result }
    {
        let lines = Lines::new(alloc);
        self.pass_time(alloc, pages, time, lines)
    }

    /// Answers the dialog of a script that waits, which goes on, and on to all that it leads to.
    ///
    /// # Errors
    /// Those of `open`.
    pub fn answer<P: Pages>(
        &mut self,
        alloc: Global,
        pages: &mut P,
        waiting: Waiting,
        v: Value,
    ) -> Result<Step, RunErr>
        ensures { Acts (answer waiting v)
            (P.seen pages.old) (P.seen pages.new) self.old self.new result }
    {
        let (machine, base) = waiting.into_parts();
        let first = Lines::new(alloc);
        let mut lines = Lines::new(alloc);
        let went = self.go_on(alloc, pages, machine.answer(v), base, first, &mut lines)?;
        self.follow(alloc, pages, went, lines)
    }

    /// Stops a script that waits, and goes on to all that follows its end.
    ///
    /// # Errors
    /// Those of `open`.
    pub fn stop<P: Pages>(
        &mut self,
        alloc: Global,
        pages: &mut P,
        waiting: Waiting,
    ) -> Result<Step, RunErr>
        ensures { Acts (stop waiting)
            (P.seen pages.old) (P.seen pages.new) self.old self.new result }
    {
        let (_, base) = waiting.into_parts();
        let mut lines = Lines::new(alloc);
        let went = self.end_script(alloc, base, Outcome::Fatal(Fatal::Stopped), &mut lines)?;
        self.follow(alloc, pages, went, lines)
    }

    /// Lets so many tenths of a second pass while a script waits: where the card's timer runs out,
    /// the task of that event waits for the end of the script.
    pub fn tick_waiting(&mut self, alloc: Global, time: u32) -> Result<Ticked, NoMemory>
        ensures ticks { IfOk result (Ticks time self.old self.new) }
        ensures left { OnErr result (ChangesVarsAndTimer self.old self.new) }
    {
        let mut lines = Lines::new(alloc);
        let Timer::Running(left) = self.state.timer else {
            return Ok(Ticked::NotRunning);
        };
        self.count_down(alloc, time, left, &mut lines)?;
        Ok(Ticked::Counted(lines))
    }

    /// Shows the current card, if there is one: its fields get their defaults, its timer starts,
    /// unless it has since the card was entered, and its screen is drawn.
    pub fn show(&mut self, alloc: Global) -> Result<Lines, NoMemory>
        ensures shows { IfOk result (Shows show self.old self.new []) }
        ensures left { OnErr result (ChangesVarsAndTimer self.old self.new) }
    {
        let mut lines = Lines::new(alloc);
        self.add_show(alloc, &mut lines)?;
        Ok(lines)
    }

    /// The screen of the current card alone, if there is one.
    pub fn screen(&self, alloc: Global) -> Result<Lines, NoMemory>
        ensures { IfOk result (Shows show_screen self.now self.now []) }
    {
        let mut lines = Lines::new(alloc);
        self.add_screen(alloc, &mut lines)?;
        Ok(lines)
    }

    /// What is so of the deck at hand, for those who rest a proof on it. It does nothing.
    fn keep_deck(&self)
        ensures empty { (self.now.deck ≡ None) ↔ (self.now.world.history ≡ []) }
        ensures card { is_some (place_held self.now) ≡ is_some self.now.deck }
    {
        let _deck = &self.deck;
    }

    /// Whether a card was entered.
    pub fn has_card(&self) -> bool
        ensures is { result ≡ is_some (place_held self.now) }
        ensures deck { result ≡ is_some self.now.deck }
    {
        self.keep_deck();
        self.deck.is_some()
    }

    /// The timer of the current card.
    pub fn timer(&self) -> Timer
        ensures { result ≡ self.now.world.timer }
    {
        self.state.timer
    }

    /// The deck of the current card, once one was entered.
    pub fn deck(&self) -> Option<&GoodDeck>
        ensures is { option_copied result ≡ self.now.deck }
        ensures empty { (self.now.deck ≡ None) ↔ (self.now.world.history ≡ []) }
    {
        self.keep_deck();
        match &self.deck {
            Some(deck) => Some(deck),
            None => None,
        }
    }

    /// The current card, once one was entered.
    pub fn card(&self) -> Option<View<'_>>
        ensures is { result ≡ option_map (λ place. place.card) (place_held self.now) }
        ensures deck { is_some result ≡ is_some self.now.deck }
    {
        self.keep_deck();
        match self.here() {
            Some(here) => Some(here.card),
            None => None,
        }
    }

    /// How many turns each key has.
    pub fn budget(&self) -> u32
        ensures { result ≡ self.now.world.budget }
    {
        self.state.budget
    }

    /// The variables.
    pub fn vars(&self) -> &Vars
        ensures { result.now ≡ self.now.world.vars }
    {
        &self.state.vars
    }

    /// Enters a text into the field of a number, which shows nothing.
    #[tactic(auto, using(wap_state::proofs::Standing::stands_same))]
    pub fn enter_text(
        &mut self,
        alloc: Global,
        number: u16,
        text: &Text,
    ) -> Result<Entered, NoMemory>
        ensures vars { OnOk result
            (self.new ≡ with_vars (typed_in self.old number text.now).vars self.old) }
        ensures answer { IfOk result
            (λ answer. answer ≡ (typed_in self.old number text.now).answer) }
        ensures kept { OnErr result (self.new ≡ self.old) }
    {
        let current = self.state.card_number();
        match here(&self.deck, current) {
            Some(here) => self.state.enter_text(alloc, &here, number, text),
            None => Ok(Entered::NoInput),
        }
    }

    /// Chooses an option in the field of a number, which shows nothing.
    #[tactic(auto, using(wap_state::proofs::Standing::stands_same))]
    pub fn choose(&mut self, alloc: Global, field: u16, option: u16) -> Result<Chosen, NoMemory>
        ensures vars { OnOk result
            (self.new ≡ with_vars (chosen_in self.old field option).vars self.old) }
        ensures answer { IfOk result (λ answer. answer ≡ (chosen_in self.old field option).answer) }
        ensures left { OnErr result (self.new ≡ with_vars self.new.world.vars self.old) }
    {
        let current = self.state.card_number();
        match here(&self.deck, current) {
            Some(here) => self.state.choose(alloc, &here, field, option),
            None => Ok(Chosen::NoOption),
        }
    }
}
