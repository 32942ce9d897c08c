//! What of a world is saved, and the world that is made of that again.
ghost use Rattle.std.specs.Prelude.{◌≡◌, ◌≤◌, ◌<◌, ◌++◌, ◌∷◌, [], length, true, None, Ok};
ghost use Rattle.std.specs.Prelude.{IfOk, OnOk};
ghost use Rattle.std.specs.List.{AllByRecursion};
ghost use Rattle.wap_url.specs.Calculation.{url_at};
ghost use Rattle.wap_vars.specs.Variables.{AreVars};
ghost use Rattle.wap_vars.specs.Setting.{set_in};
ghost use Rattle.wap_image.specs.Items.{is_drawn, is_entry_text};
ghost use Rattle.wap_image.specs.Rules.{AreParts};
ghost use Rattle.wap_state.specs.Saved.{saved_timer, timer_in, timer_of, entry_with, entries_of};
ghost use Rattle.wap_state.specs.Saved.{parts_of, saved_world, IsAtRest};

use crate::history::History;
use crate::page_urls::{PageEntry, PageUrl};
use crate::state::State;
use std::alloc::Global;
use wap_base::{NoMemory, Rows, Text};
use wap_image::context_parts::{ContextParts, SavedTimer};
use wap_libs::Gen;
use wap_url::{Url, UrlFault};
use wap_vars::{VarFault, Vars};
use wap_world::Timer;

/// A timer as it is saved.
fn saved_timer(timer: Timer) -> SavedTimer
    ensures { result ≡ saved_timer timer }
{
    match timer {
        Timer::NotStarted => SavedTimer::NotStarted,
        Timer::Running(tenths) => SavedTimer::Running(tenths),
        Timer::Off | Timer::Expired => SavedTimer::Off,
    }
}

/// The timer that was saved so.
fn timer_of(timer: SavedTimer) -> Timer
    ensures { result ≡ timer_of timer }
{
    match timer {
        SavedTimer::NotStarted => Timer::NotStarted,
        SavedTimer::Running(tenths) => Timer::Running(tenths),
        SavedTimer::Off => Timer::Off,
    }
}

/// Sets a variable that may be set, after all others.
fn add_variable(vars: &mut Vars, name: &Text, text: Text) -> Result<(), NoMemory>
    requires { set_in vars.old name.now text ≡ Ok (vars.old ++ (name.now, text) ∷ []) }
    ensures { OnOk result (vars.new ≡ vars.old ++ (name.now, text) ∷ []) }
{
    match vars.set(name, text) {
        Ok(()) => Ok(()),
        Err(VarFault::NoMemory) => Err(NoMemory),
        Err(VarFault::BadName) => unreachable!(),
        Err(VarFault::TooLong { bytes: _ }) => unreachable!(),
        Err(VarFault::Full) => unreachable!(),
    }
}

/// The variables of these pairs, which are in the order of their names.
#[tactic(auto, using(crate::proofs::Saving::set_from))]
fn vars_of(alloc: Global, pairs: Rows<(Text, Text)>) -> Result<Vars, NoMemory>
    requires { AreVars pairs }
    ensures { IfOk result (λ vars. vars ≡ pairs) }
{
    let mut vars = Vars::new(alloc);
    for (name, text) in pairs.into_vec() {
        add_variable(&mut vars, &name, text)?;
    }
    Ok(vars)
}

/// The URL of an entry, from how it is written.
#[tactic(auto, using(crate::proofs::Saving::entry_page, crate::proofs::Saving::no_entry))]
fn page_of(alloc: Global, text: &Text) -> Result<PageUrl, NoMemory>
    requires { is_entry_text text.now ≡ true }
    ensures read { IfOk result (λ url. url_at text.now ≡ Ok url) }
    ensures whole { IfOk result (λ url. url.fragment ≡ None) }
{
    match Url::read(alloc, text) {
        Ok(url) => Ok(PageUrl::of(url)),
        Err(UrlFault::NoMemory) => Err(NoMemory),
        Err(UrlFault::BadChar { at: _ }) => unreachable!(),
        Err(UrlFault::BadScheme) => unreachable!(),
        Err(UrlFault::BadHost) => unreachable!(),
        Err(UrlFault::BadPort) => unreachable!(),
    }
}

/// Adds an entry that was saved to a history with room for it.
fn add_entry(
    alloc: Global,
    history: &mut History,
    limit: u8,
    text: &Text,
    card: usize,
) -> Result<(), NoMemory>
    requires room { length history.old < limit }
    requires url { is_entry_text text.now ≡ true }
    ensures { OnOk result (history.new ≡ history.old ++ entry_with card (url_at text.now)) }
{
    let url = page_of(alloc, text)?;
    history.push(PageEntry::of(url, card), limit)
}

/// The history of these entries, of which there are no more than the limit.
#[tactic(auto, using(crate::proofs::Saving::room_from, crate::proofs::Saving::text_from))]
fn history_of(alloc: Global, limit: u8, parts: Rows<(Text, usize)>) -> Result<History, NoMemory>
    requires few { length parts ≤ limit }
    requires urls { AllByRecursion (λ part. is_entry_text part.0 ≡ true) parts }
    ensures { IfOk result (λ history. history ≡ entries_of parts) }
{
    let mut history = History::new(alloc);
    for (text, card) in parts.into_vec() {
        add_entry(alloc, &mut history, limit, &text, card)?;
    }
    Ok(history)
}

/// The timer of a world as it is saved.
fn timer_in(history: &History, timer: Timer) -> SavedTimer
    ensures { result ≡ timer_in history.now timer }
{
    if history.len() == 0 {
        SavedTimer::NotStarted
    } else {
        saved_timer(timer)
    }
}

impl State {
    /// The parts of the world, copied.
    fn copied(&self, alloc: Global) -> Result<ContextParts, NoMemory>
        ensures { IfOk result (λ parts. parts ≡ parts_of self.now) }
    {
        let (start, drawn) = self.generator.place();
        Ok(ContextParts {
            vars: Rows::from_vec(self.vars.entries(alloc)?),
            history: self.history.saved(alloc)?,
            timer: timer_in(&self.history, self.timer),
            seed: self.generator.seed(),
            start,
            drawn,
            limits: self.limits,
        })
    }

    /// The parts of the world that are saved.
    pub fn parts(&self, alloc: Global) -> Result<ContextParts, NoMemory>
        ensures parts { IfOk result (λ parts. parts ≡ parts_of self.now) }
        ensures rules { IfOk result AreParts }
        ensures whole { IfOk result (λ parts. IsAtRest self.now → is_drawn parts.drawn ≡ true
            → saved_world parts ≡ record self.now { budget = 0; turns = 0 }) }
    {
        self.vars.keep_rules();
        self.history.keep_rules();
        let _place = self.generator.place();
        self.copied(alloc)
    }

    /// The world of parts that were saved.
    #[tactic(auto, using(crate::proofs::Saving::parts_rules))]
    pub fn of(alloc: Global, parts: ContextParts) -> Result<State, NoMemory>
        requires rules { AreParts parts }
        requires drawn { is_drawn parts.drawn ≡ true }
        ensures { IfOk result (λ state. state ≡ saved_world parts) }
    {
        Ok(State {
            vars: vars_of(alloc, parts.vars)?,
            history: history_of(alloc, parts.limits.history, parts.history)?,
            timer: timer_of(parts.timer),
            pending: None,
            budget: 0,
            turns: 0,
            generator: Gen::at(parts.seed, parts.start, parts.drawn),
            limits: parts.limits,
        })
    }
}
