//! A browser while a script runs.
ghost use Rattle.std.specs.Prelude.{◌≡◌};
ghost use Rattle.wap_world.specs.World.{last_entry};
ghost use Rattle.wap_world.specs.scripting.Waiting.{inside};
ghost use Rattle.wap_state.specs.Standing.{StandsIn};

use crate::host::sight::Sight;
use std::alloc::Global;
use std::marker::Model;
use wap_base::{RunErr, Text};
use wap_deck::good::GoodDeck;
use wap_execution::{Found, HostOut};
use wap_layout::buffer::Lines;
use wap_machine::Host;
use wap_state::State;
use wap_url::Url;
use wap_value::Value;
use wap_verify::Verified;
use wap_world::site::{Pages, Shared};

/// A browser while a script runs, which is a machine's host over pages: its turns are counted
/// apart. A contract sees its world, the deck at hand, the lines so far and the turns that are
/// left.
#[derive(Drop)]
pub struct Running {
    sight: Sight,
    turns: u32,
}

impl Model for Running {
    ghost use Rattle.wap_context.specs.host.Stages.{Stage};
    ghost use Rattle.wap_tokens.specs.contracts.markup.deck.Item as item;
    ghost use Rattle.std.specs.Coded.{codes};

    ghost Value = { Stage };

    ghost coded = { Prim.hlevel (codes, item.the_row.coded) };

    ghost view = { λ it. record {
      world = it.sight.world;
      deck = it.sight.deck;
      lines = it.sight.lines;
      turns = it.turns;
    } };
}

impl Running {
    /// A script begins, or goes on, with these lines before its own. The turns that are left to the
    /// key are counted apart from now on.
    pub fn new(alloc: Global, state: State, deck: Option<Shared<GoodDeck>>, lines: Lines) -> Running
        requires { StandsIn (last_entry state) deck }
        ensures { result ≡ record {
          world = inside state;
          deck = deck;
          lines = lines;
          turns = state.turns;
        } }
    {
        let mut state = state;
        let turns = state.turns;
        state.turns = 0;
        let sight = Sight {
            alloc,
            state,
            deck,
            lines,
        };
        Running { sight, turns }
    }

    /// The script has ended, or waits: the browser's parts, whose turns are those that are left.
    pub fn into_parts(self) -> (State, Option<Shared<GoodDeck>>, Lines)
        ensures state { result.0 ≡ record self.world { turns = self.turns } }
        ensures deck { result.1 ≡ self.deck }
        ensures lines { result.2 ≡ self.lines }
        ensures stands { StandsIn (last_entry result.0) result.1 }
    {
        let Running { sight, turns } = self;
        let Sight {
            alloc: _,
            mut state,
            deck,
            lines,
        } = sight;
        state.turns = turns;
        (state, deck, lines)
    }
}

impl<P: Pages> Host<P> for Running {
    ghost use Rattle.wap_world.specs.site.Pages.{Pages as JudgedPages};
    ghost use Rattle.wap_world.specs.site.Asking.{MayBe, Stays};
    ghost use Rattle.wap_world.proofs.SiteLemmas.Asking.{Stays-same, Stays-then, Stays-may};
    ghost use Rattle.wap_world.specs.scripting.Views.{View, viewing, host_at, fresh};
    ghost use Rattle.wap_context.specs.host.Stages.{told, fetched_in};
    ghost use Rattle.wap_context.specs.host.inside.Counting.{counts, added_grows};

    ghost Under = { JudgedPages };

    ghost may_have = { λ pages judged. MayBe (P.seen pages) judged };

    ghost State = { View };

    ghost turns = { λ host. host.turns };

    ghost state = { λ host pages judged. told host (P.seen pages) judged };

    ghost meaning = { viewing };

    ghost faults = { λ pages. (P.seen pages).faults };

    ghost fetches = { λ pages. (P.seen pages).fetches };

    ghost fetched = { fetched_in };

    ghost kept = { λ before after. Stays (P.seen before) (P.seen after) };

    fn turn(&mut self) -> bool {
        if self.turns == 0 {
            return false;
        }
        self.turns -= 1;
        true
    }

    fn external(
        &mut self,
        pages: &mut P,
        caller: &Url,
        target: &Text,
        function: &Text,
        count: u8,
        depth: u32,
    ) -> Result<Found<Shared<Verified>>, RunErr> {
        self.sight
            .find(pages, caller, target, function, count, depth)
    }

    fn library(
        &mut self,
        pages: &mut P,
        base: &Url,
        referer: Option<&Url>,
        library: u16,
        function: u8,
        arguments: Vec<Value>,
    ) -> Result<HostOut, RunErr> {
        self.sight
            .call(pages, base, referer, library, function, arguments)
    }

    ghost counted = { λ host pages judged. counts host (P.seen pages) judged };

    ghost kept_still = { λ pages. Stays-same (P.seen pages) };

    ghost kept_then = { λ one two three.
        Stays-then (P.seen one) (P.seen two) (P.seen three) };

    ghost kept_may = { λ before after judged kept may.
        Stays-may (P.seen before) (P.seen after) kept judged may };

    ghost external_grows = { λ before caller target name count depth.
        added_grows before
        ((host_at before).external (fresh before) caller target name count depth) };

    ghost library_grows = { λ before base referer library function arguments.
        added_grows before
        ((host_at before).library (fresh before) base referer library function arguments) };
}
