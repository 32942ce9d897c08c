//! What a script sees of a browser, and may change.
ghost use Rattle.std.specs.Prelude.{◌≡◌, ◌++◌, ◌∷◌, [], OnOk};
ghost use Rattle.wap_world.specs.Requests.{plain_get, request_line};
ghost use Rattle.wap_machine.specs.Hosts.{IsNoBudget};
ghost use Rattle.wap_world.specs.scripting.Hosting.{kept};
ghost use Rattle.wap_context.specs.host.Serving.{AsksFor};

use std::alloc::Global;
use std::marker::Model;
use wap_base::{NoMemory, RunErr};
use wap_deck::good::GoodDeck;
use wap_execution::{Fatal, HostOut};
use wap_layout::buffer::Lines;
use wap_state::State;
use wap_state::requests::{plain_get, request_line};
use wap_url::{Url, name_of};
use wap_value::Value;
use wap_world::site::{Page, Pages, Shared};

/// A browser as a script sees it, with the lines so far. A contract sees its world, the deck at
/// hand and the lines.
#[derive(Drop)]
pub(crate) struct Sight {
    pub(crate) alloc: Global,
    pub(crate) state: State,
    pub(crate) deck: Option<Shared<GoodDeck>>,
    pub(crate) lines: Lines,
}

impl Model for Sight {
    ghost use Rattle.wap_world.specs.World.{last_entry};
    ghost use Rattle.wap_state.specs.Standing.{StandsIn};
    ghost use Rattle.wap_context.specs.host.Stages.{Sight as Shown};
    ghost use Rattle.wap_tokens.specs.contracts.markup.deck.Item as item;
    ghost use Rattle.std.specs.Coded.{codes};

    ghost Value = { Shown };

    ghost coded = { Prim.hlevel (codes, item.the_row.coded) };

    ghost view = { λ it. record { world = it.state; deck = it.deck; lines = it.lines } };

    ghost invariant = { λ it. StandsIn (last_entry it.state) it.deck };
}

impl Sight {
    /// Adds the line of a plain request for a page.
    fn add_request(&mut self, url: &Url) -> Result<(), NoMemory>
        ensures { OnOk result (self.new
            ≡ record self.old { lines = self.old.lines ++ request_line (plain_get url.now) ∷ [] }) }
    {
        let request = plain_get(url.copy(self.alloc)?);
        let line = request_line(self.alloc, &request)?;
        self.lines.add(line.as_str())
    }

    /// Adds that line, and asks for the page.
    pub(crate) fn ask_for<P: Pages>(&mut self, pages: &mut P, url: &Url) -> Result<Page, RunErr>
        ensures { AsksFor url.now self.old self.new (P.seen pages.old) (P.seen pages.new) result }
    {
        self.add_request(url)?;
        let name = name_of(self.alloc, url)?;
        pages.page(self.alloc, &name, false)
    }

    /// What a call gives, unless it is a String past the limit.
    pub(crate) fn within(&self, value: Value) -> HostOut
        ensures is { result ≡ kept self.now.world.limits.string (HostOut.Value value) }
        ensures no_budget { IsNoBudget result }
    {
        match value {
            Value::Str(text) if text.len() > self.state.limits.string as usize => {
                HostOut::Fatal(Fatal::TooLong)
            }
            Value::Str(text) => HostOut::Value(Value::Str(text)),
            Value::Int(number) => HostOut::Value(Value::Int(number)),
            Value::Bool(truth) => HostOut::Value(Value::Bool(truth)),
            Value::Invalid => HostOut::Value(Value::Invalid),
        }
    }
}
