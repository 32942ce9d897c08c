//! The library WMLBrowser (WAP-194, "WMLBrowser Library").
ghost use Rattle.std.specs.Prelude.{◌≡◌, ◌++◌, [], codes, is_some, IfOk, OnOk};
ghost use Rattle.std.specs.Option.{option_map_or};
ghost use Rattle.wap_value.specs.declared.value.Value.TheVariants.{Invalid};
ghost use Rattle.wap_vars.specs.Setting.{set_in};
ghost use Rattle.wap_cardrules.specs.Values.{value_if};
ghost use Rattle.wap_world.specs.Screens.{screen};
ghost use Rattle.wap_libs.specs.Row.{argument};
ghost use Rattle.wap_execution.specs.declared.library.HostOut.TheVariants as out;
ghost use Rattle.wap_world.specs.scripting.Views.{place_with};
ghost use Rattle.wap_world.specs.scripting.Browsing.{variable_in, set_by, plain_go, pending_go};
ghost use Rattle.wap_world.specs.scripting.Browsing.{pends};
ghost use Rattle.wap_world.specs.scripting.Browsing.{card_reference, wml_browser};
ghost use Rattle.wap_world.specs.scripting.Browsing.{browser_get_var, browser_set_var, browser_go};
ghost use Rattle.wap_world.specs.scripting.Browsing.{browser_prev, browser_new_context};
ghost use Rattle.wap_world.specs.scripting.Browsing.{browser_get_current_card, browser_refresh};
ghost use Rattle.wap_world.specs.scripting.Hosting.{within};
ghost use Rattle.wap_context.specs.host.Serving.{Gave};

use crate::host::sight::Sight;
use crate::host::standing::{Standing, place_at_hand};
use std::alloc::Global;
use std::mem;
use wap_base::{Name, NameFault, NoMemory, Rows, Text};
use wap_cardrules::{Go, Task};
use wap_cards::value_if;
use wap_deck::good::AttrName;
use wap_execution::HostOut;
use wap_layout::buffer::Lines;
use wap_state::State;
use wap_state::screen_lines::add_screen;
use wap_url::{Url, relative};
use wap_value::{Value, to_str};
use wap_vars::{VarFault, Vars};

/// One of the arguments of a call, counted from 0; one that isn't there is invalid.
pub(crate) fn argument<'a>(arguments: &'a [Value], at: usize, absent: &'a Value) -> &'a Value
    requires { absent.now ≡ Invalid }
    ensures { result.now ≡ argument arguments.now at }
{
    match arguments.get(at) {
        Some(value) => value,
        None => absent,
    }
}

/// The text of a variable, empty where it isn't set, and invalid where the name is none of a
/// variable.
fn variable_in(alloc: Global, state: &State, name: &Text) -> Result<Value, NoMemory>
    ensures { IfOk result (λ value. value ≡ variable_in state.now name.now) }
{
    let name = match Name::of(alloc, name) {
        Ok(name) => name,
        Err(NameFault::BadName) => return Ok(Value::Invalid),
        Err(NameFault::NoMemory) => return Err(NoMemory),
    };
    match state.vars.get(&name) {
        Some(text) => Ok(Value::Str(text.copy(alloc)?)),
        None => Ok(Value::Str(Text::new(alloc))),
    }
}

/// A go to a reference that sets nothing.
fn plain_go(alloc: Global, href: Text) -> Task
    ensures { result ≡ plain_go href }
{
    Task::Go(Go {
        href,
        post: false,
        referer: false,
        fresh: false,
        posts: Rows::new(alloc),
        sets: Rows::new(alloc),
    })
}

/// What a script asks for by a URL: nothing where that is empty.
fn pending_go(alloc: Global, href: Text) -> Option<Task>
    ensures { result ≡ pending_go href }
{
    if href.is_empty() {
        return None;
    }
    Some(plain_go(alloc, href))
}

/// Appends the id of a card, if it has one.
#[tactic(auto, using(wap_base::proofs::Plain::words))]
fn add_id(
    alloc: Global,
    vars: &Vars,
    place: &Standing<'_>,
    reference: &mut Text,
) -> Result<(), NoMemory>
    ensures { OnOk result (reference.new ≡ reference.old ++ option_map_or (λ id. codes "#" ++ id)
        (value_if vars.now AttrName.Id place.now.card) []) }
{
    if let Some(id) = value_if(alloc, vars, &place.card, AttrName::Id)? {
        reference.push('#')?;
        reference.add(id.as_str())?;
    }
    Ok(())
}

/// A reference from the script of a URL to the current card.
fn card_reference(
    alloc: Global,
    base: &Url,
    state: &State,
    place: &Standing<'_>,
) -> Result<Text, NoMemory>
    ensures { IfOk result (λ text. text ≡ card_reference base.now state.now place.now) }
{
    let mut reference = relative(alloc, base, place.url)?;
    add_id(alloc, &state.vars, place, &mut reference)?;
    Ok(reference)
}

impl Sight {
    /// The empty String.
    pub(crate) fn nothing(&self) -> Value
        ensures { result ≡ Value.Str [] }
    {
        Value::Str(Text::new(self.alloc))
    }

    /// This is done at the end of the script, in place of what was asked for before.
    fn pend(&mut self, task: Option<Task>) -> Value
        ensures { Gave (pends task) self.old self.new (out.Value result) }
    {
        self.state.pending = task;
        self.nothing()
    }

    /// WAP-194, "getVar".
    fn get_var(&mut self, name: &Value) -> Result<Value, NoMemory>
        ensures { IfOk result
            (λ value. Gave (browser_get_var name.now) self.old self.new (out.Value value)) }
    {
        match to_str(self.alloc, name)? {
            Some(name) => variable_in(self.alloc, &self.state, &name),
            None => Ok(Value::Invalid),
        }
    }

    /// Sets a variable, and says whether it was set.
    fn set(&mut self, name: &Text, text: Text) -> Result<Value, NoMemory>
        ensures { IfOk result
            (λ value. Gave (λ step. set_by (set_in step.world.vars name.now text) step)
            self.old self.new (out.Value value)) }
    {
        match self.state.vars.set(name, text) {
            Ok(()) => Ok(Value::Bool(true)),
            Err(VarFault::BadName) => Ok(Value::Invalid),
            Err(VarFault::TooLong { bytes: _ } | VarFault::Full) => Ok(Value::Bool(false)),
            Err(VarFault::NoMemory) => Err(NoMemory),
        }
    }

    /// WAP-194, "setVar".
    fn set_var(&mut self, name: &Value, text: &Value) -> Result<Value, NoMemory>
        ensures { IfOk result
            (λ value. Gave (browser_set_var name.now text.now) self.old self.new (out.Value value)) }
    {
        let Some(name) = to_str(self.alloc, name)? else {
            return Ok(Value::Invalid);
        };
        match to_str(self.alloc, text)? {
            Some(text) => self.set(&name, text),
            None => Ok(Value::Invalid),
        }
    }

    /// WAP-194, "go".
    fn go(&mut self, href: &Value) -> Result<Value, NoMemory>
        ensures { IfOk result
            (λ value. Gave (browser_go href.now) self.old self.new (out.Value value)) }
    {
        match to_str(self.alloc, href)? {
            Some(href) => Ok(self.pend(pending_go(self.alloc, href))),
            None => Ok(Value::Invalid),
        }
    }

    /// WAP-194, "prev".
    fn prev(&mut self) -> Value
        ensures { Gave browser_prev self.old self.new (out.Value result) }
    {
        self.pend(Some(Task::Prev(Rows::new(self.alloc))))
    }

    /// WAP-194, "newContext".
    #[tactic(auto, using(wap_state::proofs::Standing::stands_alone))]
    fn new_context(&mut self) -> Value
        ensures { Gave browser_new_context self.old self.new (out.Value result) }
    {
        self.state.new_context();
        self.nothing()
    }

    /// WAP-194, "getCurrentCard".
    fn get_current_card(&mut self, base: &Url) -> Result<Value, NoMemory>
        ensures { IfOk result (λ value.
            Gave (browser_get_current_card (place_with self.old.deck) base.now)
            self.old self.new (out.Value value)) }
    {
        match place_at_hand(&self.state, &self.deck) {
            Some(place) => Ok(Value::Str(card_reference(self.alloc, base, &self.state, &place)?)),
            None => Ok(Value::Invalid),
        }
    }

    /// Appends the screen of the current card, if there is one, and says whether there is.
    fn draw(&self, lines: &mut Lines) -> Result<bool, NoMemory>
        ensures is { IfOk result
            (λ is_drawn. is_drawn ≡ is_some (place_with self.now.deck self.now.world)) }
        ensures lines { OnOk result (lines.new ≡ lines.old
            ++ option_map_or (λ place. screen self.now.world.vars place.deck place.card)
            (place_with self.now.deck self.now.world) []) }
    {
        match place_at_hand(&self.state, &self.deck) {
            Some(place) => {
                add_screen(self.alloc, place.deck, &place.card, &self.state.vars, lines)?;
                Ok(true)
            }
            None => Ok(false),
        }
    }

    /// WAP-194, "refresh".
    fn refresh(&mut self) -> Result<Value, NoMemory>
        ensures { IfOk result (λ value. Gave (browser_refresh (place_with self.old.deck))
            self.old self.new (out.Value value)) }
    {
        let mut lines = mem::replace(&mut self.lines, Lines::new(self.alloc));
        let is_drawn = self.draw(&mut lines)?;
        self.lines = lines;
        if is_drawn {
            Ok(self.nothing())
        } else {
            Ok(Value::Invalid)
        }
    }

    /// A function by its number, whatever the limit of Strings.
    fn call_browser(
        &mut self,
        base: &Url,
        function: u8,
        arguments: &[Value],
    ) -> Result<Value, NoMemory>
        ensures { IfOk result (λ value.
            Gave (wml_browser (place_with self.old.deck) base.now function arguments.now)
            self.old self.new (out.Value value)) }
    {
        let absent = Value::Invalid;
        let first = argument(arguments, 0, &absent);
        match function {
            0 => self.get_var(first),
            1 => self.set_var(first, argument(arguments, 1, &absent)),
            2 => self.go(first),
            3 => Ok(self.prev()),
            4 => Ok(self.new_context()),
            5 => self.get_current_card(base),
            6 => self.refresh(),
            _ => Ok(Value::Invalid),
        }
    }

    /// A function of the library by its number.
    pub(crate) fn browser(
        &mut self,
        base: &Url,
        function: u8,
        arguments: &[Value],
    ) -> Result<HostOut, NoMemory>
        ensures { IfOk result (Gave (λ step. within
            (wml_browser (place_with self.old.deck) base.now function arguments.now step))
            self.old self.new) }
    {
        let value = self.call_browser(base, function, arguments)?;
        Ok(self.within(value))
    }
}
