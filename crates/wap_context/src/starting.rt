//! Starting a script (WAP-193, section 8.3).
ghost use Rattle.std.specs.Prelude.{◌≡◌, Ok, Err, IfOk};
ghost use Rattle.std.specs.Option.{option_and_then};
ghost use Rattle.wap_url.specs.Printing.{without_fragment};
ghost use Rattle.wap_world.specs.Starting.{is_too_long, not_started, start_of, start_by};
ghost use Rattle.wap_world.specs.Starting.{external_started, started};
ghost use Rattle.wap_machine.specs.Standing.{CanEnter};
ghost use Rattle.wap_machine.specs.Seen.{function_in};
ghost use Rattle.std.specs.List.{list_any};
ghost use Rattle.wap_parse.specs.invocation.Calculation.{call_of};
ghost use Rattle.wap_context.specs.Browsers.{IsOver, place_held};
ghost use Rattle.wap_context.specs.inside.Starting.{call_at};
ghost use Rattle.wap_world.specs.Tasks.{try_script};
ghost use Rattle.wap_world.specs.scripting.UnitSites.{shelf_of, unit_script};
ghost use Rattle.wap_context.specs.inside.Moving.{Moves, Takes};
ghost use Rattle.wap_world.specs.scripting.Units.{entrance_in, external_in};
ghost use Rattle.std.specs.Prelude.{[], None};

use crate::asking::may_enter;
use crate::context::Context;
use crate::host::{entrance_in, external_in};
use crate::script_lines::add_script_line;
use crate::waiting::Went;
use std::alloc::Global;
use wap_base::{NoMemory, Rows, RunErr, Text};
use wap_execution::Fatal;
use wap_layout::buffer::Lines;
use wap_machine::Machine;
use wap_parse::invocation::{Invocation, read_call};
use wap_state::page_urls::PageUrl;
use wap_url::Url;
use wap_value::Value;
use wap_verify::Verified;
use wap_world::site::{Pages, Shared};

/// The index of the function that a URL to a script starts, with its arguments, or why it starts
/// none.
type Start = Result<(u8, Rows<Value>), Fatal>;

/// Whether a value is a String longer than the limit.
fn is_too_long(value: &Value, string: u32) -> bool
    ensures { result ≡ is_too_long string value.now }
{
    match value {
        Value::Str(text) => text.len() > string as usize,
        Value::Int(_) | Value::Bool(_) | Value::Invalid => false,
    }
}

/// Whether one of some values is.
fn is_one_too_long(values: &[Value], string: u32) -> bool
    ensures { result ≡ list_any (is_too_long string) values.now }
{
    values.iter().any(|value| is_too_long(value, string))
}

/// What the fragment of a URL calls.
fn call_in(alloc: Global, url: &Url) -> Result<Option<Invocation>, NoMemory>
    ensures { IfOk result (λ call. call ≡ option_and_then call_of url.now.fragment) }
{
    match &url.fragment {
        Some(fragment) => read_call(alloc, fragment),
        None => Ok(None),
    }
}

/// What a call of a unit starts.
fn start_with(unit: &Verified, call: Invocation, string: u32) -> Start
    ensures { result ≡ start_of string call.arguments (external_in unit.now call.function) }
{
    let Invocation {
        function,
        arguments,
    } = call;
    match external_in(unit, &function) {
        Some(one) => {
            if one.arguments as usize != arguments.len() {
                Err(Fatal::Arguments)
            } else if is_one_too_long(arguments.as_slice(), string) {
                Err(Fatal::TooLong)
            } else {
                Ok((one.index, arguments))
            }
        }
        None => Err(Fatal::NoFunction),
    }
}

/// What a URL to a script starts.
fn start_by(alloc: Global, unit: &Verified, string: u32, url: &PageUrl) -> Result<Start, NoMemory>
    ensures { IfOk result
        (λ start. start ≡ start_by (external_in unit.now) string (call_at url.now)) }
{
    match call_in(alloc, url.as_url())? {
        Some(call) => Ok(start_with(unit, call, string)),
        None => Ok(Err(Fatal::NoFunction)),
    }
}

/// A copy of a URL, if there is one.
fn copy_of(alloc: Global, url: &Option<Url>) -> Result<Option<Url>, NoMemory>
    ensures { IfOk result (λ copy. copy ≡ url.now) }
{
    match url {
        Some(url) => Ok(Some(url.copy(alloc)?)),
        None => Ok(None),
    }
}

impl Context {
    /// A script isn't started: its line is added, and the current card is shown again.
    fn reject(&mut self, alloc: Global, why: &Fatal, lines: &mut Lines) -> Result<Went, NoMemory>
        ensures { IfOk result (λ went.
            Moves (not_started (place_held self.old) [] why.now self.old.world) None
            (λ shelf. IsOver shelf self.old) self.old self.new lines.old lines.new went) }
    {
        add_script_line(alloc, why, lines)?;
        self.add_show(alloc, lines)?;
        Ok(Went::Settled)
    }

    /// No navigation is pending.
    fn clear_pending(&mut self)
        ensures { self.new ≡ record self.old {
          world = record self.old.world { pending = None };
        } }
    {
        self.state.pending = None;
    }

    /// Starts a function of a unit, with variables set just before.
    fn begin_script<P: Pages>(
        &mut self,
        alloc: Global,
        pages: &mut P,
        sets: Rows<(Text, Text)>,
        caller: &Option<Url>,
        url: PageUrl,
        unit: Shared<Verified>,
        index: u8,
        arguments: Rows<Value>,
        lines: &mut Lines,
    ) -> Result<Went, RunErr>
        requires { CanEnter (function_in unit (without_fragment url) caller.now index) arguments }
        ensures { Takes (λ pages keys world.
            external_started (shelf_of pages) (unit_script pages unit) keys sets caller.now url
            world index arguments)
            (P.seen pages.old) (P.seen pages.new) self.old self.new lines.old lines.new result }
    {
        let mut first = Lines::new(alloc);
        self.set_variables(alloc, sets, &mut first)?;
        self.clear_pending();
        let base = url.without_fragment();
        let limits = self.limits();
        let machine = Machine::start(
            alloc,
            unit,
            base.to_url(alloc)?,
            copy_of(alloc, caller)?,
            index,
            arguments.into_vec(),
            limits,
        )?;
        self.go_on(alloc, pages, machine, base, first, lines)
    }

    /// Starts what a URL to a script starts.
    fn start<P: Pages>(
        &mut self,
        alloc: Global,
        pages: &mut P,
        sets: Rows<(Text, Text)>,
        caller: &Option<Url>,
        url: PageUrl,
        unit: Shared<Verified>,
        lines: &mut Lines,
    ) -> Result<Went, RunErr>
        ensures { Takes (λ pages keys world.
            started (shelf_of pages) (unit_script pages unit) (place_held self.old) keys sets
            caller.now url world
            (start_by (external_in unit) world.limits.string (call_at url)))
            (P.seen pages.old) (P.seen pages.new) self.old self.new lines.old lines.new result }
    {
        let string = self.limits().string;
        match start_by(alloc, &unit, string, &url)? {
            Err(why) => Ok(self.reject(alloc, &why, lines)?),
            Ok((index, arguments)) => {
                self.begin_script(
                    alloc, pages, sets, caller, url, unit, index, arguments, lines,
                )
            }
        }
    }

    /// Starts a script, if it may be called by the caller.
    pub(crate) fn try_script<P: Pages>(
        &mut self,
        alloc: Global,
        pages: &mut P,
        sets: Rows<(Text, Text)>,
        caller: &Option<Url>,
        url: PageUrl,
        unit: Shared<Verified>,
        lines: &mut Lines,
    ) -> Result<Went, RunErr>
        ensures { Takes (λ pages keys world.
            try_script (shelf_of pages) (unit_script pages unit) (place_held self.old) keys sets
            caller.now url world (call_at url) (entrance_in unit))
            (P.seen pages.old) (P.seen pages.new) self.old self.new lines.old lines.new result }
    {
        let entrance = entrance_in(alloc, &unit)?;
        if may_enter(alloc, &url, entrance, caller)? {
            self.start(alloc, pages, sets, caller, url, unit, lines)
        } else {
            Ok(self.reject(alloc, &Fatal::Denied, lines)?)
        }
    }
}
