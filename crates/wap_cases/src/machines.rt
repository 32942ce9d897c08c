//! Runs of machines.
use crate::small_host::{FailingPages, SmallHost};
use crate::units::verified_of;
use crate::values::{give_value, values};
use std::alloc::Global;
use wap_base::{Limits, Shared, Text};
use wap_casebook::{Call, CaseFault};
use wap_devices::Count;
use wap_machine::{Machine, Outcome};
use wap_url::Url;
use wap_value::Value;
use wap_verify::Verified;

/// Gives what a run came to. The host ends no script and asks nothing.
fn give_outcome(call: &mut Call, outcome: &Outcome) {
    match outcome {
        Outcome::Done(value) => give_value(call, value),
        Outcome::Fatal(why) => call.give_named(why),
        _ => call.fail(CaseFault::Argument),
    }
}

/// Runs a machine, and gives what it came to, or why it failed.
fn play(call: &mut Call, machine: Machine, host: &mut SmallHost) {
    match machine.run(
        host,
        &mut FailingPages {
            asked: Count::new(),
        },
    ) {
        Ok(outcome) => give_outcome(call, &outcome),
        Err(fault) => call.give_named(&fault),
    }
}

/// The URL of each unit.
fn base(alloc: Global) -> Result<Url, CaseFault> {
    Ok(Url {
        scheme: None,
        host: None,
        port: None,
        path: Text::of(alloc, "unit")?,
        query: None,
        fragment: None,
    })
}

/// The machine of a function of a unit at its beginning, if there is one that takes so many
/// arguments.
fn start(
    alloc: Global,
    unit: Shared<Verified>,
    function: u8,
    arguments: Vec<Value>,
    depth: u8,
) -> Result<Machine, CaseFault> {
    let mut limits = Limits::default();
    limits.depth = depth;
    if !limits.are_in_range() {
        return Err(CaseFault::Argument);
    }
    match unit.unit().functions.get(function as usize) {
        Some(code) => {
            if code.args as usize != arguments.len() {
                return Err(CaseFault::Argument);
            }
        }
        None => return Err(CaseFault::Argument),
    }
    let base = base(alloc)?;
    Ok(Machine::start(alloc, unit, base, None, function, arguments, limits)?)
}

/// The unit of the next argument, or none where that is empty.
fn next_unit(call: &mut Call) -> Result<Option<Shared<Verified>>, CaseFault> {
    let bytes = call.bytes();
    if bytes.is_empty() {
        return Ok(None);
    }
    Ok(Some(verified_of(call.alloc(), &bytes)?))
}

/// The host of the next two arguments, units, without turns.
fn next_host(call: &mut Call) -> Result<SmallHost, CaseFault> {
    let Some(first) = next_unit(call)? else {
        return Err(CaseFault::Argument);
    };
    Ok(SmallHost {
        alloc: call.alloc(),
        turns: 0,
        first,
        second: next_unit(call)?,
    })
}

/// Runs a function of the first of two units, and gives what it comes to and the turns that are
/// left.
pub fn run(call: &mut Call) -> Result<(), CaseFault> {
    let mut host = next_host(call)?;
    let unit = host.first.share()?;
    let depth = call.number8();
    host.turns = call.count() as u64;
    let function = call.number8();
    let arguments = values(call);
    let machine = start(call.alloc(), unit, function, arguments, depth)?;
    play(call, machine, &mut host);
    call.give_number(i64::try_from(host.turns).unwrap_or(i64::MAX));
    Ok(())
}
