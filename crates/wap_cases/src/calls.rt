//! Lines of calls of layers: the calls by their names, and how their lines are played.
use crate::{fragments, library, machines, messages, operators, placing};
use std::alloc::Global;
use wap_base::DEFAULT_STRING;
use wap_casebook::files::Played;
use wap_casebook::{Call, CaseFault, meaning_of, split_word};

/// A call that has a name of its own.
#[derive(Clone, Copy)]
enum Known {
    Binary,
    BinaryWithin,
    Unary,
    ToInt,
    ToBool,
    ToStr,
    Within,
    Arguments,
    LibArgs,
    Forms,
    Place,
    Length,
    Run,
    Called,
    UrlMessage,
    KeyMessage,
    VariableMessage,
}

/// The calls, by their names.
static CALLS: [(&str, Known); 17] = [
    ("binary", Known::Binary),
    ("binary_within", Known::BinaryWithin),
    ("unary", Known::Unary),
    ("to_int", Known::ToInt),
    ("to_bool", Known::ToBool),
    ("to_str", Known::ToStr),
    ("within", Known::Within),
    ("arguments", Known::Arguments),
    ("lib_args", Known::LibArgs),
    ("forms", Known::Forms),
    ("place", Known::Place),
    ("length", Known::Length),
    ("run", Known::Run),
    ("called", Known::Called),
    ("url_message", Known::UrlMessage),
    ("key_message", Known::KeyMessage),
    ("variable_message", Known::VariableMessage),
];

/// Makes a call.
fn make(known: Known, call: &mut Call) -> Result<(), CaseFault> {
    match known {
        Known::Binary => operators::of_two(call, DEFAULT_STRING),
        Known::BinaryWithin => operators::of_two_within(call),
        Known::Unary => operators::of_one(call),
        Known::ToInt => operators::give_integer(call),
        Known::ToBool => operators::give_truth(call),
        Known::ToStr => operators::give_string(call),
        Known::Within => library::call_within(call),
        Known::Arguments => library::count_arguments(call, true),
        Known::LibArgs => library::count_arguments(call, false),
        Known::Forms => placing::count_forms(call),
        Known::Place => placing::show(call),
        Known::Length => placing::measure(call),
        Known::Run => machines::run(call),
        Known::Called => fragments::read(call),
        Known::UrlMessage => messages::of_url(call),
        Known::KeyMessage => messages::of_key(call),
        Known::VariableMessage => messages::of_variable(call),
    }
}

/// Makes the call of a name.
fn make_named(name: &[u8], call: &mut Call) -> Result<(), CaseFault> {
    match meaning_of(&CALLS, name) {
        Some(known) => make(known, call),
        None => library::call_named(name, call),
    }
}

/// Plays a line, which gives a name to bytes or makes a call.
fn play_line<'a>(call: &mut Call<'a>, line: &'a [u8]) -> Result<(), CaseFault> {
    let (name, rest) = split_word(line);
    if name == b"piece".as_slice() {
        return call.define(rest);
    }
    call.begin(rest);
    make_named(name, call)?;
    call.end();
    Ok(())
}

/// Plays the line of a number. One that gives a name to bytes counts only where it can't be read.
fn play<'a>(played: &mut Played, call: &mut Call<'a>, line: &'a str, number: usize) {
    if let Err(fault) = play_line(call, line.as_bytes()) {
        call.fail(fault);
    }
    if call.differs() || !line.starts_with("piece ") {
        played.add_call(call, line, number);
    }
}

/// Plays the calls of these lines, counts them, and tells of those that differ. Empty lines and
/// lines that begin with `#` are passed over.
pub fn play_all(alloc: Global, lines: &str) -> Played {
    let mut played = Played::new(alloc);
    let mut call = Call::new(alloc);
    for (at, line) in lines.lines().enumerate() {
        if !line.is_empty() && !line.starts_with('#') {
            play(&mut played, &mut call, line, at.saturating_add(1));
        }
    }
    played
}
