//! Calls of the messages of faults: of texts that are no URLs, of lines that are no keys, and of
//! variables that aren't set.
use std::fmt::Display;
use wap_base::Text;
use wap_casebook::{Call, CaseFault};
use wap_keys::{KeyFault, read_key};
use wap_url::{Url, UrlFault};
use wap_vars::VarFault;

/// The faults of variables that hold nothing, by their names.
static VARIABLE_FAULTS: [(&str, VarFault); 3] = [
    ("BadName", VarFault::BadName),
    ("Full", VarFault::Full),
    ("NoMemory", VarFault::NoMemory),
];

/// Gives the message of a fault, or `none`.
fn give_message<F: Display + Drop>(call: &mut Call, fault: Option<F>) -> Result<(), CaseFault> {
    match fault {
        Some(fault) => {
            let message = format!(in call.alloc(); "{fault}")?;
            call.give_text(&Text::from_string(message));
        }
        None => call.give_word("none"),
    }
    Ok(())
}

/// Gives why a text is no URL, or the message of the fault that is named.
pub fn of_url(call: &mut Call) -> Result<(), CaseFault> {
    if call.takes("NoMemory") {
        return give_message(call, Some(UrlFault::NoMemory));
    }
    let text = call.text();
    let fault = Url::read(call.alloc(), &text).err();
    give_message(call, fault)
}

/// Gives why a line is no key line, or the message of the fault that is named.
pub fn of_key(call: &mut Call) -> Result<(), CaseFault> {
    if call.takes("NoMemory") {
        return give_message(call, Some(KeyFault::NoMemory));
    }
    let line = call.bytes();
    let fault = read_key(call.alloc(), line.as_slice()).err();
    give_message(call, fault)
}

/// Gives the message of the fault that is named, for which a variable isn't set.
pub fn of_variable(call: &mut Call) -> Result<(), CaseFault> {
    if call.takes("TooLong") {
        let bytes = call.count();
        return give_message(call, Some(VarFault::TooLong { bytes }));
    }
    let fault = call.meaning(&VARIABLE_FAULTS)?;
    give_message(call, Some(fault))
}
