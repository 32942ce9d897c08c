//! The public identifier of a document that is refused for it, in words.
use crate::documents::header::take_number;
use crate::pieces::{Added, ShownBytes};
use std::fmt::Write;

/// The name of a number of public identifiers (WAP-192).
fn identifier_name(number: u32) -> &'static str {
    match number {
        1 => " (unknown)",
        2 => " (WML 1.0)",
        3 => " (WTA 1.0)",
        5 => " (a service indication)",
        6 => " (service loading)",
        7 => " (a cache operation)",
        8 => " (channels)",
        4360 => " (Phone.com's WML 1.1)",
        _ => "",
    }
}

/// The string of the table at an index, where a document has its identifier by name.
fn name_at(rest: &[u8], index: u32) -> Option<&[u8]> {
    let (_, rest) = take_number(rest)?;
    let (length, rest) = take_number(rest)?;
    let name = rest.get(..length as usize)?.get(index as usize..)?;
    name.split(|byte| *byte == 0).next()
}

/// Adds a public identifier that has a name.
fn add_named(out: &mut String, rest: &[u8]) -> Added {
    let Some((index, rest)) = take_number(rest) else {
        return Ok(());
    };
    Ok(match name_at(rest, index) {
        Some(name) => write!(out, "Its public identifier is \"{}\".\n", ShownBytes(name))?,
        None => out.push_str(
            "Its public identifier is a name that its string table doesn't have.\n",
        )?,
    })
}

/// Adds which public identifier a document has, and which it has to have.
pub(crate) fn add_identifier(out: &mut String, bytes: &[u8]) -> Added {
    match bytes.get(1..).and_then(|rest| take_number(rest)) {
        None => {}
        Some((0, rest)) => add_named(out, rest)?,
        Some((number, _)) => {
            write!(
                out,
                "Its public identifier is {number}{}.\n",
                identifier_name(number)
            )?;
        }
    }
    Ok(out.push_str(
        "A deck has that of WML 1.1, 1.2 or 1.3: 04, 09 or 0A, or its name.\n\
         If it is WML all the same, put 04 in place of the bytes of the identifier.\n",
    )?)
}
