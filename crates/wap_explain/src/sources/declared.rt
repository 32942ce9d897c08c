//! What names are known, in words.
use crate::pieces::Added;
use crate::sources::known::parameter_count;
use crate::sources::places::place_of;
use crate::sources::words::{Source, Word};
use std::fmt::Write;
use wap_unit::LIBRARY;

/// Adds the names that are known.
pub(crate) fn add_known(out: &mut String, names: &[Word<'_>]) -> Added {
    if names.is_empty() {
        return Ok(out.push_str("None is known here.\n")?);
    }
    for (number, name) in names.iter().enumerate() {
        let between = if number > 0 { ", " } else { "Known here: " };
        write!(out, "{between}{}", name.text)?;
    }
    Ok(out.push_str(".\n")?)
}

/// Adds where the first of some names is this one.
pub(crate) fn add_first(out: &mut String, bytes: &[u8], names: &[Word<'_>], name: &str) -> Added {
    if let Some(word) = names.iter().find(|word| word.text == name) {
        write!(out, "It is declared at {}.\n", place_of(bytes, word.from))?;
    }
    Ok(())
}

/// Adds with how many arguments a function of the source is called.
pub(crate) fn add_arguments(
    out: &mut String,
    source: &Source<'_>,
    functions: &[Word<'_>],
    name: &str,
) -> Added {
    let Some(function) = functions.iter().find(|word| word.text == name) else {
        return Ok(out.push_str("A function of another unit takes 255 arguments at most.\n")?);
    };
    write!(
        out,
        "{name} takes {}.\n",
        parameter_count(source.words, function.from)
    )?;
    add_first(out, source.bytes, functions, name)
}

/// Adds the functions of a library, or the libraries where it is none.
pub(crate) fn add_libraries(out: &mut String, name: &str) -> Added {
    let mut found = false;
    for row in LIBRARY.iter().filter(|row| row.3 == name) {
        let between = if found { ", " } else { "Its functions: " };
        write!(out, "{between}{}", row.4)?;
        found = true;
    }
    Ok(out.push_str(if found {
        ".\n"
    } else {
        "The libraries are Lang, Float, String, URL, WMLBrowser and Dialogs.\n"
    })?)
}
