//! The names that are declared in a source, as its tokens tell.
use crate::sources::words::Word;
use std::alloc::Global;
use wap_base::{NoMemory, Rows};
use wap_lex::Kind;

/// The names that stand right after a word.
pub(crate) fn names_after<'a>(
    alloc: Global,
    words: &[Word<'a>],
    word: &str,
) -> Result<Rows<Word<'a>>, NoMemory> {
    let mut names = Rows::new(alloc);
    let mut is_next = false;
    for name in words {
        if is_next && matches!(name.kind, Kind::Name) {
            names.add(*name)?;
        }
        is_next = name.text == word;
    }
    Ok(names)
}

/// How many parentheses are open in a list of parameters or variables after a word of a function,
/// if one goes on there, and whether a name is declared there. Lists begin with the parenthesis
/// of the function or with `var`.
fn go_on(open: Option<usize>, number: usize, word: &str) -> (Option<usize>, bool) {
    match (word, open) {
        ("var", _) => (Some(0), true),
        ("(", _) if number == 2 => (Some(0), true),
        ("(", Some(depth)) => (Some(depth.saturating_add(1)), false),
        (")", Some(depth)) => (depth.checked_sub(1), false),
        (",", Some(0)) => (open, true),
        (";" | "{" | "}", _) => (None, false),
        _ => (open, false),
    }
}

/// The parameters and variables that a function declares in the words before a place in it.
pub(crate) fn variables_in<'a>(
    alloc: Global,
    words: &[Word<'a>],
) -> Result<Rows<Word<'a>>, NoMemory> {
    let first = words.iter().rposition(|word| word.text == "function");
    let mut names = Rows::new(alloc);
    let (mut open, mut is_next) = (None, false);
    for (number, word) in words.iter().skip(first.unwrap_or(0)).enumerate() {
        if is_next && matches!(word.kind, Kind::Name) {
            names.add(*word)?;
        }
        (open, is_next) = go_on(open, number, word.text);
    }
    Ok(names)
}

/// How many parameters a function has whose name begins at a place.
pub(crate) fn parameter_count(words: &[Word<'_>], at: usize) -> usize {
    let mut count = 0usize;
    for word in words.iter().filter(|word| word.from > at) {
        if word.text == ")" {
            return count;
        }
        if matches!(word.kind, Kind::Name) {
            count = count.saturating_add(1);
        }
    }
    count
}
