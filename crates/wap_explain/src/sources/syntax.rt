//! A place where a program can't go on, in words.
use crate::pieces::Added;
use crate::sources::expected::expected_after;
use crate::sources::places::place_of;
use crate::sources::words::{Source, Word};
use std::alloc::Global;
use std::fmt::Write;
use wap_base::{NoMemory, Rows};
use wap_lex::Kind;

/// Whether a reserved word begins a statement, a function or a pragma, or stands in expressions.
fn has_use(word: &str) -> bool {
    match word {
        "var" | "if" | "else" | "while" | "for" | "return" | "break" | "continue" => true,
        "function" | "extern" | "use" | "div" | "typeof" | "isvalid" => true,
        "true" | "false" | "invalid" => true,
        _ => false,
    }
}

/// Adds what stands at the place.
fn add_word(out: &mut String, word: Option<&Word<'_>>) -> Added {
    let Some(Word { text, kind, .. }) = word else {
        return Ok(out.push_str("The source ends here.\n")?);
    };
    write!(out, "{text} can't stand here.\n")?;
    if matches!(kind, Kind::Reserved) && !has_use(text) {
        let words = "is a reserved word: it can't be the name of a variable or function.";
        write!(out, "{text} {words}\n")?;
    }
    Ok(())
}

/// The brackets among tokens that aren't closed there, the outermost first.
fn open_in<'a>(alloc: Global, words: &[Word<'a>]) -> Result<Rows<Word<'a>>, NoMemory> {
    let mut open = Rows::new(alloc);
    for word in words {
        match word.text {
            "(" | "{" => open.add(*word)?,
            ")" | "}" => {
                let _closed = open.pop();
            }
            _ => {}
        }
    }
    Ok(open)
}

/// Adds what stands where a program can't go on, what may stand there, and which bracket is open.
pub(crate) fn add_syntax(alloc: Global, out: &mut String, source: &Source<'_>) -> Added {
    add_word(out, source.rest.first())?;
    let open = open_in(alloc, source.before)?;
    let in_block = open.as_slice().iter().any(|word| word.text == "{");
    let expected = expected_after(source.before, in_block);
    match source.before.last() {
        None => write!(out, "A program begins with {expected}.\n")?,
        Some(word) => write!(out, "After {} there may stand {expected}.\n", word.text)?,
    }
    if let Some(word) = open.as_slice().last() {
        let place = place_of(source.bytes, word.from);
        write!(out, "Still open here: {} of {place}.\n", word.text)?;
    }
    Ok(())
}
