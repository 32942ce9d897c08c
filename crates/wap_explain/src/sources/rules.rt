//! The rules that faults of sources are against, in words.
use crate::pieces::Added;
use crate::sources::known::names_after;
use crate::sources::lines::add_text_fault;
use crate::sources::places::place_of;
use crate::sources::scopes::add_scope;
use crate::sources::syntax::add_syntax;
use crate::sources::words::{Source, text_between};
use std::alloc::Global;
use std::fmt::Write;
use wap_codegen::CompileFault;
use wap_grammar::ParseFault;
use wap_lex::LexFault;

/// Adds which character no token begins with.
fn add_character(out: &mut String, bytes: &[u8], at: usize) -> Added {
    out.push_str("No token begins with this character")?;
    if let Some(character) = text_between(bytes, at, bytes.len()).chars().next() {
        let number = character as u32;
        let width = if number > 0xFFFF { 6 } else { 4 };
        write!(out, ", U+{number:0width$X}")?;
    }
    Ok(out.push_str(".\n")?)
}

/// Adds which function is too long.
fn add_long_function(alloc: Global, out: &mut String, source: &Source<'_>, function: u8) -> Added {
    let names = names_after(alloc, source.words, "function")?;
    if let Some(name) = names.get(usize::from(function)) {
        let place = place_of(source.bytes, name.from);
        write!(out, "The function {} of {place}", name.text)?;
        out.push_str(": its code would have more than 65535 bytes. Divide it.\n")?;
    }
    Ok(())
}

/// Adds the rule that a fault is against.
pub(crate) fn add_rule(
    alloc: Global,
    out: &mut String,
    source: &Source<'_>,
    fault: CompileFault,
) -> Added {
    Ok(out.push_str(match fault {
        CompileFault::Lex(LexFault::NotText) => return add_text_fault(out, source.bytes),
        CompileFault::Lex(LexFault::BadChar { at }) => return add_character(out, source.bytes, at),
        CompileFault::Parse(ParseFault::Syntax { .. }) => return add_syntax(alloc, out, source),
        CompileFault::Scope(fault) => return add_scope(alloc, out, source, fault),
        CompileFault::CodeTooLong { function, .. } => {
            return add_long_function(alloc, out, source, function);
        }
        CompileFault::Lex(LexFault::OpenString { .. }) => {
            "The line ends before the string that begins here.\n"
        }
        CompileFault::Lex(LexFault::OpenComment { .. }) => {
            "The source ends before the comment that begins here.\n"
        }
        CompileFault::Lex(LexFault::BadEscape { .. }) => {
            "No escape begins so. There are \\' \\\" \\\\ \\/ \\b \\f \\n \\r \\t, \\x and two \
             digits, \\u and four (of a character), and up to three octal digits.\n"
        }
        CompileFault::Lex(LexFault::IntRange { .. }) => {
            "The number is past 2147483647. For the least one write -2147483647-1 or \
             Lang.minInt().\n"
        }
        CompileFault::Parse(ParseFault::Nested { .. }) => {
            "Expressions and statements are nested here more than 64 levels deep.\n"
        }
        CompileFault::TooManyConstants { .. } => {
            "There are more than 65536 different numbers and strings. Divide the source.\n"
        }
        CompileFault::Lex(LexFault::NoMemory)
        | CompileFault::Parse(ParseFault::NoMemory)
        | CompileFault::NoMemory => "",
    })?)
}
