//! What of a program's names isn't in order, in words, and what is known there.
use crate::pieces::Added;
use crate::sources::declared::{add_arguments, add_first, add_known, add_libraries};
use crate::sources::known::{names_after, variables_in};
use crate::sources::words::{Source, text_between};
use std::alloc::Global;
use std::fmt::Write;
use wap_grammar::program::Span;
use wap_scope::ScopeFault;

/// The part of a source to which a fault belongs, and what is so of it.
pub(crate) fn fault_words(fault: ScopeFault) -> (Span, &'static str) {
    match fault {
        ScopeFault::NoVariable { span } => (
            span,
            " is no variable that was declared before, by var.",
        ),
        ScopeFault::TwoVariables { span } => (span, " is a variable of this function already."),
        ScopeFault::NoFunction { span } => (span, " is no function of this source."),
        ScopeFault::TwoFunctions { span } => (span, " is the name of an earlier function."),
        ScopeFault::Arguments { span } => (
            span,
            " is called with another number of arguments than it takes.",
        ),
        ScopeFault::NoUnit { span } => (
            span,
            " is no name of a unit: use url NAME \"URL\" makes one.",
        ),
        ScopeFault::TwoUnits { span } => (span, " names a unit already."),
        ScopeFault::NoLibrary { span } => (span, " is no library, or has no such function."),
        ScopeFault::LoneBreak { span } => (span, " stands in no loop."),
        ScopeFault::TwoAccess { span } => (span, "\nThere is a pragma use access already."),
        ScopeFault::TooManyLocals { span } => (
            span,
            " would be the 256th variable of its function.",
        ),
        ScopeFault::TooManyFunctions { span } => (span, " would be the 256th function."),
        ScopeFault::NoMemory => (Span { from: 0, to: 0 }, ""),
    }
}

/// Adds what of a program's names isn't in order, and what is known there.
pub(crate) fn add_scope(
    alloc: Global,
    out: &mut String,
    source: &Source<'_>,
    fault: ScopeFault,
) -> Added {
    let (span, words) = fault_words(fault);
    let name = text_between(source.bytes, span.from as usize, span.to as usize);
    write!(out, "{name}{words}\n")?;
    let variables = variables_in(alloc, source.before)?;
    let functions = names_after(alloc, source.words, "function")?;
    let units = names_after(alloc, source.words, "url")?;
    let (variables, functions, units) = (
        variables.as_slice(),
        functions.as_slice(),
        units.as_slice(),
    );
    match fault {
        ScopeFault::NoVariable { .. } => add_known(out, variables),
        ScopeFault::TwoVariables { .. } => add_first(out, source.bytes, variables, name),
        ScopeFault::NoFunction { .. } => add_known(out, functions),
        ScopeFault::TwoFunctions { .. } => add_first(out, source.bytes, functions, name),
        ScopeFault::NoUnit { .. } => add_known(out, units),
        ScopeFault::TwoUnits { .. } => add_first(out, source.bytes, units, name),
        ScopeFault::NoLibrary { .. } => add_libraries(out, name),
        ScopeFault::Arguments { .. } => add_arguments(out, source, functions, name),
        _ => Ok(()),
    }
}
