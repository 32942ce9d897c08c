//! Why a source isn't compiled, in words, and its lines with a mark at the place.
ghost use Rattle.std.specs.Prelude.{◌<◌, ◌^◌, length};

use crate::pieces::Added;
use crate::sources::lines::add_lines_around;
use crate::sources::places::place_of;
use crate::sources::rules::add_rule;
use crate::sources::scopes::fault_words;
use crate::sources::words::{Source, words_of};
use std::alloc::Global;
use std::fmt::Write;
use wap_codegen::CompileFault;
use wap_grammar::ParseFault;
use wap_lex::LexFault;

/// The first place of a fault, and the place after its last, where it has them.
fn extent(fault: CompileFault) -> Option<(usize, usize)> {
    match fault {
        CompileFault::Lex(
            LexFault::BadChar { at }
            | LexFault::OpenString { at }
            | LexFault::OpenComment { at }
            | LexFault::BadEscape { at }
            | LexFault::IntRange { at },
        )
        | CompileFault::Parse(ParseFault::Syntax { at } | ParseFault::Nested { at }) => {
            Some((at, at))
        }
        CompileFault::Scope(fault) => {
            let (span, _) = fault_words(fault);
            Some((span.from as usize, span.to as usize))
        }
        _ => None,
    }
}

/// Adds line and column of a fault, the rule, and the lines around with marks.
pub(crate) fn add_source_fault(
    alloc: Global,
    out: &mut String,
    bytes: &[u8],
    fault: CompileFault,
) -> Added
    requires { length bytes.now < 2 ^ 31 }
{
    let words = words_of(alloc, bytes)?;
    let words = words.as_slice();
    let extent = extent(fault);
    let (from, to) = extent.unwrap_or((0, 0));
    let number = words.iter().position(|word| word.from >= from);
    let (before, rest) = words.split_at(number.unwrap_or(words.len()));
    let source = Source {
        bytes,
        words,
        before,
        rest,
    };
    if extent.is_none() {
        return add_rule(alloc, out, &source, fault);
    }
    write!(out, "at {}\n", place_of(bytes, from))?;
    add_rule(alloc, out, &source, fault)?;
    out.push_str("\n")?;
    let end = rest
        .first()
        .filter(|word| word.from == from)
        .map_or(to, |word| word.to);
    add_lines_around(out, bytes, from, to.max(end))
}
