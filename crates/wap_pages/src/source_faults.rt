//! Printing why a source isn't compiled.
ghost use Rattle.wap_devices.specs.Sinks.{Puts};
ghost use Rattle.wap_pages.specs.Printing.{lex_text, parse_text, span_text, scope_text};
ghost use Rattle.wap_pages.specs.Printing.{compile_text};

use crate::printing::print_place;
use wap_codegen::CompileFault;
use wap_devices::{Failed, Sink, print_fault, print_name, print_one};
use wap_grammar::ParseFault;
use wap_grammar::program::Span;
use wap_lex::LexFault;
use wap_scope::ScopeFault;

pub(crate) fn print_compile_fault<O: Sink>(out: &mut O, fault: CompileFault) -> Result<(), Failed>
    ensures { Puts (compile_text fault) (O.seen out.old) (O.seen out.new) result }
{
    match fault {
        CompileFault::Lex(fault) => print_lex_fault(out, fault),
        CompileFault::Parse(fault) => print_parse_fault(out, fault),
        CompileFault::Scope(fault) => print_scope_fault(out, fault),
        CompileFault::TooManyConstants { count } => {
            print_one(out, "TooManyConstants", count as usize)
        }
        CompileFault::CodeTooLong { function, wide } => {
            print_place(out, "CodeTooLong", function, wide as usize)
        }
        CompileFault::NoMemory => print_name(out, "NoMemory"),
    }
}

fn print_lex_fault<O: Sink>(out: &mut O, fault: LexFault) -> Result<(), Failed>
    ensures { Puts (lex_text fault) (O.seen out.old) (O.seen out.new) result }
{
    match fault {
        LexFault::NotText => print_name(out, "NotText"),
        LexFault::BadChar { at } => print_one(out, "BadChar", at),
        LexFault::OpenString { at } => print_one(out, "OpenString", at),
        LexFault::OpenComment { at } => print_one(out, "OpenComment", at),
        LexFault::BadEscape { at } => print_one(out, "BadEscape", at),
        LexFault::IntRange { at } => print_one(out, "IntRange", at),
        LexFault::NoMemory => print_name(out, "NoMemory"),
    }
}

fn print_parse_fault<O: Sink>(out: &mut O, fault: ParseFault) -> Result<(), Failed>
    ensures { Puts (parse_text fault) (O.seen out.old) (O.seen out.new) result }
{
    match fault {
        ParseFault::Syntax { at } => print_one(out, "Syntax", at),
        ParseFault::Nested { at } => print_one(out, "Nested", at),
        ParseFault::NoMemory => print_name(out, "NoMemory"),
    }
}

fn print_scope_fault<O: Sink>(out: &mut O, fault: ScopeFault) -> Result<(), Failed>
    ensures { Puts (scope_text fault) (O.seen out.old) (O.seen out.new) result }
{
    match fault {
        ScopeFault::NoVariable { span } => print_span(out, "NoVariable", span),
        ScopeFault::TwoVariables { span } => print_span(out, "TwoVariables", span),
        ScopeFault::NoFunction { span } => print_span(out, "NoFunction", span),
        ScopeFault::TwoFunctions { span } => print_span(out, "TwoFunctions", span),
        ScopeFault::Arguments { span } => print_span(out, "Arguments", span),
        ScopeFault::NoUnit { span } => print_span(out, "NoUnit", span),
        ScopeFault::TwoUnits { span } => print_span(out, "TwoUnits", span),
        ScopeFault::NoLibrary { span } => print_span(out, "NoLibrary", span),
        ScopeFault::LoneBreak { span } => print_span(out, "LoneBreak", span),
        ScopeFault::TwoAccess { span } => print_span(out, "TwoAccess", span),
        ScopeFault::TooManyLocals { span } => print_span(out, "TooManyLocals", span),
        ScopeFault::TooManyFunctions { span } => print_span(out, "TooManyFunctions", span),
        ScopeFault::NoMemory => print_name(out, "NoMemory"),
    }
}

/// A fault at a part of a source.
fn print_span<O: Sink>(out: &mut O, name: &str, span: Span) -> Result<(), Failed>
    ensures { Puts (span_text name.now span) (O.seen out.old) (O.seen out.new) result }
{
    print_fault(
        out,
        name.as_bytes(),
        &[span.from as usize, span.to as usize],
    )
}
