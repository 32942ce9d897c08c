//! How faults of documents are printed.
ghost use Rattle.std.specs.Prelude.{◌≡◌, IfOk};
ghost use Rattle.std.specs.Str.{chars};
ghost use Rattle.wap_devices.specs.Sinks.{Puts};
ghost use Rattle.wap_wbxml.specs.Printing.{document_name, document_place, document_text};

use crate::DocFault;
use std::alloc::Global;
use wap_base::{NoMemory, Text};
use wap_devices::{Failed, Sink, print_name, print_one};

/// The name of a fault.
#[tactic(auto, using(wap_base::proofs::Plain::words))]
fn document_name(fault: DocFault) -> &'static str
    ensures bytes { result.now ≡ document_name fault }
    ensures characters { chars result.now ≡ document_name fault }
{
    match fault {
        DocFault::Version => "Version",
        DocFault::PublicId => "PublicId",
        DocFault::Charset => "Charset",
        DocFault::Short { .. } => "Short",
        DocFault::Number { .. } => "Number",
        DocFault::Token { .. } => "Token",
        DocFault::Index { .. } => "Index",
        DocFault::Text { .. } => "Text",
        DocFault::Depth { .. } => "Depth",
        DocFault::Table { .. } => "Table",
        DocFault::Rest { .. } => "Rest",
        DocFault::NoMemory => "NoMemory",
    }
}

/// The place of a fault, if it has one.
fn document_place(fault: DocFault) -> Option<usize>
    ensures { result ≡ document_place fault }
{
    match fault {
        DocFault::Short { at }
        | DocFault::Number { at }
        | DocFault::Token { at }
        | DocFault::Index { at }
        | DocFault::Text { at }
        | DocFault::Depth { at }
        | DocFault::Table { at }
        | DocFault::Rest { at } => Some(at),
        DocFault::Version | DocFault::PublicId | DocFault::Charset | DocFault::NoMemory => None,
    }
}

/// Prints why bytes are no document.
pub fn print_document_fault<O: Sink>(out: &mut O, fault: DocFault) -> Result<(), Failed>
    ensures { Puts (document_text fault) (O.seen out.old) (O.seen out.new) result }
{
    match document_place(fault) {
        Some(at) => print_one(out, document_name(fault), at),
        None => print_name(out, document_name(fault)),
    }
}

/// Why bytes are no document, as it is printed.
pub fn document_fault_text(alloc: Global, fault: DocFault) -> Result<Text, NoMemory>
    ensures { IfOk result (λ text. text ≡ document_text fault) }
{
    let mut text = Text::of(alloc, document_name(fault))?;
    if let Some(at) = document_place(fault) {
        text.push(' ')?;
        text.add_number(at as u64)?;
    }
    Ok(text)
}
