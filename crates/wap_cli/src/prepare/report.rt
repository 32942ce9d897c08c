//! The text of the report.
ghost use Rattle.std.specs.Prelude.{◌≡◌, ◌++◌, IfOk, OnOk, decimal, ◌≤◌, if◌then◌else◌};
ghost use Rattle.std.specs.List.{flat_map};
ghost use Rattle.wap_pages.specs.Printing.{page_text};
ghost use Rattle.wap_cli.specs.prepare.Reports.{kind_word, verdict_text, entry_line};
ghost use Rattle.wap_cli.specs.prepare.Reports.{accepted, is_accepted, last_line, report};

use itoa::Buffer;
use std::alloc::Global;
use wap_base::{NoMemory, Text, shown_text};
use wap_devices::Draft;
use wap_pages::{Kind, PageFault};

/// What the page of a name is read as.
fn kind_word(name: &Text) -> &'static [u8]
    ensures { result.now ≡ kind_word name.now }
{
    match Kind::of(name) {
        Kind::Source => b"source",
        Kind::Unit => b"unit",
        Kind::Words => b"text",
        Kind::Deck => b"deck",
    }
}

/// Appends how a fault is printed.
fn add_fault(alloc: Global, text: &mut Vec<u8>, fault: &PageFault) -> Result<(), NoMemory>
    ensures { OnOk result (text.new.items ≡ text.old.items ++ page_text fault.now) }
{
    let mut draft = Draft::new(alloc);
    match fault.print(&mut draft) {
        Ok(()) => Ok(text.extend_from_slice(draft.as_bytes())?),
        Err(_) => Err(NoMemory),
    }
}

/// Appends what a page is judged.
fn add_verdict(
    alloc: Global,
    text: &mut Vec<u8>,
    verdict: &Option<PageFault>,
) -> Result<(), NoMemory>
    ensures { OnOk result (text.new.items ≡ text.old.items ++ verdict_text verdict.now) }
{
    match verdict {
        None => Ok(text.extend_from_slice(b"ok")?),
        Some(fault) => {
            text.extend_from_slice(b"refused ")?;
            add_fault(alloc, text, fault)
        }
    }
}

/// Appends the line of a page.
fn add_entry(
    alloc: Global,
    text: &mut Vec<u8>,
    entry: &(Text, Option<PageFault>),
) -> Result<(), NoMemory>
    ensures { OnOk result (text.new.items ≡ text.old.items ++ entry_line entry.now) }
{
    let name = shown_text(alloc, entry.0.as_str())?;
    text.extend_from_slice(name.as_str().as_bytes())?;
    text.extend_from_slice(b" ")?;
    text.extend_from_slice(kind_word(&entry.0))?;
    text.extend_from_slice(b" ")?;
    add_verdict(alloc, text, &entry.1)?;
    Ok(text.extend_from_slice(b"\n")?)
}

/// Appends the lines of all pages.
fn add_entries(
    alloc: Global,
    text: &mut Vec<u8>,
    entries: &[(Text, Option<PageFault>)],
) -> Result<(), NoMemory>
    ensures { OnOk result (text.new.items ≡ text.old.items ++ flat_map entry_line entries.now) }
{
    for entry in entries {
        add_entry(alloc, text, entry)?;
    }
    Ok(())
}

/// Whether a page is accepted.
#[tactic(auto, unfolding(crate::specs::prepare::Reports::is_accepted))]
fn is_accepted(entry: &(Text, Option<PageFault>)) -> bool
    ensures { result ≡ is_accepted entry.now }
{
    entry.1.is_none()
}

/// 1 for a page that is accepted, and else 0.
fn as_count(entry: &(Text, Option<PageFault>)) -> usize
    ensures count { result ≡ (if is_accepted entry.now then 1 else 0) }
    ensures few { result ≤ 1 }
{
    if is_accepted(entry) { 1 } else { 0 }
}

/// How many pages are accepted.
fn count_accepted(entries: &[(Text, Option<PageFault>)]) -> usize
    ensures { result ≡ accepted entries.now }
{
    let mut count = 0usize;
    for entry in entries {
        count += as_count(entry);
    }
    count
}

/// Appends a number.
fn add_number(text: &mut Vec<u8>, number: usize) -> Result<(), NoMemory>
    ensures { OnOk result (text.new.items ≡ text.old.items ++ decimal number) }
{
    let mut buffer = Buffer::new();
    Ok(text.extend_from_slice(buffer.format(number).as_bytes())?)
}

/// Appends the last line.
fn add_last(text: &mut Vec<u8>, entries: &[(Text, Option<PageFault>)]) -> Result<(), NoMemory>
    ensures { OnOk result (text.new.items ≡ text.old.items ++ last_line entries.now) }
{
    text.extend_from_slice(b"pages ")?;
    add_number(text, entries.len())?;
    text.extend_from_slice(b" ok ")?;
    add_number(text, count_accepted(entries))?;
    Ok(text.extend_from_slice(b"\n")?)
}

/// The report on these pages.
pub(crate) fn report_on(
    alloc: Global,
    entries: &[(Text, Option<PageFault>)],
) -> Result<Vec<u8>, NoMemory>
    ensures { IfOk result (λ text. text.items ≡ report entries.now) }
{
    let mut text = Vec::new(alloc);
    add_entries(alloc, &mut text, entries)?;
    add_last(&mut text, entries)?;
    Ok(text)
}
