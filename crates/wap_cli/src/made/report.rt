//! The lines on a made folder.
ghost use Rattle.std.specs.Prelude.{◌≡◌, ◌++◌, IfOk, OnOk, decimal};
ghost use Rattle.wap_cli.specs.made.Making.{made_line};
ghost use Rattle.wap_cli.specs.made.inside.Tours.{report_of};

use crate::made::making::Tour;
use itoa::Buffer;
use std::alloc::Global;
use wap_base::NoMemory;

/// Appends a line: a word, and a text after a space.
#[tactic(auto, using(wap_base::proofs::Plain::words))]
fn add_line(report: &mut Vec<u8>, word: &[u8], text: &[u8]) -> Result<(), NoMemory>
    ensures { OnOk result (report.new.items ≡ report.old.items ++ made_line word.now text.now) }
{
    report.extend_from_slice(word)?;
    report.extend_from_slice(b" ")?;
    report.extend_from_slice(text)?;
    Ok(report.extend_from_slice(b"\n")?)
}

/// Appends a line: a word, and a number after a space.
fn add_count(report: &mut Vec<u8>, word: &[u8], count: usize) -> Result<(), NoMemory>
    ensures { OnOk result (report.new.items
        ≡ report.old.items ++ made_line word.now (decimal count)) }
{
    let mut buffer = Buffer::new();
    add_line(report, word, buffer.format(count).as_bytes())
}

/// The four lines on what the judging and the browsing came to.
#[tactic(auto, using(wap_base::proofs::Plain::words))]
pub(crate) fn report_on(alloc: Global, tour: &Tour) -> Result<Vec<u8>, NoMemory>
    ensures { IfOk result (λ report. report.items ≡ report_of tour.now) }
{
    let mut report = Vec::new(alloc);
    add_count(&mut report, b"pages", tour.pages)?;
    add_count(&mut report, b"ok", tour.accepted)?;
    add_count(&mut report, b"lines", tour.played.lines)?;
    add_line(&mut report, b"t", tour.played.sum.as_slice())?;
    Ok(report)
}
