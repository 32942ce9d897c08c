//! Lines of service indications.
ghost use Rattle.std.specs.Prelude.{◌≡◌, ◌∷◌, ◌++◌, [], replicate, IfOk, OnOk};
ghost use Rattle.wap_base.specs.Ascii.{digit_zero};
ghost use Rattle.wap_push.specs.Inbox.{inbox_of};
ghost use Rattle.wap_world.specs.inboxes.Notices.{no_push_line, notice_line, time_text, entry_line};
ghost use Rattle.wap_world.specs.inboxes.Notices.{entry_lines};

use itoa::Buffer;
use std::alloc::Global;
use wap_base::{NoMemory, Text};
use wap_layout::buffer::Lines;
use wap_push::{Inbox, Indication, PushFault, push_fault_text};

/// One line.
pub(crate) fn one_line(alloc: Global, line: &Text) -> Result<Lines, NoMemory>
    ensures { IfOk result (λ lines. lines ≡ line.now ∷ []) }
{
    let mut lines = Lines::new(alloc);
    lines.add(line.as_str())?;
    Ok(lines)
}

/// Why what was pushed is no indication.
#[tactic(auto, using(wap_base::proofs::Plain::words))]
pub(crate) fn no_push_line(alloc: Global, fault: PushFault) -> Result<Text, NoMemory>
    ensures { IfOk result (λ line. line ≡ no_push_line fault) }
{
    let why = push_fault_text(alloc, fault)?;
    let mut line = Text::of(alloc, "! push ")?;
    line.add(why.as_str())?;
    Ok(line)
}

/// The line of an indication when it comes.
#[tactic(auto, using(wap_base::proofs::Plain::words))]
pub(crate) fn notice_line(alloc: Global, pushed: &Indication) -> Result<Text, NoMemory>
    ensures { IfOk result (λ line. line ≡ notice_line pushed.now) }
{
    let mut line = Text::of(alloc, "+ ")?;
    line.add(pushed.text.as_str())?;
    Ok(line)
}

/// Appends so many zeros.
fn add_zeros(line: &mut Text, count: usize) -> Result<(), NoMemory>
    ensures { OnOk result (line.new ≡ line.old ++ replicate count digit_zero) }
{
    for _ in 0..count {
        line.push('0')?;
    }
    Ok(())
}

/// Appends a time of fourteen digits.
fn add_time(line: &mut Text, time: u64) -> Result<(), NoMemory>
    ensures { OnOk result (line.new ≡ line.old ++ time_text time) }
{
    let mut buffer = Buffer::new();
    let digits = buffer.format(time).len();
    add_zeros(line, 14usize.saturating_sub(digits))?;
    line.add_number(time)
}

/// An entry by its number.
#[tactic(auto, using(wap_base::proofs::Plain::words))]
fn entry_line(alloc: Global, number: usize, entry: &Indication) -> Result<Text, NoMemory>
    ensures { IfOk result (λ line. line ≡ entry_line number entry.now) }
{
    let mut line = Text::of(alloc, "@ ")?;
    line.add_number(number as u64)?;
    line.push(' ')?;
    add_time(&mut line, entry.created)?;
    line.push(' ')?;
    line.add(entry.text.as_str())?;
    Ok(line)
}

/// The lines of all entries.
pub fn entry_lines(alloc: Global, inbox: &Inbox) -> Result<Lines, NoMemory>
    ensures { IfOk result (λ lines. lines ≡ entry_lines 1 (inbox_of inbox.now)) }
{
    let entries = inbox.entries()?;
    let mut lines = Lines::new(alloc);
    for place in 0..entries.len() {
        lines.add(entry_line(alloc, place + 1, entries[place])?.as_str())?;
    }
    Ok(lines)
}
