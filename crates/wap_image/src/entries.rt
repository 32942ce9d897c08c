//! The entries of the history.
ghost use Rattle.std.specs.Prelude.{◌≡◌};
ghost use Rattle.wap_base.specs.Outcome.{Meets};
ghost use Rattle.wap_image.specs.declared.context_parts.fault.ImageFault.TheVariants.{NoMemory};
ghost use Rattle.wap_image.specs.Items.{is_not_started, is_entry_count};
ghost use Rattle.wap_base.specs.formats.ByteReading.{row_at};
ghost use Rattle.wap_image.specs.inside.ImageReading.{url_at, entry_at, entry_count_at, entries_at};

use crate::context_parts::{ImageFault, SavedTimer};
use crate::items::is_entry_text;
use crate::steps::{byte, number};
use crate::texts::read_text;
use std::alloc::Global;
use wap_base::{Limits, Rows, Text, place};

/// The entries, after their number, which the limit and the timer may refuse.
#[tactic(auto, unfolding(crate::specs::inside::ImageReading::entries_at))]
pub(crate) fn read_entries(
    alloc: Global,
    limits: Limits,
    timer: SavedTimer,
    end: usize,
    bytes: &[u8],
) -> Result<(Rows<(Text, usize)>, &[u8]), ImageFault>
    ensures { Meets NoMemory (λ read. (read.0, read.1.now)) result
        (entries_at limits timer end bytes.now) }
{
    let (count, rest) = read_count(limits, timer, end, bytes)?;
    read_row(alloc, count, end, rest)
}

#[tactic(auto, unfolding(crate::specs::inside::ImageReading::entry_count_at))]
fn read_count(
    limits: Limits,
    timer: SavedTimer,
    end: usize,
    bytes: &[u8],
) -> Result<(u8, &[u8]), ImageFault>
    ensures { Meets NoMemory (λ read. (read.0, read.1.now)) result
        (entry_count_at limits timer end bytes.now) }
{
    let (count, rest) = byte(end, bytes)?;
    if !is_entry_count(limits.history, timer, count) {
        return Err(ImageFault::Range {
            at: place(end, bytes),
        });
    }
    Ok((count, rest))
}

/// Whether so many entries may stand beside this limit and this timer.
fn is_entry_count(limit: u8, timer: SavedTimer, count: u8) -> bool
    ensures { result ≡ is_entry_count limit timer count }
{
    count <= limit && (is_not_started(timer) || 0 < count)
}

fn is_not_started(timer: SavedTimer) -> bool
    ensures { result ≡ is_not_started timer }
{
    match timer {
        SavedTimer::NotStarted => true,
        SavedTimer::Running(_) | SavedTimer::Off => false,
    }
}

/// So many entries.
fn read_row(
    alloc: Global,
    count: u8,
    end: usize,
    bytes: &[u8],
) -> Result<(Rows<(Text, usize)>, &[u8]), ImageFault>
    ensures { Meets NoMemory (λ read. (read.0, read.1.now)) result
        (row_at entry_at count end bytes.now) }
{
    let mut entries = Rows::new(alloc);
    let mut rest = bytes;
    for _ in 0..count {
        let (entry, after) = read_entry(alloc, end, rest)?;
        entries.add(entry)?;
        rest = after;
    }
    Ok((entries, rest))
}

/// An entry: its URL as it is written, and the number of its card.
#[tactic(auto, unfolding(crate::specs::inside::ImageReading::entry_at))]
fn read_entry(alloc: Global, end: usize, bytes: &[u8]) -> Result<((Text, usize), &[u8]), ImageFault>
    ensures { Meets NoMemory (λ read. (read.0, read.1.now)) result (entry_at end bytes.now) }
{
    let (url, rest) = read_url(alloc, end, bytes)?;
    let (card, rest) = number(end, rest)?;
    Ok(((url, card as usize), rest))
}

/// The URL of an entry.
#[tactic(auto, unfolding(crate::specs::inside::ImageReading::url_at))]
fn read_url(alloc: Global, end: usize, bytes: &[u8]) -> Result<(Text, &[u8]), ImageFault>
    ensures { Meets NoMemory (λ read. (read.0, read.1.now)) result (url_at end bytes.now) }
{
    let (url, rest) = read_text(alloc, end, bytes)?;
    if !is_entry_text(alloc, &url)? {
        return Err(ImageFault::Url {
            at: place(end, bytes),
        });
    }
    Ok((url, rest))
}
