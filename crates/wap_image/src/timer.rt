//! The timer of the current card.
ghost use Rattle.wap_base.specs.Outcome.{Meets};
ghost use Rattle.wap_image.specs.declared.context_parts.fault.ImageFault.TheVariants.{NoMemory};
ghost use Rattle.wap_image.specs.inside.ImageReading.{time_left_at, timer_of_at, timer_kind_at};
ghost use Rattle.wap_image.specs.inside.ImageReading.{timer_at};

use crate::context_parts::{ImageFault, SavedTimer};
use crate::kind::{TimerKind, timer_kind};
use crate::steps::{byte, number};
use wap_base::place;

/// The byte of its kind, and for a timer that runs the tenths that are left.
#[tactic(auto, unfolding(crate::specs::inside::ImageReading::timer_at))]
pub(crate) fn read_timer(end: usize, bytes: &[u8]) -> Result<(SavedTimer, &[u8]), ImageFault>
    ensures { Meets NoMemory (λ read. (read.0, read.1.now)) result (timer_at end bytes.now) }
{
    let (kind, rest) = read_kind(end, bytes)?;
    read_timer_of(kind, end, rest)
}

#[tactic(auto, unfolding(crate::specs::inside::ImageReading::timer_kind_at))]
fn read_kind(end: usize, bytes: &[u8]) -> Result<(TimerKind, &[u8]), ImageFault>
    ensures { Meets NoMemory (λ read. (read.0, read.1.now)) result (timer_kind_at end bytes.now) }
{
    let (first, rest) = byte(end, bytes)?;
    match timer_kind(first) {
        Some(kind) => Ok((kind, rest)),
        None => Err(ImageFault::Range {
            at: place(end, bytes),
        }),
    }
}

/// What follows the byte of a timer's kind.
#[tactic(auto, unfolding(crate::specs::inside::ImageReading::timer_of_at))]
fn read_timer_of(
    kind: TimerKind,
    end: usize,
    bytes: &[u8],
) -> Result<(SavedTimer, &[u8]), ImageFault>
    ensures { Meets NoMemory (λ read. (read.0, read.1.now)) result
        (timer_of_at kind end bytes.now) }
{
    match kind {
        TimerKind::NotStarted => Ok((SavedTimer::NotStarted, bytes)),
        TimerKind::Running => {
            let (tenths, rest) = read_time_left(end, bytes)?;
            Ok((SavedTimer::Running(tenths), rest))
        }
        TimerKind::Off => Ok((SavedTimer::Off, bytes)),
    }
}

#[tactic(auto, unfolding(crate::specs::inside::ImageReading::time_left_at))]
fn read_time_left(end: usize, bytes: &[u8]) -> Result<(u32, &[u8]), ImageFault>
    ensures { Meets NoMemory (λ read. (read.0, read.1.now)) result (time_left_at end bytes.now) }
{
    let (tenths, rest) = number(end, bytes)?;
    if tenths == 0 {
        return Err(ImageFault::Range {
            at: place(end, bytes),
        });
    }
    Ok((tenths, rest))
}
