//! The limits of a run.
ghost use Rattle.wap_base.specs.Outcome.{Meets};
ghost use Rattle.wap_image.specs.declared.context_parts.fault.ImageFault.TheVariants.{NoMemory};
ghost use Rattle.wap_image.specs.inside.ImageReading.{string_limit_at, history_limit_at};
ghost use Rattle.wap_image.specs.inside.ImageReading.{depth_limit_at, limits_at};

use crate::context_parts::ImageFault;
use crate::steps::{byte, number};
use wap_base::{
    LEAST_DEPTH, LEAST_HISTORY, LEAST_STRING, Limits, MOST_DEPTH, MOST_HISTORY, MOST_STRING, place,
};

/// The limits of strings, of the history and of calls.
#[tactic(auto, unfolding(crate::specs::inside::ImageReading::limits_at))]
pub(crate) fn read_limits(end: usize, bytes: &[u8]) -> Result<(Limits, &[u8]), ImageFault>
    ensures { Meets NoMemory (λ read. (read.0, read.1.now)) result (limits_at end bytes.now) }
{
    let (string, rest) = string_limit(end, bytes)?;
    let (history, rest) = history_limit(end, rest)?;
    let (depth, rest) = depth_limit(end, rest)?;
    Ok((
        Limits {
            string,
            history,
            depth,
        },
        rest,
    ))
}

#[tactic(auto, unfolding(crate::specs::inside::ImageReading::string_limit_at))]
fn string_limit(end: usize, bytes: &[u8]) -> Result<(u32, &[u8]), ImageFault>
    ensures { Meets NoMemory (λ read. (read.0, read.1.now)) result (string_limit_at end bytes.now) }
{
    let (limit, rest) = number(end, bytes)?;
    if LEAST_STRING <= limit && limit <= MOST_STRING {
        return Ok((limit, rest));
    }
    Err(ImageFault::Range {
        at: place(end, bytes),
    })
}

#[tactic(auto, unfolding(crate::specs::inside::ImageReading::history_limit_at))]
fn history_limit(end: usize, bytes: &[u8]) -> Result<(u8, &[u8]), ImageFault>
    ensures { Meets NoMemory (λ read. (read.0, read.1.now)) result
        (history_limit_at end bytes.now) }
{
    let (limit, rest) = byte(end, bytes)?;
    if LEAST_HISTORY <= limit && limit <= MOST_HISTORY {
        return Ok((limit, rest));
    }
    Err(ImageFault::Range {
        at: place(end, bytes),
    })
}

#[tactic(auto, unfolding(crate::specs::inside::ImageReading::depth_limit_at))]
fn depth_limit(end: usize, bytes: &[u8]) -> Result<(u8, &[u8]), ImageFault>
    ensures { Meets NoMemory (λ read. (read.0, read.1.now)) result (depth_limit_at end bytes.now) }
{
    let (limit, rest) = byte(end, bytes)?;
    if LEAST_DEPTH <= limit && limit <= MOST_DEPTH {
        return Ok((limit, rest));
    }
    Err(ImageFault::Range {
        at: place(end, bytes),
    })
}
