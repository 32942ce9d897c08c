//! Texts after the number of their bytes.
ghost use Rattle.wap_base.specs.Outcome.{Meets};
ghost use Rattle.wap_image.specs.declared.context_parts.fault.ImageFault.TheVariants.{NoMemory};
ghost use Rattle.wap_image.specs.inside.ByteReading.{number_at};
ghost use Rattle.wap_image.specs.inside.ImageReading.{sized_at, text_at, value_length_at};

use crate::context_parts::ImageFault;
use crate::steps::{number, take_bytes};
use std::alloc::Global;
use wap_base::{Charset, Text, place};
use wap_vars::TEXT_LIMIT;

/// A text after the number of its bytes.
#[tactic(auto, unfolding(crate::specs::inside::ImageReading::text_at, crate::specs::inside::ImageReading::sized_at))]
pub(crate) fn read_text(
    alloc: Global,
    end: usize,
    bytes: &[u8],
) -> Result<(Text, &[u8]), ImageFault>
    ensures { Meets NoMemory (λ read. (read.0, read.1.now)) result
        (text_at number_at end bytes.now) }
{
    let at = place(end, bytes);
    let (size, rest) = number(end, bytes)?;
    let (content, rest) = take_bytes(size as usize, end, rest)?;
    match Charset::Utf8.text(alloc, content)? {
        Some(text) => Ok((text, rest)),
        None => Err(ImageFault::Text { at }),
    }
}

/// The text of a variable, after the number of its bytes.
#[tactic(auto, unfolding(crate::specs::inside::ImageReading::text_at, crate::specs::inside::ImageReading::sized_at))]
pub(crate) fn read_value(
    alloc: Global,
    end: usize,
    bytes: &[u8],
) -> Result<(Text, &[u8]), ImageFault>
    ensures { Meets NoMemory (λ read. (read.0, read.1.now)) result
        (text_at value_length_at end bytes.now) }
{
    let at = place(end, bytes);
    let (size, rest) = value_length(end, bytes)?;
    let (content, rest) = take_bytes(size as usize, end, rest)?;
    match Charset::Utf8.text(alloc, content)? {
        Some(text) => Ok((text, rest)),
        None => Err(ImageFault::Text { at }),
    }
}

/// The number of the bytes of a variable's text.
#[tactic(auto, unfolding(crate::specs::inside::ImageReading::value_length_at))]
fn value_length(end: usize, bytes: &[u8]) -> Result<(u32, &[u8]), ImageFault>
    ensures { Meets NoMemory (λ read. (read.0, read.1.now)) result (value_length_at end bytes.now) }
{
    let (size, rest) = number(end, bytes)?;
    if size as usize > TEXT_LIMIT {
        return Err(ImageFault::Range {
            at: place(end, bytes),
        });
    }
    Ok((size, rest))
}
