//! What bytes begin with: one byte, so many, and a number.
ghost use Rattle.std.specs.Prelude.{◌≡◌, length, IfOk};
ghost use Rattle.wap_base.specs.Outcome.{Meets};
ghost use Rattle.wap_image.specs.declared.context_parts.fault.ImageFault.TheVariants.{NoMemory};
ghost use Rattle.wap_image.specs.inside.ByteReading.{byte_at, taken_at, number_at};

use crate::context_parts::ImageFault;
use wap_base::{ReadFault, place, read_mb};

/// One byte.
pub(crate) fn byte(end: usize, bytes: &[u8]) -> Result<(u8, &[u8]), ImageFault>
    ensures { Meets NoMemory (λ read. (read.0, read.1.now)) result (byte_at end bytes.now) }
{
    match bytes.split_first() {
        Some((first, rest)) => Ok((*first, rest)),
        None => Err(ImageFault::Short { at: end }),
    }
}

/// So many bytes.
pub(crate) fn take_bytes(
    size: usize,
    end: usize,
    bytes: &[u8],
) -> Result<(&[u8], &[u8]), ImageFault>
    ensures read { Meets NoMemory (λ read. (read.0.now, read.1.now)) result
        (taken_at size end bytes.now) }
    ensures size { IfOk result (λ read. length read.0.now ≡ size) }
{
    if bytes.len() < size {
        return Err(ImageFault::Short { at: end });
    }
    Ok(bytes.split_at(size))
}

/// A number of several bytes.
#[tactic(auto, unfolding(wap_base::specs::formats::ByteReading::number_at))]
pub(crate) fn number(end: usize, bytes: &[u8]) -> Result<(u32, &[u8]), ImageFault>
    ensures { Meets NoMemory (λ read. (read.0, read.1.now)) result (number_at end bytes.now) }
{
    match read_mb(bytes, 0) {
        Ok((number, next)) => Ok((number, &bytes[next..])),
        Err(ReadFault::Short { .. }) => Err(ImageFault::Short { at: end }),
        Err(ReadFault::TooLong { .. }) => Err(ImageFault::Number {
            at: place(end, bytes),
        }),
    }
}
