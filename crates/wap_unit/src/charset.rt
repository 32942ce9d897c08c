//! Texts in a character set.
ghost use Rattle.wap_base.specs.Outcome.{Meets};
ghost use Rattle.wap_unit.specs.declared.fault.UnitFault.TheVariants.{NoMemory};
ghost use Rattle.wap_unit.specs.reading.UnitReading.{utf8_text, coded_text};

use crate::UnitFault;
use std::alloc::Global;
use std::str;
use wap_base::{Bytes, Charset, Text};

/// The characters of bytes that have to be UTF-8, as part of the item at this place.
#[tactic(auto, unfolding(crate::specs::reading::UnitReading::utf8_text))]
pub(crate) fn utf8_text(alloc: Global, at: usize, content: &[u8]) -> Result<Text, UnitFault>
    ensures { Meets NoMemory (λ text. text) result (utf8_text at content.now) }
{
    match str::from_utf8(content) {
        Ok(text) => Ok(Text::of(alloc, text)?),
        Err(_) => Err(UnitFault::Text { at }),
    }
}

/// Bytes that have to be a text in a character set, as part of the item at this place.
#[tactic(auto, unfolding(crate::specs::reading::UnitReading::coded_text))]
pub(crate) fn coded_text(
    alloc: Global,
    set: Charset,
    at: usize,
    content: &[u8],
) -> Result<Bytes, UnitFault>
    ensures { Meets NoMemory (λ text. text) result (coded_text set at content.now) }
{
    if !set.is_text(content) {
        return Err(UnitFault::Text { at });
    }
    Ok(Bytes::of(alloc, content)?)
}
