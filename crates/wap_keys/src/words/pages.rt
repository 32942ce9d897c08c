//! The commands on a page or a folder: `resume`, those on one page, `prepare` and `make`.
ghost use Rattle.std.specs.Prelude.{◌≡◌, IfOk, IfSome, map};
ghost use Rattle.wap_keys.specs.words.Commands.{resume_of, page_of, prepare_of, make_of};
ghost use Rattle.wap_keys.specs.words.Ranges.{ResumesInRange, AreWorkers};
ghost use Rattle.wap_keys.specs.words.inside.Reading.{use_by};

use crate::decimal_of;
use crate::words::Resume;
use crate::words::arguments::{Use, text_of};
use crate::words::numbers::{
    DEFAULT_CACHE, DEFAULT_WORKERS, LEAST_CACHE, LEAST_WORKERS, MOST_CACHE, MOST_WORKERS, byte_of,
    number_of,
};
use std::alloc::Global;
use wap_base::{NoMemory, Text};

/// What is resumed by what was given, or none.
pub(crate) fn resume_of(alloc: Global, uses: &[Use]) -> Result<Option<Resume>, NoMemory>
    ensures is { IfOk result (λ said. said ≡ resume_of (map use_by uses.now)) }
    ensures ranges { IfOk result (λ said. IfSome said ResumesInRange) }
{
    let Some(name) = text_of(uses, "name") else {
        return Ok(None);
    };
    let cache = text_of(uses, "cache");
    let Some(cache) = number_of(cache, LEAST_CACHE, MOST_CACHE, DEFAULT_CACHE) else {
        return Ok(None);
    };
    let name = Text::of(alloc, name)?;
    Ok(Some(Resume { name, cache }))
}

/// The name of the page that was given, or none.
pub(crate) fn page_of(alloc: Global, uses: &[Use]) -> Result<Option<Text>, NoMemory>
    ensures { IfOk result (λ said. said ≡ page_of (map use_by uses.now)) }
{
    match text_of(uses, "name") {
        Some(name) => Ok(Some(Text::of(alloc, name)?)),
        None => Ok(None),
    }
}

/// How many workers share the pages, or none where more was given.
pub(crate) fn prepare_of(uses: &[Use]) -> Option<u8>
    ensures is { result ≡ prepare_of (map use_by uses.now) }
    ensures ranges { IfSome result AreWorkers }
{
    if text_of(uses, "surplus").is_some() {
        return None;
    }
    byte_of(
        text_of(uses, "workers"),
        LEAST_WORKERS,
        MOST_WORKERS,
        DEFAULT_WORKERS,
    )
}

/// The number of the folder that was given, or none.
pub(crate) fn make_of(uses: &[Use]) -> Option<u32>
    ensures { result ≡ make_of (map use_by uses.now) }
{
    let number = text_of(uses, "name")?;
    decimal_of(number.as_bytes(), u32::MAX)
}
