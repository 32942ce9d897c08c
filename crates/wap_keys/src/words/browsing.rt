//! The commands that browse from a URL: `browse` and `image`, which have the same words, and
//! `replay`.
ghost use Rattle.std.specs.Prelude.{◌≡◌, IfOk, IfSome, map};
ghost use Rattle.wap_base.specs.Limits.{AreInRange};
ghost use Rattle.wap_keys.specs.words.Commands.{limits_of, browse_of, replay_of};
ghost use Rattle.wap_keys.specs.words.Ranges.{BrowsesInRange, ReplaysInRange};
ghost use Rattle.wap_keys.specs.words.inside.Reading.{use_by};

use crate::words::arguments::{Use, text_of};
use crate::words::numbers::{
    DEFAULT_BUDGET, DEFAULT_CACHE, DEFAULT_SEED, DEFAULT_WORKERS, LEAST_BUDGET, LEAST_CACHE,
    LEAST_WORKERS, MOST_CACHE, MOST_WORKERS, byte_of, number_of,
};
use crate::words::{Browse, Replay};
use std::alloc::Global;
use wap_base::{
    DEFAULT_DEPTH, DEFAULT_HISTORY, DEFAULT_STRING, LEAST_DEPTH, LEAST_HISTORY, LEAST_STRING,
    Limits, MOST_DEPTH, MOST_HISTORY, MOST_STRING, NoMemory, Text,
};

/// The limits that were given, or none.
fn limits_of(uses: &[Use]) -> Option<Limits>
    ensures is { result ≡ limits_of (map use_by uses.now) }
    ensures ranges { IfSome result AreInRange }
{
    let string = number_of(
        text_of(uses, "string"),
        LEAST_STRING,
        MOST_STRING,
        DEFAULT_STRING,
    )?;
    let history = byte_of(
        text_of(uses, "history"),
        LEAST_HISTORY,
        MOST_HISTORY,
        DEFAULT_HISTORY,
    )?;
    let depth = byte_of(
        text_of(uses, "depth"),
        LEAST_DEPTH,
        MOST_DEPTH,
        DEFAULT_DEPTH,
    )?;
    Some(Limits {
        string,
        history,
        depth,
    })
}

/// What is browsed by what was given, or none.
pub(crate) fn browse_of(alloc: Global, uses: &[Use]) -> Result<Option<Browse>, NoMemory>
    ensures is { IfOk result (λ said. said ≡ browse_of (map use_by uses.now)) }
    ensures ranges { IfOk result (λ said. IfSome said BrowsesInRange) }
{
    let Some(url) = text_of(uses, "url") else {
        return Ok(None);
    };
    let Some(seed) = number_of(text_of(uses, "seed"), 0, u32::MAX, DEFAULT_SEED) else {
        return Ok(None);
    };
    let budget = text_of(uses, "budget");
    let Some(budget) = number_of(budget, LEAST_BUDGET, u32::MAX, DEFAULT_BUDGET) else {
        return Ok(None);
    };
    let cache = text_of(uses, "cache");
    let Some(cache) = number_of(cache, LEAST_CACHE, MOST_CACHE, DEFAULT_CACHE) else {
        return Ok(None);
    };
    let Some(limits) = limits_of(uses) else {
        return Ok(None);
    };
    let url = Text::of(alloc, url)?;
    Ok(Some(Browse {
        url,
        seed,
        budget,
        cache,
        limits,
    }))
}

/// What is replayed by what was given, or none.
pub(crate) fn replay_of(alloc: Global, uses: &[Use]) -> Result<Option<Replay>, NoMemory>
    ensures is { IfOk result (λ said. said ≡ replay_of (map use_by uses.now)) }
    ensures ranges { IfOk result (λ said. IfSome said ReplaysInRange) }
{
    let Some(url) = text_of(uses, "url") else {
        return Ok(None);
    };
    let Some(seed) = number_of(text_of(uses, "seed"), 0, u32::MAX, DEFAULT_SEED) else {
        return Ok(None);
    };
    let budget = text_of(uses, "budget");
    let Some(budget) = number_of(budget, LEAST_BUDGET, u32::MAX, DEFAULT_BUDGET) else {
        return Ok(None);
    };
    let workers = text_of(uses, "workers");
    let Some(workers) = byte_of(workers, LEAST_WORKERS, MOST_WORKERS, DEFAULT_WORKERS) else {
        return Ok(None);
    };
    let Some(limits) = limits_of(uses) else {
        return Ok(None);
    };
    let url = Text::of(alloc, url)?;
    Ok(Some(Replay {
        url,
        seed,
        budget,
        workers,
        limits,
    }))
}
