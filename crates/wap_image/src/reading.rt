//! Reading an image from its bytes.
ghost use Rattle.std.specs.Prelude.{◌≢◌, IfOk, IfErr, Ok, Err};
ghost use Rattle.wap_base.specs.Outcome.{Meets};
ghost use Rattle.wap_image.specs.declared.context_parts.fault.ImageFault.{ImageFault};
ghost use Rattle.wap_image.specs.declared.context_parts.fault.ImageFault.TheVariants.{NoMemory};
ghost use Rattle.wap_image.specs.Images.{Saved, IsImage};
ghost use Rattle.wap_image.specs.Refusal.{IsRefused};
ghost use Rattle.wap_image.specs.Rules.{MayBeSaved};
ghost use Rattle.wap_image.specs.inside.ImageReading.{head_at, drawn_at, budget_at};
ghost use Rattle.wap_image.specs.inside.ImageReading.{lists_at, items_at, image_at};

use crate::context_parts::{ContextParts, ImageFault};
use crate::entries::read_entries;
use crate::items::is_head;
use crate::limits::read_limits;
use crate::steps::{number, take_bytes};
use crate::timer::read_timer;
use crate::variables::read_variables;
use std::alloc::Global;
use wap_base::place;

/// The parts of which the bytes are the image, all of them, and the turns of a key. Of a text no
/// more is copied than there are bytes.
pub fn read(alloc: Global, bytes: &[u8]) -> Result<(ContextParts, u32), ImageFault>
    // What is read is spelled so, and what is spelled so is read.
    ensures found { IfOk result (λ saved. IsImage bytes.now saved) }
    ensures only { (saved : Saved) → IsImage bytes.now saved
        → Meets NoMemory (λ s. s) result (Ok saved) }
    // The parts keep the rules of parts, and may be written again.
    ensures kept { IfOk result (λ saved. MayBeSaved saved.0 saved.1) }
    // A fault is the first one from the left, and the first one from the left is found.
    ensures refused { IfErr result (λ fault. fault ≢ NoMemory → IsRefused bytes.now fault) }
    ensures first { (fault : ImageFault) → IsRefused bytes.now fault
        → Meets {Y = Saved} NoMemory (λ s. s) result (Err fault) }
{
    read_image(alloc, bytes)
}

#[tactic(auto, unfolding(crate::specs::inside::ImageReading::image_at))]
fn read_image(alloc: Global, bytes: &[u8]) -> Result<(ContextParts, u32), ImageFault>
    ensures { Meets NoMemory (λ saved. saved) result (image_at bytes.now) }
{
    let end = bytes.len();
    let (saved, rest) = read_items(alloc, end, bytes)?;
    if !rest.is_empty() {
        return Err(ImageFault::Rest {
            at: place(end, rest),
        });
    }
    Ok(saved)
}

/// The items, one after the other.
#[tactic(auto, unfolding(crate::specs::inside::ImageReading::items_at))]
fn read_items(
    alloc: Global,
    end: usize,
    bytes: &[u8],
) -> Result<((ContextParts, u32), &[u8]), ImageFault>
    ensures { Meets NoMemory (λ read. (read.0, read.1.now)) result (items_at end bytes.now) }
{
    let (_, rest) = read_head(end, bytes)?;
    let (seed, rest) = number(end, rest)?;
    let (start, rest) = number(end, rest)?;
    let (drawn, rest) = read_drawn(end, rest)?;
    let (budget, rest) = read_budget(end, rest)?;
    read_lists(alloc, seed, start, drawn, budget, end, rest)
}

/// The items after the numbers, which are these.
#[tactic(auto, unfolding(crate::specs::inside::ImageReading::lists_at))]
fn read_lists(
    alloc: Global,
    seed: u32,
    start: u32,
    drawn: u64,
    budget: u32,
    end: usize,
    bytes: &[u8],
) -> Result<((ContextParts, u32), &[u8]), ImageFault>
    ensures { Meets NoMemory (λ read. (read.0, read.1.now)) result
        (lists_at seed start drawn budget end bytes.now) }
{
    let (limits, rest) = read_limits(end, bytes)?;
    let (timer, rest) = read_timer(end, rest)?;
    let (vars, rest) = read_variables(alloc, end, rest)?;
    let (history, rest) = read_entries(alloc, limits, timer, end, rest)?;
    let parts = ContextParts {
        vars,
        history,
        timer,
        seed,
        start,
        drawn,
        limits,
    };
    Ok(((parts, budget), rest))
}

/// The bytes with which an image begins.
#[tactic(auto, unfolding(crate::specs::inside::ImageReading::head_at))]
fn read_head(end: usize, bytes: &[u8]) -> Result<(&[u8], &[u8]), ImageFault>
    ensures { Meets NoMemory (λ read. (read.0.now, read.1.now)) result (head_at end bytes.now) }
{
    let (head, rest) = take_bytes(3, end, bytes)?;
    if !is_head(head) {
        return Err(ImageFault::Head);
    }
    Ok((head, rest))
}

/// How many words were drawn.
#[tactic(auto, unfolding(crate::specs::inside::ImageReading::drawn_at))]
fn read_drawn(end: usize, bytes: &[u8]) -> Result<(u64, &[u8]), ImageFault>
    ensures { Meets NoMemory (λ read. (read.0, read.1.now)) result (drawn_at end bytes.now) }
{
    let (value, rest) = take_bytes(8, end, bytes)?;
    let drawn = u64::from_be_bytes([
        value[0], value[1], value[2], value[3], value[4], value[5], value[6], value[7],
    ]);
    if drawn == u64::MAX {
        return Err(ImageFault::Range {
            at: place(end, bytes),
        });
    }
    Ok((drawn, rest))
}

/// The turns of a key.
#[tactic(auto, unfolding(crate::specs::inside::ImageReading::budget_at))]
fn read_budget(end: usize, bytes: &[u8]) -> Result<(u32, &[u8]), ImageFault>
    ensures { Meets NoMemory (λ read. (read.0, read.1.now)) result (budget_at end bytes.now) }
{
    let (budget, rest) = number(end, bytes)?;
    if budget == 0 {
        return Err(ImageFault::Range {
            at: place(end, bytes),
        });
    }
    Ok((budget, rest))
}
