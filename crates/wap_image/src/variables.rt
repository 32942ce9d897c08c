//! The variables of a context.
ghost use Rattle.std.specs.Prelude.{[]};
ghost use Rattle.wap_base.specs.Outcome.{Meets};
ghost use Rattle.wap_image.specs.declared.context_parts.fault.ImageFault.TheVariants.{NoMemory};
ghost use Rattle.wap_base.specs.formats.ByteReading.{many};
ghost use Rattle.wap_image.specs.inside.ImageReading.{name_at, variable_at, variable_count_at};
ghost use Rattle.wap_image.specs.inside.ImageReading.{variables_at};

use crate::context_parts::ImageFault;
use crate::items::is_next_name;
use crate::steps::number;
use crate::texts::{read_text, read_value};
use std::alloc::Global;
use wap_base::{Rows, Text, place};
use wap_vars::VAR_LIMIT;

/// The variables, after their number.
#[tactic(auto, unfolding(crate::specs::inside::ImageReading::variables_at))]
pub(crate) fn read_variables(
    alloc: Global,
    end: usize,
    bytes: &[u8],
) -> Result<(Rows<(Text, Text)>, &[u8]), ImageFault>
    ensures { Meets NoMemory (λ read. (read.0, read.1.now)) result (variables_at end bytes.now) }
{
    let (count, rest) = read_count(end, bytes)?;
    read_row(alloc, count, end, rest)
}

#[tactic(auto, unfolding(crate::specs::inside::ImageReading::variable_count_at))]
fn read_count(end: usize, bytes: &[u8]) -> Result<(u32, &[u8]), ImageFault>
    ensures { Meets NoMemory (λ read. (read.0, read.1.now)) result
        (variable_count_at end bytes.now) }
{
    let (count, rest) = number(end, bytes)?;
    if count as usize > VAR_LIMIT {
        return Err(ImageFault::Range {
            at: place(end, bytes),
        });
    }
    Ok((count, rest))
}

/// So many variables.
fn read_row(
    alloc: Global,
    count: u32,
    end: usize,
    bytes: &[u8],
) -> Result<(Rows<(Text, Text)>, &[u8]), ImageFault>
    ensures { Meets NoMemory (λ read. (read.0, read.1.now)) result
        (many variable_at count [] end bytes.now) }
{
    let mut variables = Rows::new(alloc);
    let mut rest = bytes;
    for _ in 0..count {
        let (variable, after) = read_variable(alloc, variables.as_slice(), end, rest)?;
        variables.add(variable)?;
        rest = after;
    }
    Ok((variables, rest))
}

/// A variable after these: its name, and its text.
#[tactic(auto, unfolding(crate::specs::inside::ImageReading::variable_at))]
fn read_variable<'a>(
    alloc: Global,
    before: &[(Text, Text)],
    end: usize,
    bytes: &'a [u8],
) -> Result<((Text, Text), &'a [u8]), ImageFault>
    ensures { Meets NoMemory (λ read. (read.0, read.1.now)) result
        (variable_at before.now end bytes.now) }
{
    let (name, rest) = read_name(alloc, before, end, bytes)?;
    let (value, rest) = read_value(alloc, end, rest)?;
    Ok(((name, value), rest))
}

/// The name of a variable after these.
#[tactic(auto, unfolding(crate::specs::inside::ImageReading::name_at))]
fn read_name<'a>(
    alloc: Global,
    before: &[(Text, Text)],
    end: usize,
    bytes: &'a [u8],
) -> Result<(Text, &'a [u8]), ImageFault>
    ensures { Meets NoMemory (λ read. (read.0, read.1.now)) result
        (name_at before.now end bytes.now) }
{
    let (name, rest) = read_text(alloc, end, bytes)?;
    if !is_next_name(before, &name) {
        return Err(ImageFault::Name {
            at: place(end, bytes),
        });
    }
    Ok((name, rest))
}
