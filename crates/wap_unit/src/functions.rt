//! Functions and their names.
ghost use Rattle.wap_base.specs.Outcome.{Meets};
ghost use Rattle.wap_unit.specs.declared.fault.UnitFault.TheVariants.{NoMemory};
ghost use Rattle.wap_base.specs.formats.ByteReading.{row_at};
ghost use Rattle.wap_unit.specs.reading.UnitReading.{name_text_at, name_at, function_at};
ghost use Rattle.wap_unit.specs.reading.UnitReading.{named_functions_at, functions_at};

use crate::charset::utf8_text;
use crate::front::{byte, take_bytes, take_sized};
use crate::{Code, UnitFault};
use std::alloc::Global;
use wap_base::{Bytes, Rows, Text, place};

/// The names, and the functions.
#[tactic(auto, unfolding(crate::specs::reading::UnitReading::functions_at))]
pub(crate) fn read_functions(
    alloc: Global,
    end: usize,
    bytes: &[u8],
) -> Result<(Rows<(u8, Text)>, Rows<Code>, &[u8]), UnitFault>
    ensures { Meets NoMemory (λ read. ((read.0, read.1), read.2.now)) result
        (functions_at end bytes.now) }
{
    let at = place(end, bytes);
    let (count, rest) = byte(end, bytes)?;
    if count == 0 {
        return Err(UnitFault::NoFunction { at });
    }
    read_named_functions(alloc, count, end, rest)
}

/// The names, and so many functions.
#[tactic(auto, unfolding(crate::specs::reading::UnitReading::named_functions_at))]
fn read_named_functions(
    alloc: Global,
    count: u8,
    end: usize,
    bytes: &[u8],
) -> Result<(Rows<(u8, Text)>, Rows<Code>, &[u8]), UnitFault>
    ensures { Meets NoMemory (λ read. ((read.0, read.1), read.2.now)) result
        (named_functions_at count end bytes.now) }
{
    let (names, rest) = byte(end, bytes)?;
    let (names, rest) = read_names(alloc, count, names, end, rest)?;
    let (functions, rest) = read_bodies(alloc, count, end, rest)?;
    Ok((names, functions, rest))
}

/// So many names of so many functions.
fn read_names(
    alloc: Global,
    functions: u8,
    count: u8,
    end: usize,
    bytes: &[u8],
) -> Result<(Rows<(u8, Text)>, &[u8]), UnitFault>
    ensures { Meets NoMemory (λ read. (read.0, read.1.now)) result
        (row_at (name_at functions) count end bytes.now) }
{
    let mut names = Rows::new(alloc);
    let mut rest = bytes;
    for _ in 0..count {
        let (name, behind) = read_name(alloc, functions, end, rest)?;
        names.add(name)?;
        rest = behind;
    }
    Ok((names, rest))
}

/// The name of one of so many functions, with the function's index.
#[tactic(auto, unfolding(crate::specs::reading::UnitReading::name_at))]
fn read_name(
    alloc: Global,
    functions: u8,
    end: usize,
    bytes: &[u8],
) -> Result<((u8, Text), &[u8]), UnitFault>
    ensures { Meets NoMemory (λ read. (read.0, read.1.now)) result
        (name_at functions end bytes.now) }
{
    let at = place(end, bytes);
    let (index, rest) = byte(end, bytes)?;
    if index >= functions {
        return Err(UnitFault::NameIndex { at });
    }
    let (text, rest) = read_name_text(alloc, at, end, rest)?;
    Ok(((index, text), rest))
}

/// The text of a name that is at this place, after one byte for its length.
#[tactic(auto, unfolding(crate::specs::reading::UnitReading::name_text_at))]
fn read_name_text(
    alloc: Global,
    at: usize,
    end: usize,
    bytes: &[u8],
) -> Result<(Text, &[u8]), UnitFault>
    ensures { Meets NoMemory (λ read. (read.0, read.1.now)) result (name_text_at at end bytes.now) }
{
    let (size, rest) = byte(end, bytes)?;
    let (content, rest) = take_bytes(size as usize, end, rest)?;
    Ok((utf8_text(alloc, at, content)?, rest))
}

/// So many functions.
fn read_bodies(
    alloc: Global,
    count: u8,
    end: usize,
    bytes: &[u8],
) -> Result<(Rows<Code>, &[u8]), UnitFault>
    ensures { Meets NoMemory (λ read. (read.0, read.1.now)) result
        (row_at function_at count end bytes.now) }
{
    let mut functions = Rows::new(alloc);
    let mut rest = bytes;
    for _ in 0..count {
        let (function, behind) = read_function(alloc, end, rest)?;
        functions.add(function)?;
        rest = behind;
    }
    Ok((functions, rest))
}

/// One function.
#[tactic(auto, unfolding(crate::specs::reading::UnitReading::function_at))]
fn read_function(alloc: Global, end: usize, bytes: &[u8]) -> Result<(Code, &[u8]), UnitFault>
    ensures { Meets NoMemory (λ read. (read.0, read.1.now)) result (function_at end bytes.now) }
{
    let (args, rest) = byte(end, bytes)?;
    let (locals, rest) = byte(end, rest)?;
    let (code, rest) = take_sized(end, rest)?;
    let code = Bytes::of(alloc, code)?;
    Ok((Code { args, locals, code }, rest))
}
