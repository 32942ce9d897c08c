//! The pool of constants.
ghost use Rattle.wap_base.specs.Outcome.{Meets};
ghost use Rattle.wap_unit.specs.declared.fault.UnitFault.TheVariants.{NoMemory};
ghost use Rattle.wap_base.specs.formats.ByteReading.{row_at};
ghost use Rattle.wap_unit.specs.reading.UnitReading.{coded_at, utf8_at, value_at};
ghost use Rattle.wap_unit.specs.reading.UnitReading.{constant_at, constants_at};

use crate::charset::{coded_text, utf8_text};
use crate::front::{byte, number, take_bytes, take_sized};
use crate::kind::{ConstantKind, constant_kind};
use crate::{Constant, UnitFault};
use std::alloc::Global;
use wap_base::{Charset, Rows, place};

/// The number of the character set, and the constants.
#[tactic(auto, unfolding(crate::specs::reading::UnitReading::constants_at))]
pub(crate) fn read_constants(
    alloc: Global,
    end: usize,
    bytes: &[u8],
) -> Result<(u32, Rows<Constant>, &[u8]), UnitFault>
    ensures { Meets NoMemory (λ read. ((read.0, read.1), read.2.now)) result
        (constants_at end bytes.now) }
{
    let (count, rest) = number(end, bytes)?;
    let (charset, rest) = number(end, rest)?;
    let (constants, rest) = read_pool(alloc, Charset::of_number(charset), count, end, rest)?;
    Ok((charset, constants, rest))
}

/// So many constants.
fn read_pool(
    alloc: Global,
    set: Option<Charset>,
    count: u32,
    end: usize,
    bytes: &[u8],
) -> Result<(Rows<Constant>, &[u8]), UnitFault>
    ensures { Meets NoMemory (λ read. (read.0, read.1.now)) result
        (row_at (constant_at set) count end bytes.now) }
{
    let mut constants = Rows::new(alloc);
    let mut rest = bytes;
    for _ in 0..count {
        let (constant, behind) = read_constant(alloc, set, end, rest)?;
        constants.add(constant)?;
        rest = behind;
    }
    Ok((constants, rest))
}

/// One constant.
#[tactic(auto, unfolding(crate::specs::reading::UnitReading::constant_at))]
fn read_constant(
    alloc: Global,
    set: Option<Charset>,
    end: usize,
    bytes: &[u8],
) -> Result<(Constant, &[u8]), UnitFault>
    ensures { Meets NoMemory (λ read. (read.0, read.1.now)) result (constant_at set end bytes.now) }
{
    let at = place(end, bytes);
    let (first, rest) = byte(end, bytes)?;
    match constant_kind(first) {
        Some(kind) => read_value(alloc, set, at, kind, end, rest),
        None => Err(UnitFault::ConstantKind { at }),
    }
}

/// The value of a constant of this kind, which is at this place.
#[tactic(auto, unfolding(crate::specs::reading::UnitReading::value_at))]
fn read_value(
    alloc: Global,
    set: Option<Charset>,
    at: usize,
    kind: ConstantKind,
    end: usize,
    bytes: &[u8],
) -> Result<(Constant, &[u8]), UnitFault>
    ensures { Meets NoMemory (λ read. (read.0, read.1.now)) result
        (value_at set at kind end bytes.now) }
{
    match kind {
        ConstantKind::Int8 => {
            let (value, rest) = take_bytes(1, end, bytes)?;
            Ok((Constant::Int8(i8::from_be_bytes([value[0]])), rest))
        }
        ConstantKind::Int16 => {
            let (value, rest) = take_bytes(2, end, bytes)?;
            let number = i16::from_be_bytes([value[0], value[1]]);
            Ok((Constant::Int16(number), rest))
        }
        ConstantKind::Int32 => {
            let (value, rest) = take_bytes(4, end, bytes)?;
            let number = i32::from_be_bytes([value[0], value[1], value[2], value[3]]);
            Ok((Constant::Int32(number), rest))
        }
        ConstantKind::Float => {
            let (value, rest) = take_bytes(4, end, bytes)?;
            let bits = u32::from_be_bytes([value[0], value[1], value[2], value[3]]);
            Ok((Constant::Float(bits), rest))
        }
        ConstantKind::Utf8 => read_utf8(alloc, at, end, bytes),
        ConstantKind::Empty => Ok((Constant::Empty, bytes)),
        ConstantKind::Coded => read_coded(alloc, at, set, end, bytes),
    }
}

/// A string in UTF-8, after the number of its bytes.
#[tactic(auto, unfolding(crate::specs::reading::UnitReading::utf8_at))]
fn read_utf8(
    alloc: Global,
    at: usize,
    end: usize,
    bytes: &[u8],
) -> Result<(Constant, &[u8]), UnitFault>
    ensures { Meets NoMemory (λ read. (read.0, read.1.now)) result (utf8_at at end bytes.now) }
{
    let (content, rest) = take_sized(end, bytes)?;
    let text = utf8_text(alloc, at, content)?;
    Ok((Constant::Utf8(text), rest))
}

/// A string in the unit's character set, after the number of its bytes.
#[tactic(auto, unfolding(crate::specs::reading::UnitReading::coded_at))]
fn read_coded(
    alloc: Global,
    at: usize,
    set: Option<Charset>,
    end: usize,
    bytes: &[u8],
) -> Result<(Constant, &[u8]), UnitFault>
    ensures { Meets NoMemory (λ read. (read.0, read.1.now)) result (coded_at at set end bytes.now) }
{
    match set {
        None => Err(UnitFault::Charset { at }),
        Some(set) => {
            let (content, rest) = take_sized(end, bytes)?;
            let text = coded_text(alloc, set, at, content)?;
            Ok((Constant::Coded(text), rest))
        }
    }
}
