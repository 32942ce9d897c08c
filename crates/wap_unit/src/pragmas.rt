//! Pragmas.
ghost use Rattle.wap_base.specs.Outcome.{Meets};
ghost use Rattle.wap_unit.specs.declared.fault.UnitFault.TheVariants.{NoMemory};
ghost use Rattle.wap_base.specs.formats.ByteReading.{row_at};
ghost use Rattle.wap_unit.specs.reading.UnitReading.{pair_at, indexes_at, pragma_at, pragmas_at};

use crate::front::{byte, number};
use crate::kind::{PragmaKind, pragma_kind};
use crate::{Pragma, UnitFault};
use std::alloc::Global;
use wap_base::{Rows, place};

/// The pragmas, after their number.
#[tactic(auto, unfolding(crate::specs::reading::UnitReading::pragmas_at))]
pub(crate) fn read_pragmas(
    alloc: Global,
    end: usize,
    bytes: &[u8],
) -> Result<(Rows<Pragma>, &[u8]), UnitFault>
    ensures { Meets NoMemory (λ read. (read.0, read.1.now)) result (pragmas_at end bytes.now) }
{
    let (count, rest) = number(end, bytes)?;
    read_row(alloc, count, end, rest)
}

/// So many pragmas.
fn read_row(
    alloc: Global,
    count: u32,
    end: usize,
    bytes: &[u8],
) -> Result<(Rows<Pragma>, &[u8]), UnitFault>
    ensures { Meets NoMemory (λ read. (read.0, read.1.now)) result
        (row_at pragma_at count end bytes.now) }
{
    let mut pragmas = Rows::new(alloc);
    let mut rest = bytes;
    for _ in 0..count {
        let (pragma, behind) = read_pragma(end, rest)?;
        pragmas.add(pragma)?;
        rest = behind;
    }
    Ok((pragmas, rest))
}

/// One pragma.
#[tactic(auto, unfolding(crate::specs::reading::UnitReading::pragma_at))]
fn read_pragma(end: usize, bytes: &[u8]) -> Result<(Pragma, &[u8]), UnitFault>
    ensures { Meets NoMemory (λ read. (read.0, read.1.now)) result (pragma_at end bytes.now) }
{
    let at = place(end, bytes);
    let (first, rest) = byte(end, bytes)?;
    match pragma_kind(first) {
        Some(kind) => read_indexes(kind, end, rest),
        None => Err(UnitFault::PragmaKind { at }),
    }
}

/// The indexes of a pragma of this kind.
#[tactic(auto, unfolding(crate::specs::reading::UnitReading::indexes_at))]
fn read_indexes(kind: PragmaKind, end: usize, bytes: &[u8]) -> Result<(Pragma, &[u8]), UnitFault>
    ensures { Meets NoMemory (λ read. (read.0, read.1.now)) result (indexes_at kind end bytes.now) }
{
    match kind {
        PragmaKind::Domain => {
            let (text, rest) = number(end, bytes)?;
            Ok((Pragma::Domain(text), rest))
        }
        PragmaKind::Path => {
            let (text, rest) = number(end, bytes)?;
            Ok((Pragma::Path(text), rest))
        }
        PragmaKind::Property => {
            let ((name, content), rest) = pair(end, bytes)?;
            Ok((Pragma::Property(name, content), rest))
        }
        PragmaKind::Scheme => {
            let (name, rest) = number(end, bytes)?;
            let ((content, scheme), rest) = pair(end, rest)?;
            Ok((Pragma::Scheme(name, content, scheme), rest))
        }
    }
}

/// Two numbers.
#[tactic(auto, unfolding(crate::specs::reading::UnitReading::pair_at))]
fn pair(end: usize, bytes: &[u8]) -> Result<((u32, u32), &[u8]), UnitFault>
    ensures { Meets NoMemory (λ read. (read.0, read.1.now)) result (pair_at end bytes.now) }
{
    let (one, rest) = number(end, bytes)?;
    let (two, rest) = number(end, rest)?;
    Ok(((one, two), rest))
}
