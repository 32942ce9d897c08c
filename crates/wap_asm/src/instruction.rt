//! Reading an instruction.
ghost use Rattle.std.specs.Prelude.{◌≡◌, ℕ, ◌+◌, ◌<◌, ◌≤◌, List, length, slice_index};
ghost use Rattle.std.specs.Prelude.{slice_get, IfOk, IfSome, ⊤};
ghost use Rattle.std.specs.Bool.{MatchBool};
ghost use Rattle.wap_unit.specs.Instructions.{width, size, row_of, value, read_row, instr_at};
ghost use Rattle.wap_unit.specs.declared.row.Slot.TheVariants as slot;
ghost use Rattle.wap_asm.specs.Spelling.{limit};
ghost use Rattle.wap_asm.specs.Operands.{Holds};

use crate::codes::ROW_NUMBERS;
use wap_unit::{Instr, InstrFault, ROWS, Row, Slot};

/// How many bytes an operand takes.
fn width(slot: Slot) -> usize
    ensures { result ≡ width slot }
{
    match slot {
        Slot::Absent => 0,
        Slot::Low => 0,
        Slot::Byte => 1,
        Slot::Word => 2,
    }
}

/// How many bytes a row's instruction takes.
pub(crate) fn size(row: Row) -> usize
    ensures { result ≡ size row }
{
    1 + width(row.a) + width(row.b) + width(row.c)
}

/// The operand at a place.
fn operand(code: &[u8], at: usize, slot: Slot, low: u8) -> u32
    requires { at + width slot ≤ length code.now }
    ensures value { result ≡ value code.now at slot low }
    ensures within { (count : ℕ) → low < count → result < limit count slot }
{
    match slot {
        Slot::Absent => 0,
        Slot::Low => u32::from(low),
        Slot::Byte => u32::from(code[at]),
        Slot::Word => 256 * u32::from(code[at]) + u32::from(code[at + 1]),
    }
}

/// The operand that stands in the code of an instruction, if it is there.
fn in_code(slot: Slot, low: u8) -> Option<u32>
    ensures value { IfSome result (λ operand. (width slot ≡ 0)
        × ((code : List ℕ) (at : ℕ) → operand ≡ value code at slot low)) }
    ensures within { IfSome result (λ operand. (count : ℕ) → low < count
        → operand < limit count slot) }
{
    match slot {
        Slot::Absent => Some(0),
        Slot::Low => Some(u32::from(low)),
        Slot::Byte | Slot::Word => None,
    }
}

/// Whether a row has no operand but the first.
fn has_one_at_most(row: Row) -> bool
    ensures { MatchBool result ((row.b ≡ slot.Absent) × (row.c ≡ slot.Absent)) ⊤ }
{
    matches!(row.b, Slot::Absent) && matches!(row.c, Slot::Absent)
}

/// The instruction of a row at a place, where the byte is a code of the row. Most have one operand
/// at most.
#[inline(always)]
pub fn read_row(row: Row, code: &[u8], at: usize) -> Result<Instr, InstrFault>
    requires here { at < length code.now }
    requires within { row.first ≤ slice_index code.now at }
    ensures instr { result ≡ read_row row code.now at }
    // Each operand is within its bits, for as many codes of the row as the byte is among: those of
    // its table, or 256, of which each byte is.
    ensures operands { IfOk result (λ instr. (count : ℕ)
        → slice_index code.now at < row.first + count
        → Holds (record row { count = count }) instr.a instr.b instr.c) }
{
    let left = code.len() - at;
    let low = code[at] - row.first;
    if has_one_at_most(row) {
        if let Some(a) = in_code(row.a, low) {
            return Ok(Instr {
                name: row.name,
                a,
                b: 0,
                c: 0,
                next: at + 1,
            });
        }
        let size = 1 + width(row.a);
        if left < size {
            return Err(InstrFault::Operand);
        }
        return Ok(Instr {
            name: row.name,
            a: operand(code, at + 1, row.a, low),
            b: 0,
            c: 0,
            next: at + size,
        });
    }
    if left < size(row) {
        return Err(InstrFault::Operand);
    }
    let b_at = at + 1 + width(row.a);
    let c_at = b_at + width(row.b);
    Ok(Instr {
        name: row.name,
        a: operand(code, at + 1, row.a, low),
        b: operand(code, b_at, row.b, low),
        c: operand(code, c_at, row.c, low),
        next: c_at + width(row.c),
    })
}

/// The row of a code, by the numbers of rows.
fn row_in(rows: &[Row], numbers: &[u8], code: u8) -> Option<Row>
    requires { code < length numbers.now }
    ensures { result ≡ slice_get rows.now (slice_index numbers.now code) }
{
    let number = numbers[usize::from(code)];
    rows.get(usize::from(number)).copied()
}

/// The row that a code is of.
#[inline]
pub fn row_of(code: u8) -> Option<Row>
    ensures row { result ≡ row_of code }
    ensures within { IfSome result (λ row. row.first ≤ code) }
    ensures gives { IfSome result (λ row. row.gives ≤ 1) }
{
    row_in(&ROWS, &ROW_NUMBERS, code)
}

/// The instruction at a place.
pub fn next_instr(code: &[u8], at: usize) -> Result<Instr, InstrFault>
    requires { at < length code.now }
    ensures { result ≡ instr_at code.now at }
{
    match row_of(code[at]) {
        Some(row) => read_row(row, code, at),
        None => Err(InstrFault::Opcode),
    }
}
