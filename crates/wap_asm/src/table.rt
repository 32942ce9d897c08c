//! How operations are spelled, by the table of instructions.
ghost use Rattle.std.specs.Prelude.{◌≡◌, ◌+◌, ◌-◌, ◌<◌, ◌≤◌, min, length, find, filter};
ghost use Rattle.std.specs.Prelude.{slice_get, slice_range, IfSome};
ghost use Rattle.std.specs.List.{last_or};
ghost use Rattle.wap_asm.specs.Spelling.{limit, is_spelling, shortest};
ghost use Rattle.wap_asm.specs.Spellings.{operation_of, is_of, longest, spelling_of, row_size};

use crate::instruction::size;
use wap_unit::{OpName, ROWS, Row, Slot};

/// Past the greatest operand that has room.
fn limit(count: u8, slot: Slot) -> u32
    ensures { result ≡ limit count slot }
{
    match slot {
        Slot::Absent => 1,
        Slot::Low => u32::from(count),
        Slot::Byte => 256,
        Slot::Word => 65536,
    }
}

/// Whether a row spells an operation with these operands.
fn is_spelling(operation: OpName, a: u32, b: u32, c: u32, row: Row) -> bool
    ensures { result ≡ is_spelling operation a b c row }
{
    row.operation == operation
        && a < limit(row.count, row.a)
        && b < limit(row.count, row.b)
        && c < limit(row.count, row.c)
}

fn operation_in(rows: &[Row], number: usize) -> OpName
    requires { number < length rows.now }
    ensures { IfSome (slice_get rows.now number) (λ row. result ≡ row.operation) }
{
    rows[number].operation
}

/// The operation that a name spells: rows stand in the order of their names.
pub(crate) fn operation_of(name: OpName) -> OpName
    ensures { result ≡ operation_of name }
{
    operation_in(&ROWS, name as usize)
}

/// The row of an operation's own name, with that before it and that after it: no operation is
/// spelled by others.
fn rows_near(rows: &[Row], number: usize) -> &[Row]
    requires { number < length rows.now }
    ensures { result.now
        ≡ slice_range rows.now (number - 1) (min (length rows.now) (number + 2)) }
{
    &rows[number.saturating_sub(1)..rows.len().min(number + 2)]
}

fn shortest_in(rows: &[Row], operation: OpName, a: u32, b: u32, c: u32) -> Option<Row>
    ensures { result ≡ find (is_spelling operation a b c) rows.now }
{
    rows.iter()
        .copied()
        .find(|row| is_spelling(operation, a, b, c, *row))
}

/// The shortest spelling of an operation that has room for these operands.
fn shortest(operation: OpName, a: u32, b: u32, c: u32) -> Option<Row>
    ensures { result ≡ shortest operation a b c }
{
    shortest_in(rows_near(&ROWS, operation as usize), operation, a, b, c)
}

fn longest_in(rows: &[Row], operation: OpName) -> Option<Row>
    ensures { result ≡ last_or None (filter (is_of operation) rows.now) }
{
    let mut i = rows.len();
    while i > 0 {
        i -= 1;
        if rows[i].operation == operation {
            return Some(rows[i]);
        }
    }
    None
}

/// The longest spelling of an operation.
#[tactic(auto, unfolding(crate::specs::Spellings::longest))]
pub(crate) fn longest(operation: OpName) -> Option<Row>
    ensures { result ≡ longest operation }
{
    longest_in(rows_near(&ROWS, operation as usize), operation)
}

/// The spelling that an operation with these operands takes.
#[tactic(auto, unfolding(crate::specs::Spellings::spelling_of))]
pub(crate) fn spelling_of(operation: OpName, a: u32, b: u32, c: u32) -> Option<Row>
    ensures { result ≡ spelling_of operation a b c }
{
    match shortest(operation, a, b, c) {
        Some(row) => Some(row),
        None => longest(operation),
    }
}

/// How many bytes a spelling has.
#[tactic(auto, using(crate::proofs::SpellingLaws::size_small))]
pub(crate) fn row_size(row: Option<Row>) -> usize
    ensures size { result ≡ row_size row }
    ensures few { result ≤ 7 }
{
    match row {
        Some(row) => size(row),
        None => 0,
    }
}
