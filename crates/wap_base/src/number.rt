//! Numbers of one byte and of several, read at a place and written at an end.
ghost use Rattle.std.specs.Prelude.{◌≡◌, ℕ, ◌+◌, ◌<◌, ◌≤◌, ◌↔◌, ◌++◌, length, drop};
ghost use Rattle.std.specs.Prelude.{slice_index, Ok, Err, OnOk, OnErr, IfOk};
ghost use Rattle.wap_base.specs.Numbers.{ReadsMb, EndsInside, IsTooLong};
ghost use Rattle.wap_base.specs.Numbers.{IsShortest, mb_at, mb_spelling};
ghost use Rattle.wap_base.specs.declared.number.ReadFault.TheVariants.{Short, TooLong};

use crate::{Bytes, NoMemory};

/// Why no number was read.
#[derive(Clone, Copy, Debug, PartialEq, Eq)]
pub enum ReadFault {
    /// The input ends inside the number; `at` is the input's length.
    Short { at: usize },
    /// Five bytes all carry on, or the fifth ends a value past 2^32 - 1; `at` is the first byte.
    TooLong { at: usize },
}

/// The byte at a place, and the place after it.
pub fn read_u8(bytes: &[u8], at: usize) -> Result<(u8, usize), ReadFault>
    requires { at ≤ length bytes.now }
    ensures found { at < length bytes.now → result ≡ Ok (slice_index bytes.now at, at + 1) }
    ensures short { at ≡ length bytes.now → result ≡ Err (Short at) }
{
    if at == bytes.len() {
        return Err(ReadFault::Short { at });
    }
    Ok((bytes[at], at + 1))
}

/// The multi-byte integer at a place, and the place after it (WAP-192, section 5.1). Spellings
/// that aren't the shortest are read too.
pub fn read_mb(bytes: &[u8], at: usize) -> Result<(u32, usize), ReadFault>
    requires { at ≤ length bytes.now }
    ensures found { IfOk result (λ read. ReadsMb bytes.now at read.0 read.1) }
    ensures only { (number next : ℕ) → ReadsMb bytes.now at number next
        → result ≡ Ok (number, next) }
    ensures short { (place : ℕ)
        → (result ≡ Err (Short place))
        ↔ (EndsInside (drop at bytes.now) × (place ≡ length bytes.now)) }
    ensures too_long { (place : ℕ)
        → (result ≡ Err (TooLong place)) ↔ (IsTooLong (drop at bytes.now) × (place ≡ at)) }
    ensures exact { result ≡ mb_at bytes.now at }
{
    mb_from(bytes, at)
}

/// Reads from the left.
fn mb_from(bytes: &[u8], at: usize) -> Result<(u32, usize), ReadFault>
    requires { at ≤ length bytes.now }
    ensures { result ≡ mb_at bytes.now at }
{
    let mut value: u32 = 0;
    let mut next = at;
    for _ in 0u32..5 {
        let (byte, after) = read_u8(bytes, next)?;
        if value > u32::MAX / 128 {
            return Err(ReadFault::TooLong { at });
        }
        value = value * 128 + u32::from(byte % 128);
        next = after;
        if byte < 128 {
            return Ok((value, next));
        }
    }
    Err(ReadFault::TooLong { at })
}

/// Appends the shortest spelling of a number. When out of memory nothing is added.
pub fn write_mb(out: &mut Bytes, number: u32) -> Result<(), NoMemory>
    ensures ok { OnOk result (out.new ≡ out.old ++ mb_spelling number) }
    ensures shortest { IsShortest (mb_spelling number) number }
    ensures err { OnErr result (out.new ≡ out.old) }
{
    let mut groups = [(number % 128) as u8; 5];
    let mut start = 4;
    let mut rest = number / 128;
    while rest > 0 {
        start -= 1;
        groups[start] = 128 + (rest % 128) as u8;
        rest /= 128;
    }
    out.add(&groups[start..])
}
