//! The time at which an indication was made.
ghost use Rattle.std.specs.Prelude.{◌≡◌, ◌≤◌, get_or};
ghost use Rattle.std.specs.List.{list_all};
ghost use Rattle.wap_push.specs.Fields.{is_pair, is_time, pair, digits_of, time_of, time_in};

use wap_tokens::markup::Piece;

/// Whether a byte is two decimal digits.
fn is_pair(byte: u8) -> bool
    ensures { result ≡ is_pair byte }
{
    byte / 16 <= 9 && byte % 16 <= 9
}

/// Whether each byte is two decimal digits.
fn are_pairs(bytes: &[u8]) -> bool
    ensures { result ≡ list_all is_pair bytes.now }
{
    bytes.iter().all(|byte| is_pair(*byte))
}

/// Whether bytes are a time.
fn is_time(bytes: &[u8]) -> bool
    ensures { result ≡ is_time bytes.now }
{
    1 <= bytes.len() && bytes.len() <= 7 && are_pairs(bytes)
}

/// The number of the two digits at a place; those that are missing are zeros.
fn pair_at(bytes: &[u8], place: usize) -> u64
    ensures pair { result ≡ pair (get_or bytes.now place 0) }
    ensures small { result ≤ 165 }
{
    match bytes.get(place) {
        Some(byte) => u64::from(*byte / 16) * 10 + u64::from(*byte % 16),
        None => 0,
    }
}

/// The number of seven pairs of digits.
fn digits_of(bytes: &[u8]) -> u64
    ensures { result ≡ digits_of bytes.now 7 }
{
    let year = pair_at(bytes, 0) * 100 + pair_at(bytes, 1);
    let day = (year * 100 + pair_at(bytes, 2)) * 100 + pair_at(bytes, 3);
    let minute = (day * 100 + pair_at(bytes, 4)) * 100 + pair_at(bytes, 5);
    minute * 100 + pair_at(bytes, 6)
}

/// The time that bytes say, if they are one.
fn time_of(bytes: &[u8]) -> Option<u64>
    ensures { result ≡ time_of bytes.now }
{
    if is_time(bytes) {
        Some(digits_of(bytes))
    } else {
        None
    }
}

/// The time that a value says, if it is one.
pub(crate) fn time_in(value: &[Piece]) -> Option<u64>
    ensures { result ≡ time_in value.now }
{
    match value {
        [Piece::Opaque(bytes)] => time_of(bytes.as_slice()),
        _ => None,
    }
}
