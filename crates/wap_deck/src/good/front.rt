//! What bytes begin with.
ghost use Rattle.std.specs.Prelude.{◌≡◌, drop};
ghost use Rattle.wap_deck.specs.good.Readers.{Reads, first_of, number_at, ended_at, behind_zero};
ghost use Rattle.wap_deck.specs.good.Readers.{is_end};

use memchr::memchr;
use wap_base::read_mb;
use wap_tokens::markup::END;

/// The first byte, and those after it.
pub(crate) fn first(bytes: &[u8]) -> Option<(u8, &[u8])>
    ensures { Reads (λ read. (read.0, read.1.now)) result (first_of bytes.now) }
{
    match bytes {
        [first, rest @ ..] => Some((*first, rest)),
        [] => None,
    }
}

/// A number, and the bytes after it.
#[tactic(auto, unfolding(crate::specs::good::Readers::number_at))]
pub(crate) fn number(bytes: &[u8]) -> Option<(u32, &[u8])>
    ensures { Reads (λ read. (read.0, read.1.now)) result (number_at bytes.now) }
{
    match read_mb(bytes, 0) {
        Ok((number, next)) => Some((number, &bytes[next..])),
        Err(_) => None,
    }
}

/// The bytes up to the first 0, and those after it.
#[tactic(auto, unfolding(crate::specs::good::Readers::ended_at))]
pub(crate) fn split_at_zero(bytes: &[u8]) -> Option<(&[u8], &[u8])>
    ensures { Reads (λ read. (read.0.now, read.1.now)) result (ended_at bytes.now) }
{
    match memchr(0, bytes) {
        Some(at) => Some((&bytes[..at], &bytes[at + 1..])),
        None => None,
    }
}

/// What follows the first 0; nothing where there is none.
pub(crate) fn after_zero(bytes: &[u8]) -> &[u8]
    ensures { result.now ≡ behind_zero bytes.now }
{
    match memchr(0, bytes) {
        Some(at) => &bytes[at + 1..],
        None => &[],
    }
}

/// What follows the first byte; nothing where there is none.
pub(crate) fn after_first(bytes: &[u8]) -> &[u8]
    ensures { result.now ≡ drop 1 bytes.now }
{
    match bytes {
        [_, rest @ ..] => rest,
        [] => &[],
    }
}

/// Whether nothing follows, or an end.
pub(crate) fn is_end(bytes: &[u8]) -> bool
    ensures { result ≡ is_end bytes.now }
{
    match bytes {
        [first, ..] => *first == END,
        [] => true,
    }
}
