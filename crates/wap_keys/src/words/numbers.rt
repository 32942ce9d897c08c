//! The numbers of words: their ranges, and what they are where none is given.
ghost use Rattle.std.specs.Prelude.{◌≡◌, ◌≤◌, option_map, IfSome};
ghost use Rattle.wap_keys.specs.words.Commands.{number_of};

use crate::decimal_of;

/// What the first random number hangs on, where nothing else is chosen.
pub const DEFAULT_SEED: u32 = 0;

/// The fewest turns that a key may have.
pub const LEAST_BUDGET: u32 = 1;

/// The turns that a key has, where nothing else is chosen.
pub const DEFAULT_BUDGET: u32 = 100_000;

/// The fewest pages that may be kept.
pub const LEAST_CACHE: u32 = 1;

/// The most pages that may be kept.
pub const MOST_CACHE: u32 = 256;

/// How many pages are kept, where nothing else is chosen.
pub const DEFAULT_CACHE: u32 = 16;

/// The fewest workers that may share the pages of a folder.
pub const LEAST_WORKERS: u8 = 1;

/// The most workers that may share the pages of a folder.
pub const MOST_WORKERS: u8 = 64;

/// How many workers share them, where nothing else is chosen.
pub const DEFAULT_WORKERS: u8 = 4;

/// A number in its range, or what it is where none is given.
pub(crate) fn number_of(
    digits: Option<&str>,
    least: u32,
    greatest: u32,
    default: u32,
) -> Option<u32>
    requires some { least ≤ default }
    requires few { default ≤ greatest }
    ensures is { result ≡ number_of least greatest default (option_map
        (λ digits. digits.now) digits.entry) }
    ensures some { IfSome result (λ number. least ≤ number) }
    ensures few { IfSome result (λ number. number ≤ greatest) }
{
    let Some(digits) = digits else {
        return Some(default);
    };
    let number = decimal_of(digits.as_bytes(), greatest)?;
    if number < least {
        return None;
    }
    Some(number)
}

/// The same, of one byte.
pub(crate) fn byte_of(digits: Option<&str>, least: u8, greatest: u8, default: u8) -> Option<u8>
    requires some { least ≤ default }
    requires few { default ≤ greatest }
    ensures is { result ≡ number_of least greatest default (option_map
        (λ digits. digits.now) digits.entry) }
    ensures some { IfSome result (λ number. least ≤ number) }
    ensures few { IfSome result (λ number. number ≤ greatest) }
{
    match number_of(
        digits,
        u32::from(least),
        u32::from(greatest),
        u32::from(default),
    ) {
        Some(number) => Some(number as u8),
        None => None,
    }
}
