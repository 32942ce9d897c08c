//! Strings (WAP-193, section 6.1.5.3).
ghost use Rattle.std.specs.Prelude.{◌≡◌, ◌+◌, ◌≤◌, length};
ghost use Rattle.wap_lex.specs.Calculation.{item_len, escape_len, unicode_len, items_len, string_len};

use crate::class::{Class, run_len};

/// How many bytes the string at the beginning has, 0 where none begins that ends.
pub(crate) fn string_len(bytes: &[u8]) -> usize
    ensures string { result ≡ string_len bytes.now }
    ensures within { result ≤ length bytes.now }
{
    match bytes {
        [quote @ (b'\'' | b'"'), inside @ ..] => {
            let items = items_len(*quote, inside);
            match &inside[items..] {
                [end, ..] if end == quote => 1 + items + 1,
                _ => 0,
            }
        }
        _ => 0,
    }
}

/// How many bytes the characters and escapes at the beginning have, before anything else.
pub(crate) fn items_len(quote: u8, bytes: &[u8]) -> usize
    ensures items { result ≡ items_len (length bytes.now) quote bytes.now }
    ensures within { result ≤ length bytes.now }
{
    let mut rest = bytes;
    for _ in 0..bytes.len() {
        let item = item_len(quote, rest);
        if item == 0 {
            return bytes.len() - rest.len();
        }
        let (_, behind) = rest.split_at(item);
        rest = behind;
    }
    bytes.len() - rest.len()
}

/// How many bytes the character or escape at the beginning has, 0 where none begins.
fn item_len(quote: u8, bytes: &[u8]) -> usize
    ensures item { result ≡ item_len quote bytes.now }
    ensures within { result ≤ length bytes.now }
{
    match bytes {
        [] => 0,
        [b'\\', rest @ ..] => {
            let escape = escape_len(rest);
            if escape == 0 { 0 } else { 1 + escape }
        }
        [first, ..] => {
            if *first == quote || matches!(first, b'\n' | b'\r') {
                0
            } else {
                1
            }
        }
    }
}

/// How many bytes the escape at the beginning has after its backslash, 0 where none begins.
fn escape_len(bytes: &[u8]) -> usize
    ensures escape { result ≡ escape_len bytes.now }
    ensures within { result ≤ length bytes.now }
{
    match bytes {
        [
            b'\'' | b'"' | b'\\' | b'/' | b'b' | b'f' | b'n' | b'r' | b't' | b'0'..=b'7',
            ..
        ] => 1,
        [b'x', digits @ ..] => {
            if run_len(Class::HexadecimalDigit, digits) < 2 {
                0
            } else {
                3
            }
        }
        [b'u', digits @ ..] => unicode_len(digits),
        _ => 0,
    }
}

/// The same of an escape by four digits, after its `u`.
fn unicode_len(bytes: &[u8]) -> usize
    ensures unicode { result ≡ unicode_len bytes.now }
    ensures within { result ≤ length bytes.now + 1 }
{
    match bytes {
        [b'D' | b'd', b'8' | b'9' | b'A'..=b'F' | b'a'..=b'f', ..] => 0,
        [_, _, ..] => {
            if run_len(Class::HexadecimalDigit, bytes) < 4 {
                0
            } else {
                5
            }
        }
        _ => 0,
    }
}
