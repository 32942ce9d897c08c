//! Numbers (WAP-193, sections 6.1.5.1 and 6.1.5.2).
ghost use Rattle.std.specs.Prelude.{◌≡◌, ◌≤◌, length, Some, None};
ghost use Rattle.wap_lex.specs.Numbers.{integer_value, numeral, digit_value};
ghost use Rattle.wap_lex.specs.Calculation.{integer_len, hexadecimal_len, float_len};
ghost use Rattle.wap_lex.specs.Calculation.{exponent_len, signed_len, small};

use crate::class::{Class, run_len};

/// How many bytes the integer at the beginning has, 0 where none begins.
pub(crate) fn integer_len(bytes: &[u8]) -> usize
    ensures integer { result ≡ integer_len bytes.now }
    ensures within { result ≤ length bytes.now }
{
    match bytes {
        [b'0', rest @ ..] => {
            let hexadecimal = hexadecimal_len(rest);
            if hexadecimal == 0 {
                1 + run_len(Class::OctalDigit, rest)
            } else {
                1 + hexadecimal
            }
        }
        _ => run_len(Class::Digit, bytes),
    }
}

/// The same of what makes a number hexadecimal after its 0: `x`, and digits.
fn hexadecimal_len(bytes: &[u8]) -> usize
    ensures hexadecimal { result ≡ hexadecimal_len bytes.now }
    ensures within { result ≤ length bytes.now }
{
    match bytes {
        [b'x' | b'X', rest @ ..] => {
            let digits = run_len(Class::HexadecimalDigit, rest);
            if digits == 0 { 0 } else { 1 + digits }
        }
        _ => 0,
    }
}

/// How many bytes the float at the beginning has, 0 where none begins.
pub(crate) fn float_len(bytes: &[u8]) -> usize
    ensures float { result ≡ float_len bytes.now }
    ensures within { result ≤ length bytes.now }
{
    let whole = run_len(Class::Digit, bytes);
    match &bytes[whole..] {
        [b'.', rest @ ..] => {
            let fraction = run_len(Class::Digit, rest);
            if whole + fraction == 0 {
                return 0;
            }
            whole + 1 + fraction + exponent_len(&rest[fraction..])
        }
        rest => {
            let exponent = exponent_len(rest);
            if whole == 0 || exponent == 0 {
                0
            } else {
                whole + exponent
            }
        }
    }
}

/// The same of an exponent: `e`, and an integer with a sign or without.
fn exponent_len(bytes: &[u8]) -> usize
    ensures exponent { result ≡ exponent_len bytes.now }
    ensures within { result ≤ length bytes.now }
{
    match bytes {
        [b'e' | b'E', rest @ ..] => {
            let signed = signed_len(rest);
            if signed == 0 { 0 } else { 1 + signed }
        }
        _ => 0,
    }
}

fn signed_len(bytes: &[u8]) -> usize
    ensures signed { result ≡ signed_len bytes.now }
    ensures within { result ≤ length bytes.now }
{
    match bytes {
        [b'+' | b'-', rest @ ..] => {
            let digits = run_len(Class::Digit, rest);
            if digits == 0 { 0 } else { 1 + digits }
        }
        _ => run_len(Class::Digit, bytes),
    }
}

/// The value of an integer, up to 2147483647.
pub fn integer_of(text: &[u8]) -> Option<u32>
    ensures { result ≡ small (integer_value text.now) }
{
    match text {
        [b'0', b'x' | b'X', digits @ ..] => value_of(16, digits),
        [b'0', digits @ ..] => value_of(8, digits),
        _ => value_of(10, text),
    }
}

/// The value of digits in a base, up to 2147483647.
fn value_of(base: u64, digits: &[u8]) -> Option<u32>
    requires low { 2 ≤ base }
    requires high { base ≤ 16 }
    ensures { result ≡ small (numeral base digits.now) }
{
    let mut value: u64 = 0;
    for digit in digits {
        value = value * base + digit_value(*digit);
        if value > 2_147_483_647 {
            return None;
        }
    }
    Some(value as u32)
}

/// The value of a digit.
fn digit_value(digit: u8) -> u64
    ensures value { result ≡ digit_value digit }
    ensures small { result ≤ 255 }
{
    if digit <= b'9' {
        u64::from(digit.saturating_sub(b'0'))
    } else if digit <= b'F' {
        u64::from(digit.saturating_sub(b'A' - 10))
    } else {
        u64::from(digit.saturating_sub(b'a' - 10))
    }
}
