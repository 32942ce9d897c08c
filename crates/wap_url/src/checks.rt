//! Whether the parts of a URL are what they may be.
ghost use Rattle.std.specs.Prelude.{◌≡◌, ◌≤◌, length, true, ℕ};
ghost use Rattle.std.specs.List.{list_all};
ghost use Rattle.std.specs.Char.{is_ascii_digit, is_ascii_alphabetic};
ghost use Rattle.wap_base.specs.Cuts.{begins_with};
ghost use Rattle.std.specs.Str.Parse.{digits_value};
ghost use Rattle.wap_url.specs.Characters.{is_scheme, is_scheme_character};
ghost use Rattle.wap_url.specs.Characters.{is_host, is_host_character};
ghost use Rattle.wap_url.specs.UrlParts.{is_port};
ghost use Rattle.wap_url.specs.Calculation.{fault_of};
ghost use Rattle.wap_url.specs.inside.Slices.{parts_in};

use crate::UrlFault;
use crate::parts::Slices;

/// The first fault of what stands before the fragment, in the order of scheme, host and port.
pub(crate) fn fault_in(slices: &Slices<'_>) -> Option<UrlFault>
    ensures { result ≡ fault_of (parts_in slices.now None) }
{
    if slices.scheme.is_some_and(|scheme| !is_scheme(scheme)) {
        Some(UrlFault::BadScheme)
    } else if slices.host.is_some_and(|host| !is_host(host)) {
        Some(UrlFault::BadHost)
    } else if slices.port.is_some_and(|port| !is_port(port)) {
        Some(UrlFault::BadPort)
    } else {
        None
    }
}

fn is_scheme(scheme: &[u8]) -> bool
    ensures { result ≡ is_scheme scheme.now }
{
    begins_with_letter(scheme) && all_scheme_bytes(scheme)
}

fn begins_with_letter(bytes: &[u8]) -> bool
    ensures { result ≡ begins_with is_ascii_alphabetic bytes.now }
{
    match bytes {
        [] => false,
        [first, ..] => first.is_ascii_alphabetic(),
    }
}

fn all_scheme_bytes(bytes: &[u8]) -> bool
    ensures { result ≡ list_all is_scheme_character bytes.now }
{
    bytes.iter().all(|byte| is_scheme_byte(*byte))
}

fn is_scheme_byte(byte: u8) -> bool
    ensures { result ≡ is_scheme_character byte }
{
    byte.is_ascii_alphanumeric() || byte == b'+' || byte == b'-' || byte == b'.'
}

fn is_host(host: &[u8]) -> bool
    ensures { result ≡ is_host host.now }
{
    !host.is_empty() && all_host_bytes(host)
}

fn all_host_bytes(bytes: &[u8]) -> bool
    ensures { result ≡ list_all is_host_character bytes.now }
{
    bytes.iter().all(|byte| is_host_byte(*byte))
}

fn is_host_byte(byte: u8) -> bool
    ensures { result ≡ is_host_character byte }
{
    byte.is_ascii_alphanumeric() || byte == b'-' || byte == b'.'
}

fn is_port(digits: &[u8]) -> bool
    ensures { result ≡ is_port digits.now }
{
    if !all_digits(digits) || digits.len() > 5 {
        return false;
    }
    number_of(digits) <= 65535
}

fn all_digits(bytes: &[u8]) -> bool
    ensures { result ≡ list_all is_ascii_digit bytes.now }
{
    bytes.iter().all(|byte| byte.is_ascii_digit())
}

/// The number that at most five digits write.
pub(crate) fn number_of(digits: &[u8]) -> u32
    requires digits { list_all is_ascii_digit digits.now ≡ true }
    requires short { length digits.now ≤ 5 }
    ensures { result ≡ digits_value 10 digits.now }
{
    let mut number = 0;
    for digit in digits {
        number = number * 10 + u32::from(*digit - b'0');
    }
    number
}
