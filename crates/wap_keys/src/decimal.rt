//! Decimal numbers.
ghost use Rattle.std.specs.Prelude.{◌≡◌, ◌≤◌, true, length, IfSome};
ghost use Rattle.std.specs.List.{list_all};
ghost use Rattle.std.specs.Char.{is_ascii_digit};
ghost use Rattle.std.specs.Str.Parse.{digits_value};
ghost use Rattle.wap_keys.specs.Decimal.{decimal_of};

/// The number that one to ten digits write, where it isn't past the greatest.
pub fn decimal_of(digits: &[u8], greatest: u32) -> Option<u32>
    ensures is { result ≡ decimal_of greatest digits.now }
    ensures small { IfSome result (λ number. number ≤ greatest) }
{
    if digits.is_empty() || digits.len() > 10 || !are_digits(digits) {
        return None;
    }
    let number = number_of(digits);
    if number <= u64::from(greatest) {
        Some(number as u32)
    } else {
        None
    }
}

fn are_digits(bytes: &[u8]) -> bool
    ensures { result ≡ list_all is_ascii_digit bytes.now }
{
    bytes.iter().all(|byte| byte.is_ascii_digit())
}

/// The number that at most ten digits write.
fn number_of(digits: &[u8]) -> u64
    requires digits { list_all is_ascii_digit digits.now ≡ true }
    requires short { length digits.now ≤ 10 }
    ensures { result ≡ digits_value 10 digits.now }
{
    let mut number = 0;
    for digit in digits {
        number = number * 10 + u64::from(*digit - b'0');
    }
    number
}
