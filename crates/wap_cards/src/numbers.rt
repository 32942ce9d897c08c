//! Numbers that texts write in decimal digits.
ghost use Rattle.std.specs.Prelude.{◌≡◌, ◌-◌, ◌^◌, min, true};
ghost use Rattle.std.specs.Option.{option_map};
ghost use Rattle.std.specs.List.{list_all};
ghost use Rattle.std.specs.Char.{is_ascii_digit};
ghost use Rattle.std.specs.Str.Parse.{digits_value};
ghost use Rattle.wap_cardrules.specs.Values.{number_in};

use wap_base::Text;

fn are_digits(bytes: &[u8]) -> bool
    ensures { result ≡ list_all is_ascii_digit bytes.now }
{
    bytes.iter().all(|byte| byte.is_ascii_digit())
}

/// The number that digits write, or the greatest, where it is past that.
fn number_of(digits: &[u8]) -> u64
    requires { list_all is_ascii_digit digits.now ≡ true }
    ensures { result ≡ min (2 ^ 64 - 1) (digits_value 10 digits.now) }
{
    let mut number = 0u64;
    for digit in digits {
        number = number
            .saturating_mul(10)
            .saturating_add(u64::from(*digit - b'0'));
    }
    number
}

/// The number that decimal digits write, if there is nothing else; one that is too great for its
/// type becomes the greatest.
pub fn number_in(text: &Text) -> Option<u64>
    ensures { result ≡ option_map (min (2 ^ 64 - 1)) (number_in text.now) }
{
    if text.is_empty() {
        return None;
    }
    let digits = text.as_str().as_bytes();
    if are_digits(digits) {
        Some(number_of(digits))
    } else {
        None
    }
}
