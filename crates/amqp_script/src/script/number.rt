//! Numbers in decimal.
ghost use Rattle.std.specs.Prelude.{◌≡◌};
ghost use Rattle.std.specs.Char.{is_ascii_digit};
ghost use Rattle.std.specs.List.{list_all};
ghost use Rattle.amqp_script.specs.Number.{is_decimal as decimal_test, number_in};

use std::str;

fn all_digits(digits: &[u8]) -> bool
    ensures { result ≡ list_all is_ascii_digit digits.now }
{
    digits.iter().all(|digit| digit.is_ascii_digit())
}

/// Whether the bytes are decimal digits without leading zeros.
pub fn is_decimal(digits: &[u8]) -> bool
    ensures { result ≡ decimal_test digits.now }
{
    all_digits(digits) && (digits.len() == 1 || (digits.len() > 1 && digits[0] != b'0'))
}

/// The number that the digits write, where it is at most `most`.
pub fn number(most: u64, digits: &[u8]) -> Option<u64>
    ensures { result ≡ number_in most digits.now }
{
    if !is_decimal(digits) {
        return None;
    }
    let Ok(text) = str::from_utf8(digits) else {
        return None;
    };
    let Ok(value) = text.parse::<u64>() else {
        return None;
    };
    if value <= most { Some(value) } else { None }
}
