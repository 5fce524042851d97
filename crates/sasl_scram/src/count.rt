//! The iteration count of a SCRAM text.

ghost use Rattle.std.specs.Prelude.{◌≡◌, ℕ, ◌<◌, ◌^◌, ◌↔◌, IsTrue, IfSome, IfNone, decimal};
ghost use Rattle.sasl_scram.specs.Texts.{IsCount};

use itoa::Buffer;
use std::str;

/// The greatest iteration count that is taken.
pub const MAX_COUNT: u32 = 10_000_000;

// The number that the digits write, where they are as `{}` writes it.
fn number_of(digits: &[u8]) -> Option<u32>
    ensures { (n : ℕ) → n < 2 ^ 32 → digits.now ≡ decimal n → result ≡ Some n }
{
    match str::from_utf8(digits) {
        Ok(text) => text.parse::<u32>().ok(),
        Err(_) => None,
    }
}

// Whether the digits are as `{}` writes the number.
fn is_decimal(digits: &[u8], number: u32) -> bool
    ensures { IsTrue result ↔ (digits.now ≡ decimal number) }
{
    let mut buffer = Buffer::new();
    buffer.format(number).as_bytes() == digits
}

/// Reads an iteration count: decimal, without a leading zero, 1 to 10,000,000.
pub fn read_count(digits: &[u8]) -> Option<u32>
    ensures found { IfSome result (λ n. IsCount digits.now n) }
    ensures missing { IfNone result ((n : ℕ) → ¬ IsCount digits.now n) }
{
    match number_of(digits) {
        Some(count) if count >= 1 && count <= MAX_COUNT && is_decimal(digits, count) => Some(count),
        _ => None,
    }
}
