//! Texts with escapes.
ghost use Rattle.std.specs.Prelude.{◌≡◌, ◌<◌, ◌≤◌, length, drop, Some, None, MatchOption, IfOk, IsErrOf};
ghost use Rattle.amqp_script.specs.Escape.{byte_of, hex_value as hex_value_of, is_plain as plain_test, onto, unescaped};

use crate::script::line_error::LineError;
use std::alloc::Global;

/// The value of a hexadecimal digit in either case.
fn hex_value(digit: u8) -> Option<u8>
    ensures { result ≡ hex_value_of digit }
{
    match digit {
        b'0'..=b'9' => Some(digit - b'0'),
        b'A'..=b'F' => Some(digit - b'A' + 10),
        b'a'..=b'f' => Some(digit - b'a' + 10),
        _ => None,
    }
}

/// The byte of two hexadecimal digits.
fn escaped(high: u8, low: u8) -> Option<u8>
    ensures { result ≡ byte_of (hex_value_of high) (hex_value_of low) }
{
    let high = hex_value(high)?;
    let low = hex_value(low)?;
    Some(16 * high + low)
}

/// Whether a byte stands for itself.
fn is_plain(byte: u8) -> bool
    ensures { result ≡ plain_test byte }
{
    byte >= 0x21 && byte <= 0x7e && byte != b'%'
}

/// The first byte that a text says, and how many bytes say it.
fn unit(text: &[u8]) -> Option<(u8, usize)>
    requires { 0 < length text.now }
    ensures size { MatchOption result (Unit {0}) (λ u. (0 < u.1) × (u.1 ≤ length text.now)) }
    ensures byte { MatchOption result (unescaped text.now ≡ None)
        (λ u. unescaped text.now ≡ onto (Some u.0) (unescaped (drop u.1 text.now))) }
{
    if text[0] == b'%' {
        if text.len() < 3 {
            return None;
        }
        let byte = escaped(text[1], text[2])?;
        Some((byte, 3))
    } else if is_plain(text[0]) {
        Some((text[0], 1))
    } else {
        None
    }
}

/// The bytes that a text says.
pub fn unescape(alloc: Global, text: &[u8]) -> Result<Vec<u8>, LineError>
    ensures ok { IfOk result (λ bytes. unescaped text.now ≡ Some bytes.items) }
    ensures outside { IsErrOf result LineError.Outside → unescaped text.now ≡ None }
{
    let mut bytes = Vec::new(alloc);
    let mut rest = text;
    'units: while !rest.is_empty() {
        let Some((byte, size)) = unit(rest) else {
            return Err(LineError::Outside);
        };
        bytes.push(byte)?;
        rest = &rest[size..];
    }
    Ok(bytes)
}
