//! The rule by which messages are made.
ghost use Rattle.std.specs.Prelude.{◌≡◌, ◌≤◌, ◌<◌, IfOk};
ghost use Rattle.amqp_gen.specs.Rule.{advanced, body_length, message_of};

use bytes::Bytes;
use std::alloc::{AllocError, Global};

/// The factor of the rule.
const FACTOR: u64 = 6_364_136_223_846_793_005;

/// What the rule adds.
const ADDEND: u64 = 1_442_695_040_888_963_407;

/// The next number of the rule, modulo 2^64.
pub fn advanced(x: u64) -> u64
    ensures { result ≡ advanced x }
{
    x.wrapping_mul(FACTOR).wrapping_add(ADDEND)
}

/// The length in bytes of the body that a number of the rule stands for.
pub fn body_length(x: u64) -> u16
    ensures length { result ≡ body_length x }
    ensures below { result < 1000 }
{
    ((x >> 33) % 1000) as u16
}

/// The bytes of a message with one section of data (OASIS AMQP 1.0, part 3, section 3.2.6), of that many bytes 61.
pub fn message(alloc: Global, length: u16) -> Result<Bytes, AllocError>
    ensures { IfOk result (λ m. m ≡ message_of length) }
{
    let mut bytes = Vec::new(alloc);
    bytes.extend_from_slice(&[0x00, 0x53, 0x75])?;
    let [high, low] = length.to_be_bytes();
    if high == 0 {
        bytes.extend_from_slice(&[0xa0, low])?;
    } else {
        bytes.extend_from_slice(&[0xb0, 0, 0, high, low])?;
    }
    let body = vec![in alloc; b'a'; length as usize]?;
    bytes.extend_from_slice(body.as_slice())?;
    let message = Bytes::from_vec(bytes)?;
    Ok(message)
}
