//! Bytes in hexadecimal, with any white space.
ghost use Rattle.std.specs.Prelude.{◌≡◌, IfOk};
ghost use Rattle.amqp_decoder.specs.Digits.{is_space, without_spaces};

use std::alloc::{AllocError, Global};

fn is_space_byte(byte: u8) -> bool
    ensures { result ≡ is_space byte }
{
    byte == b' ' || byte == b'\t' || byte == b'\n' || byte == b'\r'
}

/// The text without its white space.
pub fn digits_of(alloc: Global, text: &[u8]) -> Result<Vec<u8>, AllocError>
    ensures { IfOk result (λ digits. digits.items ≡ without_spaces text.now) }
{
    let mut digits = Vec::new(alloc);
    for byte in text {
        if !is_space_byte(*byte) {
            digits.push(*byte)?;
        }
    }
    Ok(digits)
}
