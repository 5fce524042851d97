//! Bytes and words in the text of a trace.
ghost use Rattle.std.specs.Prelude.{◌≡◌, ◌<◌, ◌++◌, OnOk};
ghost use Rattle.amqp_script.specs.Hex.{digit_of, hex_of, bytes_text, option_text};

use amqp_text::{Binary, Text};
use std::alloc::AllocError;

fn hex_digit(n: u8) -> u8
    requires { n < 16 }
    ensures { result ≡ digit_of n }
{
    if n < 10 { b'0' + n } else { b'a' + (n - 10) }
}

/// Adds bytes in hexadecimal.
pub fn push_hex(out: &mut Vec<u8>, bytes: &[u8]) -> Result<(), AllocError>
    ensures { OnOk result (out.new.items ≡ out.old.items ++ hex_of bytes.now) }
{
    for byte in bytes {
        let byte = *byte;
        out.push(hex_digit(byte / 16))?;
        out.push(hex_digit(byte % 16))?;
    }
    Ok(())
}

/// Adds `x` and bytes in hexadecimal.
pub fn push_bytes(out: &mut Vec<u8>, bytes: &[u8]) -> Result<(), AllocError>
    ensures { OnOk result (out.new.items ≡ out.old.items ++ bytes_text bytes.now) }
{
    out.extend_from_slice(b"x")?;
    push_hex(out, bytes)?;
    Ok(())
}

/// Adds the bytes, or a sign that there are none.
pub fn push_binary(out: &mut Vec<u8>, bytes: &Option<Binary>) -> Result<(), AllocError>
    ensures { OnOk result (out.new.items ≡ out.old.items ++ option_text bytes.now) }
{
    match bytes {
        Some(bytes) => push_bytes(out, bytes.as_slice()),
        None => push_word(out, b"-"),
    }
}

/// Adds the bytes of a text, or a sign that there is none.
pub fn push_text(out: &mut Vec<u8>, text: &Option<Text>) -> Result<(), AllocError>
    ensures { OnOk result (out.new.items ≡ out.old.items ++ option_text text.now) }
{
    match text {
        Some(text) => push_bytes(out, text.as_bytes()),
        None => push_word(out, b"-"),
    }
}

/// Adds a word as it is.
pub fn push_word(out: &mut Vec<u8>, word: &[u8]) -> Result<(), AllocError>
    ensures { OnOk result (out.new.items ≡ out.old.items ++ word.now) }
{
    out.extend_from_slice(word)?;
    Ok(())
}

/// Adds two words, one behind the other.
pub fn push_words(out: &mut Vec<u8>, first: &[u8], second: &[u8]) -> Result<(), AllocError>
    ensures { OnOk result (out.new.items ≡ out.old.items ++ (first.now ++ second.now)) }
{
    out.extend_from_slice(first)?;
    out.extend_from_slice(second)?;
    Ok(())
}

/// Adds a word, `x` and bytes in hexadecimal.
pub fn push_named(out: &mut Vec<u8>, name: &[u8], bytes: &[u8]) -> Result<(), AllocError>
    ensures { OnOk result (out.new.items ≡ out.old.items ++ (name.now ++ bytes_text bytes.now)) }
{
    out.extend_from_slice(name)?;
    push_bytes(out, bytes)?;
    Ok(())
}
