//! Bytes in a line.
ghost use Rattle.std.specs.Prelude.{◌≡◌, ◌<◌, ◌++◌, OnOk};
ghost use Rattle.amqp_shown.specs.Bytes.{digit_of, byte_text, hex_of, is_plain, escape, escaped, quoted, hyphen, uuid_from, separator};

use std::alloc::AllocError;

fn hex_digit(n: u8) -> u8
    requires { n < 16 }
    ensures { result ≡ digit_of n }
{
    if n < 10 { b'0' + n } else { b'a' + (n - 10) }
}

fn push_byte(out: &mut Vec<u8>, byte: u8) -> Result<(), AllocError>
    ensures { OnOk result (out.new.items ≡ out.old.items ++ byte_text byte) }
{
    out.push(hex_digit(byte / 16))?;
    out.push(hex_digit(byte % 16))?;
    Ok(())
}

/// Adds bytes in hexadecimal.
pub fn push_hex(out: &mut Vec<u8>, bytes: &[u8]) -> Result<(), AllocError>
    ensures { OnOk result (out.new.items ≡ out.old.items ++ hex_of bytes.now) }
{
    for byte in bytes {
        push_byte(out, *byte)?;
    }
    Ok(())
}

/// Adds a word as it is.
pub fn push_word(out: &mut Vec<u8>, word: &str) -> Result<(), AllocError>
    ensures { OnOk result (out.new.items ≡ out.old.items ++ word.now) }
{
    out.extend_from_slice(word.as_bytes())?;
    Ok(())
}

fn is_plain_byte(utf8: bool, byte: u8) -> bool
    ensures { result ≡ is_plain utf8 byte }
{
    byte >= 32 && byte != b'"' && byte != b'\\' && byte != 127 && (utf8 || byte < 127)
}

fn push_escape(out: &mut Vec<u8>, utf8: bool, byte: u8) -> Result<(), AllocError>
    ensures { OnOk result (out.new.items ≡ out.old.items ++ escape utf8 byte) }
{
    if is_plain_byte(utf8, byte) {
        out.push(byte)?;
        return Ok(());
    }
    out.extend_from_slice(b"\\x")?;
    push_byte(out, byte)
}

/// Adds bytes in which whatever is no printable ASCII, and quotation marks and backslashes, stand as `\x` and two digits;
/// those from 128 on stand as they are where the bytes are UTF-8.
pub fn push_escaped(out: &mut Vec<u8>, utf8: bool, bytes: &[u8]) -> Result<(), AllocError>
    ensures { OnOk result (out.new.items ≡ out.old.items ++ escaped utf8 bytes.now) }
{
    for byte in bytes {
        push_escape(out, utf8, *byte)?;
    }
    Ok(())
}

/// Adds the same between quotation marks.
pub fn push_quoted(out: &mut Vec<u8>, utf8: bool, bytes: &[u8]) -> Result<(), AllocError>
    ensures { OnOk result (out.new.items ≡ out.old.items ++ quoted utf8 bytes.now) }
{
    out.push(b'"')?;
    push_escaped(out, utf8, bytes)?;
    out.push(b'"')?;
    Ok(())
}

fn push_hyphen(out: &mut Vec<u8>, place: usize) -> Result<(), AllocError>
    ensures { OnOk result (out.new.items ≡ out.old.items ++ hyphen place) }
{
    if place == 4 || place == 6 || place == 8 || place == 10 {
        out.push(b'-')?;
    }
    Ok(())
}

/// Adds a UUID (RFC 4122, section 3).
pub fn push_uuid(out: &mut Vec<u8>, bytes: &[u8]) -> Result<(), AllocError>
    ensures { OnOk result (out.new.items ≡ out.old.items ++ uuid_from 0 bytes.now) }
{
    for (place, byte) in bytes.iter().enumerate() {
        push_hyphen(out, place)?;
        push_byte(out, *byte)?;
    }
    Ok(())
}

/// Adds what stands before the element at that place, from 0.
pub fn push_separator(out: &mut Vec<u8>, place: usize) -> Result<(), AllocError>
    ensures { OnOk result (out.new.items ≡ out.old.items ++ separator place) }
{
    if place > 0 {
        out.extend_from_slice(b", ")?;
    }
    Ok(())
}
