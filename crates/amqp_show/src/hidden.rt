//! A line of a script without its passwords.
ghost use Rattle.std.specs.Prelude.{◌≡◌, ◌++◌, OnOk, IfOk};
ghost use Rattle.amqp_show.specs.Hidden.{next_read, unhidden, hidden_from, hidden};

use amqp_shown::bytes::push_word;
use std::alloc::AllocError;

/// How much of ` pass=` has been read that makes the bytes behind it a password.
const ALL_READ: u8 = 6;

/// How much of ` pass=` is read with a byte more.
fn read_on(read: u8, byte: u8) -> u8
    ensures { result ≡ next_read read byte }
{
    match byte {
        b' ' => 1,
        b'p' if read == 1 => 2,
        b'a' if read == 2 => 3,
        b's' if read == 3 => 4,
        b's' if read == 4 => 5,
        b'=' if read == 5 => ALL_READ,
        _ => 0,
    }
}

/// Adds a byte that is shown, and `***` behind the last of ` pass=`.
fn push_byte(out: &mut Vec<u8>, byte: u8, read: u8) -> Result<(), AllocError>
    ensures { OnOk result (out.new.items ≡ out.old.items ++ unhidden byte read) }
{
    out.push(byte)?;
    if read == ALL_READ {
        push_word(out, "***")?;
    }
    Ok(())
}

/// Adds a line in which the value of each argument `pass` is `***`.
pub fn push_hidden(out: &mut Vec<u8>, line: &[u8]) -> Result<(), AllocError>
    ensures { OnOk result (out.new.items ≡ out.old.items ++ hidden line.now) }
{
    let mut read = 0u8;
    for byte in line {
        if read != ALL_READ || *byte == b' ' {
            read = read_on(read, *byte);
            push_byte(out, *byte, read)?;
        }
    }
    Ok(())
}
