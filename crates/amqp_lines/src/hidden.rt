//! What is not shown of a SASL negotiation (OASIS AMQP 1.0, part 5, section 5.3.3): proofs and passwords.
ghost use Rattle.std.specs.Prelude.{◌≡◌, ◌≤◌, ◌++◌, length, OnOk, bytes_eq};
ghost use Rattle.amqp_lines.specs.Hidden.{is_open, init_text, next_read, proof_from, response_text};

use amqp_shown::bytes::{push_escaped, push_word};
use std::alloc::AllocError;

/// Whether two texts have the same bytes.
fn is_text(word: &[u8], text: &[u8]) -> bool
    ensures { result ≡ bytes_eq word.now text.now }
{
    word == text
}

fn is_open_mechanism(mechanism: &[u8]) -> bool
    ensures { result ≡ is_open mechanism.now }
{
    is_text(mechanism, b"SCRAM-SHA-1")
        || is_text(mechanism, b"SCRAM-SHA-256")
        || is_text(mechanism, b"SCRAM-SHA-512")
        || is_text(mechanism, b"ANONYMOUS")
}

/// Adds the first message of a client where the mechanism has none with a secret, else `***`.
pub fn push_init(out: &mut Vec<u8>, mechanism: &[u8], response: &[u8]) -> Result<(), AllocError>
    ensures { OnOk result (out.new.items ≡ out.old.items ++ init_text mechanism.now response.now) }
{
    if is_open_mechanism(mechanism) {
        push_escaped(out, false, response)
    } else {
        push_word(out, "***")
    }
}

fn read_on(read: u8, byte: u8) -> u8
    ensures { result ≡ next_read read byte }
{
    match byte {
        b',' => 1,
        b'p' if read == 1 => 2,
        b'=' if read == 2 => 3,
        _ => 0,
    }
}

/// Where the first `,p=` ends, or 0.
fn proof_place(response: &[u8]) -> usize
    ensures place { result ≡ proof_from 0 0 response.now }
    ensures within { result ≤ length response.now }
{
    let mut read = 0u8;
    for (place, byte) in response.iter().enumerate() {
        read = read_on(read, *byte);
        if read == 3 {
            return place + 1;
        }
    }
    0
}

/// Adds the response of a client up to its proof (RFC 5802, section 5.1), and `***`; `***` alone where it tells of no proof.
pub fn push_response(out: &mut Vec<u8>, response: &[u8]) -> Result<(), AllocError>
    ensures { OnOk result (out.new.items ≡ out.old.items ++ response_text response.now) }
{
    push_escaped(out, false, &response[..proof_place(response)])?;
    push_word(out, "***")
}
