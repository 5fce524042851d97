//! Base64 (RFC 4648, section 4), with padding and canonical.

ghost use Rattle.std.specs.Prelude.{◌≡◌, ◌↔◌, ℕ, ◌≤◌, ◌++◌, List, length, IsTrue, IfOk, IfErr, OnOk};
ghost use Rattle.std.specs.Bool.{OnTrue, OnFalse};
ghost use Rattle.base64.specs.Engines.{standard};
ghost use Rattle.base64.specs.GeneralPurpose.{IsBytes, encode_of};
ghost use Rattle.sasl_scram.specs.Refusals.{IsDecodeRefusal, Spells};

use crate::error::ScramErrorKind;
use amqp_text::Binary;
use base64::DecodeAllocError;
use base64::engine::general_purpose::STANDARD;
use std::alloc::{AllocError, Global};

// The most symbols that 64 bytes are written with.
const MAX_SYMBOLS: usize = 88;

/// The bytes that a base64 text spells: `Base64` exactly where it is none.
pub fn decode(alloc: Global, text: &[u8]) -> Result<Vec<u8>, ScramErrorKind>
    ensures ok { IfOk result (λ v. text.now ≡ encode_of standard v.items) }
    ensures bytes { IfOk result (λ v. IsBytes v.items) }
    ensures err { IfErr result (λ e. IsDecodeRefusal text.now e) }
{
    match STANDARD.decode(alloc, text) {
        Ok(bytes) => Ok(bytes),
        Err(DecodeAllocError::OutOfMemory) => Err(ScramErrorKind::Memory(AllocError)),
        Err(DecodeAllocError::DecodeError(_)) => Err(ScramErrorKind::Base64),
    }
}

/// Reads the base64 of as many bytes as `out` has, 64 at most, into `out`; takes no memory. Whether it is one.
pub fn decode_into(text: &[u8], out: &mut [u8]) -> bool
    requires { length out.old ≤ 64 }
    ensures spelled { OnTrue result (Spells text.now out.new (length out.old)) }
    ensures refused { OnFalse result ((bytes : List ℕ) → ¬ Spells text.now bytes (length out.old)) }
{
    let mut buffer = [0u8; MAX_SYMBOLS];
    if text.len() > MAX_SYMBOLS {
        return false;
    }
    match STANDARD.decode_slice_unchecked(text, &mut buffer) {
        Ok(size) if size == out.len() => {
            out.copy_from_slice(&buffer[..size]);
            true
        }
        _ => false,
    }
}

/// Whether the text is the base64 of these three bytes at most.
pub fn is_encoded(text: &[u8], bytes: &[u8]) -> bool
    requires { length bytes.now ≤ 3 }
    ensures { IsTrue result ↔ (text.now ≡ encode_of standard bytes.now) }
{
    let mut buffer = [0u8; 4];
    match STANDARD.encode_slice(bytes, &mut buffer) {
        Ok(size) => &buffer[..size] == text,
        Err(_) => unreachable!(),
    }
}

/// Adds the base64 of `bytes` to a text; want of memory says nothing of the text.
pub fn append_encoded(alloc: Global, text: &mut Binary, bytes: &[u8]) -> Result<(), AllocError>
    ensures { OnOk result (text.new ≡ text.old ++ encode_of standard bytes.now) }
{
    let encoded = STANDARD.encode(alloc, bytes)?;
    text.append(encoded.as_bytes())
}
