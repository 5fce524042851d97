//! Keys from passwords.
ghost use Rattle.std.specs.Prelude.{◌≡◌, ◌≤◌, length, IfOk};
ghost use Rattle.amqp_requests.specs.Request.{hash_in, key_of, text_of_key};

use amqp_script::script::words::is_text;
use amqp_script::trace_text::hex::push_hex;
use kdf_core::{Sha1Fn, Sha256Fn, Sha512Fn, pbkdf2_hmac};
use std::alloc::{AllocError, Global};

/// A hash function.
#[derive(Clone, Copy, Debug, PartialEq, Eq)]
pub enum HashName {
    /// SHA-1.
    Sha1,
    /// SHA-256.
    Sha256,
    /// SHA-512.
    Sha512,
}

impl HashName {
    /// The hash function of this name.
    pub fn read(word: &[u8]) -> Option<Self>
        ensures { result ≡ hash_in word.now }
    {
        if is_text(word, b"sha1") {
            return Some(HashName::Sha1);
        }
        if is_text(word, b"sha256") {
            return Some(HashName::Sha256);
        }
        if is_text(word, b"sha512") {
            return Some(HashName::Sha512);
        }
        None
    }
}

/// A key that is asked for.
#[derive(Clone, Copy, Debug)]
pub struct KeyRequest<'a> {
    /// The hash function below HMAC.
    pub hash: HashName,
    /// The number of rounds.
    pub rounds: u32,
    /// The length of the key in bytes.
    pub length: u16,
    /// The password.
    pub password: &'a [u8],
    /// The salt.
    pub salt: &'a [u8],
}

fn derive(hash: HashName, rounds: u32, password: &[u8], salt: &[u8], key: &mut [u8])
    requires { length key.old ≤ 65535 }
    ensures { key.new ≡ key_of hash rounds (length key.old) password.now salt.now }
{
    match hash {
        HashName::Sha1 => pbkdf2_hmac::<Sha1Fn>(password, salt, rounds, key),
        HashName::Sha256 => pbkdf2_hmac::<Sha256Fn>(password, salt, rounds, key),
        HashName::Sha512 => pbkdf2_hmac::<Sha512Fn>(password, salt, rounds, key),
    }
}

/// The key in hexadecimal and a line feed; the one error is want of memory.
pub fn key_line(alloc: Global, request: &KeyRequest<'_>) -> Result<Vec<u8>, AllocError>
    ensures { IfOk result (λ text. text.items ≡ text_of_key request.now) }
{
    let mut key = vec![in alloc; 0u8; request.length as usize]?;
    derive(
        request.hash,
        request.rounds,
        request.password,
        request.salt,
        &mut key,
    );
    let mut text = Vec::new(alloc);
    push_hex(&mut text, key.as_slice())?;
    text.push(b'\n')?;
    Ok(text)
}
