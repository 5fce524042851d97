//! Keys from passwords, and authentication codes.
//!
//! A key is `HASH ROUNDS LENGTH | PASSWORD | SALT => KEY` (PBKDF2, RFC 8018, section 5.2), and a code `HASH | KEY | TEXT =>
//! CODE` (HMAC, RFC 2104). HASH is `sha1`, `sha256` or `sha512`, ROUNDS is below 2^32, LENGTH at most 4096 bytes, and the
//! others are bytes.
ghost use Rattle.std.specs.Prelude.{◌≤◌, length};

use crate::error::CaseError;
use case_files::read_bytes;
use kdf_core::{HashFn, Hmac, Prf, Sha1Fn, Sha256Fn, Sha512Fn, pbkdf2_hmac};
use sasl_scram::ScramHash;
use std::alloc::Global;

const LONGEST_KEY: u16 = 4096;

/// The hash function of a name.
pub fn read_hash(name: &str) -> Result<ScramHash, CaseError> {
    match name {
        "sha1" => Ok(ScramHash::Sha1),
        "sha256" => Ok(ScramHash::Sha256),
        "sha512" => Ok(ScramHash::Sha512),
        _ => Err(CaseError::Malformed),
    }
}

/// Derives a key.
fn derive(hash: ScramHash, rounds: u32, password: &[u8], salt: &[u8], key: &mut [u8])
    requires { length key.old ≤ 65535 }
{
    match hash {
        ScramHash::Sha1 => pbkdf2_hmac::<Sha1Fn>(password, salt, rounds, key),
        ScramHash::Sha256 => pbkdf2_hmac::<Sha256Fn>(password, salt, rounds, key),
        ScramHash::Sha512 => pbkdf2_hmac::<Sha512Fn>(password, salt, rounds, key),
    }
}

/// The rounds and the length of a key.
fn read_counts(rounds: &str, length: &str) -> Result<(u32, u16), CaseError> {
    match (rounds.parse::<u32>(), length.parse::<u16>()) {
        (Ok(rounds), Ok(length)) if length <= LONGEST_KEY => Ok((rounds, length)),
        _ => Err(CaseError::Malformed),
    }
}

/// The key of a case.
pub fn key(alloc: Global, given: &str) -> Result<String, CaseError> {
    let mut parts = given.split(" | ");
    let (Some(head), Some(password), Some(salt)) = (parts.next(), parts.next(), parts.next()) else {
        return Err(CaseError::Malformed);
    };
    let mut words = head.split_whitespace();
    let (Some(hash), Some(rounds), Some(length)) = (words.next(), words.next(), words.next()) else {
        return Err(CaseError::Malformed);
    };
    let hash = read_hash(hash)?;
    let (rounds, length) = read_counts(rounds, length)?;
    let password = read_bytes(alloc, password)?;
    let salt = read_bytes(alloc, salt)?;
    let mut key = vec![in alloc; 0u8; length as usize]?;
    derive(hash, rounds, password.as_slice(), salt.as_slice(), &mut key);
    let text = hex::encode(alloc, key.as_slice())?;
    Ok(text)
}

/// The authentication code of a text.
fn code_of<D: HashFn>(alloc: Global, key: &[u8], text: &[u8]) -> Result<String, CaseError> {
    let mut code = [0u8; 64];
    let Ok(mut state) = Hmac::<D>::new_from_slice(key) else {
        return Err(CaseError::Malformed);
    };
    state.update(text);
    state.finalize_into(&mut code[..D::OUTPUT]);
    let text = hex::encode(alloc, &code[..D::OUTPUT])?;
    Ok(text)
}

/// The authentication code of a case.
pub fn code(alloc: Global, given: &str) -> Result<String, CaseError> {
    let mut parts = given.split(" | ");
    let (Some(hash), Some(key), Some(text)) = (parts.next(), parts.next(), parts.next()) else {
        return Err(CaseError::Malformed);
    };
    let hash = read_hash(hash)?;
    let key = read_bytes(alloc, key)?;
    let text = read_bytes(alloc, text)?;
    match hash {
        ScramHash::Sha1 => code_of::<Sha1Fn>(alloc, key.as_slice(), text.as_slice()),
        ScramHash::Sha256 => code_of::<Sha256Fn>(alloc, key.as_slice(), text.as_slice()),
        ScramHash::Sha512 => code_of::<Sha512Fn>(alloc, key.as_slice(), text.as_slice()),
    }
}
