//! The texts of SCRAM.
//!
//! A case of a client is `client HASH USER PASSWORD NONCE | SERVER FIRST | SERVER FINAL => CLIENT FIRST | CLIENT FINAL |
//! passed`, and one of a listener `server HASH USER PASSWORD SALT ROUNDS NONCE | CLIENT FIRST | CLIENT FINAL => SERVER FIRST |
//! SERVER FINAL`, where SALT is bytes. Where a text is refused, `error KIND` stands in place of what would follow it.
ghost use Rattle.std.specs.Prelude.{◌≡◌, IfOk};

use crate::error::CaseError;
use crate::keys::read_hash;
use amqp_text::Text;
use case_files::read_bytes;
use sasl_scram::profile::is_nonce;
use sasl_scram::{
    AnyScramClient, AnyScramServer, OneUser, ScramErrorKind, ScramHash, StoredPassword,
};
use std::alloc::{AllocError, Global};
use std::str;

/// An end of an exchange.
#[derive(Clone, Copy, Debug)]
struct Party<'a> {
    hash: ScramHash,
    user: &'a str,
    password: &'a str,
    nonce: &'a str,
}

/// Adds what is said to what was said before.
fn add(said: &mut String, text: &[u8]) -> Result<(), ScramErrorKind> {
    if !said.is_empty() {
        said.push_str(" | ")?;
    }
    said.push_str(str::from_utf8(text).unwrap_or("no text"))?;
    Ok(())
}

/// What a client says to these texts.
fn client_says(
    alloc: Global,
    party: Party<'_>,
    first: Option<&str>,
    last: Option<&str>,
    said: &mut String,
) -> Result<(), ScramErrorKind> {
    if !is_nonce(party.nonce.as_bytes()) {
        return Err(ScramErrorKind::Malformed);
    }
    let user = Text::from_str(alloc, party.user)?;
    let password = Text::from_str(alloc, party.password)?;
    let nonce = Text::from_str(alloc, party.nonce)?;
    let mut client = AnyScramClient::new(party.hash, user, password, nonce)?;
    let text = client.first(alloc)?;
    add(said, text.as_slice())?;
    let Some(first) = first else {
        return Ok(());
    };
    let text = client.on_server_first(alloc, first.as_bytes())?;
    add(said, text.as_slice())?;
    let Some(last) = last else {
        return Ok(());
    };
    client.on_server_final(last.as_bytes())?;
    add(said, b"passed")
}

/// What a listener keeps of its user's password.
fn stored(
    alloc: Global,
    party: Party<'_>,
    salt: &[u8],
    iterations: u32,
) -> Result<StoredPassword, ScramErrorKind> {
    if salt.is_empty() || salt.len() > 64 {
        return Err(ScramErrorKind::Base64);
    }
    if !(1..=10_000_000).contains(&iterations) {
        return Err(ScramErrorKind::Iterations);
    }
    StoredPassword::derive_for(alloc, party.hash, party.password, salt, iterations)
}

/// What a listener says to these texts.
fn server_says(
    alloc: Global,
    party: Party<'_>,
    stored: StoredPassword,
    first: Option<&str>,
    last: Option<&str>,
    said: &mut String,
) -> Result<(), ScramErrorKind> {
    if !is_nonce(party.nonce.as_bytes()) {
        return Err(ScramErrorKind::Malformed);
    }
    let user = Text::from_str(alloc, party.user)?;
    let password = Text::from_str(alloc, party.password)?;
    let nonce = Text::from_str(alloc, party.nonce)?;
    let users = OneUser::new(user, password, Some(stored))?;
    let mut server = AnyScramServer::new(party.hash, users, nonce);
    let Some(first) = first else {
        return Ok(());
    };
    let text = server.on_client_first(alloc, first.as_bytes())?;
    add(said, text.as_slice())?;
    let Some(last) = last else {
        return Ok(());
    };
    let text = server.on_client_final(alloc, last.as_bytes())?;
    add(said, text.as_slice())
}

/// The end of these words, and the words behind its password.
fn read_party<'a>(words: &[&'a str], nonce: &'a str) -> Result<Party<'a>, CaseError> {
    let [hash, user, password, ..] = words else {
        return Err(CaseError::Malformed);
    };
    Ok(Party {
        hash: read_hash(hash)?,
        user,
        password,
        nonce,
    })
}

/// What an end says, with an error where it refuses.
fn ended(said: String, done: Result<(), ScramErrorKind>) -> Result<String, CaseError> {
    let mut said = said;
    match done {
        Ok(()) => Ok(said),
        Err(ScramErrorKind::Memory(error)) => Err(CaseError::Memory(error)),
        Err(kind) => {
            if !said.is_empty() {
                said.push_str(" | ")?;
            }
            write!(said, "error {kind}")?;
            Ok(said)
        }
    }
}

/// What a client says in a case.
fn client(
    alloc: Global,
    words: &[&str],
    nonce: &str,
    first: Option<&str>,
    last: Option<&str>,
) -> Result<String, CaseError> {
    let party = read_party(words, nonce)?;
    let mut said = String::new(alloc);
    let done = client_says(alloc, party, first, last, &mut said);
    ended(said, done)
}

/// What a listener says in a case.
fn server(
    alloc: Global,
    words: &[&str],
    first: Option<&str>,
    last: Option<&str>,
) -> Result<String, CaseError> {
    let [_, _, _, salt, rounds, nonce] = words else {
        return Err(CaseError::Malformed);
    };
    let party = read_party(words, nonce)?;
    let salt = read_bytes(alloc, salt)?;
    let Ok(rounds) = rounds.parse::<u32>() else {
        return Err(CaseError::Malformed);
    };
    let mut said = String::new(alloc);
    let done = match stored(alloc, party, salt.as_slice(), rounds) {
        Ok(stored) => server_says(alloc, party, stored, first, last, &mut said),
        Err(kind) => Err(kind),
    };
    ended(said, done)
}

/// The words of a text.
fn words_of<'a>(alloc: Global, text: &'a str) -> Result<Vec<&'a str>, AllocError> {
    let mut words = Vec::new(alloc);
    for word in text.split_whitespace() {
        words.push(word)?;
    }
    Ok(words)
}

/// What an end says in a case.
pub fn texts(alloc: Global, given: &str) -> Result<String, CaseError> {
    let mut parts = given.split(" | ");
    let words = words_of(alloc, parts.next().unwrap_or(""))?;
    let first = parts.next();
    let last = parts.next();
    match words.as_slice() {
        ["client", rest @ .., nonce] => client(alloc, rest, nonce, first, last),
        ["server", rest @ ..] => server(alloc, rest, first, last),
        _ => Err(CaseError::Malformed),
    }
}
