//! What a line says of the SASL layer.
ghost use Rattle.std.specs.Prelude.{◌≡◌};
ghost use Rattle.amqp_script.specs.Words.{words_left};
ghost use Rattle.amqp_script.specs.Keys.{has_only as only_test};
ghost use Rattle.amqp_script.specs.Fields.{Says};
ghost use Rattle.amqp_script.specs.Sasl.{hash_of_word, kind_of_word, kind_in, open_keys, accept_keys, account_in, scram_profile as profile_with, profile_in, acceptor_in, client_sasl_in, listener_sasl_in};

use crate::script::fields::{required, salt, text, uint};
use crate::script::keys::{Key, has_only, value_at};
use crate::script::line_error::LineError;
use crate::script::words::{Words, is_text};
use amqp_text::Text;
use amqp_words::AcceptSasl;
use sasl_gate::{SaslProfile, ScramHash};
use std::alloc::Global;

/// The kind of a SASL layer.
#[derive(Clone, Copy, Debug, PartialEq, Eq)]
pub enum SaslKind {
    /// There is no SASL layer.
    Absent,
    /// ANONYMOUS (RFC 4505).
    Anonymous,
    /// PLAIN (RFC 4616).
    Plain,
    /// SCRAM with this hash function (RFC 5802; RFC 7677).
    Scram(ScramHash),
}

const OPEN_KEYS: [Key; 7] = [
    Key::Id,
    Key::Host,
    Key::SaslHost,
    Key::Max,
    Key::Channels,
    Key::Idle,
    Key::Sasl,
];

const OPEN_PLAIN_KEYS: [Key; 9] = [
    Key::Id,
    Key::Host,
    Key::SaslHost,
    Key::Max,
    Key::Channels,
    Key::Idle,
    Key::Sasl,
    Key::User,
    Key::Pass,
];

const OPEN_SCRAM_KEYS: [Key; 10] = [
    Key::Id,
    Key::Host,
    Key::SaslHost,
    Key::Max,
    Key::Channels,
    Key::Idle,
    Key::Sasl,
    Key::User,
    Key::Pass,
    Key::Nonce,
];

const ACCEPT_KEYS: [Key; 6] = [
    Key::Id,
    Key::Host,
    Key::Max,
    Key::Channels,
    Key::Idle,
    Key::Sasl,
];

const ACCEPT_PLAIN_KEYS: [Key; 8] = [
    Key::Id,
    Key::Host,
    Key::Max,
    Key::Channels,
    Key::Idle,
    Key::Sasl,
    Key::User,
    Key::Pass,
];

const ACCEPT_SCRAM_KEYS: [Key; 11] = [
    Key::Id,
    Key::Host,
    Key::Max,
    Key::Channels,
    Key::Idle,
    Key::Sasl,
    Key::User,
    Key::Pass,
    Key::Salt,
    Key::Rounds,
    Key::Nonce,
];

/// The hash function of this name.
fn read_hash(word: &[u8]) -> Option<ScramHash>
    ensures { result ≡ hash_of_word word.now }
{
    if is_text(word, b"sha1") {
        return Some(ScramHash::Sha1);
    }
    if is_text(word, b"sha256") {
        return Some(ScramHash::Sha256);
    }
    if is_text(word, b"sha512") {
        return Some(ScramHash::Sha512);
    }
    None
}

/// The kind of this name.
fn read_kind(word: &[u8]) -> Result<SaslKind, LineError>
    ensures { Says (kind_of_word word.now) result }
{
    if is_text(word, b"none") {
        return Ok(SaslKind::Absent);
    }
    if is_text(word, b"anonymous") {
        return Ok(SaslKind::Anonymous);
    }
    if is_text(word, b"plain") {
        return Ok(SaslKind::Plain);
    }
    match read_hash(word) {
        Some(hash) => Ok(SaslKind::Scram(hash)),
        None => Err(LineError::Outside),
    }
}

/// The kind that the arguments name.
pub fn sasl_kind(arguments: Words<'_>) -> Result<SaslKind, LineError>
    ensures { Says (kind_in (words_left arguments.entry)) result }
{
    match value_at(arguments, Key::Sasl.name()) {
        Some(word) => read_kind(word),
        None => Ok(SaslKind::Absent),
    }
}

/// Whether the arguments have the keys of `open` alone, each at most once.
pub fn fits_open(kind: SaslKind, arguments: Words<'_>) -> bool
    ensures { result ≡ only_test (open_keys kind) (words_left arguments.entry) }
{
    match kind {
        SaslKind::Absent => has_only(&OPEN_KEYS, arguments),
        SaslKind::Anonymous => has_only(&OPEN_KEYS, arguments),
        SaslKind::Plain => has_only(&OPEN_PLAIN_KEYS, arguments),
        SaslKind::Scram(_) => has_only(&OPEN_SCRAM_KEYS, arguments),
    }
}

/// Whether the arguments have the keys of `accept` alone, each at most once.
pub fn fits_accept(kind: SaslKind, arguments: Words<'_>) -> bool
    ensures { result ≡ only_test (accept_keys kind) (words_left arguments.entry) }
{
    match kind {
        SaslKind::Absent => has_only(&ACCEPT_KEYS, arguments),
        SaslKind::Anonymous => has_only(&ACCEPT_KEYS, arguments),
        SaslKind::Plain => has_only(&ACCEPT_PLAIN_KEYS, arguments),
        SaslKind::Scram(_) => has_only(&ACCEPT_SCRAM_KEYS, arguments),
    }
}

/// The user and the password.
fn account(alloc: Global, arguments: Words<'_>) -> Result<(Text, Text), LineError>
    ensures { Says (account_in (words_left arguments.entry)) result }
{
    let username = text(alloc, required(arguments, Key::User)?)?;
    let password = text(alloc, required(arguments, Key::Pass)?)?;
    Ok((username, password))
}

/// SCRAM with a hash function, at a client.
fn scram_profile(hash: ScramHash, username: Text, password: Text, nonce: Text) -> SaslProfile
    ensures { result ≡ profile_with hash username password nonce }
{
    match hash {
        ScramHash::Sha1 => SaslProfile::ScramSha1 {
            username,
            password,
            nonce,
        },
        ScramHash::Sha256 => SaslProfile::ScramSha256 {
            username,
            password,
            nonce,
        },
        ScramHash::Sha512 => SaslProfile::ScramSha512 {
            username,
            password,
            nonce,
        },
    }
}

fn profile(alloc: Global, hash: ScramHash, arguments: Words<'_>) -> Result<SaslProfile, LineError>
    ensures { Says (profile_in hash (words_left arguments.entry)) result }
{
    let (username, password) = account(alloc, arguments)?;
    let nonce = text(alloc, required(arguments, Key::Nonce)?)?;
    Ok(scram_profile(hash, username, password, nonce))
}

fn acceptor(alloc: Global, hash: ScramHash, arguments: Words<'_>) -> Result<AcceptSasl, LineError>
    ensures { Says (acceptor_in hash (words_left arguments.entry)) result }
{
    let (username, password) = account(alloc, arguments)?;
    let salt = salt(alloc, required(arguments, Key::Salt)?)?;
    let iterations = uint(required(arguments, Key::Rounds)?)?;
    let nonce = text(alloc, required(arguments, Key::Nonce)?)?;
    Ok(AcceptSasl::scram(hash, username, password, salt, iterations, nonce))
}

/// What a client authenticates with, if there is a SASL layer.
pub fn client_sasl(
    alloc: Global,
    kind: SaslKind,
    arguments: Words<'_>,
) -> Result<Option<SaslProfile>, LineError>
    ensures { Says (client_sasl_in kind (words_left arguments.entry)) result }
{
    match kind {
        SaslKind::Absent => Ok(None),
        SaslKind::Anonymous => Ok(Some(SaslProfile::Anonymous)),
        SaslKind::Plain => {
            let (username, password) = account(alloc, arguments)?;
            Ok(Some(SaslProfile::Plain { username, password }))
        }
        SaslKind::Scram(hash) => {
            let profile = profile(alloc, hash, arguments)?;
            Ok(Some(profile))
        }
    }
}

/// Whom a listener lets in, if there is a SASL layer.
pub fn listener_sasl(
    alloc: Global,
    kind: SaslKind,
    arguments: Words<'_>,
) -> Result<Option<AcceptSasl>, LineError>
    ensures { Says (listener_sasl_in kind (words_left arguments.entry)) result }
{
    match kind {
        SaslKind::Absent => Ok(None),
        SaslKind::Anonymous => Ok(Some(AcceptSasl::Anonymous)),
        SaslKind::Plain => {
            let (username, password) = account(alloc, arguments)?;
            Ok(Some(AcceptSasl::Plain { username, password }))
        }
        SaslKind::Scram(hash) => {
            let acceptor = acceptor(alloc, hash, arguments)?;
            Ok(Some(acceptor))
        }
    }
}
