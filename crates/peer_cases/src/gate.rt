//! The gates that calls ask for.
ghost use Rattle.std.specs.Prelude.{IfOk};
ghost use Rattle.sasl_exchange.specs.AnyServer.{HasMechanism};
ghost use Rattle.sasl_scram.specs.Profile.{IsNonce};

use crate::error::CaseError;
use amqp_opening::permission::is_allowed_profile;
use amqp_text::{Binary, Text};
use amqp_wire::codec::FramedCodec;
use amqp_wire::faulty_pipe::FaultyPipe;
use amqp_words::AcceptSasl;
use sasl_gate::{
    ClientGate, OneUser, SaslAcceptor, SaslProfile, ScramHash, ServerGate, StoredPassword,
};
use sasl_scram::profile::is_nonce;
use std::alloc::Global;

/// The largest frame of the SASL layer, in bytes (part 5, section 5.3.1).
const LARGEST_FRAME: usize = 512;

/// The gate of a client.
pub fn client_gate(
    alloc: Global,
    link: FaultyPipe,
    profile: SaslProfile,
    hostname: Option<Text>,
) -> Result<ClientGate<FaultyPipe>, CaseError> {
    if !is_allowed_profile(&profile) {
        return Err(CaseError::Malformed);
    }
    let codec = FramedCodec::new(alloc, link, LARGEST_FRAME, LARGEST_FRAME);
    match ClientGate::new(alloc, codec, profile, hostname) {
        Ok(gate) => Ok(gate),
        Err(_) => Err(CaseError::Malformed),
    }
}

/// The one user of a listener.
fn one_user(
    username: Text,
    password: Text,
    stored: Option<StoredPassword>,
) -> Result<OneUser, CaseError> {
    match OneUser::new(username, password, stored) {
        Ok(user) => Ok(user),
        Err(_) => Err(CaseError::Malformed),
    }
}

/// What a listener keeps of a password.
fn stored(
    alloc: Global,
    hash: ScramHash,
    password: &str,
    salt: &Binary,
    iterations: u32,
) -> Result<StoredPassword, CaseError> {
    let salt = salt.as_slice();
    if salt.is_empty() || salt.len() > 64 {
        return Err(CaseError::Malformed);
    }
    if !(1..=10_000_000).contains(&iterations) {
        return Err(CaseError::Malformed);
    }
    match StoredPassword::derive_for(alloc, hash, password, salt, iterations) {
        Ok(stored) => Ok(stored),
        Err(_) => Err(CaseError::Malformed),
    }
}

/// An acceptor with SCRAM and this hash function.
fn scram(hash: ScramHash, user: OneUser, nonce: Text) -> SaslAcceptor<OneUser, OneUser>
    requires { IsNonce nonce }
    ensures { HasMechanism result }
{
    match hash {
        ScramHash::Sha1 => SaslAcceptor::ScramSha1(user, nonce),
        ScramHash::Sha256 => SaslAcceptor::ScramSha256(user, nonce),
        ScramHash::Sha512 => SaslAcceptor::ScramSha512(user, nonce),
    }
}

/// The acceptor of SCRAM with one user.
fn scram_user(
    alloc: Global,
    hash: ScramHash,
    username: &Text,
    password: &Text,
    salt: &Binary,
    iterations: u32,
    nonce: &Text,
) -> Result<SaslAcceptor<OneUser, OneUser>, CaseError>
    ensures { IfOk result HasMechanism }
{
    let stored = stored(alloc, hash, password.as_str(), salt, iterations)?;
    let username = username.try_clone(alloc)?;
    let password = password.try_clone(alloc)?;
    let user = one_user(username, password, Some(stored))?;
    let nonce = nonce.try_clone(alloc)?;
    if !is_nonce(nonce.as_bytes()) {
        return Err(CaseError::Malformed);
    }
    Ok(scram(hash, user, nonce))
}

/// The acceptor of PLAIN with one user.
fn plain_user(
    alloc: Global,
    username: &Text,
    password: &Text,
) -> Result<SaslAcceptor<OneUser, OneUser>, CaseError>
    ensures { IfOk result HasMechanism }
{
    let username = username.try_clone(alloc)?;
    let password = password.try_clone(alloc)?;
    let user = one_user(username, password, None)?;
    Ok(SaslAcceptor::Plain(user))
}

/// The acceptor of a call.
fn acceptor(alloc: Global, sasl: &AcceptSasl) -> Result<SaslAcceptor<OneUser, OneUser>, CaseError>
    ensures { IfOk result HasMechanism }
{
    match sasl {
        AcceptSasl::Anonymous => Ok(SaslAcceptor::Anonymous),
        AcceptSasl::Plain { username, password } => plain_user(alloc, username, password),
        AcceptSasl::ScramSha1 {
            username,
            password,
            salt,
            iterations,
            nonce,
        } => scram_user(
            alloc,
            ScramHash::Sha1,
            username,
            password,
            salt,
            *iterations,
            nonce,
        ),
        AcceptSasl::ScramSha256 {
            username,
            password,
            salt,
            iterations,
            nonce,
        } => scram_user(
            alloc,
            ScramHash::Sha256,
            username,
            password,
            salt,
            *iterations,
            nonce,
        ),
        AcceptSasl::ScramSha512 {
            username,
            password,
            salt,
            iterations,
            nonce,
        } => scram_user(
            alloc,
            ScramHash::Sha512,
            username,
            password,
            salt,
            *iterations,
            nonce,
        ),
    }
}

/// The gate of a listener.
pub fn server_gate(
    alloc: Global,
    link: FaultyPipe,
    sasl: AcceptSasl,
) -> Result<ServerGate<FaultyPipe, OneUser, OneUser>, CaseError> {
    let acceptor = acceptor(alloc, &sasl)?;
    let codec = FramedCodec::new(alloc, link, LARGEST_FRAME, LARGEST_FRAME);
    match ServerGate::new(alloc, codec, acceptor) {
        Ok(gate) => Ok(gate),
        Err((error, _)) => Err(CaseError::Memory(error)),
    }
}
