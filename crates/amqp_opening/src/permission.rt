//! Which exchanges of the SASL layer may be asked for.
ghost use Rattle.std.specs.Prelude.{◌↔◌, IsTrue};
ghost use Rattle.sasl_scram.specs.Profile.{IsAllowedCount};
ghost use Rattle.amqp_opening.specs.Permission.{IsAllowedAccept, IsAllowedProfile, IsAllowedSasl, IsAllowedSaslCall};

use crate::acceptor::{AcceptSasl, Accepting};
use crate::authentication::SaslCall;
use amqp_text::{Binary, Text};
use sasl_gate::SaslProfile;
use sasl_scram::profile::is_nonce;

fn is_allowed_count(count: u32) -> bool
    ensures { IsTrue result ↔ IsAllowedCount count }
{
    (1..=10_000_000).contains(&count)
}

/// Whether a client may authenticate with this: its nonce, where it has one, is 1 or more visible ASCII characters other
/// than the comma.
pub fn is_allowed_profile(profile: &SaslProfile) -> bool
    ensures { IsTrue result ↔ IsAllowedProfile profile.now }
{
    match profile {
        SaslProfile::Anonymous | SaslProfile::Plain { .. } => true,
        SaslProfile::ScramSha1 { nonce, .. }
        | SaslProfile::ScramSha256 { nonce, .. }
        | SaslProfile::ScramSha512 { nonce, .. } => is_nonce(nonce.as_bytes()),
    }
}

fn is_allowed_accept(salt: &Binary, iterations: u32, nonce: &Text) -> bool
    ensures { IsTrue result ↔ IsAllowedAccept salt.now iterations nonce.now }
{
    is_nonce(nonce.as_bytes())
        && salt.len() >= 1
        && salt.len() <= 64
        && is_allowed_count(iterations)
}

/// Whether a listener may let these in: with SCRAM its nonce is 1 or more visible ASCII characters other than the comma,
/// the salt has 1 to 64 bytes, and there are 1 to 10,000,000 iterations.
pub fn is_allowed_acceptor(acceptor: &AcceptSasl) -> bool
    ensures { IsTrue result ↔ IsAllowedSasl acceptor.now }
{
    match acceptor.parts() {
        Accepting::Anonymous => true,
        Accepting::Plain { .. } => true,
        Accepting::Scram {
            salt,
            iterations,
            nonce,
            ..
        } => is_allowed_accept(salt, iterations, nonce),
    }
}

/// Whether this exchange may be asked for, as `is_allowed_profile` and `is_allowed_acceptor` say.
pub fn is_allowed(call: &SaslCall) -> bool
    ensures { IsTrue result ↔ IsAllowedSaslCall call.now }
{
    match call {
        SaslCall::Client { profile, .. } => is_allowed_profile(profile),
        SaslCall::Listener(acceptor) => is_allowed_acceptor(acceptor),
    }
}
