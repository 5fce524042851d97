//! The SASL exchange of an end: a client's, or a listener's with one user (OASIS AMQP 1.0, part 5, section 5.3).
ghost use Rattle.std.specs.Prelude.{◌≡◌, ◌≤◌, List, [], Some, None, length, IfOk, IfErr, OnOk};
ghost use Rattle.base64.specs.GeneralPurpose.{IsBytes};
ghost use Rattle.sasl_gate.specs.sasl_exchange.AnyServer.{any_server_holds};
ghost use Rattle.sasl_scram.specs.Check.{stored_of};
ghost use Rattle.sasl_scram.specs.Hashes.{digest_of, block_of, output_of};
ghost use Rattle.sasl_scram.specs.Profile.{IsAllowedPassword, IsAllowedCount};
ghost use Rattle.sasl_scram.specs.Refusals.{IsTextRefusal};
ghost use Rattle.amqp_opening.specs.Admission.{plain, scram, admission_of, account_by};
ghost use Rattle.amqp_opening.specs.Authentication.{passwords_for, stored_for, holds_by, causes_by, owes_by, turn_by, left_by, same_by, peer_refusal, peer_same_self, peer_same_then, IsAllowedAccount, IsListenerMade, MadeFor, IsAccountRefusal, IsCallRefusal, IsErrorOf};
ghost use Rattle.amqp_opening.specs.Permission.{IsAllowedAccept, IsAllowedProfile, IsAllowedSasl, IsAllowedSaslCall};

use crate::acceptor::{AcceptSasl, Accepting};
use amqp_text::{Binary, Text};
use sasl_gate::amqp_sasl_bodies::sasl_body::SaslBody;
use sasl_gate::sasl_exchange::exchange::{Exchange, Turn, Verdict};
use sasl_gate::{
    ClientExchange, InitCheck, InitServer, NegotiationError, OneUser, SaslProfile, ScramErrorKind,
    ScramHash, ScramServerExchange, ServerExchange, StoredPassword,
};
use std::alloc::{AllocError, Global};

/// The exchange that an end is asked for.
#[derive(Debug, Drop)]
pub enum SaslCall {
    /// A client's.
    Client {
        /// What it authenticates with.
        profile: SaslProfile,
        /// The host that it names in its init (part 5, section 5.3.3.2).
        hostname: Option<Text>,
    },
    /// A listener's, which lets these in.
    Listener(AcceptSasl),
}

/// The exchange of an end.
pub enum Authentication {
    /// No call was made.
    Idle,
    /// A client's.
    Client(ClientExchange),
    /// A listener's.
    Listener(ServerExchange<OneUser, OneUser>),
}

// An exchange is let go by a call, so that no caller sees what a mechanism keeps.
impl Drop for Authentication {
    fn drop(self) {
        match self {
            Authentication::Idle => {}
            Authentication::Client(exchange) => drop(exchange),
            Authentication::Listener(exchange) => drop(exchange),
        }
    }
}

impl Exchange for Authentication {
    ghost holds = { holds_by };

    ghost causes = { causes_by };

    ghost owes = { owes_by };

    ghost turn_of = { turn_by };

    ghost left = { left_by };

    ghost same = { same_by };

    fn turn(&self) -> Turn {
        match self {
            Authentication::Idle => Turn::Receive,
            Authentication::Client(exchange) => exchange.turn(),
            Authentication::Listener(exchange) => exchange.turn(),
        }
    }

    fn next_body(&self, alloc: Global) -> Result<SaslBody, AllocError> {
        match self {
            Authentication::Idle => unreachable!(),
            Authentication::Client(exchange) => exchange.next_body(alloc),
            Authentication::Listener(exchange) => exchange.next_body(alloc),
        }
    }

    fn on_sent(&mut self) {
        match self {
            Authentication::Idle => unreachable!(),
            Authentication::Client(exchange) => exchange.on_sent(),
            Authentication::Listener(exchange) => exchange.on_sent(),
        }
    }

    fn on_body(&mut self, alloc: Global, body: SaslBody) -> Result<Verdict, AllocError> {
        match self {
            Authentication::Idle => Ok(Verdict::Refused(NegotiationError::IllegalState)),
            Authentication::Client(exchange) => exchange.on_body(alloc, body),
            Authentication::Listener(exchange) => exchange.on_body(alloc, body),
        }
    }

    ghost refusal = { peer_refusal };

    ghost same_self = { peer_same_self };

    ghost same_then = { peer_same_then };
}

// The error of a negotiation that a kind of SCRAM comes to.
fn error_of(kind: ScramErrorKind) -> NegotiationError
    ensures { IsErrorOf kind result }
{
    match kind {
        ScramErrorKind::Memory(error) => NegotiationError::Memory(error),
        _ => NegotiationError::ScramError(kind),
    }
}

// The client's exchange.
fn client_exchange(
    alloc: Global,
    profile: SaslProfile,
    hostname: Option<Text>,
) -> Result<Authentication, NegotiationError>
    requires { IsAllowedProfile profile }
    ensures ok { IfOk result (MadeFor (SaslCall.Client profile hostname)) }
    ensures begins { IfOk result (λ x. holds_by x [] []) }
    ensures err { IfErr result (IsCallRefusal (SaslCall.Client profile hostname)) }
{
    match ClientExchange::new(alloc, profile, hostname) {
        Ok(exchange) => Ok(Authentication::Client(exchange)),
        Err(kind) => Err(error_of(kind)),
    }
}

// What a listener keeps of the password, with a salt, which is bytes.
fn stored_with(
    alloc: Global,
    hash: ScramHash,
    password: &str,
    salt: &[u8],
    iterations: u32,
) -> Result<StoredPassword, ScramErrorKind>
    requires salt { (1 ≤ length salt.now) × (length salt.now ≤ 64) }
    requires iterations { IsAllowedCount iterations }
    ensures ok { IfOk result (λ p. p ≡ stored_of (digest_of hash) (block_of hash) (output_of hash) password.now salt.now iterations) }
    ensures bytes { IsBytes salt.now }
    ensures err { IfErr result (λ e. IsTextRefusal (IsAllowedPassword password.now) e) }
{
    StoredPassword::derive_for(alloc, hash, password, salt, iterations)
}

// The one user of a listener, with what it keeps of the password for SCRAM.
fn one_user(
    alloc: Global,
    username: &Text,
    password: &Text,
    stored: Option<StoredPassword>,
) -> Result<OneUser, NegotiationError>
    ensures ok { IfOk result (λ a. a ≡ record { user = username.now; password = password.now; stored = stored }) }
    ensures allowed { OnOk result (IsAllowedAccount (Some (username.now, password.now))) }
    ensures err { IfErr result (IsAccountRefusal (Some (username.now, password.now))) }
{
    let username = username.try_clone(alloc)?;
    let password = password.try_clone(alloc)?;
    match OneUser::new(username, password, stored) {
        Ok(user) => Ok(user),
        Err(kind) => Err(NegotiationError::ScramError(kind)),
    }
}

// The listener's exchange with PLAIN.
fn plain_exchange(
    alloc: Global,
    username: &Text,
    password: &Text,
) -> Result<ServerExchange<OneUser, OneUser>, NegotiationError>
    ensures ok { IfOk result (IsListenerMade (plain username.now password.now)) }
    ensures begins { IfOk result (λ x. any_server_holds passwords_for stored_for x [] []) }
    ensures err { IfErr result (IsAccountRefusal (Some (username.now, password.now))) }
{
    match one_user(alloc, username, password, None) {
        Ok(user) => Ok(ServerExchange::Init(InitServer::new(InitCheck::Plain(user)))),
        Err(error) => Err(error),
    }
}

// The listener's exchange with SCRAM.
fn scram_exchange(
    alloc: Global,
    hash: ScramHash,
    username: &Text,
    password: &Text,
    salt: &Binary,
    iterations: u32,
    nonce: &Text,
) -> Result<ServerExchange<OneUser, OneUser>, NegotiationError>
    requires { IsAllowedAccept salt.now iterations nonce.now }
    ensures ok { IfOk result (IsListenerMade (scram hash username.now password.now salt.now iterations nonce.now)) }
    ensures begins { IfOk result (λ x. any_server_holds passwords_for stored_for x [] []) }
    ensures err { IfErr result (IsAccountRefusal (Some (username.now, password.now))) }
{
    let nonce = nonce.try_clone(alloc)?;
    let stored = match stored_with(alloc, hash, password.as_str(), salt.as_slice(), iterations) {
        Ok(stored) => stored,
        Err(kind) => return Err(error_of(kind)),
    };
    match one_user(alloc, username, password, Some(stored)) {
        Ok(user) => Ok(ServerExchange::Scram(ScramServerExchange::new(hash, user, nonce))),
        Err(error) => Err(error),
    }
}

// The listener's exchange.
fn server_exchange(
    alloc: Global,
    acceptor: &AcceptSasl,
) -> Result<ServerExchange<OneUser, OneUser>, NegotiationError>
    requires { IsAllowedSasl acceptor.now }
    ensures ok { IfOk result (IsListenerMade (admission_of acceptor.now)) }
    ensures begins { IfOk result (λ x. any_server_holds passwords_for stored_for x [] []) }
    ensures err { IfErr result (IsAccountRefusal (account_by (admission_of acceptor.now))) }
{
    match acceptor.parts() {
        Accepting::Anonymous => Ok(ServerExchange::Init(InitServer::new(InitCheck::Anonymous))),
        Accepting::Plain { username, password } => plain_exchange(alloc, username, password),
        Accepting::Scram {
            hash,
            username,
            password,
            salt,
            iterations,
            nonce,
        } => scram_exchange(alloc, hash, username, password, salt, iterations, nonce),
    }
}

/// The exchange that is asked for. `ScramError(TextNotAllowed)` comes exactly where the user or the
/// password is outside the profile, and the other error is want of memory.
pub fn exchange_for(alloc: Global, call: SaslCall) -> Result<Authentication, NegotiationError>
    requires { IsAllowedSaslCall call }
    ensures ok { IfOk result (MadeFor call) }
    ensures begins { IfOk result (λ x. holds_by x [] []) }
    ensures err { IfErr result (IsCallRefusal call) }
{
    match call {
        SaslCall::Client { profile, hostname } => client_exchange(alloc, profile, hostname),
        SaslCall::Listener(acceptor) => match server_exchange(alloc, &acceptor) {
            Ok(exchange) => Ok(Authentication::Listener(exchange)),
            Err(error) => Err(error),
        },
    }
}
