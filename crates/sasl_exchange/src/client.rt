//! The client's end of an exchange with any of the mechanisms (OASIS AMQP 1.0, part 5, section 5.3).
ghost use Rattle.std.specs.Prelude.{◌≡◌, Some, None, IfOk, IfErr, OnOk};
ghost use Rattle.sasl_exchange.specs.AnyClient.{any_client_holds, any_client_causes, any_client_owes, any_client_turn, any_client_left, any_client_same, any_client_refusal, any_client_same_self, any_client_same_then, any_client_begun};
ghost use Rattle.sasl_exchange.specs.Credentials.{credentials_of, IsAllowedTexts, HasNonce, scram};
ghost use Rattle.sasl_scram.specs.Profile.{IsNonce};
ghost use Rattle.sasl_scram.specs.Refusals.{IsTextRefusal};

use crate::exchange::{Exchange, Turn, Verdict};
use crate::init_client::InitClient;
use crate::profile::SaslProfile;
use crate::scram_client::ScramClientExchange;
use amqp_sasl_bodies::sasl_body::SaslBody;
use amqp_text::Text;
use sasl_scram::error::ScramErrorKind;
use sasl_scram::hash::ScramHash;
use std::alloc::{AllocError, Global};

/// The client's end of an exchange.
#[derive(Drop)]
pub enum ClientExchange {
    /// With SCRAM.
    Scram(ScramClientExchange),
    /// With a mechanism whose client says all in its init.
    Init(InitClient),
}

// The end with SCRAM.
#[tactic(auto, using(crate::proofs::AnyClients::text_refused))]
fn scram_exchange(
    hash: ScramHash,
    username: Text,
    password: Text,
    nonce: Text,
    hostname: Option<Text>,
) -> Result<ClientExchange, ScramErrorKind>
    requires { IsNonce nonce }
    ensures ok { IfOk result (λ x. x ≡ any_client_begun (scram hash username password nonce) hostname) }
    ensures allowed { OnOk result (IsAllowedTexts (scram hash username password nonce)) }
    ensures err { IfErr result (λ e. IsTextRefusal (IsAllowedTexts (scram hash username password nonce)) e) }
{
    match ScramClientExchange::new(hash, username, password, nonce, hostname) {
        Ok(exchange) => Ok(ClientExchange::Scram(exchange)),
        Err(kind) => Err(kind),
    }
}

impl ClientExchange {
    /// An end that has read and written nothing (part 5, section 5.3.2). `TextNotAllowed` comes exactly where user or
    /// password is outside the profile, and the other error is want of memory.
    pub fn new(
        alloc: Global,
        profile: SaslProfile,
        hostname: Option<Text>,
    ) -> Result<Self, ScramErrorKind>
        requires { HasNonce (credentials_of profile) }
        ensures ok { IfOk result (λ x. x ≡ any_client_begun (credentials_of profile) hostname) }
        ensures allowed { OnOk result (IsAllowedTexts (credentials_of profile)) }
        ensures err { IfErr result (λ e. IsTextRefusal (IsAllowedTexts (credentials_of profile)) e) }
    {
        match profile {
            SaslProfile::Anonymous => match InitClient::anonymous(alloc, hostname) {
                Ok(exchange) => Ok(ClientExchange::Init(exchange)),
                Err(error) => Err(ScramErrorKind::Memory(error)),
            },
            SaslProfile::Plain { username, password } => {
                match InitClient::plain(alloc, username.as_str(), password.as_str(), hostname) {
                    Ok(exchange) => Ok(ClientExchange::Init(exchange)),
                    Err(kind) => Err(kind),
                }
            }
            SaslProfile::ScramSha1 {
                username,
                password,
                nonce,
            } => scram_exchange(ScramHash::Sha1, username, password, nonce, hostname),
            SaslProfile::ScramSha256 {
                username,
                password,
                nonce,
            } => scram_exchange(ScramHash::Sha256, username, password, nonce, hostname),
            SaslProfile::ScramSha512 {
                username,
                password,
                nonce,
            } => scram_exchange(ScramHash::Sha512, username, password, nonce, hostname),
        }
    }
}

impl Exchange for ClientExchange {
    ghost holds = { any_client_holds };

    ghost causes = { any_client_causes };

    ghost owes = { any_client_owes };

    ghost turn_of = { any_client_turn };

    ghost left = { any_client_left };

    ghost same = { any_client_same };

    fn turn(&self) -> Turn {
        match self {
            ClientExchange::Scram(exchange) => exchange.turn(),
            ClientExchange::Init(exchange) => exchange.turn(),
        }
    }

    fn next_body(&self, alloc: Global) -> Result<SaslBody, AllocError> {
        match self {
            ClientExchange::Scram(exchange) => exchange.next_body(alloc),
            ClientExchange::Init(exchange) => exchange.next_body(alloc),
        }
    }

    fn on_sent(&mut self) {
        match self {
            ClientExchange::Scram(exchange) => exchange.on_sent(),
            ClientExchange::Init(exchange) => exchange.on_sent(),
        }
    }

    fn on_body(&mut self, alloc: Global, body: SaslBody) -> Result<Verdict, AllocError> {
        match self {
            ClientExchange::Scram(exchange) => exchange.on_body(alloc, body),
            ClientExchange::Init(exchange) => exchange.on_body(alloc, body),
        }
    }

    ghost refusal = { any_client_refusal };

    ghost same_self = { any_client_same_self };

    ghost same_then = { any_client_same_then };
}
