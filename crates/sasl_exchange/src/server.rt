//! The listener's end of an exchange with any of the mechanisms (OASIS AMQP 1.0, part 5, section 5.3).
ghost use Rattle.std.specs.Prelude.{◌≡◌};
ghost use Rattle.sasl_exchange.specs.AnyServer.{any_server_holds, any_server_causes, any_server_owes, any_server_turn, any_server_left, any_server_same, any_server_refusal, any_server_same_self, any_server_same_then, HasMechanism, IsServerBegun};

use crate::acceptor::SaslAcceptor;
use crate::exchange::{Exchange, Turn, Verdict};
use crate::init_server::{InitCheck, InitServer};
use crate::scram_server::ScramServerExchange;
use amqp_sasl_bodies::sasl_body::SaslBody;
use sasl_scram::hash::ScramHash;
use sasl_scram::provider::{PlainCredentialProvider, ScramCredentialProvider};
use std::alloc::{AllocError, Global};

/// The listener's end of an exchange, with the users of `Q` or `P`.
#[derive(Drop)]
pub enum ServerExchange<Q: PlainCredentialProvider, P: ScramCredentialProvider> {
    /// With SCRAM.
    Scram(ScramServerExchange<P>),
    /// With a mechanism whose client says all in its init.
    Init(InitServer<Q>),
}

impl<Q: PlainCredentialProvider, P: ScramCredentialProvider> ServerExchange<Q, P> {
    /// An end that has read and written nothing, for an acceptor with a mechanism (part 5, section 5.3.2). A nonce is to
    /// be new for each exchange (RFC 5802, section 5.1); takes no memory.
    pub fn new(acceptor: SaslAcceptor<Q, P>) -> Self
        requires { HasMechanism acceptor }
        ensures { IsServerBegun acceptor result }
    {
        match acceptor {
            SaslAcceptor::NoSasl => unreachable!(),
            SaslAcceptor::Anonymous => {
                ServerExchange::Init(InitServer::new(InitCheck::Anonymous))
            }
            SaslAcceptor::Plain(users) => {
                ServerExchange::Init(InitServer::new(InitCheck::Plain(users)))
            }
            SaslAcceptor::ScramSha1(users, nonce) => {
                ServerExchange::Scram(ScramServerExchange::new(ScramHash::Sha1, users, nonce))
            }
            SaslAcceptor::ScramSha256(users, nonce) => {
                ServerExchange::Scram(ScramServerExchange::new(ScramHash::Sha256, users, nonce))
            }
            SaslAcceptor::ScramSha512(users, nonce) => {
                ServerExchange::Scram(ScramServerExchange::new(ScramHash::Sha512, users, nonce))
            }
        }
    }
}

impl<Q: PlainCredentialProvider, P: ScramCredentialProvider> Exchange for ServerExchange<Q, P> {
    ghost holds = { any_server_holds Q.passwords P.stored };

    ghost causes = { any_server_causes Q.passwords P.stored };

    ghost owes = { any_server_owes };

    ghost turn_of = { any_server_turn };

    ghost left = { any_server_left };

    ghost same = { any_server_same };

    fn turn(&self) -> Turn {
        match self {
            ServerExchange::Scram(exchange) => exchange.turn(),
            ServerExchange::Init(exchange) => exchange.turn(),
        }
    }

    fn next_body(&self, alloc: Global) -> Result<SaslBody, AllocError> {
        match self {
            ServerExchange::Scram(exchange) => exchange.next_body(alloc),
            ServerExchange::Init(exchange) => exchange.next_body(alloc),
        }
    }

    fn on_sent(&mut self) {
        match self {
            ServerExchange::Scram(exchange) => exchange.on_sent(),
            ServerExchange::Init(exchange) => exchange.on_sent(),
        }
    }

    fn on_body(&mut self, alloc: Global, body: SaslBody) -> Result<Verdict, AllocError> {
        match self {
            ServerExchange::Scram(exchange) => exchange.on_body(alloc, body),
            ServerExchange::Init(exchange) => exchange.on_body(alloc, body),
        }
    }

    ghost refusal = { any_server_refusal Q.passwords P.stored };

    ghost same_self = { any_server_same_self };

    ghost same_then = { any_server_same_then };
}
