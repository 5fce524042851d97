//! The listener's end of a SASL negotiation with SCRAM (OASIS AMQP 1.0, part 5, section 5.3; RFC 5802; RFC 7677).
ghost use Rattle.std.specs.Prelude.{◌≡◌, ◌≢◌, ◌⊎◌, ℕ, List, Option, Some, None, IfSome, IfNone};
ghost use Rattle.amqp_sasl_bodies.specs.declared.sasl_body.SaslBody.TheVariants.{Init, Response};
ghost use Rattle.sasl_exchange.specs.declared.exchange.Turn.TheVariants.{Receive};
ghost use Rattle.sasl_exchange.specs.ScramServer.{server_turn, server_left, server_owes, server_holds, server_causes, ServerSame, server_mechanism, server_refusal, server_same_self, server_same_then, server_begun, IsTextAnswer};
ghost use Rattle.sasl_scram.specs.Hashes.{mechanism_of};
ghost use Rattle.sasl_scram.specs.Profile.{IsNonce};
ghost use Rattle.sasl_exchange.specs.ScramBodies.{init_body, Received};

use crate::bodies::{is_named, list_of};
use crate::exchange::{Exchange, Turn, Verdict};
use amqp_sasl_bodies::sasl::{SaslChallenge, SaslInit, SaslOutcome, SaslResponse};
use amqp_sasl_bodies::sasl_body::SaslBody;
use amqp_sasl_bodies::sasl_code::SaslCode;
use amqp_text::{Binary, Text};
use sasl_scram::any_server::AnyScramServer;
use sasl_scram::error::ScramErrorKind;
use sasl_scram::hash::ScramHash;
use sasl_scram::provider::ScramCredentialProvider;
use std::alloc::{AllocError, Global};
use std::marker::Model;

/// How far a listener's end of an exchange is.
#[derive(Debug, Drop)]
pub enum ServerStage {
    /// It owes the list of mechanisms.
    OwesMechanisms,
    /// It waits for the init.
    AwaitsInit,
    /// It owes this challenge.
    OwesChallenge(Binary),
    /// It waits for the response.
    AwaitsResponse,
    /// It owes outcome `Ok` with this server final.
    OwesOutcome(Binary),
    /// It sent outcome `Ok`: the response had a proof of the password.
    Passed,
    /// It owes an outcome with this code and no data.
    OwesRefusal(SaslCode),
    /// It sent that outcome.
    Refused(SaslCode),
}

/// The listener's end of an exchange with SCRAM, with the users of `P`.
#[derive(Drop)]
pub struct ScramServerExchange<P: ScramCredentialProvider> {
    server: AnyScramServer<P>,
    stage: ServerStage,
}

impl<P: ScramCredentialProvider> Model for ScramServerExchange<P> {
    ghost use Rattle.sasl_exchange.specs.ScramServer.{ServerEnd, IsServerStage};

    ghost Value = { ServerEnd P };

    ghost view = { λ x. record { hash = x.server.hash; server = x.server.server; stage = x.stage } };

    ghost invariant = { λ x. IsServerStage x.stage x.server.server.phase };
}

// The client first of an init of the own mechanism, if it has one.
fn own_client_first(hash: ScramHash, init: SaslInit) -> Option<Binary>
    ensures some { IfSome result (λ text. Init init ≡ init_body (mechanism_of hash) (Some text) init.hostname) }
    ensures none { IfNone result ((init.mechanism ≢ mechanism_of hash) ⊎ (init.initial_response ≡ None)) }
{
    let SaslInit {
        mechanism,
        initial_response,
        ..
    } = init;
    if is_named(hash.mechanism().as_bytes(), &mechanism) {
        initial_response
    } else {
        None
    }
}

impl<P: ScramCredentialProvider> ScramServerExchange<P> {
    /// An end that has read and written nothing, with the users of `provider` (part 5, section 5.3.2), which offers the
    /// mechanism of `hash`. `nonce` is to be new for each exchange (RFC 5802, section 5.1); takes no memory.
    pub fn new(hash: ScramHash, provider: P, nonce: Text) -> Self
        requires { IsNonce nonce }
        ensures { result ≡ server_begun hash provider nonce }
    {
        ScramServerExchange {
            server: AnyScramServer::new(hash, provider, nonce),
            stage: ServerStage::OwesMechanisms,
        }
    }

    // A body is not taken: the outcome with this code is owed.
    fn refuse(&mut self, code: SaslCode)
        ensures { self.new ≡ record self.old { stage = ServerStage.OwesRefusal code } }
    {
        self.stage = ServerStage::OwesRefusal(code);
    }

    // A text is not taken, unless memory was wanting.
    fn refuse_text(&mut self, kind: ScramErrorKind) -> Result<Verdict, AllocError>
        ensures { IsTextAnswer kind self.old result self.new }
    {
        match kind {
            ScramErrorKind::Memory(error) => Err(error),
            _ => {
                self.refuse(SaslCode::Auth);
                Ok(Verdict::Taken)
            }
        }
    }

    fn on_init(&mut self, alloc: Global, init: SaslInit) -> Result<Verdict, AllocError>
        requires { server_turn self.old ≡ Receive }
        ensures { Received (server_mechanism P.stored) self.old (Init init) result self.new }
    {
        match &self.stage {
            ServerStage::AwaitsInit => {}
            _ => {
                self.refuse(SaslCode::Auth);
                return Ok(Verdict::Taken);
            }
        }
        match own_client_first(self.server.hash(), init) {
            Some(text) => self.on_client_first(alloc, text),
            None => {
                self.refuse(SaslCode::Auth);
                Ok(Verdict::Taken)
            }
        }
    }

    // Takes the client first that came with an init of the own mechanism.
    fn on_client_first(&mut self, alloc: Global, text: Binary) -> Result<Verdict, AllocError>
        requires { self.old.stage ≡ ServerStage.AwaitsInit }
        ensures { (hostname : Option (List ℕ)) → Received (server_mechanism P.stored) self.old (init_body (mechanism_of self.old.hash) (Some text) hostname) result self.new }
    {
        match self.server.on_client_first(alloc, text.as_slice()) {
            Ok(challenge) => {
                self.stage = ServerStage::OwesChallenge(challenge);
                Ok(Verdict::Taken)
            }
            Err(kind) => self.refuse_text(kind),
        }
    }

    fn on_response(&mut self, alloc: Global, response: SaslResponse) -> Result<Verdict, AllocError>
        requires { server_turn self.old ≡ Receive }
        ensures { Received (server_mechanism P.stored) self.old (Response response) result self.new }
    {
        match &self.stage {
            ServerStage::AwaitsResponse => {}
            _ => {
                self.refuse(SaslCode::Auth);
                return Ok(Verdict::Taken);
            }
        }
        match self
            .server
            .on_client_final(alloc, response.response.as_slice())
        {
            Ok(text) => {
                self.stage = ServerStage::OwesOutcome(text);
                Ok(Verdict::Taken)
            }
            Err(kind) => self.refuse_text(kind),
        }
    }
}

impl<P: ScramCredentialProvider> Exchange for ScramServerExchange<P> {
    ghost holds = { server_holds P.stored };

    ghost causes = { server_causes P.stored };

    ghost owes = { server_owes };

    ghost turn_of = { server_turn };

    ghost left = { server_left };

    ghost same = { ServerSame };

    fn turn(&self) -> Turn {
        match &self.stage {
            ServerStage::OwesMechanisms => Turn::Send,
            ServerStage::AwaitsInit => Turn::Receive,
            ServerStage::OwesChallenge(_) => Turn::Send,
            ServerStage::AwaitsResponse => Turn::Receive,
            ServerStage::OwesOutcome(_) => Turn::Send,
            ServerStage::Passed => Turn::Pass,
            ServerStage::OwesRefusal(_) => Turn::Send,
            ServerStage::Refused(code) => Turn::Refuse(*code),
        }
    }

    fn next_body(&self, alloc: Global) -> Result<SaslBody, AllocError> {
        match &self.stage {
            ServerStage::OwesMechanisms => {
                list_of(alloc, self.server.hash().mechanism().as_bytes())
            }
            ServerStage::OwesChallenge(text) => {
                let challenge = text.try_clone(alloc)?;
                Ok(SaslBody::Challenge(SaslChallenge { challenge }))
            }
            ServerStage::OwesOutcome(text) => {
                let text = text.try_clone(alloc)?;
                Ok(SaslBody::Outcome(SaslOutcome {
                    code: SaslCode::Ok,
                    additional_data: Some(text),
                }))
            }
            ServerStage::OwesRefusal(code) => Ok(SaslBody::Outcome(SaslOutcome {
                code: *code,
                additional_data: None,
            })),
            _ => unreachable!(),
        }
    }

    fn on_sent(&mut self) {
        match &self.stage {
            ServerStage::OwesMechanisms => self.stage = ServerStage::AwaitsInit,
            ServerStage::OwesChallenge(_) => self.stage = ServerStage::AwaitsResponse,
            ServerStage::OwesOutcome(_) => self.stage = ServerStage::Passed,
            ServerStage::OwesRefusal(code) => self.stage = ServerStage::Refused(*code),
            _ => unreachable!(),
        }
    }

    fn on_body(&mut self, alloc: Global, body: SaslBody) -> Result<Verdict, AllocError> {
        match body {
            SaslBody::Init(init) => self.on_init(alloc, init),
            SaslBody::Response(response) => self.on_response(alloc, response),
            SaslBody::Mechanisms(_) => {
                self.refuse(SaslCode::Sys);
                Ok(Verdict::Taken)
            }
            SaslBody::Challenge(_) => {
                self.refuse(SaslCode::Sys);
                Ok(Verdict::Taken)
            }
            SaslBody::Outcome(_) => {
                self.refuse(SaslCode::Sys);
                Ok(Verdict::Taken)
            }
        }
    }

    ghost refusal = { server_refusal P.stored };

    ghost same_self = { server_same_self };

    ghost same_then = { server_same_then };
}
