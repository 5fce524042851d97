//! The client's end of a SASL negotiation with SCRAM (OASIS AMQP 1.0, part 5, section 5.3; RFC 5802; RFC 7677).
ghost use Rattle.std.specs.Prelude.{◌≡◌, ℕ, Some, Ok, IfOk, IfErr, OnOk};
ghost use Rattle.amqp_sasl_bodies.specs.declared.sasl_body.SaslBody.TheVariants.{Mechanisms, Challenge, Outcome};
ghost use Rattle.sasl_exchange.specs.declared.exchange.Turn.TheVariants.{Receive};
ghost use Rattle.sasl_exchange.specs.ScramClient.{client_turn, client_left, client_owes, client_holds, client_causes, client_init, ClientSame, client_mechanism, client_refusal, client_same_self, client_same_then, client_begun, IsTextAnswer};
ghost use Rattle.sasl_scram.specs.Profile.{IsAllowedUser, IsAllowedPassword, IsNonce};
ghost use Rattle.sasl_exchange.specs.ScramBodies.{challenge_body, outcome_body, Received};

use crate::bodies::{clone_hostname, is_ok, lists, symbol_of};
use crate::error::NegotiationError;
use crate::exchange::{Exchange, Turn, Verdict};
use amqp_sasl_bodies::sasl::{SaslChallenge, SaslInit, SaslMechanisms, SaslOutcome, SaslResponse};
use amqp_sasl_bodies::sasl_body::SaslBody;
use amqp_sasl_bodies::sasl_code::SaslCode;
use amqp_text::{Binary, Text};
use sasl_scram::any_client::AnyScramClient;
use sasl_scram::error::ScramErrorKind;
use sasl_scram::hash::ScramHash;
use std::alloc::{AllocError, Global};
use std::marker::Model;

/// How far a client's end of an exchange is.
#[derive(Debug, Drop)]
pub enum ClientStage {
    /// It waits for the list of mechanisms.
    AwaitsMechanisms,
    /// It owes the init.
    OwesInit,
    /// It waits for the challenge.
    AwaitsChallenge,
    /// It owes this response.
    OwesResponse(Binary),
    /// It waits for the outcome with the server final, or for the server final as a challenge.
    AwaitsOutcome,
    /// The challenge had the signature that belongs to the password: it owes an empty response.
    OwesEmptyResponse,
    /// It waits for the outcome after that response.
    AwaitsEnd,
    /// The outcome was `Ok`, and the signature was the one that belongs to the password.
    Passed,
}

/// The client's end of an exchange with SCRAM.
#[derive(Drop)]
pub struct ScramClientExchange {
    client: AnyScramClient,
    stage: ClientStage,
    hostname: Option<Text>,
}

impl Model for ScramClientExchange {
    ghost use Rattle.sasl_exchange.specs.ScramClient.{ClientEnd, IsClientStage};

    ghost Value = { ClientEnd };

    ghost view = { λ x. record { hash = x.client.hash; client = x.client.client; stage = x.stage; hostname = x.hostname } };

    ghost invariant = { λ x. IsClientStage x.stage x.client.client.phase };
}

// What comes of a text that is refused.
fn refused_text(kind: ScramErrorKind) -> Result<Verdict, AllocError>
    ensures { IsTextAnswer kind result }
{
    match kind {
        ScramErrorKind::Memory(error) => Err(error),
        _ => Ok(Verdict::Refused(NegotiationError::ScramError(kind))),
    }
}

impl ScramClientExchange {
    /// An end that has read and written nothing (part 5, section 5.3.2). `nonce` is to be new for each exchange (RFC 5802,
    /// section 5.1). `TextNotAllowed` comes exactly where user or password is outside the profile; takes no memory.
    pub fn new(
        hash: ScramHash,
        user: Text,
        password: Text,
        nonce: Text,
        hostname: Option<Text>,
    ) -> Result<Self, ScramErrorKind>
        requires { IsNonce nonce }
        ensures ok { IfOk result (λ x. x ≡ client_begun hash user password nonce hostname) }
        ensures allowed { OnOk result (IsAllowedUser user × IsAllowedPassword password) }
        ensures err { IfErr result (λ e. (e ≡ ScramErrorKind.TextNotAllowed) × (¬ (IsAllowedUser user × IsAllowedPassword password))) }
    {
        match AnyScramClient::new(hash, user, password, nonce) {
            Ok(client) => Ok(ScramClientExchange {
                client,
                stage: ClientStage::AwaitsMechanisms,
                hostname,
            }),
            Err(kind) => Err(kind),
        }
    }

    // The init.
    fn init(&self, alloc: Global) -> Result<SaslBody, AllocError>
        ensures { IfOk result (λ body. body ≡ client_init self.now) }
    {
        let text = match self.client.first(alloc) {
            Ok(text) => text,
            Err(_) => return Err(AllocError),
        };
        let mechanism = symbol_of(alloc, self.client.hash().mechanism().as_bytes())?;
        let hostname = clone_hostname(alloc, &self.hostname)?;
        Ok(SaslBody::Init(SaslInit {
            mechanism,
            initial_response: Some(text),
            hostname,
        }))
    }

    fn on_mechanisms(&mut self, mechanisms: SaslMechanisms) -> Verdict
        requires { client_turn self.old ≡ Receive }
        ensures { Received client_mechanism self.old (Mechanisms mechanisms) (Ok result) self.new }
    {
        match &self.stage {
            ClientStage::AwaitsMechanisms => {}
            _ => return Verdict::Refused(NegotiationError::IllegalState),
        }
        if !lists(
            self.client.hash().mechanism().as_bytes(),
            mechanisms.sasl_server_mechanisms.as_slice(),
        ) {
            return Verdict::Refused(NegotiationError::NotImplemented);
        }
        self.stage = ClientStage::OwesInit;
        Verdict::Taken
    }

    fn on_challenge(
        &mut self,
        alloc: Global,
        challenge: SaslChallenge,
    ) -> Result<Verdict, AllocError>
        requires { client_turn self.old ≡ Receive }
        ensures { Received client_mechanism self.old (Challenge challenge) result self.new }
    {
        match &self.stage {
            ClientStage::AwaitsChallenge => self.on_server_first(alloc, challenge.challenge),
            ClientStage::AwaitsOutcome => Ok(self.on_challenge_final(challenge.challenge)),
            _ => Ok(Verdict::Refused(NegotiationError::IllegalState)),
        }
    }

    // Takes the server first.
    fn on_server_first(&mut self, alloc: Global, text: Binary) -> Result<Verdict, AllocError>
        requires { self.old.stage ≡ ClientStage.AwaitsChallenge }
        ensures { Received client_mechanism self.old (challenge_body text) result self.new }
    {
        match self.client.on_server_first(alloc, text.as_slice()) {
            Ok(text) => {
                self.stage = ClientStage::OwesResponse(text);
                Ok(Verdict::Taken)
            }
            Err(kind) => refused_text(kind),
        }
    }

    // Takes the server final that came as a challenge.
    fn on_challenge_final(&mut self, text: Binary) -> Verdict
        requires { self.old.stage ≡ ClientStage.AwaitsOutcome }
        ensures { Received client_mechanism self.old (challenge_body text) (Ok result) self.new }
    {
        match self.client.on_server_final(text.as_slice()) {
            Ok(()) => {
                self.stage = ClientStage::OwesEmptyResponse;
                Verdict::Taken
            }
            Err(kind) => Verdict::Refused(NegotiationError::ScramError(kind)),
        }
    }

    fn on_outcome(&mut self, outcome: SaslOutcome) -> Verdict
        requires { client_turn self.old ≡ Receive }
        ensures { Received client_mechanism self.old (Outcome outcome) (Ok result) self.new }
    {
        if !is_ok(outcome.code) {
            return Verdict::Refused(NegotiationError::SaslError {
                code: outcome.code,
                additional_data: outcome.additional_data,
            });
        }
        match &self.stage {
            ClientStage::AwaitsOutcome => self.on_success(outcome.additional_data),
            ClientStage::AwaitsEnd => self.pass(),
            _ => Verdict::Refused(NegotiationError::IllegalState),
        }
    }

    // Takes outcome `Ok` after the empty response.
    fn pass(&mut self) -> Verdict
        ensures passed { self.new ≡ record self.old { stage = ClientStage.Passed } }
        ensures taken { result ≡ Verdict.Taken }
    {
        self.stage = ClientStage::Passed;
        Verdict::Taken
    }

    // Takes what came with outcome `Ok`, which is to be the server final.
    fn on_success(&mut self, payload: Option<Binary>) -> Verdict
        requires { self.old.stage ≡ ClientStage.AwaitsOutcome }
        ensures { Received client_mechanism self.old (outcome_body SaslCode.Ok payload) (Ok result) self.new }
    {
        match payload {
            Some(text) => self.on_outcome_final(text),
            None => Verdict::Refused(NegotiationError::ScramError(ScramErrorKind::Signature)),
        }
    }

    // Takes the server final that came with outcome `Ok`.
    fn on_outcome_final(&mut self, text: Binary) -> Verdict
        requires { self.old.stage ≡ ClientStage.AwaitsOutcome }
        ensures { Received client_mechanism self.old (outcome_body SaslCode.Ok (Some text)) (Ok result) self.new }
    {
        match self.client.on_server_final(text.as_slice()) {
            Ok(()) => {
                self.stage = ClientStage::Passed;
                Verdict::Taken
            }
            Err(kind) => Verdict::Refused(NegotiationError::ScramError(kind)),
        }
    }
}

impl Exchange for ScramClientExchange {
    ghost holds = { client_holds };

    ghost causes = { client_causes };

    ghost owes = { client_owes };

    ghost turn_of = { client_turn };

    ghost left = { client_left };

    ghost same = { ClientSame };

    fn turn(&self) -> Turn {
        match &self.stage {
            ClientStage::AwaitsMechanisms => Turn::Receive,
            ClientStage::OwesInit => Turn::Send,
            ClientStage::AwaitsChallenge => Turn::Receive,
            ClientStage::OwesResponse(_) => Turn::Send,
            ClientStage::AwaitsOutcome => Turn::Receive,
            ClientStage::OwesEmptyResponse => Turn::Send,
            ClientStage::AwaitsEnd => Turn::Receive,
            ClientStage::Passed => Turn::Pass,
        }
    }

    fn next_body(&self, alloc: Global) -> Result<SaslBody, AllocError> {
        match &self.stage {
            ClientStage::OwesInit => self.init(alloc),
            ClientStage::OwesResponse(text) => {
                let response = text.try_clone(alloc)?;
                Ok(SaslBody::Response(SaslResponse { response }))
            }
            ClientStage::OwesEmptyResponse => Ok(SaslBody::Response(SaslResponse {
                response: Binary::new(alloc),
            })),
            _ => unreachable!(),
        }
    }

    fn on_sent(&mut self) {
        match &self.stage {
            ClientStage::OwesInit => self.stage = ClientStage::AwaitsChallenge,
            ClientStage::OwesResponse(_) => self.stage = ClientStage::AwaitsOutcome,
            ClientStage::OwesEmptyResponse => self.stage = ClientStage::AwaitsEnd,
            _ => unreachable!(),
        }
    }

    fn on_body(&mut self, alloc: Global, body: SaslBody) -> Result<Verdict, AllocError> {
        match body {
            SaslBody::Mechanisms(mechanisms) => Ok(self.on_mechanisms(mechanisms)),
            SaslBody::Challenge(challenge) => self.on_challenge(alloc, challenge),
            SaslBody::Outcome(outcome) => Ok(self.on_outcome(outcome)),
            SaslBody::Init(_) => Ok(Verdict::Refused(NegotiationError::IllegalState)),
            SaslBody::Response(_) => Ok(Verdict::Refused(NegotiationError::IllegalState)),
        }
    }

    ghost refusal = { client_refusal };

    ghost same_self = { client_same_self };

    ghost same_then = { client_same_then };
}
