//! The client's end of a SASL negotiation whose client says all in its init: ANONYMOUS (RFC 4505) or PLAIN (RFC 4616);
//! OASIS AMQP 1.0, part 5, section 5.3.
ghost use Rattle.std.specs.Prelude.{◌≡◌, Some, None, Ok, IfOk, IfErr, OnOk};
ghost use Rattle.amqp_sasl_bodies.specs.declared.sasl_body.SaslBody.TheVariants.{Mechanisms, Outcome};
ghost use Rattle.sasl_exchange.specs.declared.exchange.Turn.TheVariants.{Receive};
ghost use Rattle.sasl_exchange.specs.InitClient.{init_client_turn, init_client_left, init_client_owes, init_client_holds, init_client_causes, InitClientSame, init_client_mechanism, init_client_refusal, init_client_same_self, init_client_same_then, init_client_begun, own_init};
ghost use Rattle.sasl_exchange.specs.InitTexts.{anonymous_name, plain_name, plain_of};
ghost use Rattle.sasl_scram.specs.Profile.{IsAllowedUser, IsAllowedPassword};
ghost use Rattle.sasl_scram.specs.Refusals.{IsTextRefusal};
ghost use Rattle.sasl_exchange.specs.ScramBodies.{Received};

use crate::bodies::{clone_data, clone_hostname, is_ok, lists, symbol_of};
use crate::error::NegotiationError;
use crate::exchange::{Exchange, Turn, Verdict};
use crate::init_texts::{ANONYMOUS, PLAIN, plain_message};
use amqp_sasl_bodies::sasl::{SaslInit, SaslMechanisms, SaslOutcome};
use amqp_sasl_bodies::sasl_body::SaslBody;
use amqp_text::{Binary, Symbol, Text};
use sasl_scram::error::ScramErrorKind;
use sasl_scram::profile::{is_allowed_password, is_allowed_user};
use std::alloc::{AllocError, Global};
use std::marker::Model;

/// How far such a client's end is.
#[derive(Clone, Copy, Debug, PartialEq, Eq)]
pub enum InitClientStage {
    /// It waits for the list of mechanisms.
    AwaitsMechanisms,
    /// It owes the init.
    OwesInit,
    /// It waits for the outcome.
    AwaitsOutcome,
    /// The outcome was `Ok`.
    Passed,
}

/// The client's end of an exchange whose client says all in its init.
#[derive(Drop)]
pub struct InitClient {
    mechanism: Symbol,
    response: Option<Binary>,
    hostname: Option<Text>,
    stage: InitClientStage,
}

impl Model for InitClient {
    ghost use Rattle.sasl_exchange.specs.InitClient.{InitClientEnd};

    ghost Value = { InitClientEnd };

    ghost view = { λ x. record { mechanism = x.mechanism; response = x.response; hostname = x.hostname; stage = x.stage } };
}

impl InitClient {
    /// An end with ANONYMOUS that has read and written nothing, and says nothing of its user; the one error is want of
    /// memory.
    pub fn anonymous(alloc: Global, hostname: Option<Text>) -> Result<Self, AllocError>
        ensures { IfOk result (λ x. x ≡ init_client_begun anonymous_name None hostname) }
    {
        let mechanism = symbol_of(alloc, ANONYMOUS.as_bytes())?;
        Ok(InitClient {
            mechanism,
            response: None,
            hostname,
            stage: InitClientStage::AwaitsMechanisms,
        })
    }

    /// An end with PLAIN that has read and written nothing. `TextNotAllowed` comes exactly where user or password is
    /// outside the profile, and the other error is want of memory.
    pub fn plain(
        alloc: Global,
        username: &str,
        password: &str,
        hostname: Option<Text>,
    ) -> Result<Self, ScramErrorKind>
        ensures ok { IfOk result (λ x. x ≡ init_client_begun plain_name (Some (plain_of username.now password.now)) hostname) }
        ensures allowed { OnOk result (IsAllowedUser username.now × IsAllowedPassword password.now) }
        ensures err { IfErr result (λ e. IsTextRefusal (IsAllowedUser username.now × IsAllowedPassword password.now) e) }
    {
        if !is_allowed_user(username.as_bytes()) || !is_allowed_password(password.as_bytes()) {
            return Err(ScramErrorKind::TextNotAllowed);
        }
        let mechanism = symbol_of(alloc, PLAIN.as_bytes())?;
        let response = plain_message(alloc, username.as_bytes(), password.as_bytes())?;
        Ok(InitClient {
            mechanism,
            response: Some(response),
            hostname,
            stage: InitClientStage::AwaitsMechanisms,
        })
    }

    // The init.
    fn init(&self, alloc: Global) -> Result<SaslBody, AllocError>
        ensures { IfOk result (λ body. body ≡ own_init self.now) }
    {
        let mechanism = symbol_of(alloc, self.mechanism.as_slice())?;
        let initial_response = clone_data(alloc, &self.response)?;
        let hostname = clone_hostname(alloc, &self.hostname)?;
        Ok(SaslBody::Init(SaslInit {
            mechanism,
            initial_response,
            hostname,
        }))
    }

    fn on_mechanisms(&mut self, mechanisms: SaslMechanisms) -> Verdict
        requires { init_client_turn self.old ≡ Receive }
        ensures { Received init_client_mechanism self.old (Mechanisms mechanisms) (Ok result) self.new }
    {
        match self.stage {
            InitClientStage::AwaitsMechanisms => {}
            _ => return Verdict::Refused(NegotiationError::IllegalState),
        }
        if !lists(
            self.mechanism.as_slice(),
            mechanisms.sasl_server_mechanisms.as_slice(),
        ) {
            return Verdict::Refused(NegotiationError::NotImplemented);
        }
        self.stage = InitClientStage::OwesInit;
        Verdict::Taken
    }

    fn on_outcome(&mut self, outcome: SaslOutcome) -> Verdict
        requires { init_client_turn self.old ≡ Receive }
        ensures { Received init_client_mechanism self.old (Outcome outcome) (Ok result) self.new }
    {
        if !is_ok(outcome.code) {
            return Verdict::Refused(NegotiationError::SaslError {
                code: outcome.code,
                additional_data: outcome.additional_data,
            });
        }
        match self.stage {
            InitClientStage::AwaitsOutcome => {
                self.stage = InitClientStage::Passed;
                Verdict::Taken
            }
            _ => Verdict::Refused(NegotiationError::IllegalState),
        }
    }
}

impl Exchange for InitClient {
    ghost holds = { init_client_holds };

    ghost causes = { init_client_causes };

    ghost owes = { init_client_owes };

    ghost turn_of = { init_client_turn };

    ghost left = { init_client_left };

    ghost same = { InitClientSame };

    fn turn(&self) -> Turn {
        match self.stage {
            InitClientStage::AwaitsMechanisms => Turn::Receive,
            InitClientStage::OwesInit => Turn::Send,
            InitClientStage::AwaitsOutcome => Turn::Receive,
            InitClientStage::Passed => Turn::Pass,
        }
    }

    fn next_body(&self, alloc: Global) -> Result<SaslBody, AllocError> {
        self.init(alloc)
    }

    fn on_sent(&mut self) {
        self.stage = InitClientStage::AwaitsOutcome;
    }

    fn on_body(&mut self, alloc: Global, body: SaslBody) -> Result<Verdict, AllocError> {
        let _ = alloc;
        match body {
            SaslBody::Mechanisms(mechanisms) => Ok(self.on_mechanisms(mechanisms)),
            SaslBody::Outcome(outcome) => Ok(self.on_outcome(outcome)),
            SaslBody::Challenge(_) => Ok(Verdict::Refused(NegotiationError::IllegalState)),
            SaslBody::Init(_) => Ok(Verdict::Refused(NegotiationError::IllegalState)),
            SaslBody::Response(_) => Ok(Verdict::Refused(NegotiationError::IllegalState)),
        }
    }

    ghost refusal = { init_client_refusal };

    ghost same_self = { init_client_same_self };

    ghost same_then = { init_client_same_then };
}
