//! The listener's end of a SASL negotiation whose client says all in its init: ANONYMOUS (RFC 4505) or PLAIN (RFC 4616);
//! OASIS AMQP 1.0, part 5, section 5.3.
ghost use Rattle.std.specs.Prelude.{◌≡◌, ◌↔◌, ◌<◌, Some, All, IsTrue, IsUtf8};
ghost use Rattle.amqp_sasl_bodies.specs.declared.sasl_body.SaslBody.TheVariants.{Init};
ghost use Rattle.sasl_exchange.specs.InitServer.{init_server_turn, init_server_left, init_server_owes, init_server_holds, init_server_causes, InitServerSame, init_server_refusal, init_server_same_self, init_server_same_then, init_server_begun, check_name, IsPassing, IsJudged};

use crate::bodies::{is_named, list_of};
use crate::exchange::{Exchange, Turn, Verdict};
use crate::init_texts::{ANONYMOUS, PLAIN, read_plain};
use amqp_sasl_bodies::sasl::{SaslInit, SaslOutcome};
use amqp_sasl_bodies::sasl_body::SaslBody;
use amqp_sasl_bodies::sasl_code::SaslCode;
use sasl_scram::provider::PlainCredentialProvider;
use std::alloc::{AllocError, Global};
use std::marker::Model;
use std::str;

/// What a listener asks of an init.
#[derive(Drop)]
pub enum InitCheck<Q: PlainCredentialProvider> {
    /// That it is for ANONYMOUS (RFC 4505): anybody passes.
    Anonymous,
    /// That it is for PLAIN (RFC 4616), with a user of the provider and that user's password.
    Plain(Q),
}

/// How far such a listener's end is.
#[derive(Clone, Copy, Debug, PartialEq, Eq)]
pub enum InitServerStage {
    /// It owes the list of mechanisms.
    OwesMechanisms,
    /// It waits for the init.
    AwaitsInit,
    /// It owes an outcome with this code and no data.
    OwesOutcome(SaslCode),
    /// It sent that outcome.
    Told(SaslCode),
}

/// The listener's end of an exchange whose client says all in its init.
#[derive(Drop)]
pub struct InitServer<Q: PlainCredentialProvider> {
    check: InitCheck<Q>,
    stage: InitServerStage,
}

impl<Q: PlainCredentialProvider> Model for InitServer<Q> {
    ghost use Rattle.sasl_exchange.specs.InitServer.{InitServerEnd};

    ghost Value = { InitServerEnd Q };

    ghost view = { λ x. record { check = x.check; stage = x.stage } };
}

// Whether a user has this password; users whose names are not UTF-8 are none.
fn has_password<Q: PlainCredentialProvider>(provider: &Q, user: &[u8], password: &[u8]) -> bool
    ensures { IsTrue result ↔ (IsUtf8 user.now × (Q.passwords provider.now user.now ≡ Some password.now)) }
{
    let Ok(user) = str::from_utf8(user) else {
        return false;
    };
    match provider.get(user) {
        Some(own) => own.as_bytes() == password,
        None => false,
    }
}

impl<Q: PlainCredentialProvider> InitCheck<Q> {
    // The mechanism's name.
    fn name(&self) -> &'static str
        ensures value { result.now ≡ check_name self.now }
        ensures ascii { All (λ b. b < 128) result.now }
    {
        match self {
            InitCheck::Anonymous => ANONYMOUS,
            InitCheck::Plain(_) => PLAIN,
        }
    }

    // Whether an init of the own mechanism passes.
    fn takes(&self, init: &SaslInit) -> bool
        requires { init.now.mechanism ≡ check_name self.now }
        ensures { IsTrue result ↔ IsPassing Q.passwords self.now (Init init.now) }
    {
        let InitCheck::Plain(provider) = self else {
            return true;
        };
        let Some(text) = &init.initial_response else {
            return false;
        };
        match read_plain(text.as_slice()) {
            Some(message) => has_password(provider, message.user, message.password),
            None => false,
        }
    }

    // Whether an init passes.
    fn passes(&self, init: &SaslInit) -> bool
        ensures { IsTrue result ↔ IsPassing Q.passwords self.now (Init init.now) }
    {
        is_named(self.name().as_bytes(), &init.mechanism) && self.takes(init)
    }

    // The code with which a body is answered.
    fn judge(&self, body: &SaslBody) -> SaslCode
        ensures { IsJudged Q.passwords self.now body.now result }
    {
        match body {
            SaslBody::Init(init) if self.passes(init) => SaslCode::Ok,
            SaslBody::Init(_) => SaslCode::Auth,
            SaslBody::Response(_) => SaslCode::Auth,
            SaslBody::Mechanisms(_) => SaslCode::Sys,
            SaslBody::Challenge(_) => SaslCode::Sys,
            SaslBody::Outcome(_) => SaslCode::Sys,
        }
    }
}

impl<Q: PlainCredentialProvider> InitServer<Q> {
    /// An end that has read and written nothing; takes no memory.
    pub fn new(check: InitCheck<Q>) -> Self
        ensures { result ≡ init_server_begun check }
    {
        InitServer {
            check,
            stage: InitServerStage::OwesMechanisms,
        }
    }
}

impl<Q: PlainCredentialProvider> Exchange for InitServer<Q> {
    ghost holds = { init_server_holds Q.passwords };

    ghost causes = { init_server_causes Q.passwords };

    ghost owes = { init_server_owes };

    ghost turn_of = { init_server_turn };

    ghost left = { init_server_left };

    ghost same = { InitServerSame };

    fn turn(&self) -> Turn {
        match self.stage {
            InitServerStage::OwesMechanisms => Turn::Send,
            InitServerStage::AwaitsInit => Turn::Receive,
            InitServerStage::OwesOutcome(_) => Turn::Send,
            InitServerStage::Told(SaslCode::Ok) => Turn::Pass,
            InitServerStage::Told(code) => Turn::Refuse(code),
        }
    }

    fn next_body(&self, alloc: Global) -> Result<SaslBody, AllocError> {
        match self.stage {
            InitServerStage::OwesMechanisms => list_of(alloc, self.check.name().as_bytes()),
            InitServerStage::OwesOutcome(code) => Ok(SaslBody::Outcome(SaslOutcome {
                code,
                additional_data: None,
            })),
            _ => unreachable!(),
        }
    }

    fn on_sent(&mut self) {
        match self.stage {
            InitServerStage::OwesMechanisms => self.stage = InitServerStage::AwaitsInit,
            InitServerStage::OwesOutcome(code) => self.stage = InitServerStage::Told(code),
            _ => unreachable!(),
        }
    }

    fn on_body(&mut self, alloc: Global, body: SaslBody) -> Result<Verdict, AllocError> {
        let _ = alloc;
        let code = self.check.judge(&body);
        self.stage = InitServerStage::OwesOutcome(code);
        Ok(Verdict::Taken)
    }

    ghost refusal = { init_server_refusal Q.passwords };

    ghost same_self = { init_server_same_self };

    ghost same_then = { init_server_same_then };
}
