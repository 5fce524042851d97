//! The bodies of SASL frames (OASIS AMQP 1.0, part 5, section 5.3.3).
ghost use Rattle.std.specs.Prelude.{◌≡◌, OnOk};
ghost use Rattle.amqp_described.specs.amqp_data.View.{view};
ghost use Rattle.amqp_described.specs.amqp_fields.Fields.{Gives, Makes, MakesItems, trimmed};
ghost use Rattle.amqp_sasl_bodies.specs.SaslBody.{sasl_body_in, kind_of_sasl_body, sasl_body_fields, of_sasl_body, IsSaslBodyValid};

use crate::sasl::{
    SaslChallenge, SaslInit, SaslMechanisms, SaslOutcome, SaslResponse, read_sasl_challenge,
    read_sasl_init, read_sasl_mechanisms, read_sasl_outcome, read_sasl_response,
    sasl_challenge_list, sasl_init_list, sasl_mechanisms_list, sasl_outcome_list,
    sasl_response_list,
};
use amqp_described::amqp_composites::described::{list_value, read_list};
use amqp_described::amqp_composites::kind::CompositeKind;
use amqp_described::amqp_data::{Value, ValueList};
use amqp_described::amqp_fields::BaseError;
use std::alloc::Global;

/// The body of a SASL frame.
#[derive(Debug, Drop)]
pub enum SaslBody {
    /// The mechanisms that a server offers.
    Mechanisms(SaslMechanisms),
    /// The mechanism that the client chooses.
    Init(SaslInit),
    /// What the server asks.
    Challenge(SaslChallenge),
    /// What the client answers.
    Response(SaslResponse),
    /// How the dialog ends.
    Outcome(SaslOutcome),
}

impl SaslBody {
    /// The body that the value holds: `Decode` exactly where it holds none.
    pub fn from_value(alloc: Global, value: Value) -> Result<Self, BaseError>
        ensures { Gives result (sasl_body_in (view value)) }
    {
        let (kind, fields) = read_list(value)?;
        match kind {
            CompositeKind::SaslMechanisms => Ok(SaslBody::Mechanisms(read_sasl_mechanisms(
                alloc, fields,
            )?)),
            CompositeKind::SaslInit => Ok(SaslBody::Init(read_sasl_init(alloc, fields)?)),
            CompositeKind::SaslChallenge => Ok(SaslBody::Challenge(read_sasl_challenge(
                alloc, fields,
            )?)),
            CompositeKind::SaslResponse => Ok(SaslBody::Response(read_sasl_response(
                alloc, fields,
            )?)),
            CompositeKind::SaslOutcome => Ok(SaslBody::Outcome(read_sasl_outcome(alloc, fields)?)),
            _ => Err(BaseError::Decode),
        }
    }

    /// Which described list the body is.
    pub fn kind(&self) -> CompositeKind
        ensures { result ≡ kind_of_sasl_body self.now }
    {
        match self {
            SaslBody::Mechanisms(_) => CompositeKind::SaslMechanisms,
            SaslBody::Init(_) => CompositeKind::SaslInit,
            SaslBody::Challenge(_) => CompositeKind::SaslChallenge,
            SaslBody::Response(_) => CompositeKind::SaslResponse,
            SaslBody::Outcome(_) => CompositeKind::SaslOutcome,
        }
    }

    /// The fields of the body without the nulls at the end; the one error is want of memory.
    pub fn to_list(&self, alloc: Global) -> Result<ValueList, BaseError>
        ensures list { MakesItems (λ l. l) result (trimmed (sasl_body_fields self.now)) }
        ensures valid { OnOk result (IsSaslBodyValid self.now) }
    {
        match self {
            SaslBody::Mechanisms(body) => sasl_mechanisms_list(alloc, body),
            SaslBody::Init(body) => sasl_init_list(alloc, body),
            SaslBody::Challenge(body) => sasl_challenge_list(alloc, body),
            SaslBody::Response(body) => sasl_response_list(alloc, body),
            SaslBody::Outcome(body) => sasl_outcome_list(alloc, body),
        }
    }

    /// The value that holds the body; the one error is want of memory.
    pub fn to_value(&self, alloc: Global) -> Result<Value, BaseError>
        ensures value { Makes view result (of_sasl_body self.now) }
        ensures valid { OnOk result (IsSaslBodyValid self.now) }
    {
        let fields = self.to_list(alloc)?;
        list_value(alloc, self.kind(), fields)
    }
}
