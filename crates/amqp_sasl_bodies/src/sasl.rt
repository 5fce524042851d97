//! The bodies of SASL frames (OASIS AMQP 1.0, part 5, section 5.3.3.1 and following).
ghost use Rattle.std.specs.Prelude.{◌≡◌};
ghost use Rattle.amqp_described.specs.amqp_fields.Left.{left};
ghost use Rattle.amqp_described.specs.amqp_fields.Fields.{Gives, MakesItems, trimmed};
ghost use Rattle.amqp_sasl_bodies.specs.Sasl.{sasl_mechanisms_of, sasl_mechanisms_fields, sasl_init_of, sasl_init_fields, sasl_challenge_of, sasl_challenge_fields, sasl_response_of, sasl_response_fields, sasl_outcome_of, sasl_outcome_fields};

use crate::sasl_code::SaslCode;
use amqp_described::amqp_data::{Binary, Symbol, SymbolList, Text, ValueList};
use amqp_described::amqp_fields::{BaseError, FieldWriter, Fields};
use std::alloc::Global;

/// The mechanisms that a server offers (part 5, section 5.3.3.1).
#[derive(Debug, Drop)]
pub struct SaslMechanisms {
    /// The mechanisms, the best first.
    pub sasl_server_mechanisms: SymbolList,
}

#[tactic(auto, unfolding(crate::specs::Sasl::sasl_mechanisms_of))]
pub(crate) fn read_sasl_mechanisms(
    alloc: Global,
    mut fields: Fields,
) -> Result<SaslMechanisms, BaseError>
    ensures { Gives result (sasl_mechanisms_of (left fields)) }
{
    let sasl_server_mechanisms = fields.required(alloc)?;
    fields.end()?;
    Ok(SaslMechanisms {
        sasl_server_mechanisms,
    })
}

pub(crate) fn sasl_mechanisms_list(
    alloc: Global,
    body: &SaslMechanisms,
) -> Result<ValueList, BaseError>
    ensures { MakesItems (λ l. l) result (trimmed (sasl_mechanisms_fields body.now)) }
{
    let mut fields = FieldWriter::new(alloc);
    fields.required(&body.sasl_server_mechanisms)?;
    Ok(fields.finish())
}

/// The mechanism that the client chooses (part 5, section 5.3.3.2).
#[derive(Debug, Drop)]
pub struct SaslInit {
    /// The mechanism.
    pub mechanism: Symbol,
    /// What the client says first.
    pub initial_response: Option<Binary>,
    /// The host that the server is to be.
    pub hostname: Option<Text>,
}

#[tactic(auto, unfolding(crate::specs::Sasl::sasl_init_of))]
pub(crate) fn read_sasl_init(alloc: Global, mut fields: Fields) -> Result<SaslInit, BaseError>
    ensures { Gives result (sasl_init_of (left fields)) }
{
    let mechanism = fields.required(alloc)?;
    let initial_response = fields.optional(alloc)?;
    let hostname = fields.optional(alloc)?;
    fields.end()?;
    Ok(SaslInit {
        mechanism,
        initial_response,
        hostname,
    })
}

pub(crate) fn sasl_init_list(alloc: Global, body: &SaslInit) -> Result<ValueList, BaseError>
    ensures { MakesItems (λ l. l) result (trimmed (sasl_init_fields body.now)) }
{
    let mut fields = FieldWriter::new(alloc);
    fields.required(&body.mechanism)?;
    fields.optional(&body.initial_response)?;
    fields.optional(&body.hostname)?;
    Ok(fields.finish())
}

/// What the server asks (part 5, section 5.3.3.3).
#[derive(Debug, Drop)]
pub struct SaslChallenge {
    /// The challenge.
    pub challenge: Binary,
}

#[tactic(auto, unfolding(crate::specs::Sasl::sasl_challenge_of))]
pub(crate) fn read_sasl_challenge(
    alloc: Global,
    mut fields: Fields,
) -> Result<SaslChallenge, BaseError>
    ensures { Gives result (sasl_challenge_of (left fields)) }
{
    let challenge = fields.required(alloc)?;
    fields.end()?;
    Ok(SaslChallenge { challenge })
}

pub(crate) fn sasl_challenge_list(
    alloc: Global,
    body: &SaslChallenge,
) -> Result<ValueList, BaseError>
    ensures { MakesItems (λ l. l) result (trimmed (sasl_challenge_fields body.now)) }
{
    let mut fields = FieldWriter::new(alloc);
    fields.required(&body.challenge)?;
    Ok(fields.finish())
}

/// What the client answers (part 5, section 5.3.3.4).
#[derive(Debug, Drop)]
pub struct SaslResponse {
    /// The response.
    pub response: Binary,
}

#[tactic(auto, unfolding(crate::specs::Sasl::sasl_response_of))]
pub(crate) fn read_sasl_response(
    alloc: Global,
    mut fields: Fields,
) -> Result<SaslResponse, BaseError>
    ensures { Gives result (sasl_response_of (left fields)) }
{
    let response = fields.required(alloc)?;
    fields.end()?;
    Ok(SaslResponse { response })
}

pub(crate) fn sasl_response_list(alloc: Global, body: &SaslResponse) -> Result<ValueList, BaseError>
    ensures { MakesItems (λ l. l) result (trimmed (sasl_response_fields body.now)) }
{
    let mut fields = FieldWriter::new(alloc);
    fields.required(&body.response)?;
    Ok(fields.finish())
}

/// How the dialog ends (part 5, section 5.3.3.5).
#[derive(Debug, Drop)]
pub struct SaslOutcome {
    /// How it ends.
    pub code: SaslCode,
    /// What the server says last.
    pub additional_data: Option<Binary>,
}

#[tactic(auto, unfolding(crate::specs::Sasl::sasl_outcome_of))]
pub(crate) fn read_sasl_outcome(alloc: Global, mut fields: Fields) -> Result<SaslOutcome, BaseError>
    ensures { Gives result (sasl_outcome_of (left fields)) }
{
    let code = fields.required(alloc)?;
    let additional_data = fields.optional(alloc)?;
    fields.end()?;
    Ok(SaslOutcome {
        code,
        additional_data,
    })
}

pub(crate) fn sasl_outcome_list(alloc: Global, body: &SaslOutcome) -> Result<ValueList, BaseError>
    ensures { MakesItems (λ l. l) result (trimmed (sasl_outcome_fields body.now)) }
{
    let mut fields = FieldWriter::new(alloc);
    fields.required(&body.code)?;
    fields.optional(&body.additional_data)?;
    Ok(fields.finish())
}
