//! Bodies of SASL frames (OASIS AMQP 1.0, part 5, sections 5.3.2 and 5.3.3).
ghost use Rattle.std.specs.Prelude.{◌≡◌, ◌≤◌, length, IfOk};
ghost use Rattle.amqp_faults.specs.Names.{HasFront};
ghost use Rattle.amqp_body_faults.specs.Sasl.{NoSasl, NoSaslBody, WrongSasl, NamesSasl, is_sasl_body};

use crate::list::{front_value, list_kind};
use amqp_composites::CompositeKind;
use amqp_described::LEVELS;
use amqp_faults::{Fault, Reason, fault_in};
use amqp_fields::BaseError;
use amqp_sasl_bodies::{SaslBody, decode_sasl};
use std::alloc::{AllocError, Global};

fn discard(_body: SaslBody) {}

/// Whether the list is the body of a SASL frame (section 5.3.3).
fn is_sasl_body(kind: CompositeKind) -> bool
    ensures { result ≡ is_sasl_body kind }
{
    matches!(
        kind,
        CompositeKind::SaslMechanisms
            | CompositeKind::SaslInit
            | CompositeKind::SaslChallenge
            | CompositeKind::SaslResponse
            | CompositeKind::SaslOutcome
    )
}

/// Why the value at the front is no such body.
fn list_fault(alloc: Global, input: &[u8]) -> Result<Fault, AllocError>
    requires front { HasFront 34 input.now }
    requires none { NoSaslBody input.now }
    ensures wrong { IfOk result (λ f. WrongSasl input.now f.offset f.reason) }
    ensures within { IfOk result (λ f. f.offset ≤ length input.now) }
{
    match list_kind(alloc, input)? {
        Some(kind) => {
            if is_sasl_body(kind) {
                Ok(Fault {
                    offset: 0,
                    reason: Reason::Field,
                })
            } else {
                Ok(Fault {
                    offset: 0,
                    reason: Reason::NoBody,
                })
            }
        }
        None => Ok(Fault {
            offset: 0,
            reason: Reason::NoBody,
        }),
    }
}

/// Why bytes are no body that a value begins.
fn value_fault(alloc: Global, input: &[u8]) -> Result<Fault, AllocError>
    requires front { HasFront 34 input.now }
    requires none { NoSasl input.now }
    ensures wrong { IfOk result (λ f. WrongSasl input.now f.offset f.reason) }
    ensures within { IfOk result (λ f. f.offset ≤ length input.now) }
{
    let (value, used) = front_value(alloc, input)?;
    match SaslBody::from_value(alloc, value) {
        Ok(body) => {
            discard(body);
            Ok(Fault {
                offset: used,
                reason: Reason::Behind,
            })
        }
        Err(BaseError::Memory(error)) => Err(error),
        Err(BaseError::Decode) => list_fault(alloc, input),
        Err(BaseError::Size) => unreachable!(),
    }
}

/// Why bytes are no body.
fn body_fault(alloc: Global, input: &[u8]) -> Result<Fault, AllocError>
    requires { NoSasl input.now }
    ensures wrong { IfOk result (λ f. WrongSasl input.now f.offset f.reason) }
    ensures within { IfOk result (λ f. f.offset ≤ length input.now) }
{
    match fault_in(alloc, input, LEVELS)? {
        Some(fault) => Ok(fault),
        None => value_fault(alloc, input),
    }
}

/// Where bytes are no body of a SASL frame, and why: none exactly where they spell one, as `decode_sasl` reads it. The one error is
/// want of memory.
pub fn fault_in_sasl(alloc: Global, input: &[u8]) -> Result<Option<Fault>, AllocError>
    ensures { IfOk result (λ o. NamesSasl o input.now) }
{
    match decode_sasl(alloc, input) {
        Ok(body) => {
            discard(body);
            Ok(None)
        }
        Err(BaseError::Memory(error)) => Err(error),
        Err(BaseError::Decode) => {
            let fault = body_fault(alloc, input)?;
            Ok(Some(fault))
        }
        Err(BaseError::Size) => unreachable!(),
    }
}
