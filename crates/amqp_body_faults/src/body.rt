//! Bodies of frames of AMQP (OASIS AMQP 1.0, part 2, sections 2.3.2 and 2.7).
ghost use Rattle.std.specs.Prelude.{◌≡◌, ◌≤◌, length, IfOk};
ghost use Rattle.amqp_faults.specs.Names.{HasFront};
ghost use Rattle.amqp_body_faults.specs.Bodies.{NoBody, NoPerformative, WrongBody, NamesBody, is_performative};

use crate::list::{front_value, list_kind};
use amqp_composites::CompositeKind;
use amqp_described::LEVELS;
use amqp_faults::{Fault, Reason, fault_in};
use amqp_fields::BaseError;
use amqp_frames::{decode_body, let_go};
use amqp_performatives::performative::Performative;
use std::alloc::{AllocError, Global};

fn discard(_performative: Performative) {}

/// Whether the list is a performative (section 2.7).
fn is_performative(kind: CompositeKind) -> bool
    ensures { result ≡ is_performative kind }
{
    matches!(
        kind,
        CompositeKind::Open
            | CompositeKind::Begin
            | CompositeKind::Attach
            | CompositeKind::Flow
            | CompositeKind::Transfer
            | CompositeKind::Disposition
            | CompositeKind::Detach
            | CompositeKind::End
            | CompositeKind::Close
    )
}

/// Why the value at the front is no performative.
fn list_fault(alloc: Global, input: &[u8]) -> Result<Fault, AllocError>
    requires front { HasFront 34 input.now }
    requires none { NoPerformative input.now }
    ensures wrong { IfOk result (λ f. WrongBody input.now f.offset f.reason) }
    ensures within { IfOk result (λ f. f.offset ≤ length input.now) }
{
    match list_kind(alloc, input)? {
        Some(kind) => {
            if is_performative(kind) {
                Ok(Fault {
                    offset: 0,
                    reason: Reason::Field,
                })
            } else {
                Ok(Fault {
                    offset: 0,
                    reason: Reason::NoBody,
                })
            }
        }
        None => Ok(Fault {
            offset: 0,
            reason: Reason::NoBody,
        }),
    }
}

/// Why bytes are no body that a value begins.
fn value_fault(alloc: Global, input: &[u8]) -> Result<Fault, AllocError>
    requires front { HasFront 34 input.now }
    requires none { NoBody input.now }
    ensures wrong { IfOk result (λ f. WrongBody input.now f.offset f.reason) }
    ensures within { IfOk result (λ f. f.offset ≤ length input.now) }
{
    let (value, used) = front_value(alloc, input)?;
    match Performative::from_value(alloc, value) {
        Ok(performative) => {
            discard(performative);
            Ok(Fault {
                offset: used,
                reason: Reason::Behind,
            })
        }
        Err(BaseError::Memory(error)) => Err(error),
        Err(BaseError::Decode) => list_fault(alloc, input),
        Err(BaseError::Size) => unreachable!(),
    }
}

/// Why bytes are no body.
fn body_fault(alloc: Global, input: &[u8]) -> Result<Fault, AllocError>
    requires { NoBody input.now }
    ensures wrong { IfOk result (λ f. WrongBody input.now f.offset f.reason) }
    ensures within { IfOk result (λ f. f.offset ≤ length input.now) }
{
    match fault_in(alloc, input, LEVELS)? {
        Some(fault) => Ok(fault),
        None => value_fault(alloc, input),
    }
}

/// Where bytes are no body of a frame of AMQP, and why: none exactly where they spell one, as `decode_body` reads it. The one error is
/// want of memory.
pub fn fault_in_body(alloc: Global, input: &[u8]) -> Result<Option<Fault>, AllocError>
    ensures { IfOk result (λ o. NamesBody o input.now) }
{
    match decode_body(alloc, input) {
        Ok(body) => {
            let_go(body);
            Ok(None)
        }
        Err(BaseError::Memory(error)) => Err(error),
        Err(BaseError::Decode) => {
            let fault = body_fault(alloc, input)?;
            Ok(Some(fault))
        }
        Err(BaseError::Size) => unreachable!(),
    }
}
