//! The body of a frame from its bytes (OASIS AMQP 1.0, part 2, section 2.3.2).
ghost use Rattle.std.specs.Prelude.{◌≡◌};
ghost use Rattle.amqp_described.specs.Reading.{IsTheOne};
ghost use Rattle.amqp_described.specs.amqp_fields.Fields.{Gives};
ghost use Rattle.amqp_frames.specs.Body.{framed, alone as alone_body, SpellsBody};

use crate::body::FrameBody;
use amqp_described::amqp_fields::BaseError;
use amqp_described::{LEVELS, read_front};
use amqp_performatives::performative::Performative;
use bytes::Bytes;
use std::alloc::Global;

/// The body, where nothing stands behind its performative.
fn alone(body: FrameBody, payload: &[u8]) -> Result<FrameBody, BaseError>
    ensures { Gives result (alone_body body payload.now) }
{
    if payload.is_empty() {
        Ok(body)
    } else {
        Err(BaseError::Decode)
    }
}

/// The body with that performative and the bytes behind it.
fn frame_of(
    alloc: Global,
    performative: Performative,
    payload: &[u8],
) -> Result<FrameBody, BaseError>
    ensures { Gives result (framed performative payload.now) }
{
    match performative {
        Performative::Open(open) => alone(FrameBody::Open(open), payload),
        Performative::Begin(begin) => alone(FrameBody::Begin(begin), payload),
        Performative::Attach(attach) => alone(FrameBody::Attach(attach), payload),
        Performative::Flow(flow) => alone(FrameBody::Flow(flow), payload),
        Performative::Transfer(transfer) => {
            let payload = Bytes::copy_from_slice(alloc, payload)?;
            Ok(FrameBody::Transfer(transfer, payload))
        }
        Performative::Disposition(disposition) => {
            alone(FrameBody::Disposition(disposition), payload)
        }
        Performative::Detach(detach) => alone(FrameBody::Detach(detach), payload),
        Performative::End(end) => alone(FrameBody::End(end), payload),
        Performative::Close(close) => alone(FrameBody::Close(close), payload),
    }
}

/// The one body that the bytes spell: `Decode` exactly where they spell none.
pub fn decode_body(alloc: Global, input: &[u8]) -> Result<FrameBody, BaseError>
    ensures { IsTheOne result (SpellsBody input.now) }
{
    if input.is_empty() {
        return Ok(FrameBody::Empty);
    }
    let (value, used) = read_front(alloc, input, LEVELS)?;
    let performative = Performative::from_value(alloc, value)?;
    frame_of(alloc, performative, &input[used..])
}
