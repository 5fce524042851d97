//! How many bytes a performative and the body of a frame take.
ghost use Rattle.std.specs.Prelude.{◌≡◌, ◌<◌, ◌^◌, length};
ghost use Rattle.amqp_performatives.specs.Performative.{of_performative};
ghost use Rattle.amqp_frames.specs.Body.{body_values, body_payload};
ghost use Rattle.amqp_sizes.specs.Taken.{Takes};
ghost use Rattle.amqp_sizes.specs.Written.{Sizes, SizesBody, BodyTakes};

use crate::performatives::{
    attach_size, begin_size, close_size, detach_size, disposition_size, end_size, flow_size,
    open_size, transfer_size,
};
use amqp_fields::BaseError;
use amqp_frames::FrameBody;
use amqp_performatives::Performative;

/// The size of what a performative says; nothing where it does not fit.
fn fields_size(performative: &Performative) -> Option<u64>
    ensures { Takes result 34 (of_performative performative.now) }
{
    match performative {
        Performative::Open(body) => open_size(body),
        Performative::Begin(body) => begin_size(body),
        Performative::Attach(body) => attach_size(body),
        Performative::Flow(body) => flow_size(body),
        Performative::Transfer(body) => transfer_size(body),
        Performative::Disposition(body) => disposition_size(body),
        Performative::Detach(body) => detach_size(body),
        Performative::End(body) => end_size(body),
        Performative::Close(body) => close_size(body),
    }
}

/// How many bytes the performative takes that `encode_body` writes of it, without a payload: `Size` exactly where a field is nested
/// more than 32 deep or a length needs more than 32 bits. Takes no memory, and there is no other error.
pub fn performative_size(performative: &Performative) -> Result<u64, BaseError>
    ensures { Sizes result 34 (of_performative performative.now) }
{
    match fields_size(performative) {
        Some(size) => Ok(size),
        None => Err(BaseError::Size),
    }
}

/// The size of what the body says, without its payload; nothing where it does not fit.
fn said_size(body: &FrameBody) -> Option<u64>
    ensures { BodyTakes result (body_values body.now) }
{
    match body {
        FrameBody::Open(said) => open_size(said),
        FrameBody::Begin(said) => begin_size(said),
        FrameBody::Attach(said) => attach_size(said),
        FrameBody::Flow(said) => flow_size(said),
        FrameBody::Transfer(said, _) => transfer_size(said),
        FrameBody::Disposition(said) => disposition_size(said),
        FrameBody::Detach(said) => detach_size(said),
        FrameBody::End(said) => end_size(said),
        FrameBody::Close(said) => close_size(said),
        FrameBody::Empty => Some(0),
    }
}

/// The number of bytes of the payload.
fn payload_len(body: &FrameBody) -> u64
    ensures value { result ≡ length (body_payload body.now) }
    ensures small { result < 2 ^ 63 }
{
    match body {
        FrameBody::Transfer(_, payload) => payload.as_slice().len() as u64,
        _ => 0,
    }
}

/// How many bytes `encode_body` writes of the body, its payload with them: `Size` exactly where a field is nested more than 32 deep or
/// a length needs more than 32 bits. Takes no memory, and there is no other error.
pub fn body_size(body: &FrameBody) -> Result<u64, BaseError>
    ensures { SizesBody result (body_values body.now) (body_payload body.now) }
{
    match said_size(body) {
        Some(size) => Ok(size + payload_len(body)),
        None => Err(BaseError::Size),
    }
}
