//! The bytes of a frame's body (OASIS AMQP 1.0, part 2, section 2.3.2).
ghost use Rattle.std.specs.Prelude.{IfOk};
ghost use Rattle.amqp_frames.specs.Body.{SpellsBody, body_values, body_payload, read_again_body};
ghost use Rattle.amqp_described.specs.Bodies.{Encodes};

use crate::body::FrameBody;
use amqp_described::amqp_composites::CompositeKind;
use amqp_described::amqp_data::Binary;
use amqp_described::amqp_fields::BaseError;
use amqp_described::{put_alone, put_fields};
use amqp_performatives::attach::attach_list;
use amqp_performatives::begin::begin_list;
use amqp_performatives::close::close_list;
use amqp_performatives::detach::detach_list;
use amqp_performatives::disposition::disposition_list;
use amqp_performatives::end::end_list;
use amqp_performatives::flow::flow_list;
use amqp_performatives::open::open_list;
use amqp_performatives::transfer::transfer_list;
use std::alloc::Global;

/// The bytes of the body: `Size` exactly where a field is nested more than 32 deep or a length needs more than 32 bits.
pub fn encode_body(alloc: Global, body: &FrameBody) -> Result<Binary, BaseError>
    ensures bytes { Encodes result (body_values body.now) (body_payload body.now) }
    ensures spelled { IfOk result (λ bytes. SpellsBody bytes (read_again_body body.now)) }
{
    match body {
        FrameBody::Open(body) => put_alone(alloc, CompositeKind::Open, open_list(alloc, body)),
        FrameBody::Begin(body) => put_alone(alloc, CompositeKind::Begin, begin_list(alloc, body)),
        FrameBody::Attach(body) => put_alone(
            alloc,
            CompositeKind::Attach,
            attach_list(alloc, body),
        ),
        FrameBody::Flow(body) => put_alone(alloc, CompositeKind::Flow, flow_list(alloc, body)),
        FrameBody::Transfer(body, payload) => {
            let fields = transfer_list(alloc, body);
            put_fields(alloc, CompositeKind::Transfer, fields, payload.as_slice())
        }
        FrameBody::Disposition(body) => {
            let fields = disposition_list(alloc, body);
            put_alone(alloc, CompositeKind::Disposition, fields)
        }
        FrameBody::Detach(body) => put_alone(
            alloc,
            CompositeKind::Detach,
            detach_list(alloc, body),
        ),
        FrameBody::End(body) => put_alone(alloc, CompositeKind::End, end_list(alloc, body)),
        FrameBody::Close(body) => put_alone(alloc, CompositeKind::Close, close_list(alloc, body)),
        FrameBody::Empty => Ok(Binary::new(alloc)),
    }
}
