//! The bodies of frames of AMQP (OASIS AMQP 1.0, part 2, section 2.7).
ghost use Rattle.std.specs.Prelude.{◌≡◌, ◌++◌, OnOk};
ghost use Rattle.amqp_lines.specs.Bodies.{AddsList, AreMade, body_text};
ghost use Rattle.amqp_lines.specs.Payload.{TellsPayload, AddsSome, IsBodyText};

use crate::payload::push_payload;
use amqp_composites::kind::CompositeKind;
use amqp_data::ValueList;
use amqp_fields::BaseError;
use amqp_frames::FrameBody;
use amqp_performatives::attach::attach_list;
use amqp_performatives::begin::begin_list;
use amqp_performatives::close::close_list;
use amqp_performatives::detach::detach_list;
use amqp_performatives::disposition::disposition_list;
use amqp_performatives::end::end_list;
use amqp_performatives::flow::flow_list;
use amqp_performatives::open::open_list;
use amqp_performatives::transfer::transfer_list;
use amqp_shown::bytes::push_word;
use amqp_shown::names::name;
use amqp_shown::value::push_fields;
use std::alloc::{AllocError, Global};

/// Adds the name of a described list and its fields, which are there unless memory was wanting.
pub(crate) fn push_list(
    alloc: Global,
    out: &mut Vec<u8>,
    kind: CompositeKind,
    fields: Result<ValueList, BaseError>,
) -> Result<(), AllocError>
    requires { AreMade fields }
    ensures { OnOk result (AddsList kind fields out.old.items out.new.items) }
{
    match fields {
        Ok(fields) => {
            push_word(out, name(kind))?;
            push_fields(alloc, out, kind, fields.as_slice())
        }
        Err(BaseError::Memory(error)) => Err(error),
        Err(BaseError::Decode | BaseError::Size) => unreachable!(),
    }
}

/// Adds what a frame of AMQP says but for its payload.
fn push_performative(alloc: Global, out: &mut Vec<u8>, body: &FrameBody) -> Result<(), AllocError>
    ensures { OnOk result (out.new.items ≡ out.old.items ++ body_text body.now) }
{
    match body {
        FrameBody::Open(x) => push_list(alloc, out, CompositeKind::Open, open_list(alloc, x)),
        FrameBody::Begin(x) => push_list(alloc, out, CompositeKind::Begin, begin_list(alloc, x)),
        FrameBody::Attach(x) => push_list(alloc, out, CompositeKind::Attach, attach_list(alloc, x)),
        FrameBody::Flow(x) => push_list(alloc, out, CompositeKind::Flow, flow_list(alloc, x)),
        FrameBody::Transfer(x, _) => {
            push_list(alloc, out, CompositeKind::Transfer, transfer_list(alloc, x))
        }
        FrameBody::Disposition(x) => {
            push_list(
                alloc,
                out,
                CompositeKind::Disposition,
                disposition_list(alloc, x),
            )
        }
        FrameBody::Detach(x) => push_list(alloc, out, CompositeKind::Detach, detach_list(alloc, x)),
        FrameBody::End(x) => push_list(alloc, out, CompositeKind::End, end_list(alloc, x)),
        FrameBody::Close(x) => push_list(alloc, out, CompositeKind::Close, close_list(alloc, x)),
        FrameBody::Empty => push_word(out, "heartbeat"),
    }
}

/// Adds what stands behind a performative: behind any but a Transfer there is nothing.
fn push_behind(alloc: Global, out: &mut Vec<u8>, body: &FrameBody) -> Result<(), AllocError>
    ensures { OnOk result (AddsSome (TellsPayload body.now) out.old.items out.new.items) }
{
    match body {
        FrameBody::Transfer(x, payload) => push_payload(alloc, out, x, payload.as_slice()),
        FrameBody::Open(_)
        | FrameBody::Begin(_)
        | FrameBody::Attach(_)
        | FrameBody::Flow(_)
        | FrameBody::Disposition(_)
        | FrameBody::Detach(_)
        | FrameBody::End(_)
        | FrameBody::Close(_)
        | FrameBody::Empty => Ok(()),
    }
}

/// Adds what a frame of AMQP says; the one error is want of memory, which may leave a part of the text.
pub fn push_body(alloc: Global, out: &mut Vec<u8>, body: &FrameBody) -> Result<(), AllocError>
    ensures { OnOk result (AddsSome (IsBodyText body.now) out.old.items out.new.items) }
{
    push_performative(alloc, out, body)?;
    push_behind(alloc, out, body)?;
    Ok(())
}
