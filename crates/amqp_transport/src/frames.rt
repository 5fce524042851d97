//! Frames of AMQP and of SASL (OASIS AMQP 1.0, part 2, section 2.3; part 5, section 5.3).
ghost use Rattle.std.specs.Prelude.{◌≡◌};
ghost use Rattle.amqp_transport.specs.Kinds.{no_frame, amqp_spells, amqp_bytes, amqp_oversized, amqp_again, amqp_channel, sasl_spells, sasl_bytes, sasl_oversized, sasl_channel};
ghost use Rattle.amqp_transport.specs.OneItem.{one_frame, one_sasl};

use crate::kind::{Encoded, FrameKind};
use amqp_fields::BaseError;
use amqp_frames::{FRAME_TYPE_AMQP, FrameBody, decode_body, encode_body};
use amqp_sasl_bodies::{FRAME_TYPE_SASL, SaslBody, decode_sasl, encode_sasl};
use bytes::Bytes;
use std::alloc::Global;

/// A frame of AMQP.
#[derive(Debug, Drop)]
pub struct Frame {
    /// The channel that it goes on.
    pub channel: u16,
    /// What it holds.
    pub body: FrameBody,
}

impl Frame {
    /// A frame that holds nothing (part 2, section 2.4.5).
    pub fn empty() -> Self
        ensures { result ≡ no_frame }
    {
        Frame {
            channel: 0,
            body: FrameBody::Empty,
        }
    }
}

/// Frames of AMQP, of type 0.
pub struct AmqpFrames;

impl FrameKind for AmqpFrames {
    type Item = Frame;

    ghost TYPE = { 0 };

    const TYPE: u8 = FRAME_TYPE_AMQP;

    ghost spells = { amqp_spells };

    ghost canonical = { amqp_bytes };

    ghost channel_of = { amqp_channel };

    ghost is_oversized = { amqp_oversized };

    ghost again = { amqp_again };

    ghost one = { one_frame };

    fn decode(alloc: Global, channel: u16, body: &Bytes) -> Result<Frame, BaseError> {
        match decode_body(alloc, body.as_slice()) {
            Ok(body) => Ok(Frame { channel, body }),
            Err(error) => Err(error),
        }
    }

    fn encode(alloc: Global, item: &Frame) -> Result<Encoded, BaseError> {
        match encode_body(alloc, &item.body) {
            Ok(bytes) => Ok(Encoded {
                channel: item.channel,
                bytes,
            }),
            Err(error) => Err(error),
        }
    }
}

/// Frames of SASL, of type 1; their channel is not looked at, and is 0 in those that are written.
pub struct SaslFrames;

impl FrameKind for SaslFrames {
    type Item = SaslBody;

    ghost TYPE = { 1 };

    const TYPE: u8 = FRAME_TYPE_SASL;

    ghost spells = { sasl_spells };

    ghost canonical = { sasl_bytes };

    ghost channel_of = { sasl_channel };

    ghost is_oversized = { sasl_oversized };

    ghost again = { λ x. x };

    ghost one = { one_sasl };

    fn decode(alloc: Global, _channel: u16, body: &Bytes) -> Result<SaslBody, BaseError> {
        match decode_sasl(alloc, body.as_slice()) {
            Ok(body) => Ok(body),
            Err(error) => Err(error),
        }
    }

    fn encode(alloc: Global, item: &SaslBody) -> Result<Encoded, BaseError> {
        match encode_sasl(alloc, item) {
            Ok(bytes) => Ok(Encoded { channel: 0, bytes }),
            Err(error) => Err(error),
        }
    }
}
