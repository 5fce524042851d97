//! The bytes of a SASL frame's body (OASIS AMQP 1.0, part 5, section 5.3.2).
ghost use Rattle.std.specs.Prelude.{IfOk, []};
ghost use Rattle.amqp_sasl_bodies.specs.SaslBody.{of_sasl_body};
ghost use Rattle.amqp_described.specs.amqp_data.Data.{item, no_items};
ghost use Rattle.amqp_described.specs.Reading.{IsTheOne};
ghost use Rattle.amqp_sasl_bodies.specs.SaslBytes.{SpellsSasl};
ghost use Rattle.amqp_described.specs.Bodies.{Encodes};

use crate::sasl_body::SaslBody;
use amqp_described::amqp_data::Binary;
use amqp_described::amqp_fields::BaseError;
use amqp_described::{LEVELS, put_alone, read_front};
use std::alloc::Global;

/// The type of a frame that holds a part of the SASL dialog (part 5, section 5.3.1).
pub const FRAME_TYPE_SASL: u8 = 1;

/// The bytes of the body: `Size` exactly where a length needs more than 32 bits.
pub fn encode_sasl(alloc: Global, body: &SaslBody) -> Result<Binary, BaseError>
    ensures bytes { Encodes result (item (of_sasl_body body.now) no_items) [] }
    ensures spelled { IfOk result (λ bytes. SpellsSasl bytes body.now) }
{
    put_alone(alloc, body.kind(), body.to_list(alloc))
}

/// The one body that the bytes spell: `Decode` exactly where they spell none.
pub fn decode_sasl(alloc: Global, input: &[u8]) -> Result<SaslBody, BaseError>
    ensures { IsTheOne result (SpellsSasl input.now) }
{
    let (value, used) = read_front(alloc, input, LEVELS)?;
    if used < input.len() {
        return Err(BaseError::Decode);
    }
    SaslBody::from_value(alloc, value)
}
