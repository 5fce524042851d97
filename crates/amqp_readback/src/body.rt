//! The bodies of frames that are written and read back (OASIS AMQP 1.0, part 2, section 2.3.2, and part 5, section 5.3.2).
ghost use Rattle.amqp_sasl_bodies.specs.SaslBody.{of_sasl_body};
ghost use Rattle.amqp_data.specs.Data.{item, no_items};
ghost use Rattle.amqp_frames.specs.Body.{body_values, read_again_body};
ghost use Rattle.amqp_readback.specs.Bodies.{ComesBack, FitFrames};

use amqp_fields::BaseError;
use amqp_frames::{FrameBody, decode_body, encode_body};
use amqp_sasl_bodies::sasl_body::SaslBody;
use amqp_sasl_bodies::{decode_sasl, encode_sasl};
use std::alloc::Global;

/// The body as it is read back from its canonical bytes, with its payload: it is the same, but that an Attach with a
/// max-message-size of 0 has none. `Size` comes exactly where a field is nested more than 32 deep or a length needs more than
/// 32 bits, and `Decode` never.
pub fn body_read_back(alloc: Global, body: &FrameBody) -> Result<FrameBody, BaseError>
    ensures { ComesBack (λ x. x) result (read_again_body body.now) (FitFrames (body_values body.now)) }
{
    let bytes = encode_body(alloc, body)?;
    decode_body(alloc, bytes.as_slice())
}

/// The SASL body as it is read back from its canonical bytes: it is the same. `Size` comes exactly where a length needs more
/// than 32 bits, and `Decode` never.
pub fn sasl_read_back(alloc: Global, body: &SaslBody) -> Result<SaslBody, BaseError>
    ensures { ComesBack (λ x. x) result body.now (FitFrames (item (of_sasl_body body.now) no_items)) }
{
    let bytes = encode_sasl(alloc, body)?;
    decode_sasl(alloc, bytes.as_slice())
}
