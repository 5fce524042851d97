//! The layout of frames: OASIS AMQP 1.0 part 2, section 2.3.
ghost use Rattle.std.specs.Prelude.{◌≡◌, ◌<◌, ◌≤◌, ◌^◌, ◌+◌, ◌++◌, length, OnOk, OnErr};
ghost use Rattle.amqp_wire.specs.Frame.{IsFront, frame_of};

use bytes::BytesMut;
use std::alloc::AllocError;

/// What bytes begin with, for one type of frames and a limit of their size.
#[derive(Clone, Copy, Debug, PartialEq, Eq)]
pub enum Front {
    /// The front of a frame: less than its size, or less than that many bytes.
    Partial,
    /// A size below 8 or above the limit, which is refused as soon as its four bytes are
    /// there, or a data offset below 2 words or behind the frame's end, as soon as the eight
    /// bytes of the header are.
    Refused,
    /// A whole frame of another type.
    Foreign,
    /// A whole frame.
    Whole {
        /// Its bytes, all together.
        size: usize,
        /// Where its body begins.
        start: usize,
        /// Its channel.
        channel: u16,
    },
}

/// What these bytes begin with. `kind` is the type byte that is wanted (0 for AMQP, 1 for
/// SASL), and `limit` the most bytes that a frame may have.
pub fn front_of(kind: u8, limit: usize, bytes: &[u8]) -> Front
    requires { 8 ≤ limit }
    ensures { IsFront kind limit bytes.now result }
{
    if bytes.len() < 4 {
        return Front::Partial;
    }
    let size = bytes[0] as usize * 16777216
        + bytes[1] as usize * 65536
        + bytes[2] as usize * 256
        + bytes[3] as usize;
    if size < 8 || size > limit {
        return Front::Refused;
    }
    if bytes.len() < 8 {
        return Front::Partial;
    }
    let start = 4 * bytes[4] as usize;
    if start < 8 || size < start {
        return Front::Refused;
    }
    if bytes.len() < size {
        return Front::Partial;
    }
    if bytes[5] != kind {
        return Front::Foreign;
    }
    let channel = bytes[6] as u16 * 256 + bytes[7] as u16;
    Front::Whole {
        size,
        start,
        channel,
    }
}

/// Writes a whole frame at the end, with no extended header. An `Err` writes nothing.
pub fn put_frame(out: &mut BytesMut, kind: u8, channel: u16, body: &[u8]) -> Result<(), AllocError>
    requires { 8 + length body.now < 2 ^ 32 }
    ensures ok { OnOk result (out.new.items ≡ out.old.items ++ frame_of kind channel body.now) }
    ensures err { OnErr result (out.new.items ≡ out.old.items) }
{
    let size = body.len() + 8;
    out.reserve(size)?;
    out.extend_reserved((size as u32).to_be_bytes().as_slice());
    out.extend_reserved([2, kind].as_slice());
    out.extend_reserved(channel.to_be_bytes().as_slice());
    out.extend_reserved(body);
    Ok(())
}
