//! Waiting for a frame or a protocol header (OASIS AMQP 1.0, part 2, sections 2.2 and 2.3).
ghost use Rattle.amqp_transport.specs.Arrivals.{Arrived, ReadHeader};

use amqp_wire::codec::{Filled, FramedCodec};
use amqp_wire::frame::Front;
use amqp_wire::link::{Link, Stop};
use std::alloc::AllocError;

/// What the input begins with, and how the last read ended if more was wanted.
#[derive(Clone, Copy, Debug, PartialEq, Eq)]
pub struct Arrival {
    /// What it begins with.
    pub front: Front,
    /// How the last read ended.
    pub stop: Option<Stop>,
}

/// How the wait for a header ended.
#[derive(Clone, Copy, Debug, PartialEq, Eq)]
pub enum HeaderRead {
    /// Its eight bytes.
    Header([u8; 8]),
    /// Fewer came, and a read gave nothing.
    Stopped(Stop),
}

/// Reads until the input begins with a whole frame or one that is refused, or a read gives nothing. The one error is want of
/// memory, and what was read stays.
pub fn advance<L: Link>(codec: &mut FramedCodec<L>, kind: u8) -> Result<Arrival, AllocError>
    ensures { Arrived L.Link kind codec.old result codec.new }
{
    'reads: loop {
        let front = codec.front(kind, codec.decoder_max_frame_size());
        if front != Front::Partial {
            return Ok(Arrival { front, stop: None });
        }
        match codec.fill()? {
            Filled::More => {}
            Filled::Stopped(stop) => {
                return Ok(Arrival {
                    front: Front::Partial,
                    stop: Some(stop),
                });
            }
        }
    }
}

/// Reads eight bytes, and takes them off. The one error is want of memory, and what was read stays.
pub fn read_header<L: Link>(codec: &mut FramedCodec<L>) -> Result<HeaderRead, AllocError>
    ensures { ReadHeader L.Link codec.old result codec.new }
{
    'reads: while !codec.has_header() {
        match codec.fill()? {
            Filled::More => {}
            Filled::Stopped(stop) => return Ok(HeaderRead::Stopped(stop)),
        }
    }
    let header = codec.header();
    codec.take_header()?;
    Ok(HeaderRead::Header(header))
}
