//! The exchange of protocol headers (OASIS AMQP 1.0, part 2, section 2.2; part 5, section 5.3.2).
ghost use Rattle.std.specs.Prelude.{◌≡◌, ◌++◌, ◌≤◌, length, Ok, Err, IfOk, IfErr, IsErr};
ghost use Rattle.std.specs.Borrow.{Lends, sem};
ghost use Rattle.amqp_transport.specs.contracts.negotiating.Negotiating.{the_row};
ghost use Rattle.amqp_frames.specs.declared.shared.ConnectionState.TheVariants.{Start};
ghost use Rattle.amqp_transport.specs.Exchange.{HeaderPolled, Exchanged, started};
ghost use Rattle.amqp_transport.specs.Header.{header_bytes, version_1};
ghost use Rattle.amqp_transport.specs.declared.header.ProtocolId.TheVariants.{Amqp, Sasl};

use crate::header::ProtocolHeader;
use crate::reading::{HeaderRead, read_header};
use crate::transport::Error;
use amqp_frames::ConnectionState;
use amqp_wire::codec::{FramedCodec, MIN_MAX_FRAME_SIZE};
use amqp_wire::link::{Held, IoKind, Link, Stop};
use std::alloc::AllocError;
use std::marker::Model;

/// What a poll of the exchange gives.
#[derive(Clone, Copy, Debug, PartialEq, Eq)]
pub enum Negotiated {
    /// Not all is written, or fewer than eight bytes are there.
    Pending,
    /// The eight bytes that were read.
    Header([u8; 8]),
}

/// A codec whose header is to be written and whose peer's header is to be read.
#[derive(Drop)]
pub struct Negotiating<L: Link> {
    codec: FramedCodec<L>,
}

impl<L: Link> Model for Negotiating<L> {
    ghost use Rattle.amqp_wire.specs.Codec.{Codec};

    ghost Value = { Codec L };

    ghost view = { λ n. n.codec };
}

/// Queues the eight bytes of a header, and sets both limits of frames to 512 bytes. Only memory can be wanting; then the codec
/// is handed back as it was.
pub fn negotiate<L: Link>(
    mut codec: FramedCodec<L>,
    header: [u8; 8],
) -> Result<Negotiating<L>, (AllocError, FramedCodec<L>)>
    ensures ok { IfOk result (λ n. n ≡ started codec header) }
    ensures err { IfErr result (λ e. e.1 ≡ codec) }
{
    match codec.queue(header.as_slice()) {
        Ok(()) => {
            codec.set_decoder_max_frame_size(MIN_MAX_FRAME_SIZE);
            codec.set_encoder_max_frame_size(MIN_MAX_FRAME_SIZE);
            Ok(Negotiating { codec })
        }
        Err(e) => Err((e, codec)),
    }
}

/// Queues the header of the SASL layer (part 5, section 5.3.2), as `negotiate`.
pub fn negotiate_sasl_header<L: Link>(
    codec: FramedCodec<L>,
) -> Result<Negotiating<L>, (AllocError, FramedCodec<L>)>
    ensures ok { IfOk result (λ n. n ≡ started codec (header_bytes (version_1 Sasl))) }
    ensures err { IfErr result (λ e. e.1 ≡ codec) }
{
    negotiate(codec, ProtocolHeader::sasl().to_bytes())
}

/// Queues the header of AMQP (part 2, section 2.2), as `negotiate`, for a connection of which nothing was sent or received. No
/// idle time runs while headers are exchanged: it starts where a transport is bound with it (section 2.4.5).
pub fn negotiate_amqp_header<L: Link>(
    codec: FramedCodec<L>,
    state: ConnectionState,
    _idle_timeout: Option<u64>,
) -> Result<Negotiating<L>, (AllocError, FramedCodec<L>)>
    requires { state ≡ Start }
    ensures ok { IfOk result (λ n. n ≡ started codec (header_bytes (version_1 Amqp))) }
    ensures err { IfErr result (λ e. e.1 ≡ codec) }
{
    negotiate(codec, ProtocolHeader::amqp().to_bytes())
}

impl<L: Link> Negotiating<L> {
    fn read(&mut self) -> Result<Negotiated, Error>
        ensures { HeaderPolled L.Link self.old result self.new }
    {
        match read_header(&mut self.codec)? {
            HeaderRead::Header(header) => Ok(Negotiated::Header(header)),
            HeaderRead::Stopped(Stop::Empty) => Ok(Negotiated::Pending),
            HeaderRead::Stopped(Stop::End) => Err(Error::Io(IoKind::End)),
            HeaderRead::Stopped(Stop::Failed) => Err(Error::Io(IoKind::Fault)),
        }
    }

    /// Writes the header, and then waits for eight bytes, whatever they say. `Io` says that the link failed, or that its input
    /// ended before them. After `Memory` nothing is lost, and the next poll goes on.
    pub fn poll(&mut self) -> Result<Negotiated, Error>
        ensures { Exchanged L.Link self.old result self.new }
    {
        match self.codec.flush() {
            None => self.read(),
            Some(Held::Full) => Ok(Negotiated::Pending),
            Some(Held::Failed) => Err(Error::Io(IoKind::Fault)),
            Some(Held::Memory) => Err(Error::Memory(AllocError)),
        }
    }

    /// The codec, with all that was read behind the header.
    pub fn into_framed_codec(self) -> FramedCodec<L>
        ensures { result ≡ self }
    {
        self.codec
    }

    /// The link.
    pub fn link(&mut self) -> &mut L
        ensures* writes_back { sem 𝓛 (Lends (the_row L.row L.Link) L.row self.entry result (λ w. record self.old { link = w })) }
        ensures value { result.now ≡ self.old.link }
    {
        self.codec.link()
    }
}
