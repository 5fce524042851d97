//! Frames of one kind over a link, with an idle clock (OASIS AMQP 1.0, part 2, sections 2.3 and 2.4.5).
ghost use Rattle.std.specs.Prelude.{◌≡◌, ◌<◌, ◌≤◌, ◌==◌, ◌+◌, ◌-◌, ◌++◌, ◌^◌, ℕ, [], length, take, drop, max, Ok, Err, Some, None, OnOk, OnErr, IfOk, IsErrOf, IfNone, IfSome, IsTrue, ◌↔◌};
ghost use Rattle.std.specs.Borrow.{Lends, sem};
ghost use Rattle.amqp_transport.specs.contracts.transport.Transport.{the_row};
ghost use Rattle.amqp_wire.specs.Frame.{IsFront, HasBody, frame_of};
ghost use Rattle.amqp_wire.specs.Codec.{Codec, Flushed};
ghost use Rattle.amqp_transport.specs.Arrivals.{FedTo, IsWanted};
ghost use Rattle.amqp_transport.specs.Stream.{Grew, HasFrame};
ghost use Rattle.amqp_transport.specs.Wire.{Wire, Polled, Answered, idle_of, FlushedTo, StartedSend};

use crate::idle_clock::IdleClock;
use crate::kind::FrameKind;
use crate::reading::{Arrival, advance};
use amqp_fields::BaseError;
use amqp_wire::codec::FramedCodec;
use amqp_wire::frame::Front;
use amqp_wire::link::{Held, IoKind, Link, Stop};
use std::alloc::{AllocError, Global};
use std::marker::{Model, PhantomData};
use thiserror::Error as ErrorDerive;

/// Why a transport gives no frame, or takes none (part 2, sections 2.3.1 and 2.4.5).
#[derive(Clone, Copy, Debug, PartialEq, Eq, ErrorDerive)]
pub enum Error {
    /// There was not enough memory.
    #[error("Memory")]
    Memory(AllocError),
    /// The link failed, or its input ended inside a frame.
    #[error("Io")]
    Io(IoKind),
    /// No frame came for the idle time (part 2, section 2.4.5).
    #[error("IdleTimeoutElapsed")]
    IdleTimeoutElapsed,
    /// The body of a frame spells nothing that such a frame may hold (part 2, section 2.3.2; part 5, section 5.3.1).
    #[error("DecodeError")]
    DecodeError,
    /// A frame of another type came (part 2, section 2.3.1).
    #[error("NotImplemented")]
    NotImplemented,
    /// A frame is too large or too small, or its body begins at no place in it (part 2, section 2.3.1).
    #[error("FramingError")]
    FramingError,
}

impl From<AllocError> for Error {
    ghost use Rattle.std.specs.Prelude.{◌≡◌};
    ghost use Rattle.amqp_transport.specs.declared.transport.Error.TheVariants.{Memory};

    ghost from_gives = { λ a e. e ≡ Memory a };

    fn from(error: AllocError) -> Self {
        Error::Memory(error)
    }
}

/// What a poll gives where no error is met: at most one frame (part 2, section 2.3).
#[derive(Debug, Drop)]
pub enum Next<T> {
    /// A frame.
    Frame(T),
    /// No whole frame is there now.
    Pending,
    /// The input ended between two frames.
    Ended,
}

/// How a flush ends where no error is met: frames go out in the order in which they were queued (part 2, section 2.3).
#[derive(Clone, Copy, Debug, PartialEq, Eq)]
pub enum Flush {
    /// All is written.
    Empty,
    /// The link takes nothing more now.
    Full,
}

/// Frames of one kind over a link; an error of reading is answered again.
#[derive(Drop)]
pub struct Transport<L: Link, F: FrameKind> {
    codec: FramedCodec<L>,
    clock: IdleClock,
    kept: Option<Error>,
    kind: PhantomData<F>,
}

impl<L: Link, F: FrameKind> Model for Transport<L, F> {
    ghost use Rattle.amqp_transport.specs.Wire.{Wire};

    ghost Value = { Wire L };

    ghost view = { λ t. record { codec = t.codec; clock = t.clock; kept = t.kept } };
}

/// Reads the body of the first frame, and takes the frame off. An `Err` changes nothing.
fn give<L: Link, F: FrameKind>(
    codec: &mut FramedCodec<L>,
    size: usize,
    start: usize,
    channel: u16,
) -> Result<F::Item, BaseError>
    requires { HasBody F.TYPE codec.old.decoder codec.old.input size start channel }
    ensures ok { IfOk result (λ x. F.spells channel (drop start (take size codec.old.input)) x) }
    ensures taken { OnOk result (codec.new ≡ record codec.old { input = drop size codec.old.input }) }
    ensures none { IsErrOf result BaseError.Decode → (x : F.Item) → F.spells channel (drop start (take size codec.old.input)) x → ⊥ }
    ensures size { IsErrOf result BaseError.Size → ⊥ }
    ensures err { OnErr result (codec.new ≡ codec.old) }
{
    let body = codec.body(size, start)?;
    let item = F::decode(codec.alloc(), channel, &body)?;
    codec.take_frame(size);
    Ok(item)
}

impl<L: Link, F: FrameKind> Transport<L, F> {
    /// Frames over the link. None that is read or written may have more bytes than that size, at least 512 (part 2, section
    /// 2.4.1). The idle time and the moment at which it starts are in milliseconds; an idle time of 0 is none (section 2.4.5).
    pub fn bind(
        alloc: Global,
        link: L,
        max_frame_size: usize,
        idle_timeout: Option<u64>,
        at: u64,
    ) -> Self
        requires { 512 ≤ max_frame_size }
        ensures codec { result.codec ≡ record { link = link; input = []; output = []; decoder = max_frame_size; encoder = max_frame_size } }
        ensures clock { result.clock ≡ record { idle = idle_of idle_timeout; since = at } }
        ensures kept { result.kept ≡ None }
    {
        let codec = FramedCodec::new(alloc, link, max_frame_size, max_frame_size);
        Transport::bind_to_framed_codec(codec, idle_timeout, at)
    }

    /// Frames over the codec; nothing that was read is lost. The idle time and the moment at which it starts are in
    /// milliseconds; an idle time of 0 is none (part 2, section 2.4.5).
    pub fn bind_to_framed_codec(codec: FramedCodec<L>, idle_timeout: Option<u64>, at: u64) -> Self
        ensures codec { result.codec ≡ codec }
        ensures clock { result.clock ≡ record { idle = idle_of idle_timeout; since = at } }
        ensures kept { result.kept ≡ None }
    {
        Transport {
            codec,
            clock: IdleClock::new(idle_timeout.unwrap_or(0), at),
            kept: None,
            kind: PhantomData,
        }
    }

    /// The codec, with all that was read and not given, and all that is queued and not written.
    pub fn into_framed_codec(self) -> FramedCodec<L>
        ensures { result ≡ self.codec }
    {
        self.codec
    }

    /// The link.
    pub fn link(&mut self) -> &mut L
        ensures* writes_back { sem 𝓛 (Lends (the_row L.row F.row F.Item.row L.Link F.FrameKind) L.row self.entry result (λ w. record self.old { codec = record self.old.codec { link = w } })) }
        ensures value { result.now ≡ self.old.codec.link }
    {
        self.codec.link()
    }

    /// The link, to be looked at.
    pub fn link_ref(&self) -> &L
        ensures { result.now ≡ self.now.codec.link }
    {
        self.codec.link_ref()
    }

    fn keep(&mut self, error: Error) -> Error
        ensures value { result ≡ error }
        ensures kept { self.new ≡ record self.old { kept = Some error } }
    {
        self.kept = Some(error);
        error
    }

    /// What the bytes that are there give.
    fn answer(&mut self, at: u64, arrival: Arrival) -> Result<Next<F::Item>, Error>
        requires front { IsFront F.TYPE self.old.codec.decoder self.old.codec.input arrival.front }
        requires wanted { IsWanted arrival.front arrival.stop }
        ensures { Answered F.spells arrival.front arrival.stop at self.old result self.new }
    {
        match arrival.front {
            Front::Whole {
                size,
                start,
                channel,
            } => {
                match give::<L, F>(&mut self.codec, size, start, channel) {
                    Ok(item) => {
                        self.clock.restart(at);
                        Ok(Next::Frame(item))
                    }
                    Err(BaseError::Memory(error)) => Err(Error::Memory(error)),
                    Err(_) => Err(self.keep(Error::DecodeError)),
                }
            }
            Front::Refused => Err(self.keep(Error::FramingError)),
            Front::Foreign => Err(self.keep(Error::NotImplemented)),
            Front::Partial => match arrival.stop {
                Some(Stop::End) => {
                    if self.codec.is_drained() {
                        return Ok(Next::Ended);
                    }
                    Err(self.keep(Error::Io(IoKind::End)))
                }
                Some(Stop::Empty) => {
                    if self.clock.has_elapsed(at) {
                        return Err(self.keep(Error::IdleTimeoutElapsed));
                    }
                    Ok(Next::Pending)
                }
                Some(Stop::Failed) => {
                    if self.clock.has_elapsed(at) {
                        return Err(self.keep(Error::IdleTimeoutElapsed));
                    }
                    Err(self.keep(Error::Io(IoKind::Fault)))
                }
                None => unreachable!(),
            },
        }
    }

    /// At most one frame. The moment is in milliseconds; a frame that is given starts the idle time anew.
    ///
    /// The size of a frame is looked at first, then the place of its body, its type, and its body: the first that is wrong is
    /// answered. An error is answered again by each later poll, but for `Memory`: all that was read is still there then, and
    /// the next poll goes on.
    pub fn poll_next(&mut self, at: u64) -> Result<Next<F::Item>, Error>
        ensures answer { Polled L.Link F.TYPE F.spells self.old at result self.new }
        ensures joined { Grew L.Link F.TYPE F.spells self.old at result self.new }
    {
        self.poll_once(at)
    }

    fn poll_once(&mut self, at: u64) -> Result<Next<F::Item>, Error>
        ensures { Polled L.Link F.TYPE F.spells self.old at result self.new }
    {
        match self.kept {
            Some(kept) => Err(kept),
            None => {
                let arrival = advance(&mut self.codec, F::TYPE)?;
                self.answer(at, arrival)
            }
        }
    }

    /// Queues the whole frame, or nothing. Unless memory ran out, `FramingError` is answered exactly where the frame would
    /// have more bytes than the encoder's limit or than 32 bits can count, or where the item has no bytes at all. An `Err`
    /// changes nothing.
    pub fn start_send(&mut self, alloc: Global, item: &F::Item) -> Result<(), Error>
        ensures answer { StartedSend F.TYPE F.canonical F.channel_of F.is_oversized self.old item.now result self.new }
        ensures frame { OnOk result (HasFrame F.spells F.canonical F.channel_of F.again item.now) }
    {
        match F::encode(alloc, item) {
            Ok(body) => {
                if body.bytes.len() > self.codec.encoder_max_frame_size() - 8
                    || body.bytes.len() > 4294967287
                {
                    return Err(Error::FramingError);
                }
                self.codec
                    .queue_frame(F::TYPE, body.channel, body.bytes.as_slice())?;
                Ok(())
            }
            Err(BaseError::Memory(error)) => Err(Error::Memory(error)),
            Err(_) => Err(Error::FramingError),
        }
    }

    /// Writes until nothing is left (`Empty`), or the link takes nothing now (`Full`). `Io` says that the link failed,
    /// `Memory` that it had no memory. What was not taken stays queued, whatever is answered.
    pub fn poll_flush(&mut self) -> Result<Flush, Error>
        ensures { FlushedTo L.Link self.old result self.new }
    {
        match self.codec.flush() {
            None => Ok(Flush::Empty),
            Some(Held::Full) => Ok(Flush::Full),
            Some(Held::Failed) => Err(Error::Io(IoKind::Fault)),
            Some(Held::Memory) => Err(Error::Memory(AllocError)),
        }
    }

    /// The same as `poll_flush`, since a link has no end of its own.
    pub fn poll_close(&mut self) -> Result<Flush, Error>
        ensures { FlushedTo L.Link self.old result self.new }
    {
        self.poll_flush()
    }

    /// Frames that are read may have so many bytes, at least 512 (part 2, section 2.4.1): the larger of both is the limit.
    pub fn set_decoder_max_frame_size(&mut self, size: usize) -> &mut Self
        ensures same { result.ghost_name ≡ self.entry.ghost_name }
        ensures value { result.now ≡ record self.old { codec = record self.old.codec { decoder = max 512 size } } }
    {
        self.codec.set_decoder_max_frame_size(size);
        self
    }

    /// Frames that are written may have so many bytes, at least 512 (part 2, section 2.4.1): the larger of both is the limit.
    pub fn set_encoder_max_frame_size(&mut self, size: usize) -> &mut Self
        ensures same { result.ghost_name ≡ self.entry.ghost_name }
        ensures value { result.now ≡ record self.old { codec = record self.old.codec { encoder = max 512 size } } }
    {
        self.codec.set_encoder_max_frame_size(size);
        self
    }

    /// The most bytes of a frame that is written, less the 4 of its size (part 2, section 2.3.1).
    pub fn encoder_max_frame_size(&self) -> usize
        ensures { result ≡ self.now.codec.encoder - 4 }
    {
        self.codec.encoder_max_frame_size() - 4
    }

    /// Another idle time (part 2, section 2.4.5), which starts at that moment, both in milliseconds; 0 is none.
    pub fn set_idle_timeout(&mut self, duration: u64, at: u64) -> &mut Self
        ensures same { result.ghost_name ≡ self.entry.ghost_name }
        ensures value { result.now ≡ record self.old { clock = record { idle = duration; since = at } } }
    {
        self.clock = IdleClock::new(duration, at);
        self
    }
}
