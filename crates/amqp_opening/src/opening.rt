//! The opening of a connection over a link: the SASL negotiation, where there is one, and then the
//! AMQP headers (OASIS AMQP 1.0, part 2, section 2.2).
ghost use Rattle.std.specs.Prelude.{◌≡◌, ◌↔◌, ◌≤◌, take, true, false, ℕ, length, [], ◌++◌, Ok, Err, None, OnOk, OnErr};
ghost use Rattle.std.specs.Borrow.{Lends, sem};
ghost use Rattle.sasl_gate.specs.Negotiation.{IsPassed};
ghost use Rattle.sasl_gate.specs.declared.gate.negotiation.Phase.TheVariants.{Header as HeaderPhase};
ghost use Rattle.amqp_opening.specs.contracts.opening.Opening.{the_row};
ghost use Rattle.amqp_opening.specs.declared.opening.Stage.{Stage};
ghost use Rattle.amqp_opening.specs.Opening.{Opened, Ran, amqp_header, begun, begun_plain, IsUnderWay, IsStopEnd, IsMemoryIn};

use amqp_wire::codec::{FramedCodec, MIN_MAX_FRAME_SIZE};
use amqp_wire::link::{Held, IoKind, Link, Stop};
use amqp_wire::reading::{Wait, read_header};
use sasl_gate::NegotiationError;
use sasl_gate::gate::negotiation::{GatePoll, Negotiation};
use sasl_gate::sasl_exchange::exchange::Exchange;
use std::alloc::{AllocError, Global};
use std::marker::Model;

/// The protocol header of AMQP 1.0 (part 2, section 2.2).
pub const AMQP_HEADER: [u8; 8] = [65, 77, 81, 80, 0, 1, 0, 0];

/// How far the opening of a connection is.
#[derive(Clone, Copy, Debug, PartialEq, Eq)]
pub enum Stage {
    /// It has not begun.
    Idle,
    /// The SASL negotiation goes on.
    Negotiating,
    /// There is no SASL layer, or the negotiation has passed, and the AMQP header of the other end
    /// was not read yet.
    Header,
    /// It was.
    Exchanged,
    /// The connection has ended.
    Ended,
}

/// What a run of an opening comes to.
#[derive(Debug, Drop)]
pub enum OpeningPoll {
    /// No more can be done now.
    Pending,
    /// Both AMQP headers are there; what was read behind that of the other end is in the codec.
    Exchanged,
    /// The connection has ended by this error.
    Failed(NegotiationError),
}

/// The opening of a connection over a link.
pub struct Opening<L: Link, X: Exchange> {
    negotiation: Negotiation<L, X>,
    stage: Stage,
    has_sasl: bool,
}

// An opening is let go by a call, so that no caller sees what it holds.
impl<L: Link, X: Exchange> Drop for Opening<L, X> {
    fn drop(self) {
        let Opening {
            negotiation,
            stage: _,
            has_sasl: _,
        } = self;
        drop(negotiation);
    }
}

impl<L: Link, X: Exchange> Model for Opening<L, X> {
    ghost use Rattle.amqp_opening.specs.Opening.{Opened};

    ghost Value = { Opened L X };

    ghost view = { λ o. record { negotiation = o.negotiation; stage = o.stage; has_sasl = o.has_sasl } };
}

fn is_amqp_header(bytes: &[u8]) -> bool
    ensures { result ≡ true ↔ (bytes.now ≡ amqp_header) }
{
    bytes == AMQP_HEADER.as_slice()
}

/// The want of memory that an error is.
pub fn memory_in(error: &NegotiationError) -> Option<AllocError>
    ensures { IsMemoryIn error.now result }
{
    match error {
        NegotiationError::Memory(error) => Some(*error),
        NegotiationError::ProtocolHeaderMismatch(_) => None,
        NegotiationError::NotImplemented => None,
        NegotiationError::SaslError { .. } => None,
        NegotiationError::ScramError(_) => None,
        NegotiationError::Io(_) => None,
        NegotiationError::DecodeError => None,
        NegotiationError::IllegalState => None,
        NegotiationError::FramingError => None,
    }
}

impl<L: Link, X: Exchange> Opening<L, X> {
    /// An opening that has not begun; takes no memory.
    pub fn new(alloc: Global, link: L, exchange: X) -> Self
        ensures { result ≡ record { negotiation = record { codec = record { link = link; input = []; output = []; decoder = 512; encoder = 512 }; phase = HeaderPhase; exchange = exchange }; stage = Stage.Idle; has_sasl = false } }
    {
        let codec = FramedCodec::new(alloc, link, MIN_MAX_FRAME_SIZE, MIN_MAX_FRAME_SIZE);
        Opening {
            negotiation: Negotiation::new(alloc, codec, exchange),
            stage: Stage::Idle,
            has_sasl: false,
        }
    }

    /// How far it is.
    pub fn stage(&self) -> Stage
        ensures { result ≡ self.now.stage }
    {
        self.stage
    }

    /// The link.
    pub fn link(&mut self) -> &mut L
        ensures* writes_back { sem 𝓛 (Lends (the_row L.row X.row L.Link X.Exchange) L.row self.entry result (λ w. record self.old { negotiation = record self.old.negotiation { codec = record self.old.negotiation.codec { link = w } } })) }
        ensures value { result.now ≡ self.old.negotiation.codec.link }
    {
        self.negotiation.link()
    }

    /// The link, to be looked at.
    pub fn link_ref(&self) -> &L
        ensures { result.now ≡ self.now.negotiation.codec.link }
    {
        self.negotiation.codec().link_ref()
    }

    /// Gives the codec up, with what was read and not taken.
    pub fn into_codec(self) -> FramedCodec<L>
        ensures { result ≡ self.negotiation.codec }
    {
        let Opening {
            negotiation,
            stage: _,
            has_sasl: _,
        } = self;
        negotiation.into_framed_codec()
    }

    /// Begins with an exchange: the SASL header is queued. The one error is want of memory, which
    /// changes nothing.
    pub fn begin(&mut self, exchange: X) -> Result<(), AllocError>
        ensures ok { OnOk result (self.new ≡ begun self.old exchange) }
        ensures err { OnErr result (self.new ≡ self.old) }
    {
        self.negotiation.begin(exchange)?;
        self.stage = Stage::Negotiating;
        self.has_sasl = true;
        Ok(())
    }

    /// Begins without a SASL layer: the AMQP header is queued. The one error is want of memory,
    /// which changes nothing.
    pub fn begin_plain(&mut self) -> Result<(), AllocError>
        ensures ok { OnOk result (self.new ≡ begun_plain self.old) }
        ensures err { OnErr result (self.new ≡ self.old) }
    {
        self.queue_header()?;
        self.stage = Stage::Header;
        self.has_sasl = false;
        Ok(())
    }

    /// Ends it at once.
    pub fn end(&mut self)
        ensures { self.new ≡ record self.old { stage = Stage.Ended } }
    {
        self.stage = Stage::Ended;
    }

    // Queues the own AMQP header. The one error is want of memory, which changes nothing.
    fn queue_header(&mut self) -> Result<(), AllocError>
        ensures ok { OnOk result (self.new ≡ record self.old { negotiation = record self.old.negotiation { codec = record self.old.negotiation.codec { output = self.old.negotiation.codec.output ++ amqp_header } } }) }
        ensures err { OnErr result (self.new ≡ self.old) }
    {
        self.negotiation.codec_mut().queue(AMQP_HEADER.as_slice())
    }

    fn fail(&mut self, error: NegotiationError) -> OpeningPoll
        ensures ended { self.new ≡ record self.old { stage = Stage.Ended } }
        ensures result { result ≡ OpeningPoll.Failed error }
    {
        self.stage = Stage::Ended;
        OpeningPoll::Failed(error)
    }

    // What comes of a read that gave nothing.
    fn on_stop(&mut self, stop: Stop) -> OpeningPoll
        ensures { IsStopEnd stop self.old result self.new }
    {
        match stop {
            Stop::Empty => OpeningPoll::Pending,
            Stop::End => self.fail(NegotiationError::Io(IoKind::End)),
            Stop::Failed => self.fail(NegotiationError::Io(IoKind::Fault)),
        }
    }

    // Compares the header that was read, and takes it.
    fn on_header(&mut self) -> Result<OpeningPoll, AllocError>
        requires stage { self.old.stage ≡ Stage.Header }
        requires flushed { self.old.negotiation.codec.output ≡ [] }
        requires whole { 8 ≤ length self.old.negotiation.codec.input }
        ensures { (left : ℕ) → Ran L.Link X.Exchange self.old left result self.new left }
    {
        let header = self.negotiation.codec().header();
        if !is_amqp_header(header.as_slice()) {
            return Ok(self.fail(NegotiationError::NotImplemented));
        }
        match self.negotiation.codec_mut().take_header() {
            Ok(()) => {
                self.stage = Stage::Exchanged;
                Ok(OpeningPoll::Exchanged)
            }
            Err(error) => Err(error),
        }
    }

    fn await_header(&mut self, reads_left: &mut u64) -> Result<OpeningPoll, AllocError>
        requires stage { self.old.stage ≡ Stage.Header }
        requires flushed { self.old.negotiation.codec.output ≡ [] }
        ensures { Ran L.Link X.Exchange self.old reads_left.old result self.new reads_left.new }
    {
        match read_header(self.negotiation.codec_mut(), reads_left) {
            Ok(Wait::Over) => self.on_header(),
            Ok(Wait::Spent) => Ok(OpeningPoll::Pending),
            Ok(Wait::Stopped(stop)) => Ok(self.on_stop(stop)),
            Err(error) => Err(error),
        }
    }

    // Writes the own header, and reads that of the other end.
    fn exchange_headers(&mut self, reads_left: &mut u64) -> Result<OpeningPoll, AllocError>
        requires { self.old.stage ≡ Stage.Header }
        ensures { Ran L.Link X.Exchange self.old reads_left.old result self.new reads_left.new }
    {
        match self.negotiation.codec_mut().flush() {
            None => self.await_header(reads_left),
            Some(Held::Full) => Ok(OpeningPoll::Pending),
            Some(Held::Failed) => Ok(self.fail(NegotiationError::Io(IoKind::Fault))),
            Some(Held::Memory) => Err(AllocError),
        }
    }

    // The negotiation has passed: the own AMQP header is due.
    fn on_passed(&mut self, reads_left: &mut u64) -> Result<OpeningPoll, AllocError>
        requires stage { self.old.stage ≡ Stage.Negotiating }
        requires passed { IsPassed X.Exchange self.old.negotiation }
        ensures { Ran L.Link X.Exchange self.old reads_left.old result self.new reads_left.new }
    {
        match self.queue_header() {
            Ok(()) => {
                self.stage = Stage::Header;
                self.exchange_headers(reads_left)
            }
            Err(error) => Err(error),
        }
    }

    fn negotiate(&mut self, reads_left: &mut u64) -> Result<OpeningPoll, AllocError>
        requires { self.old.stage ≡ Stage.Negotiating }
        ensures { Ran L.Link X.Exchange self.old reads_left.old result self.new reads_left.new }
    {
        match self.negotiation.poll_within(reads_left) {
            Ok(GatePoll::Pending) => Ok(OpeningPoll::Pending),
            Ok(GatePoll::Passed) => self.on_passed(reads_left),
            Err(error) => match memory_in(&error) {
                Some(error) => Err(error),
                None => Ok(self.fail(error)),
            },
        }
    }

    /// Goes on until both AMQP headers are there, or no more can be done now, with at most
    /// `reads_left` reads of the link that give bytes, which are counted down. Where it is pending,
    /// all is written and it waits for input that is not there whole, or the link took no output.
    /// The one `Err` is want of memory, after which the end can go no further.
    pub fn run(&mut self, reads_left: &mut u64) -> Result<OpeningPoll, AllocError>
        requires { IsUnderWay self.old.stage }
        ensures { Ran L.Link X.Exchange self.old reads_left.old result self.new reads_left.new }
    {
        match self.stage {
            Stage::Negotiating => self.negotiate(reads_left),
            Stage::Header => self.exchange_headers(reads_left),
            Stage::Idle | Stage::Exchanged | Stage::Ended => unreachable!(),
        }
    }
}
