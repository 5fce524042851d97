//! One end of a SASL negotiation over a link, for any mechanism.
ghost use Rattle.std.specs.Prelude.{◌≡◌, ◌<◌, ◌≤◌, ◌↔◌, take, drop, true, false, ℕ, List, [], ◌++◌, length, Ok, Err, IfOk, IfErr, OnOk, OnErr};
ghost use Rattle.std.specs.Borrow.{Lends, sem};
ghost use Rattle.amqp_wire.specs.declared.frame.Front.TheVariants.{Refused, Foreign, Partial};
ghost use Rattle.amqp_wire.specs.declared.reading.Wait.{Wait};
ghost use Rattle.amqp_wire.specs.Events.{LinkEvent};
ghost use Rattle.sasl_exchange.specs.amqp_sasl_bodies.declared.sasl_body.SaslBody.{SaslBody};
ghost use Rattle.sasl_gate.specs.Frames.{HasSaslFrame, canonical_of, sasl_header};
ghost use Rattle.sasl_exchange.specs.amqp_sasl_bodies.SaslBytes.{SpellsSasl};
ghost use Rattle.amqp_wire.specs.Frame.{HasBody, IsFront};
ghost use Rattle.amqp_wire.specs.contracts.codec.FramedCodec.{the_row as codec_row};
ghost use Rattle.sasl_gate.specs.contracts.gate.negotiation.Negotiation.{the_row};
ghost use Rattle.sasl_exchange.specs.declared.exchange.Turn.TheVariants.{Send, Receive};
ghost use Rattle.sasl_gate.specs.declared.gate.negotiation.Phase.TheVariants.{Header, Frames, Failed};
ghost use Rattle.sasl_gate.specs.Negotiation.{Negotiating, GoesOn, IsPassed, Polled};
ghost use Rattle.sasl_gate.specs.Steps.{Stepped, step_in, measure_of, HasEnded, IsAlive, IsFailed, IsStopAnswer, IsWaitAnswer, ArrivesAt, IsDecoded, IsOwed, IsEndAnswer};

use amqp_fields::BaseError;
use amqp_text::Binary;
use amqp_wire::codec::FramedCodec;
use amqp_wire::frame::Front;
use amqp_wire::link::{Held, IoKind, Link, Stop};
use amqp_wire::reading::{Arrival, Wait, read_front, read_header};
use sasl_exchange::amqp_sasl_bodies::sasl_body::SaslBody;
use sasl_exchange::amqp_sasl_bodies::{FRAME_TYPE_SASL, decode_sasl, encode_sasl};
use sasl_exchange::error::NegotiationError;
use sasl_exchange::exchange::{Exchange, Turn, Verdict};
use std::alloc::{AllocError, Global};
use std::marker::Model;

/// The protocol header of the SASL layer (part 5, section 5.3.2).
pub const SASL_HEADER: [u8; 8] = [65, 77, 81, 80, 3, 1, 0, 0];

/// The most bytes of a SASL frame (part 5, section 5.3.1).
const MAX_FRAME_SIZE: usize = 512;

/// The most bytes of the body of a SASL frame.
const MAX_BODY_SIZE: usize = 504;

/// How far a negotiation is.
#[derive(Debug, Drop)]
pub enum Phase {
    /// The SASL header was not read yet.
    Header,
    /// Frames are read and written, or the mechanism has passed or refused.
    Frames,
    /// It failed.
    Failed(NegotiationError),
}

/// What a poll of a negotiation answers.
#[derive(Clone, Copy, Debug, PartialEq, Eq)]
pub enum GatePoll {
    /// The header or frame that is waited for is not there, or own bytes are not written whole.
    Pending,
    /// The check of the mechanism holds, and all own bytes are written.
    Passed,
}

/// What one step of a negotiation came to.
#[derive(Clone, Copy, Debug, PartialEq, Eq)]
pub enum Step {
    /// There is more to do.
    Goes,
    /// No more can be done now.
    Waits,
    /// It has passed or failed.
    Ends,
}

/// One end of a SASL negotiation over a link: the header, and then the bodies of its exchange.
#[derive(Drop)]
pub struct Negotiation<L: Link, X: Exchange> {
    codec: FramedCodec<L>,
    phase: Phase,
    exchange: X,
    alloc: Global,
}

impl<L: Link, X: Exchange> Model for Negotiation<L, X> {
    ghost use Rattle.sasl_gate.specs.Negotiation.{Negotiating};

    ghost Value = { Negotiating L X };

    ghost view = { λ n. record { codec = n.codec; phase = n.phase; exchange = n.exchange } };
}

fn is_sasl_header(bytes: &[u8]) -> bool
    ensures { result ≡ true ↔ (bytes.now ≡ sasl_header) }
{
    bytes == SASL_HEADER.as_slice()
}

impl<L: Link, X: Exchange> Negotiation<L, X> {
    /// A negotiation that has not begun; takes no memory.
    pub fn new(alloc: Global, codec: FramedCodec<L>, exchange: X) -> Self
        ensures { result ≡ record { codec = codec; phase = Header; exchange = exchange } }
    {
        Negotiation {
            codec,
            phase: Phase::Header,
            exchange,
            alloc,
        }
    }

    /// Begins the negotiation of an exchange: the SASL header is queued. The one error is want of
    /// memory, which changes nothing.
    pub fn begin(&mut self, exchange: X) -> Result<(), AllocError>
        ensures ok { OnOk result (self.new ≡ record self.old { codec = record self.old.codec { output = self.old.codec.output ++ sasl_header }; exchange = exchange }) }
        ensures err { OnErr result (self.new ≡ self.old) }
    {
        self.codec.queue(SASL_HEADER.as_slice())?;
        self.exchange = exchange;
        Ok(())
    }

    /// Begins a negotiation: its header is queued. The one error is want of memory, which hands
    /// the codec back as it was.
    pub fn start(
        alloc: Global,
        mut codec: FramedCodec<L>,
        exchange: X,
    ) -> Result<Self, (AllocError, FramedCodec<L>)>
        ensures ok { IfOk result (λ n. n ≡ record { codec = record codec { output = codec.output ++ sasl_header }; phase = Header; exchange = exchange }) }
        ensures err { IfErr result (λ e. e.1 ≡ codec) }
    {
        match codec.queue(SASL_HEADER.as_slice()) {
            Ok(()) => Ok(Negotiation {
                codec,
                phase: Phase::Header,
                exchange,
                alloc,
            }),
            Err(error) => Err((error, codec)),
        }
    }

    /// The codec, to be looked at.
    pub fn codec(&self) -> &FramedCodec<L>
        ensures { result.now ≡ self.now.codec }
    {
        &self.codec
    }

    /// The codec.
    pub fn codec_mut(&mut self) -> &mut FramedCodec<L>
        ensures* writes_back { sem 𝓛 (Lends (the_row L.row X.row L.Link X.Exchange) (codec_row L.row L.Link) self.entry result (λ c. record self.old { codec = c })) }
        ensures value { result.now ≡ self.old.codec }
    {
        &mut self.codec
    }

    /// The link.
    pub fn link(&mut self) -> &mut L
        ensures* writes_back { sem 𝓛 (Lends (the_row L.row X.row L.Link X.Exchange) L.row self.entry result (λ w. record self.old { codec = record self.old.codec { link = w } })) }
        ensures value { result.now ≡ self.old.codec.link }
    {
        self.codec.link()
    }

    /// Gives the codec up, with what was read and not taken.
    pub fn into_framed_codec(self) -> FramedCodec<L>
        ensures { result ≡ self.codec }
    {
        self.codec
    }

    fn fail(&mut self, error: NegotiationError) -> Step
        ensures failed { self.new ≡ record self.old { phase = Failed error } }
        ensures ends { result ≡ Step.Ends }
    {
        self.phase = Phase::Failed(error);
        Step::Ends
    }

    // What comes of a read that gave nothing.
    fn on_stop(&mut self, stop: Stop) -> Step
        ensures { IsStopAnswer stop self.old result self.new }
    {
        match stop {
            Stop::Empty => Step::Waits,
            Stop::End => self.fail(NegotiationError::Io(IoKind::End)),
            Stop::Failed => self.fail(NegotiationError::Io(IoKind::Fault)),
        }
    }

    // What comes of a wait that did not bring what was waited for.
    fn on_wait(&mut self, wait: Wait) -> Step
        ensures { IsWaitAnswer wait self.old result self.new }
    {
        match wait {
            Wait::Over => Step::Waits,
            Wait::Spent => Step::Waits,
            Wait::Stopped(stop) => self.on_stop(stop),
        }
    }

    // Compares the header that was read.
    fn on_header(&mut self) -> Result<Step, AllocError>
        requires phase { self.old.phase ≡ Header }
        requires whole { 8 ≤ length self.old.codec.input }
        ensures stepped { (left : ℕ) → Stepped L.Link X.Exchange self.old left (step_in result) self.new left }
        ensures less { result ≡ Ok Step.Goes → measure_of X.Exchange self.new < measure_of X.Exchange self.old }
        ensures ended { result ≡ Ok Step.Ends → HasEnded X.Exchange self.new }
    {
        let header = self.codec.header();
        if !is_sasl_header(header.as_slice()) {
            return Ok(self.fail(NegotiationError::ProtocolHeaderMismatch(header)));
        }
        match self.codec.take_header() {
            Ok(()) => {
                self.phase = Phase::Frames;
                Ok(Step::Goes)
            }
            Err(error) => Err(error),
        }
    }

    fn await_header(&mut self, reads_left: &mut u64) -> Result<Step, AllocError>
        requires phase { self.old.phase ≡ Header }
        requires flushed { self.old.codec.output ≡ [] }
        ensures stepped { Stepped L.Link X.Exchange self.old reads_left.old (step_in result) self.new reads_left.new }
        ensures less { result ≡ Ok Step.Goes → measure_of X.Exchange self.new < measure_of X.Exchange self.old }
        ensures ended { result ≡ Ok Step.Ends → HasEnded X.Exchange self.new }
    {
        match read_header(&mut self.codec, reads_left) {
            Ok(Wait::Over) => self.on_header(),
            Ok(Wait::Stopped(stop)) => Ok(self.on_stop(stop)),
            Ok(Wait::Spent) => Ok(Step::Waits),
            Err(error) => Err(error),
        }
    }

    // The body of a whole frame, if it is one of the five.
    fn decoded(&self, size: usize, start: usize) -> Result<Option<SaslBody>, AllocError>
        requires frame { (channel : ℕ) × HasBody 1 512 self.now.codec.input size start channel }
        ensures { IfOk result (IsDecoded (drop start (take size self.now.codec.input))) }
    {
        match decode_sasl(self.alloc, &self.codec.frame(size)[start..]) {
            Ok(body) => Ok(Some(body)),
            Err(BaseError::Memory(error)) => Err(error),
            Err(BaseError::Decode) => Ok(None),
            Err(BaseError::Size) => Ok(None),
        }
    }

    // Takes a body that was read.
    fn take_body(&mut self, body: SaslBody, size: usize) -> Result<Step, AllocError>
        requires phase { self.old.phase ≡ Frames }
        requires turn { X.turn_of self.old.exchange ≡ Receive }
        requires flushed { self.old.codec.output ≡ [] }
        requires frame { (start channel : ℕ) × HasBody 1 512 self.old.codec.input size start channel × SpellsSasl (drop start (take size self.old.codec.input)) body }
        ensures stepped { (left : ℕ) → Stepped L.Link X.Exchange self.old left (step_in result) self.new left }
        ensures less { result ≡ Ok Step.Goes → measure_of X.Exchange self.new < measure_of X.Exchange self.old }
        ensures ended { result ≡ Ok Step.Ends → HasEnded X.Exchange self.new }
    {
        match self.exchange.on_body(self.alloc, body) {
            Ok(Verdict::Taken) => {
                self.codec.take_frame(size);
                Ok(Step::Goes)
            }
            Ok(Verdict::Refused(error)) => Ok(self.fail(error)),
            Err(error) => Err(error),
        }
    }

    // Reads the body of a whole frame.
    fn on_frame(&mut self, size: usize, start: usize) -> Result<Step, AllocError>
        requires phase { self.old.phase ≡ Frames }
        requires turn { X.turn_of self.old.exchange ≡ Receive }
        requires flushed { self.old.codec.output ≡ [] }
        requires frame { (channel : ℕ) × HasBody 1 512 self.old.codec.input size start channel }
        ensures stepped { (left : ℕ) → Stepped L.Link X.Exchange self.old left (step_in result) self.new left }
        ensures less { result ≡ Ok Step.Goes → measure_of X.Exchange self.new < measure_of X.Exchange self.old }
        ensures ended { result ≡ Ok Step.Ends → HasEnded X.Exchange self.new }
    {
        match self.decoded(size, start) {
            Ok(Some(body)) => self.take_body(body, size),
            Ok(None) => Ok(self.fail(NegotiationError::DecodeError)),
            Err(error) => Err(error),
        }
    }

    fn await_body(&mut self, reads_left: &mut u64) -> Result<Step, AllocError>
        requires phase { self.old.phase ≡ Frames }
        requires turn { X.turn_of self.old.exchange ≡ Receive }
        requires flushed { self.old.codec.output ≡ [] }
        ensures stepped { Stepped L.Link X.Exchange self.old reads_left.old (step_in result) self.new reads_left.new }
        ensures less { result ≡ Ok Step.Goes → measure_of X.Exchange self.new < measure_of X.Exchange self.old }
        ensures ended { result ≡ Ok Step.Ends → HasEnded X.Exchange self.new }
    {
        match read_front(&mut self.codec, FRAME_TYPE_SASL, MAX_FRAME_SIZE, reads_left) {
            Ok(arrival) => self.on_arrival(arrival),
            Err(error) => Err(error),
        }
    }

    // Takes what the input begins with.
    fn on_arrival(&mut self, arrival: Arrival) -> Result<Step, AllocError>
        requires phase { self.old.phase ≡ Frames }
        requires turn { X.turn_of self.old.exchange ≡ Receive }
        requires flushed { self.old.codec.output ≡ [] }
        requires front { IsFront 1 512 self.old.codec.input arrival.front }
        ensures arrived { (left : ℕ) → ArrivesAt L.Link X.Exchange arrival self.old left (step_in result) self.new left }
        ensures less { result ≡ Ok Step.Goes → measure_of X.Exchange self.new < measure_of X.Exchange self.old }
        ensures ended { result ≡ Ok Step.Ends → HasEnded X.Exchange self.new }
    {
        match arrival.front {
            Front::Whole { size, start, .. } => self.on_frame(size, start),
            Front::Partial => Ok(self.on_wait(arrival.wait)),
            Front::Refused => Ok(self.fail(NegotiationError::FramingError)),
            Front::Foreign => Ok(self.fail(NegotiationError::NotImplemented)),
        }
    }

    // The bytes of the body that is owed, if a frame has room for them.
    fn owed_bytes(&self) -> Result<Option<Binary>, AllocError>
        requires { X.turn_of self.now.exchange ≡ Send }
        ensures { IfOk result (IsOwed (X.owes self.now.exchange)) }
    {
        let body = self.exchange.next_body(self.alloc)?;
        match encode_sasl(self.alloc, &body) {
            Ok(bytes) if bytes.len() <= MAX_BODY_SIZE => Ok(Some(bytes)),
            Ok(_) => Ok(None),
            Err(BaseError::Memory(error)) => Err(error),
            Err(BaseError::Decode) => Ok(None),
            Err(BaseError::Size) => Ok(None),
        }
    }

    // Queues the frame of the body that is owed.
    fn send(&mut self) -> Result<Step, AllocError>
        requires phase { self.old.phase ≡ Frames }
        requires turn { X.turn_of self.old.exchange ≡ Send }
        ensures stepped { (left : ℕ) → Stepped L.Link X.Exchange self.old left (step_in result) self.new left }
        ensures less { result ≡ Ok Step.Goes → measure_of X.Exchange self.new < measure_of X.Exchange self.old }
        ensures ended { result ≡ Ok Step.Ends → HasEnded X.Exchange self.new }
    {
        match self.owed_bytes() {
            Ok(Some(bytes)) => self.queue_body(bytes),
            Ok(None) => Ok(self.fail(NegotiationError::FramingError)),
            Err(error) => Err(error),
        }
    }

    fn queue_body(&mut self, bytes: Binary) -> Result<Step, AllocError>
        requires phase { self.old.phase ≡ Frames }
        requires turn { X.turn_of self.old.exchange ≡ Send }
        requires owed { (body : SaslBody) × X.owes self.old.exchange body × (bytes ≡ canonical_of body) × HasSaslFrame body }
        ensures stepped { (left : ℕ) → Stepped L.Link X.Exchange self.old left (step_in result) self.new left }
        ensures less { result ≡ Ok Step.Goes → measure_of X.Exchange self.new < measure_of X.Exchange self.old }
        ensures ended { result ≡ Ok Step.Ends → ⊥ }
    {
        match self.codec.queue_frame(FRAME_TYPE_SASL, 0, bytes.as_slice()) {
            Ok(()) => {
                self.exchange.on_sent();
                Ok(Step::Goes)
            }
            Err(error) => Err(error),
        }
    }

    fn take_turn(&mut self, reads_left: &mut u64) -> Result<Step, AllocError>
        requires phase { self.old.phase ≡ Frames }
        requires flushed { self.old.codec.output ≡ [] }
        ensures stepped { Stepped L.Link X.Exchange self.old reads_left.old (step_in result) self.new reads_left.new }
        ensures less { result ≡ Ok Step.Goes → measure_of X.Exchange self.new < measure_of X.Exchange self.old }
        ensures ended { result ≡ Ok Step.Ends → HasEnded X.Exchange self.new }
    {
        match self.exchange.turn() {
            Turn::Send => self.send(),
            Turn::Receive => self.await_body(reads_left),
            Turn::Refuse(code) => Ok(self.fail(NegotiationError::SaslError {
                code,
                additional_data: None,
            })),
            Turn::Pass => Ok(Step::Ends),
        }
    }

    fn advance(&mut self, reads_left: &mut u64) -> Result<Step, AllocError>
        requires flushed { self.old.codec.output ≡ [] }
        requires alive { IsAlive self.old.phase }
        ensures stepped { Stepped L.Link X.Exchange self.old reads_left.old (step_in result) self.new reads_left.new }
        ensures less { result ≡ Ok Step.Goes → measure_of X.Exchange self.new < measure_of X.Exchange self.old }
        ensures ended { result ≡ Ok Step.Ends → HasEnded X.Exchange self.new }
    {
        match &self.phase {
            Phase::Header => self.await_header(reads_left),
            Phase::Frames => self.take_turn(reads_left),
            Phase::Failed(_) => Ok(Step::Ends),
        }
    }

    fn has_failed(&self) -> bool
        ensures alive { result ≡ false → IsAlive self.now.phase }
        ensures failed { result ≡ true → IsFailed self.now.phase }
    {
        match &self.phase {
            Phase::Header => false,
            Phase::Frames => false,
            Phase::Failed(_) => true,
        }
    }

    // Writes what is queued, and then does the next thing.
    fn step(&mut self, reads_left: &mut u64) -> Result<Step, AllocError>
        ensures stepped { Stepped L.Link X.Exchange self.old reads_left.old (step_in result) self.new reads_left.new }
        ensures less { result ≡ Ok Step.Goes → measure_of X.Exchange self.new < measure_of X.Exchange self.old }
        ensures ended { result ≡ Ok Step.Ends → HasEnded X.Exchange self.new }
    {
        if self.has_failed() {
            return Ok(Step::Ends);
        }
        match self.codec.flush() {
            None => self.advance(reads_left),
            Some(Held::Full) => Ok(Step::Waits),
            Some(Held::Failed) => Ok(self.fail(NegotiationError::Io(IoKind::Fault))),
            Some(Held::Memory) => Err(AllocError),
        }
    }

    // What a negotiation that has ended answers.
    fn answer(&self) -> Result<GatePoll, NegotiationError>
        requires { HasEnded X.Exchange self.now }
        ensures { IsEndAnswer X.Exchange self.now result }
    {
        match &self.phase {
            Phase::Failed(error) => Err(error.try_clone(self.alloc)?),
            _ => Ok(GatePoll::Passed),
        }
    }

    /// Goes on until it has passed or failed, or can do no more now: with at most `reads_left`
    /// reads of the link that give bytes, which are counted down. Where it can do no more, all is
    /// written and it waits for input that is not there whole, or the link took no output. A failure
    /// is answered again at each later call, and then nothing is read or written.
    pub fn poll_within(&mut self, reads_left: &mut u64) -> Result<GatePoll, NegotiationError>
        ensures { Polled L.Link X.Exchange self.old reads_left.old result self.new reads_left.new }
    {
        'steps: loop {
            match self.step(reads_left) {
                Ok(Step::Goes) => {}
                Ok(Step::Waits) => return Ok(GatePoll::Pending),
                Ok(Step::Ends) => return self.answer(),
                Err(error) => return Err(NegotiationError::Memory(error)),
            }
        }
    }
}
