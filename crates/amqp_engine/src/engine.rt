//! The engine of a connection (OASIS AMQP 1.0, part 2, section 2.4).
ghost use Rattle.std.specs.Prelude.{◌≡◌, ◌≤◌, ◌<◌, ◌++◌, ◌∷◌, [], None, Some, Ok, Err, true, false, IfOk, IfErr, OnOk, OnErr, MatchOption, option_map};
ghost use Rattle.std.specs.Borrow.{Lends, sem};
ghost use Rattle.amqp_engine.specs.contracts.engine.ConnectionEngine.{the_row};
ghost use Rattle.amqp_transport.specs.Clocks.{IsDue};
ghost use Rattle.amqp_transport.specs.Kinds.{no_frame};
ghost use Rattle.amqp_engine.specs.Phases.{awaits, is_open, is_stopped, has_failed, state_of};
ghost use Rattle.amqp_engine.specs.Channels.{frame_in, first_of};
ghost use Rattle.amqp_engine.specs.State.{State, queueing, sending, failing, closing, close_frame, beating, own_reason, remote_reason, answered_reason, error_for, limited, idle_time, entered, close_phase, closed_for, stop_reason_of};
ghost use Rattle.amqp_engine.specs.Machine.{awaited, awaited_answer, arrived, arrived_answer, outlasted, received, answer_to, admitted_answer, phase_after};
ghost use Rattle.amqp_engine.specs.Sentence.{Ran};
ghost use Rattle.amqp_engine.specs.Outcomes.{Stepped, HasClosed};
ghost use Rattle.amqp_engine.specs.Errors.{error_of};
ghost use Rattle.amqp_transport.specs.amqp_frames.Session.{of_session};
ghost use Rattle.amqp_engine.specs.Calls.{OpensTo, Writes, failing_by, Puts, Reads, ReadsOrWants, Rejects, Works, Answers, Acts, Flushes, Steps, Sends, Takes, TakesAsked, Allocates, freed};

use crate::connection::{EndKind, Settings};
use crate::drops::discard;
use crate::error::{AllocSessionError, Error};
use crate::phase::{Phase, Rejection};
use crate::sessions::{Plan, Sessions};
use amqp_composites::error::Error as AmqpError;
use amqp_text::Symbol;
use amqp_transport::amqp_frames::{
    ConnectionState, ConnectionStopReason, FrameBody, IncomingSession, SessionFrame, let_go,
};
use amqp_transport::amqp_performatives::close::Close;
use amqp_transport::amqp_performatives::open::Open;
use amqp_transport::{AmqpFrames, Flush, Frame, HeartBeat, Next, Transport, transport};
use amqp_wire::link::{IoKind, Link};
use std::alloc::{AllocError, Global};
use std::marker::Model;
use std::mem;

/// What a step has done.
#[derive(Clone, Copy, Debug, PartialEq, Eq)]
pub enum EngineStep {
    /// A frame was read, or one was queued.
    Worked,
    /// No frame is there now, and none is due.
    Pending,
    /// The connection has stopped, and the reason is told.
    Stopped,
}

/// A connection over a transport. Moments and times are in milliseconds.
pub struct ConnectionEngine<L: Link> {
    transport: Transport<L, AmqpFrames>,
    phase: Phase,
    beat: HeartBeat,
    reason: ConnectionStopReason,
    settings: Settings,
    sessions: Sessions,
    alloc: Global,
}

// An engine is let go by a call, so that no caller sees what it holds.
impl<L: Link> Drop for ConnectionEngine<L> {
    fn drop(self) {
        let ConnectionEngine {
            transport,
            phase: _,
            beat: _,
            reason,
            settings: _,
            sessions,
            alloc: _,
        } = self;
        drop(transport);
        drop(reason);
        drop(sessions);
    }
}

impl<L: Link> Model for ConnectionEngine<L> {
    ghost use Rattle.amqp_engine.specs.State.{State};
    ghost use Rattle.amqp_engine.specs.Channels.{channels_of};
    ghost use Rattle.amqp_transport.specs.amqp_frames.contracts.shared.ConnectionStopReason as stop_reason;
    ghost use Rattle.amqp_transport.specs.amqp_frames.contracts.shared.IncomingSession as asked;
    ghost use Rattle.amqp_transport.specs.contracts.frames.Frame as frame;
    ghost use Rattle.std.specs.Coded.{codes};

    ghost Value = { State L };

    ghost coded = { Prim.hlevel (codes, stop_reason.the_row.coded, asked.the_row.coded, frame.the_row.coded) };

    ghost view = { λ e. record { wire = e.transport; phase = e.phase; beat = e.beat; reason = e.reason; settings = e.settings; channels = channels_of e.sessions } };
}

fn remote_reason(error: Option<AmqpError>) -> ConnectionStopReason
    ensures { result ≡ remote_reason error }
{
    match error {
        Some(error) => ConnectionStopReason::RemoteClosedWithError(error),
        None => ConnectionStopReason::RemoteClosed,
    }
}

fn own_reason(error: Option<AmqpError>) -> ConnectionStopReason
    ensures { result ≡ own_reason error }
{
    match error {
        Some(error) => ConnectionStopReason::ClosedWithError(error),
        None => ConnectionStopReason::Closed,
    }
}

fn close_phase(error: &Option<AmqpError>) -> Phase
    ensures { result ≡ close_phase error.now }
{
    match error {
        Some(_) => Phase::Discarding,
        None => Phase::CloseSent,
    }
}

impl Rejection {
    /// The error that the peer is told.
    fn error(self, alloc: Global) -> Result<AmqpError, AllocError>
        ensures { IfOk result (λ e. e ≡ error_for self) }
    {
        let condition = match self {
            Rejection::IllegalState => symbol(alloc, b"amqp:illegal-state"),
            Rejection::NotImplemented => symbol(alloc, b"amqp:not-implemented"),
            Rejection::NotFound => symbol(alloc, b"amqp:not-found"),
            Rejection::FramingError => symbol(alloc, b"amqp:connection:framing-error"),
        };
        match condition {
            Ok(condition) => Ok(AmqpError {
                condition,
                description: None,
                info: None,
            }),
            Err(error) => Err(error),
        }
    }
}

fn symbol(alloc: Global, bytes: &[u8]) -> Result<Symbol, AllocError>
    ensures { IfOk result (λ s. s ≡ bytes.now) }
{
    match Symbol::from_slice(alloc, bytes) {
        Ok(symbol) => Ok(symbol),
        Err(_) => Err(AllocError),
    }
}

fn idle_time(announced: Option<u32>) -> u64
    ensures { result ≡ idle_time announced }
{
    match announced {
        Some(idle) => u64::from(idle),
        None => 0,
    }
}

impl<L: Link> ConnectionEngine<L> {
    /// Queues Open. Frames may have 512 bytes until the peer's Open is read. A refusal hands the transport back.
    pub fn open(
        alloc: Global,
        mut transport: Transport<L, AmqpFrames>,
        connection: EndKind,
    ) -> Result<Self, (Error, Transport<L, AmqpFrames>)>
        ensures { OpensTo transport connection result }
    {
        transport.set_decoder_max_frame_size(512);
        transport.set_encoder_max_frame_size(512);
        let (settings, local_open) = connection.into_parts();
        let frame = Frame {
            channel: 0,
            body: FrameBody::Open(local_open),
        };
        let sent = transport.start_send(alloc, &frame);
        let_go(frame.body);
        match sent {
            Ok(()) => Ok(ConnectionEngine {
                transport,
                phase: Phase::OpenSent,
                beat: HeartBeat::never(),
                reason: ConnectionStopReason::Closed,
                settings,
                sessions: Sessions::new(alloc),
                alloc,
            }),
            Err(error) => Err((Error::from(error), transport)),
        }
    }

    fn set_reason(&mut self, reason: ConnectionStopReason)
        ensures { self.new ≡ record self.old { reason = reason } }
    {
        discard(mem::replace(&mut self.reason, reason));
    }

    /// The transport failed, or an own frame was too large.
    fn fail(&mut self)
        ensures { self.new ≡ failing self.old }
    {
        if !self.phase.is_stopped() {
            self.set_reason(ConnectionStopReason::Closed);
        }
        self.phase = Phase::Failed;
    }

    /// The transport gave that error: all but want of memory ends the engine.
    fn fail_by(&mut self, error: transport::Error) -> Error
        ensures value { result ≡ error_of error }
        ensures state { self.new ≡ failing_by error self.old }
    {
        match error {
            transport::Error::Memory(error) => Error::Memory(error),
            error => {
                self.fail();
                Error::TransportError(error)
            }
        }
    }

    /// Queues the frame.
    fn put(&mut self, frame: &Frame) -> Result<(), Error>
        ensures { Puts self.old frame.now (queueing self.old frame.now) tt result self.new }
    {
        match self.transport.start_send(self.alloc, frame) {
            Ok(()) => Ok(()),
            Err(transport::Error::Memory(error)) => Err(Error::Memory(error)),
            Err(error) => {
                self.fail();
                Err(Error::TransportError(error))
            }
        }
    }

    /// Writes what is queued, until the link takes nothing more. After a failure nothing is written, and the answer is `Empty`.
    ///
    /// `TransportError` with `Io` says that the link failed, and ends the engine: the connection has stopped then. `Memory` says
    /// that the link had no memory, and the engine goes on. No other error comes. What was not taken stays queued.
    pub fn flush(&mut self) -> Result<Flush, Error>
        ensures ran { Ran L.Link self.old self.new }
        ensures does { Flushes L.Link self.old result self.new }
    {
        self.flush_once()
    }

    fn flush_once(&mut self) -> Result<Flush, Error>
        ensures { Flushes L.Link self.old result self.new }
    {
        if self.phase.has_failed() {
            return Ok(Flush::Empty);
        }
        self.write()
    }

    fn write(&mut self) -> Result<Flush, Error>
        ensures { Writes L.Link self.old result self.new }
    {
        match self.transport.poll_flush() {
            Ok(flush) => Ok(flush),
            Err(error) => Err(self.fail_by(error)),
        }
    }

    /// Takes over the limits of the peer's Open, and begins the heartbeat.
    fn enter(&mut self, at: u64, remote: &Open)
        ensures { self.new ≡ entered at self.old remote.now }
    {
        let written = (remote.max_frame_size as usize).max(512);
        self.transport
            .set_decoder_max_frame_size(self.settings.largest_read);
        self.transport.set_encoder_max_frame_size(written);
        self.settings.largest_written = written;
        self.settings.channel_max = self.settings.channel_max.min(remote.channel_max);
        self.beat = HeartBeat::new(idle_time(remote.idle_time_out), at);
        self.phase = Phase::Opened;
    }

    /// A frame is read where the peer's Open is awaited.
    fn await_open(&mut self, at: u64, body: FrameBody) -> Result<EngineStep, Error>
        ensures answer { result ≡ awaited_answer body }
        ensures state { self.new ≡ awaited at self.old body }
    {
        match body {
            FrameBody::Open(remote) => {
                self.enter(at, &remote);
                discard(remote);
                Ok(EngineStep::Worked)
            }
            FrameBody::Close(close) => {
                self.set_reason(remote_reason(close.error));
                self.phase = Phase::CloseReceived;
                Ok(EngineStep::Worked)
            }
            other => {
                let_go(other);
                self.phase = Phase::Refused;
                Err(Error::IllegalState)
            }
        }
    }

    /// A frame of no session is read while the connection is open.
    fn arrive(&mut self, body: FrameBody) -> Result<EngineStep, Error>
        requires { of_session body ≡ false }
        ensures answer { result ≡ arrived_answer Plan.Deliver body }
        ensures state { self.new ≡ arrived self.old no_frame body }
    {
        match body {
            FrameBody::Open(remote) => {
                discard(remote);
                self.phase = Phase::Rejected(Rejection::IllegalState);
                Err(Error::IllegalState)
            }
            FrameBody::Close(close) => {
                self.set_reason(remote_reason(close.error));
                self.phase = Phase::CloseReceived;
                Ok(EngineStep::Worked)
            }
            other => {
                let_go(other);
                Ok(EngineStep::Worked)
            }
        }
    }

    /// A frame is read where the peer's Close is awaited.
    fn outlast(&mut self, body: FrameBody)
        ensures { self.new ≡ outlasted self.old body }
    {
        match body {
            FrameBody::Close(close) => {
                if let Some(error) = close.error {
                    self.set_reason(ConnectionStopReason::RemoteClosedWithError(error));
                }
                self.phase = Phase::Ended;
            }
            other => let_go(other),
        }
    }

    /// Reads at most one frame, and the answer goes by how far the connection is.
    fn read(&mut self, at: u64) -> Result<EngineStep, Error>
        requires { awaits self.old.phase ≡ true }
        ensures { Reads L.Link at self.old result self.new }
    {
        match self.transport.poll_next(at) {
            Ok(Next::Frame(frame)) => self.receive(at, frame),
            Ok(Next::Pending) => Ok(EngineStep::Pending),
            Ok(Next::Ended) => {
                self.fail();
                Err(Error::TransportError(transport::Error::Io(IoKind::End)))
            }
            Err(error) => Err(self.fail_by(error)),
        }
    }

    fn receive(&mut self, at: u64, frame: Frame) -> Result<EngineStep, Error>
        requires { awaits self.old.phase ≡ true }
        ensures answer { result ≡ answer_to self.old.phase self.old frame }
        ensures state { self.new ≡ received self.old.phase at self.old frame }
    {
        match self.phase {
            Phase::OpenSent => self.await_open(at, frame.body),
            Phase::CloseSent | Phase::Discarding => {
                self.outlast(frame.body);
                Ok(EngineStep::Worked)
            }
            _ => {
                let_go(frame.body);
                unreachable!()
            }
        }
    }

    /// Reads at most one frame, as the connection is open.
    fn read_opened(&mut self, at: u64) -> Result<EngineStep, Error>
        requires { self.old.phase ≡ Phase.Opened }
        ensures { ReadsOrWants L.Link at self.old result self.new }
    {
        if let Err(error) = self.sessions.make_room() {
            return Err(Error::Memory(error));
        }
        match self.transport.poll_next(at) {
            Ok(Next::Frame(frame)) => match SessionFrame::new(frame.channel, frame.body) {
                Ok(frame) => {
                    let plan = self.sessions.plan(self.settings, &frame);
                    self.sessions.take(plan, frame);
                    self.follow(plan)
                }
                Err(body) => self.arrive(body),
            },
            Ok(Next::Pending) => Ok(EngineStep::Pending),
            Ok(Next::Ended) => {
                self.fail();
                Err(Error::TransportError(transport::Error::Io(IoKind::End)))
            }
            Err(error) => Err(self.fail_by(error)),
        }
    }

    /// Goes on where a frame of a session was taken in as was planned.
    fn follow(&mut self, plan: Plan) -> Result<EngineStep, Error>
        ensures answer { result ≡ admitted_answer plan }
        ensures state { self.new ≡ record self.old { phase = phase_after plan self.old.phase } }
    {
        match plan {
            Plan::Reject(rejection) => {
                self.phase = Phase::Rejected(rejection);
                Err(rejection.told())
            }
            _ => Ok(EngineStep::Worked),
        }
    }

    /// The heartbeat that is due, or a frame.
    fn work(&mut self, at: u64) -> Result<EngineStep, Error>
        requires { self.old.phase ≡ Phase.Opened }
        ensures { Works L.Link at self.old result self.new }
    {
        let mut beat = self.beat;
        if beat.poll(at) {
            return self.beat_once(beat);
        }
        self.read_opened(at)
    }

    fn beat_once(&mut self, beat: HeartBeat) -> Result<EngineStep, Error>
        ensures { Puts self.old no_frame (record (queueing self.old no_frame) { beat = beat }) EngineStep.Worked result self.new }
    {
        let frame = Frame::empty();
        let put = self.put(&frame);
        let_go(frame.body);
        match put {
            Ok(()) => {
                self.beat = beat;
                Ok(EngineStep::Worked)
            }
            Err(error) => Err(error),
        }
    }

    /// Queues a Close with no error, and nothing more is awaited.
    fn answer_close(&mut self) -> Result<EngineStep, Error>
        ensures { Answers self.old result self.new }
    {
        let frame = Frame {
            channel: 0,
            body: FrameBody::Close(Close { error: None }),
        };
        let put = self.put(&frame);
        let_go(frame.body);
        match put {
            Ok(()) => {
                self.phase = Phase::Ended;
                Ok(EngineStep::Worked)
            }
            Err(error) => Err(error),
        }
    }

    /// Queues a Close with that error, if any, and the peer's Close is awaited.
    fn put_close(&mut self, error: Option<AmqpError>) -> Result<(), Error>
        ensures { Puts self.old (close_frame error) (closing self.old error) tt result self.new }
    {
        let frame = Frame {
            channel: 0,
            body: FrameBody::Close(Close { error }),
        };
        match self.put(&frame) {
            Ok(()) => {
                self.close_for(frame.body);
                Ok(())
            }
            Err(error) => {
                let_go(frame.body);
                Err(error)
            }
        }
    }

    fn close_for(&mut self, close: FrameBody)
        ensures { self.new ≡ closed_for self.old close }
    {
        match close {
            FrameBody::Close(close) => {
                self.phase = close_phase(&close.error);
                self.set_reason(own_reason(close.error));
            }
            other => let_go(other),
        }
    }

    /// Queues the Close that a frame has called for.
    fn reject(&mut self, rejection: Rejection) -> Result<EngineStep, Error>
        ensures { Rejects self.old rejection result self.new }
    {
        match rejection.error(self.alloc) {
            Ok(error) => match self.put_close(Some(error)) {
                Ok(()) => Ok(EngineStep::Worked),
                Err(error) => Err(error),
            },
            Err(error) => Err(Error::Memory(error)),
        }
    }

    fn act(&mut self, at: u64) -> Result<EngineStep, Error>
        ensures { Acts self.old.phase L.Link at self.old result self.new }
    {
        match self.phase {
            Phase::OpenSent | Phase::CloseSent | Phase::Discarding => self.read(at),
            Phase::Opened => self.work(at),
            Phase::CloseReceived | Phase::Refused => self.answer_close(),
            Phase::Rejected(rejection) => self.reject(rejection),
            Phase::Ended | Phase::Failed => Ok(EngineStep::Stopped),
        }
    }

    /// Writes what is queued, and then does one thing: it queues a Close that is owed, or the empty frame that is due, or reads
    /// at most one frame. `Stopped` exactly where the stop reason is told.
    ///
    /// `IllegalState`, `NotImplemented` and `NotFound` say that the frame that was read may not come now, on that channel or with that
    /// handle, begins a session that this end does not take, or names no session. The engine goes on: the next step queues the Close
    /// that is owed.
    ///
    /// `TransportError` ends the engine, and the connection has stopped then. `Io` says that the link failed or its input ended,
    /// `IdleTimeoutElapsed` that no frame came for the idle time, `DecodeError`, `NotImplemented` and `FramingError` that what was
    /// read is no frame of AMQP; `FramingError` comes also where a frame that this end owes is too large for the peer.
    ///
    /// `Memory` says that memory was wanting. What was read and what is queued stays, and the engine goes on with the next step.
    /// No other error comes.
    pub fn step(&mut self, at: u64) -> Result<EngineStep, Error>
        ensures ran { Stepped L.Link at self.old result self.new }
        ensures does { Steps L.Link at self.old result self.new }
    {
        self.step_once(at)
    }

    fn step_once(&mut self, at: u64) -> Result<EngineStep, Error>
        ensures { Steps L.Link at self.old result self.new }
    {
        match self.flush_once() {
            Ok(_) => self.act(at),
            Err(error) => Err(error),
        }
    }

    /// Queues a frame of a session, behind all that was queued.
    ///
    /// `IllegalState` says that the connection is not open: nothing changes. `TransportError` with `FramingError` says that the
    /// frame is too large for the peer: nothing is queued, and the engine has ended. `Memory` says that memory was wanting:
    /// nothing changes, and the engine goes on. No other error comes.
    pub fn send(&mut self, frame: SessionFrame) -> Result<(), Error>
        ensures ran { Ran L.Link self.old self.new }
        ensures does { Sends self.old (frame_in frame) (sending self.old (frame_in frame)) result self.new }
    {
        let (channel, body) = frame.into_parts();
        let frame = Frame { channel, body };
        let sent = self.put_if_open(&frame);
        let_go(frame.body);
        sent
    }

    fn put_if_open(&mut self, frame: &Frame) -> Result<(), Error>
        ensures { Sends self.old frame.now (sending self.old frame.now) result self.new }
    {
        if !self.phase.is_open() {
            return Err(Error::IllegalState);
        }
        self.put_session_frame(frame)
    }

    /// Queues the frame of a session, and keeps the handle-max that a Begin announces.
    fn put_session_frame(&mut self, frame: &Frame) -> Result<(), Error>
        ensures { Puts self.old frame.now (sending self.old frame.now) tt result self.new }
    {
        if let Err(error) = self.sessions.make_room_to_begin() {
            return Err(Error::Memory(error));
        }
        match self.transport.start_send(self.alloc, frame) {
            Ok(()) => {
                self.sessions.announce(frame);
                Ok(())
            }
            Err(transport::Error::Memory(error)) => Err(Error::Memory(error)),
            Err(error) => {
                self.fail();
                Err(Error::TransportError(error))
            }
        }
    }

    /// Queues a Close, behind all that was queued; it goes out with the next steps.
    ///
    /// `IllegalState` says that the connection is not open: nothing changes. `TransportError` with `FramingError` says that the
    /// Close is too large for the peer: nothing is queued, and the engine has ended. `Memory` says that memory was wanting:
    /// nothing changes, and the engine goes on. No other error comes.
    pub fn close(&mut self, error: Option<AmqpError>) -> Result<(), Error>
        ensures ran { HasClosed L.Link self.old error result self.new }
        ensures does { Sends self.old (close_frame error) (closing self.old error) result self.new }
    {
        self.close_if_open(error)
    }

    fn close_if_open(&mut self, error: Option<AmqpError>) -> Result<(), Error>
        ensures { Sends self.old (close_frame error) (closing self.old error) result self.new }
    {
        if !self.phase.is_open() {
            discard(error);
            return Err(Error::IllegalState);
        }
        self.put_close(error)
    }

    /// Why the connection has stopped; none before it has.
    pub fn stop_reason(&self) -> Option<&ConnectionStopReason>
        ensures { option_map (λ r. r.now) result ≡ stop_reason_of self.now }
    {
        if self.phase.is_stopped() {
            return Some(&self.reason);
        }
        None
    }

    /// Why the connection has stopped, none if it has not; what else the engine has is let go.
    pub fn into_stop_reason(self) -> Option<ConnectionStopReason>
        ensures { result ≡ stop_reason_of self }
    {
        let ConnectionEngine {
            transport,
            phase,
            beat: _,
            reason,
            settings: _,
            sessions,
            alloc: _,
        } = self;
        discard(transport);
        discard(sessions);
        if phase.is_stopped() {
            return Some(reason);
        }
        discard(reason);
        None
    }

    /// The link.
    pub fn link(&mut self) -> &mut L
        ensures* writes_back { sem 𝓛 (Lends (the_row L.row L.Link) L.row self.entry result (λ w. record self.old { wire = record self.old.wire { codec = record self.old.wire.codec { link = w } } })) }
        ensures value { result.now ≡ self.old.wire.codec.link }
    {
        self.transport.link()
    }

    /// The link, to be looked at.
    pub fn link_ref(&self) -> &L
        ensures { result.now ≡ self.now.wire.codec.link }
    {
        self.transport.link_ref()
    }

    /// The state of the connection (part 2, section 2.4.6).
    pub fn local_state(&self) -> ConnectionState
        ensures { result ≡ state_of self.now.phase }
    {
        self.phase.state()
    }

    /// The largest frame that may be written, in bytes.
    pub fn max_frame_size(&self) -> usize
        ensures { result ≡ self.now.settings.largest_written }
    {
        self.settings.largest_written
    }

    /// Takes the first frame of a session off that was read and waits. Its channel is the peer's.
    pub fn take_incoming(&mut self) -> Option<SessionFrame>
        ensures ran { Ran L.Link self.old self.new }
        ensures does { Takes self.old (option_map frame_in result) self.new }
    {
        self.pop_incoming()
    }

    fn pop_incoming(&mut self) -> Option<SessionFrame>
        ensures { Takes self.old (option_map frame_in result) self.new }
    {
        self.sessions.pop_incoming()
    }

    /// Takes the first session off that the peer asks for and that waits.
    pub fn next_incoming_session(&mut self) -> Option<IncomingSession>
        ensures ran { Ran L.Link self.old self.new }
        ensures does { TakesAsked self.old result self.new }
    {
        self.pop_asked()
    }

    fn pop_asked(&mut self) -> Option<IncomingSession>
        ensures { TakesAsked self.old result self.new }
    {
        self.sessions.pop_begun()
    }

    /// The first session that the peer asks for and that waits, lent.
    pub fn incoming_session(&self) -> Option<&IncomingSession>
        ensures { option_map (λ x. x.now) result ≡ first_of self.now.channels.begun }
    {
        self.sessions.first_begun()
    }

    /// Gives the lowest channel that is free to a session. `ChannelMaxReached` exactly where the sessions on channels up to the
    /// agreed channel-max number channel-max + 1.
    pub fn allocate_session(&mut self) -> Result<u16, AllocSessionError>
        ensures ran { Ran L.Link self.old self.new }
        ensures does { Allocates self.old result self.new }
    {
        self.allocate()
    }

    fn allocate(&mut self) -> Result<u16, AllocSessionError>
        ensures { Allocates self.old result self.new }
    {
        let channel = self.sessions.lowest_free();
        if channel > usize::from(self.settings.channel_max) {
            return Err(AllocSessionError::ChannelMaxReached);
        }
        match self.sessions.seat(channel) {
            Ok(()) => Ok(channel as u16),
            Err(error) => Err(AllocSessionError::Memory(error)),
        }
    }

    /// Frees the channel of a session.
    pub fn deallocate_session(&mut self, channel: u16)
        ensures ran { Ran L.Link self.old self.new }
        ensures does { self.new ≡ freed self.old channel }
    {
        self.free(channel);
    }

    fn free(&mut self, channel: u16)
        ensures { self.new ≡ freed self.old channel }
    {
        self.sessions.free(channel);
    }
}
