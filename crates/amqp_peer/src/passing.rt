//! What an end tells the sessions above its connection, and what it does for them.
ghost use Rattle.std.specs.Prelude.{◌≡◌, ◌↔◌, List, true, false, Ok, Err, OnOk, OnErr, IsTrue, IsErrOf, option_map};
ghost use Rattle.amqp_engine.specs.Channels.{frame_in};
ghost use Rattle.amqp_peer.specs.declared.peer.PeerError.{PeerError};
ghost use Rattle.amqp_peer.specs.declared.peer.Progress.{Progress};
ghost use Rattle.amqp_peer.specs.Handed.{HandsOn, HandsLast, Sent};
ghost use Rattle.amqp_peer.specs.Held.{IsLate, reason_of};
ghost use Rattle.amqp_peer.specs.History.{Local};
ghost use Rattle.amqp_peer.specs.Passing.{is_opened, largest_written, asked_first, TakesIncoming, TakesSession, AllocatesLate, freed_in, IsHeldAlone, Passes};
ghost use Rattle.amqp_peer.specs.Peering.{Has};
ghost use Rattle.amqp_peer.specs.Runs.{Worked, Rested};

use crate::drops::discard;
use crate::peer::{Peer, PeerError, PeerKind, Progress};
use amqp_engine::{AllocSessionError, Error as ConnectionError};
use amqp_frames::{ConnectionStopReason, IncomingSession, SessionFrame};
use amqp_wire::link::Link;
use std::alloc::AllocError;

impl<L: Link> Peer<L> {
    /// Which side of the connection the end is.
    pub fn kind(&self) -> PeerKind
        ensures { result ≡ self.now.kind }
    {
        self.kind
    }

    /// Whether the connection has begun: the headers are exchanged, and Open was queued. It may have stopped since.
    pub fn is_running(&self) -> bool
        ensures { IsTrue result ↔ IsLate self.now.held }
    {
        self.held.is_late()
    }

    /// Whether the connection is in the state Opened (part 2, section 2.4.6): both ends have sent their Open, and no Close was
    /// queued or read. A Close may be owed already, for a frame that was read.
    pub fn is_open(&self) -> bool
        ensures { result ≡ is_opened self.now.held }
    {
        self.held.is_opened()
    }

    /// Whether the open or accept was answered with the connection, and no close was asked for. The connection may have
    /// stopped since.
    pub fn has_connection(&self) -> bool
        ensures { IsTrue result ↔ (self.now.progress ≡ Progress.Open) }
    {
        match self.progress {
            Progress::Open => true,
            Progress::Idle | Progress::Opening | Progress::Closing | Progress::Over => false,
        }
    }

    /// Why the connection has stopped; none before it has.
    pub fn stop_reason(&self) -> Option<&ConnectionStopReason>
        ensures { option_map (λ r. r.now) result ≡ reason_of self.now.held }
    {
        self.held.stop_reason()
    }

    /// The largest frame that may be written, in bytes; 512 before the connection has begun (part 2, section 2.4.1).
    pub fn max_frame_size(&self) -> usize
        ensures { result ≡ largest_written self.now.held }
    {
        self.held.max_frame_size()
    }

    /// One step of the connection at the moment `at`, in milliseconds: what is queued is written, and then an empty frame or a
    /// Close that is due is queued, or at most one frame is read, which waits for the sessions where it is one of theirs. Tells
    /// whether another step may follow. Want of memory is
    /// final: each later step, call and poll answers `Failed`.
    pub fn step(&mut self, at: u64) -> Result<bool, PeerError>
        requires { IsLate self.old.held }
        ensures more { result ≡ Ok true → Worked L.Link at 1 self.old self.new }
        ensures rests { result ≡ Ok false → Rested L.Link at 1 self.old self.new }
        ensures hands { result ≡ Ok true → HandsOn L.Link at self.old self.new }
        ensures hands_last { result ≡ Ok false → HandsLast L.Link at self.old self.new }
        ensures late { OnOk result (IsLate self.new.held) }
        ensures alive { OnOk result (self.new.failed ≡ self.old.failed) }
        ensures memory { OnErr result (self.new.failed ≡ true) }
        ensures failed { IsErrOf result PeerError.Failed ↔ (self.old.failed ≡ true) }
    {
        if self.failed {
            return Err(PeerError::Failed);
        }
        match self.advance(at) {
            Ok(more) => Ok(more),
            Err(error) => {
                self.failed = true;
                Err(PeerError::Memory(error))
            }
        }
    }

    /// Takes the first frame of a session off that was read and waits. Its channel is the peer's. None where none waits, or
    /// the connection has not begun.
    pub fn take_incoming(&mut self) -> Option<SessionFrame>
        ensures takes { TakesIncoming self.old.held (option_map frame_in result) self.new.held }
        ensures rest { IsHeldAlone self.old self.new }
        ensures has { (h : List Local) → Has self.old h → Has self.new h }
    {
        self.held.take_incoming()
    }

    /// Takes the first session off that the peer asks for and that waits. None where none waits, or the connection has not
    /// begun.
    pub fn next_incoming_session(&mut self) -> Option<IncomingSession>
        ensures takes { TakesSession self.old.held result self.new.held }
        ensures rest { IsHeldAlone self.old self.new }
        ensures has { (h : List Local) → Has self.old h → Has self.new h }
    {
        self.held.next_incoming_session()
    }

    /// The first session that the peer asks for and that waits, lent.
    pub fn incoming_session(&self) -> Option<&IncomingSession>
        ensures { option_map (λ x. x.now) result ≡ asked_first self.now.held }
    {
        self.held.incoming_session()
    }

    /// Gives the lowest channel that is free to a session. `ChannelMaxReached` exactly where each channel up to the agreed
    /// channel-max has one; `Memory` says that memory was wanting. Nothing changes with either, and the end goes on.
    pub fn allocate_session(&mut self) -> Result<u16, AllocSessionError>
        requires { IsLate self.old.held }
        ensures allocates { AllocatesLate self.old.held result self.new.held }
        ensures rest { IsHeldAlone self.old self.new }
        ensures has { (h : List Local) → Has self.old h → Has self.new h }
    {
        self.held.allocate_session()
    }

    /// Frees the channel of a session. Nothing changes where no session has it, or the connection has not begun.
    pub fn deallocate_session(&mut self, channel: u16)
        ensures freed { self.new ≡ record self.old { held = freed_in self.old.held channel } }
        ensures has { (h : List Local) → Has self.old h → Has self.new h }
    {
        self.held.deallocate_session(channel);
    }

    // Gives a frame of a session to the connection.
    fn pass(&mut self, frame: SessionFrame) -> Result<(), AllocError>
        requires { IsLate self.old.held }
        ensures ok { OnOk result (Passes (frame_in frame) self.old self.new) }
        ensures late { IsLate self.new.held }
        ensures err { OnErr result (self.new ≡ self.old) }
    {
        match self.held.send(frame) {
            Ok(()) => Ok(()),
            Err(ConnectionError::Memory(error)) => Err(error),
            Err(ConnectionError::IllegalState) => Ok(()),
            Err(error) => {
                self.note(error);
                Ok(())
            }
        }
    }

    /// Queues a frame of a session, behind all that was queued; it goes out with the next steps. Where the connection is not
    /// open, the frame is let go. Where it is too large for the peer nothing is queued, the connection has stopped, and the call
    /// that waits or comes next is answered so. Want of memory is final: each later step, call and poll answers `Failed`.
    pub fn send(&mut self, frame: SessionFrame) -> Result<(), PeerError>
        requires { IsLate self.old.held }
        ensures passes { OnOk result (Passes (frame_in frame) self.old self.new) }
        ensures sent { OnOk result (Sent L.Link (frame_in frame) self.old self.new) }
        ensures late { IsLate self.new.held }
        ensures err { OnErr result (self.new ≡ record self.old { failed = true }) }
        ensures failed { IsErrOf result PeerError.Failed ↔ (self.old.failed ≡ true) }
    {
        if self.failed {
            discard(frame);
            return Err(PeerError::Failed);
        }
        match self.pass(frame) {
            Ok(()) => Ok(()),
            Err(error) => {
                self.failed = true;
                Err(PeerError::Memory(error))
            }
        }
    }
}
