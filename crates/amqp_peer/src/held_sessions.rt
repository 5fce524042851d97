//! What the connection of an end does for the sessions above it.
ghost use Rattle.std.specs.Prelude.{◌≡◌, ◌↔◌, IsTrue, option_map};
ghost use Rattle.amqp_engine.specs.Channels.{frame_in};
ghost use Rattle.amqp_peer.specs.Held.{IsThere, IsLate};
ghost use Rattle.amqp_peer.specs.Passing.{is_opened, largest_written, asked_first, TakesIncoming, TakesSession, AllocatesLate, freed_in, SendsLate};

use crate::held::Held;
use amqp_engine::{AllocSessionError, Error as ConnectionError};
use amqp_frames::{ConnectionState, IncomingSession, SessionFrame};
use amqp_wire::link::Link;

/// The largest frame that may be written before the connection has begun, in bytes.
const LEAST_FRAME_SIZE: usize = 512;

impl<L: Link> Held<L> {
    /// Whether the connection has begun.
    pub fn is_late(&self) -> bool
        ensures { IsTrue result ↔ IsLate self.now }
    {
        match self {
            Held::Late(_) => true,
            _ => false,
        }
    }

    /// Whether both ends have sent their Open, and no Close was queued or read.
    pub fn is_opened(&self) -> bool
        ensures { result ≡ is_opened self.now }
    {
        match self {
            Held::Late(engine) => match engine.local_state() {
                ConnectionState::Opened => true,
                _ => false,
            },
            _ => false,
        }
    }

    /// The largest frame that may be written, in bytes.
    pub fn max_frame_size(&self) -> usize
        ensures { result ≡ largest_written self.now }
    {
        match self {
            Held::Late(engine) => engine.max_frame_size(),
            _ => LEAST_FRAME_SIZE,
        }
    }

    /// Takes the first frame of a session off that was read and waits.
    pub fn take_incoming(&mut self) -> Option<SessionFrame>
        requires { IsThere self.old }
        ensures takes { TakesIncoming self.old (option_map frame_in result) self.new }
        ensures there { IsThere self.new }
    {
        match self {
            Held::Late(engine) => engine.take_incoming(),
            _ => None,
        }
    }

    /// Takes the first session off that the peer asks for and that waits.
    pub fn next_incoming_session(&mut self) -> Option<IncomingSession>
        requires { IsThere self.old }
        ensures takes { TakesSession self.old result self.new }
        ensures there { IsThere self.new }
    {
        match self {
            Held::Late(engine) => engine.next_incoming_session(),
            _ => None,
        }
    }

    /// The first session that the peer asks for and that waits, lent.
    pub fn incoming_session(&self) -> Option<&IncomingSession>
        ensures { option_map (λ x. x.now) result ≡ asked_first self.now }
    {
        match self {
            Held::Late(engine) => engine.incoming_session(),
            _ => None,
        }
    }

    /// Gives the lowest channel that is free to a session.
    pub fn allocate_session(&mut self) -> Result<u16, AllocSessionError>
        requires { IsLate self.old }
        ensures allocates { AllocatesLate self.old result self.new }
        ensures there { IsThere self.new }
    {
        match self {
            Held::Late(engine) => engine.allocate_session(),
            _ => unreachable!(),
        }
    }

    /// Frees the channel of a session.
    pub fn deallocate_session(&mut self, channel: u16)
        requires { IsThere self.old }
        ensures freed { self.new ≡ freed_in self.old channel }
        ensures there { IsThere self.new }
    {
        match self {
            Held::Late(engine) => engine.deallocate_session(channel),
            _ => {}
        }
    }

    /// Queues a frame of a session.
    pub fn send(&mut self, frame: SessionFrame) -> Result<(), ConnectionError>
        requires { IsLate self.old }
        ensures sends { SendsLate (frame_in frame) self.old result self.new }
        ensures there { IsThere self.new }
    {
        match self {
            Held::Late(engine) => engine.send(frame),
            _ => unreachable!(),
        }
    }
}
