//! What connections, sessions and links tell one another.
ghost use Rattle.std.specs.Prelude.{◌≡◌, true, false, IfOk, IfErr};
ghost use Rattle.amqp_frames.specs.Session.{of_session};

use crate::body::FrameBody;
use amqp_described::amqp_composites::error::Error as AmqpError;
use amqp_described::amqp_data::Binary;
use amqp_performatives::attach::Attach;
use amqp_performatives::begin::Begin;
use amqp_performatives::detach::Detach;
use amqp_performatives::disposition::Disposition;
use amqp_performatives::flow::Flow;
use amqp_performatives::transfer::Transfer;
use bytes::Bytes;
use std::alloc::AllocError;
use thiserror::Error;

/// A frame of a session: any body but an Open, a Close or none.
#[derive(Debug)]
pub struct SessionFrame {
    channel: u16,
    body: FrameBody,
    ghost of_a_session: { of_session body ≡ true },
}

// A frame is let go by a call, so that no caller sees the parts of its body.
impl Drop for SessionFrame {
    fn drop(self) {
        let SessionFrame { channel: _, body } = self;
        drop(body);
    }
}

impl SessionFrame {
    /// The frame with that body on that channel; the body itself where it is of no session.
    pub fn new(channel: u16, body: FrameBody) -> Result<Self, FrameBody>
        ensures ok { IfOk result (λ frame. (frame.channel ≡ channel) × (frame.body ≡ body) × (of_session body ≡ true)) }
        ensures err { IfErr result (λ other. (other ≡ body) × (of_session body ≡ false)) }
    {
        match body {
            FrameBody::Open(_) | FrameBody::Close(_) | FrameBody::Empty => Err(body),
            _ => Ok(SessionFrame { channel, body }),
        }
    }

    /// The channel.
    pub fn channel(&self) -> u16
        ensures { result ≡ self.now.channel }
    {
        self.channel
    }

    /// The body, lent.
    pub fn body(&self) -> &FrameBody
        ensures value { result.now ≡ self.now.body }
        ensures session { of_session result.now ≡ true }
    {
        &self.body
    }

    /// The channel and the body.
    pub fn into_parts(self) -> (u16, FrameBody)
        ensures value { (result.0 ≡ self.channel) × (result.1 ≡ self.body) }
        ensures session { of_session result.1 ≡ true }
    {
        let SessionFrame { channel, body } = self;
        (channel, body)
    }
}

/// A delivery that a Disposition covers.
#[derive(Debug, Drop)]
pub struct CoveredDelivery {
    /// The number of the delivery in the session.
    pub delivery_id: u32,
    /// The tag of the delivery on the link.
    pub delivery_tag: Binary,
}

/// What a session gives to a link.
#[derive(Debug, Drop)]
pub enum LinkFrame {
    /// The attach of the link.
    Attach(Attach),
    /// The state of the link's credit.
    Flow(Flow),
    /// A part of a delivery or all of it, and the bytes of it.
    Transfer(Transfer, Bytes),
    /// What has become of deliveries, and which of the link's it covers.
    Disposition(Disposition, Vec<CoveredDelivery>),
    /// The detach of the link.
    Detach(Detach),
}

/// How far a connection is (part 2, section 2.4.6).
#[derive(Clone, Copy, Debug, PartialEq, Eq)]
pub enum ConnectionState {
    /// Nothing was sent or received.
    Start,
    /// The peer's header was received.
    HeaderReceived,
    /// The header was sent.
    HeaderSent,
    /// Both headers were.
    HeaderExchange,
    /// The header and an Open were sent.
    OpenPipe,
    /// The header, an Open and a Close were sent.
    OpenClosePipe,
    /// Both headers were, and the peer's Open was received.
    OpenReceived,
    /// Both headers were, and an Open was sent.
    OpenSent,
    /// Both headers were, and an Open and a Close were sent.
    ClosePipe,
    /// Each end has sent its Open.
    Opened,
    /// The peer's Close was received.
    CloseReceived,
    /// A Close was sent.
    CloseSent,
    /// A Close with an error was sent: what comes in is passed over.
    Discarding,
    /// Nothing more is sent or received.
    End,
}

/// Why a connection has stopped.
#[derive(Debug, Drop)]
pub enum ConnectionStopReason {
    /// This end closed it.
    Closed,
    /// This end closed it for that error.
    ClosedWithError(AmqpError),
    /// The peer closed it.
    RemoteClosed,
    /// The peer closed it for that error.
    RemoteClosedWithError(AmqpError),
}

/// A session that the peer has begun.
#[derive(Debug, Drop)]
pub struct IncomingSession {
    /// The peer's channel.
    pub channel: u16,
    /// What the peer said.
    pub begin: Begin,
}

/// Why a session has stopped.
#[derive(Debug, Drop)]
pub enum SessionStopReason {
    /// This end ended it.
    Ended,
    /// This end ended it for that error.
    EndedWithError(AmqpError),
    /// The peer ended it.
    RemoteEnded,
    /// The peer ended it for that error.
    RemoteEndedWithError(AmqpError),
    /// Its connection has stopped.
    ConnectionStopped(ConnectionStopReason),
}

/// Why a session has no place for a link.
#[derive(Debug, Drop, Error)]
pub enum AllocLinkError {
    /// There was not enough memory.
    #[error("Memory")]
    Memory(AllocError),
    /// The session has stopped.
    #[error("SessionStopped")]
    SessionStopped(SessionStopReason),
    /// The session is not begun at both ends.
    #[error("SessionNotMapped")]
    SessionNotMapped,
    /// There is a link with that name.
    #[error("DuplicatedLinkName")]
    DuplicatedLinkName,
    /// Each handle is taken.
    #[error("HandleMaxReached")]
    HandleMaxReached,
}

impl From<AllocError> for AllocLinkError {
    ghost use Rattle.amqp_frames.specs.declared.shared.AllocLinkError.TheVariants.{Memory};

    ghost from_gives = { λ a e. e ≡ Memory a };

    fn from(error: AllocError) -> Self {
        AllocLinkError::Memory(error)
    }
}
