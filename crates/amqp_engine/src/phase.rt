//! How far an engine is.
ghost use Rattle.std.specs.Prelude.{◌≡◌};
ghost use Rattle.amqp_engine.specs.Phases.{kind_of, state_of, is_stopped, has_failed, is_open};

use amqp_transport::amqp_frames::{ConnectionState, FrameBody};

/// What a frame is for a connection.
#[derive(Clone, Copy, Debug, PartialEq, Eq)]
pub enum BodyKind {
    /// An Open.
    Open,
    /// A Close.
    Close,
    /// A frame of a session.
    Session,
    /// A frame that holds nothing.
    Empty,
}

/// What a body is for a connection.
pub(crate) fn kind_of(body: &FrameBody) -> BodyKind
    ensures { result ≡ kind_of body.now }
{
    match body {
        FrameBody::Open(_) => BodyKind::Open,
        FrameBody::Close(_) => BodyKind::Close,
        FrameBody::Empty => BodyKind::Empty,
        _ => BodyKind::Session,
    }
}

/// Why a frame that was read ends the connection (part 2, section 2.8.15 and 2.8.16).
#[derive(Clone, Copy, Debug, PartialEq, Eq)]
pub enum Rejection {
    /// A frame that may not come now.
    IllegalState,
    /// The begin of a session that this end does not take.
    NotImplemented,
    /// A channel that names no session.
    NotFound,
    /// A channel above the highest that both ends take, or a handle above the highest that this end does (part 2, sections 2.7.1 and 2.7.2).
    FramingError,
}

/// How far an engine is.
#[derive(Clone, Copy, Debug, PartialEq, Eq)]
pub enum Phase {
    /// Open is sent, and the peer's Open is awaited.
    OpenSent,
    /// Open is sent and read.
    Opened,
    /// The peer's Close is read, and Close is owed.
    CloseReceived,
    /// Another frame came in place of Open, and Close is owed.
    Refused,
    /// A frame came that ends the connection, and Close with an error is owed.
    Rejected(Rejection),
    /// Close is sent, and the peer's Close is awaited.
    CloseSent,
    /// Close with an error is sent, and the peer's Close is awaited.
    Discarding,
    /// Close is sent, and nothing more is awaited.
    Ended,
    /// The transport failed, or an own frame was too large.
    Failed,
}

impl Phase {
    /// Whether nothing more comes.
    pub fn is_stopped(self) -> bool
        ensures { result ≡ is_stopped self }
    {
        match self {
            Phase::Ended | Phase::Failed => true,
            _ => false,
        }
    }

    /// Whether the transport failed, or an own frame was too large.
    pub(crate) fn has_failed(self) -> bool
        ensures { result ≡ has_failed self }
    {
        match self {
            Phase::Failed => true,
            _ => false,
        }
    }

    /// Whether frames of sessions may be written.
    pub(crate) fn is_open(self) -> bool
        ensures { result ≡ is_open self }
    {
        match self {
            Phase::Opened => true,
            _ => false,
        }
    }

    /// The state of the connection (part 2, section 2.4.6).
    pub fn state(self) -> ConnectionState
        ensures { result ≡ state_of self }
    {
        match self {
            Phase::OpenSent | Phase::Refused => ConnectionState::OpenSent,
            Phase::Opened | Phase::Rejected(_) => ConnectionState::Opened,
            Phase::CloseReceived => ConnectionState::CloseReceived,
            Phase::CloseSent => ConnectionState::CloseSent,
            Phase::Discarding => ConnectionState::Discarding,
            Phase::Ended | Phase::Failed => ConnectionState::End,
        }
    }
}
