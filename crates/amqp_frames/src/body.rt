//! What a frame of AMQP holds (OASIS AMQP 1.0, part 2, section 2.3.2).
use amqp_performatives::attach::Attach;
use amqp_performatives::begin::Begin;
use amqp_performatives::close::Close;
use amqp_performatives::detach::Detach;
use amqp_performatives::disposition::Disposition;
use amqp_performatives::end::End;
use amqp_performatives::flow::Flow;
use amqp_performatives::open::Open;
use amqp_performatives::transfer::Transfer;
use bytes::Bytes;

/// The type of a frame that holds a performative or nothing (part 2, section 2.3.1).
pub const FRAME_TYPE_AMQP: u8 = 0;

/// What a frame holds: a performative, behind a Transfer its payload, or nothing.
#[derive(Debug, Drop)]
pub enum FrameBody {
    /// What an end says of itself as it opens a connection.
    Open(Open),
    /// The begin of a session.
    Begin(Begin),
    /// The attach of a link.
    Attach(Attach),
    /// The state of a session's windows and of a link's credit.
    Flow(Flow),
    /// A part of a delivery or all of it, and the bytes of it.
    Transfer(Transfer, Bytes),
    /// What has become of deliveries.
    Disposition(Disposition),
    /// The detach of a link.
    Detach(Detach),
    /// The end of a session.
    End(End),
    /// The close of a connection.
    Close(Close),
    /// Nothing: the frame only says that its sender is there (part 2, section 2.4.5).
    Empty,
}

/// Lets a body go. Its drop has as many places as its performatives have fields; for a caller of this it has one.
pub fn let_go(_body: FrameBody) {}
