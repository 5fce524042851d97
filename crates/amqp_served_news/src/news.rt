//! What an answer says to an end that serves a connection.
ghost use Rattle.std.specs.Prelude.{◌≡◌};
ghost use Rattle.amqp_served_news.specs.News.{is_quiet_close, is_quiet_end, is_quiet_begin, is_quiet_attach, is_quiet_accept, is_quiet_state, is_quiet_receive, is_quiet_settle, quietly, news_of_connection, news_of_session, news_of_link, news_of_lem};

use amqp_calls::{AcceptError, LinkReply, Reply, SessionReply};
use amqp_frames::{ConnectionStopReason, SessionStopReason};
use amqp_link::{AttachError, IllegalLinkStateError, LinkStateError};
use amqp_receiver::RecvError;
use amqp_served::News;
use amqp_session::BeginError;
use amqp_words::Reply as ConnectionReply;

/// Whether a connection stopped without an error.
pub fn is_quiet_close(reason: &ConnectionStopReason) -> bool
    ensures { result ≡ is_quiet_close reason.now }
{
    match reason {
        ConnectionStopReason::RemoteClosed => true,
        ConnectionStopReason::Closed
        | ConnectionStopReason::ClosedWithError(_)
        | ConnectionStopReason::RemoteClosedWithError(_) => false,
    }
}

/// Whether a session stopped without an error.
fn is_quiet_end(reason: &SessionStopReason) -> bool
    ensures { result ≡ is_quiet_end reason.now }
{
    match reason {
        SessionStopReason::RemoteEnded => true,
        SessionStopReason::ConnectionStopped(reason) => is_quiet_close(reason),
        SessionStopReason::Ended
        | SessionStopReason::EndedWithError(_)
        | SessionStopReason::RemoteEndedWithError(_) => false,
    }
}

/// Whether a session is not accepted since the peer has closed the connection without an error.
fn is_quiet_begin(error: &BeginError) -> bool
    ensures { result ≡ is_quiet_begin error.now }
{
    match error {
        BeginError::SessionStopped(reason) => is_quiet_end(reason),
        BeginError::Memory(_)
        | BeginError::LocalChannelMaxReached
        | BeginError::RemoteEnded
        | BeginError::IllegalState => false,
    }
}

/// Whether a link is not attached since its session has stopped without an error.
fn is_quiet_attach(error: &AttachError) -> bool
    ensures { result ≡ is_quiet_attach error.now }
{
    match error {
        AttachError::SessionStopped(reason) => is_quiet_end(reason),
        _ => false,
    }
}

/// Whether a link is not accepted since the peer has ended the session or closed the connection without an error.
fn is_quiet_accept(error: &AcceptError) -> bool
    ensures { result ≡ is_quiet_accept error.now }
{
    match error {
        AcceptError::LocalSender(error) | AcceptError::LocalReceiver(error) => is_quiet_attach(
            error,
        ),
    }
}

/// Whether a link takes no call since the peer has detached it, ended the session or closed the connection without an error.
fn is_quiet_state(error: &LinkStateError) -> bool
    ensures { result ≡ is_quiet_state error.now }
{
    match error {
        LinkStateError::SessionStopped(reason) => is_quiet_end(reason),
        LinkStateError::RemoteDetached | LinkStateError::RemoteClosed => true,
        LinkStateError::IllegalState
        | LinkStateError::RemoteDetachedWithError(_)
        | LinkStateError::RemoteClosedWithError(_)
        | LinkStateError::ExpectImmediateDetach => false,
    }
}

/// Whether no message comes any more since the peer has detached the link, ended the session or closed the connection without an
/// error.
fn is_quiet_receive(error: &RecvError) -> bool
    ensures { result ≡ is_quiet_receive error.now }
{
    match error {
        RecvError::LinkStateError(error) => is_quiet_state(error),
        _ => false,
    }
}

/// Whether a delivery is not settled since its session has stopped without an error.
fn is_quiet_settle(error: &IllegalLinkStateError) -> bool
    ensures { result ≡ is_quiet_settle error.now }
{
    match error {
        IllegalLinkStateError::SessionStopped(reason) => is_quiet_end(reason),
        IllegalLinkStateError::IllegalState => true,
        IllegalLinkStateError::Memory(_) => false,
    }
}

fn of_connection(reply: &ConnectionReply) -> News
    ensures { result ≡ news_of_connection reply.now }
{
    match reply {
        ConnectionReply::Connection => News::Opened,
        ConnectionReply::Pending | ConnectionReply::Closed => News::Nothing,
        ConnectionReply::OpenError(_) | ConnectionReply::ConnectionError(_) => News::Fault,
    }
}

/// One where it is so, else the other.
fn either(quiet: bool, news: News) -> News
    ensures { result ≡ quietly quiet news }
{
    if quiet { news } else { News::Fault }
}

fn of_session(reply: &SessionReply) -> News
    ensures { result ≡ news_of_session reply.now }
{
    match reply {
        SessionReply::Pending | SessionReply::Ended => News::Nothing,
        SessionReply::Session => News::Session,
        SessionReply::BeginError(error) => either(is_quiet_begin(error), News::Closed),
        SessionReply::SessionError(_) => News::Fault,
    }
}

fn of_link(reply: &LinkReply) -> News
    ensures { result ≡ news_of_link reply.now }
{
    match reply {
        LinkReply::Receiver => News::Receiver,
        LinkReply::Sender => News::Sender,
        LinkReply::Delivery { .. } => News::Delivery,
        LinkReply::AcceptError(error) => either(is_quiet_accept(error), News::NoLink),
        LinkReply::RecvError(error) => either(is_quiet_receive(error), News::NoMessage),
        LinkReply::DispositionError(error) => either(is_quiet_settle(error), News::Nothing),
        LinkReply::Pending
        | LinkReply::Sent
        | LinkReply::Disposer
        | LinkReply::Done
        | LinkReply::Detached
        | LinkReply::Closed
        | LinkReply::Outcome(_)
        | LinkReply::Credit(_) => News::Nothing,
        LinkReply::SenderAttachError(_)
        | LinkReply::ReceiverAttachError(_)
        | LinkReply::SendError(_)
        | LinkReply::FlowError(_)
        | LinkReply::Elapsed
        | LinkReply::DetachError(_) => News::Fault,
    }
}

/// What an answer says.
pub fn news_of(reply: &Reply) -> News
    ensures { result ≡ news_of_lem reply.now }
{
    match reply {
        Reply::Connection(reply) => of_connection(reply),
        Reply::Session(reply) => of_session(reply),
        Reply::Link(reply) => of_link(reply),
    }
}
