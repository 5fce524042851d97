//! What an end answers.
use amqp_link_words::LinkReply;
use amqp_session::{BeginError, Error as SessionError};
use amqp_words::Reply as ConnectionReply;

/// The answer to a call for a session.
#[derive(Debug)]
pub enum SessionReply {
    /// Not yet; another answer may follow in a later step.
    Pending,
    /// The session is begun at both ends.
    Session,
    /// The session is ended at both ends.
    Ended,
    /// The session is not begun.
    BeginError(BeginError),
    /// A call on the session failed.
    SessionError(SessionError),
}

// An answer is let go by a call, so that no caller sees the parts of errors.
impl Drop for SessionReply {
    fn drop(self) {
        match self {
            SessionReply::Pending | SessionReply::Session | SessionReply::Ended => {}
            SessionReply::BeginError(error) => drop(error),
            SessionReply::SessionError(error) => drop(error),
        }
    }
}

/// The answer to a call.
#[derive(Debug)]
pub enum Reply {
    /// To a call on the connection.
    Connection(ConnectionReply),
    /// To a call for a session.
    Session(SessionReply),
    /// To a call for a link.
    Link(LinkReply),
}

// An answer is let go by a call, so that no caller sees the parts of errors.
impl Drop for Reply {
    fn drop(self) {
        match self {
            Reply::Connection(reply) => drop(reply),
            Reply::Session(reply) => drop(reply),
            Reply::Link(reply) => drop(reply),
        }
    }
}

/// The answer to the call of a name.
#[derive(Debug, Drop)]
pub struct NamedReply {
    /// The call's name: the position of its step.
    pub name: u64,
    /// The answer.
    pub reply: Reply,
}
