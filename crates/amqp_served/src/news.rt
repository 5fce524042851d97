//! What an answer says to an end that serves a connection.

/// What an answer says to an end that serves a connection.
#[derive(Clone, Copy, Debug, PartialEq, Eq)]
pub enum News {
    /// The connection is open.
    Opened,
    /// The peer has closed the connection without an error.
    Closed,
    /// A session was accepted.
    Session,
    /// A link was accepted at which messages come.
    Receiver,
    /// A link was accepted at which the peer waits for messages.
    Sender,
    /// The peer has ended the session without an error, and no link comes.
    NoLink,
    /// A message came whole.
    Delivery,
    /// The peer has detached the link, or ended its session, without an error, and no message comes.
    NoMessage,
    /// Nothing new.
    Nothing,
    /// The call failed.
    Fault,
}
