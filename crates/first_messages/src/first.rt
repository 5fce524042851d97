//! What goes through a session and a sender before the first message of a link, and what arrives from that on.
ghost use Rattle.first_messages.specs.Arriving.{MessagesArriveWithin};
ghost use Rattle.first_messages.specs.Before.{SaysNone, HandsNone, UnsentWritesNone};

/// Whatever a session goes through, as long as it takes no Transfer on a handle of its links: where it holds none and
/// is to write none at first, it writes none, and holds none behind that.
pub fn says_none()
    ensures { SaysNone }
{}

/// Whatever a session goes through, as long as it hears no Transfer on a handle: where it has none for its links at
/// first, it hands none over.
pub fn hands_none()
    ensures { HandsNone }
{}

/// Whatever a sender goes through: where it knows of no message at last, since it keeps what becomes of each, it has
/// sent none, and where it was to write no Transfer at first, it has written none.
pub fn unsent_writes_none()
    ensures { UnsentWritesNone }
{}

/// A sender, its session, the session at the other end and a receiver there, from a moment at which both have
/// attached the link with one limit of messages, and nothing of it was sent: what the receiver answers are the first
/// of the messages that were sent, in order and unchanged. It is not asked that both stand by the same two Attaches.
pub fn messages_arrive_within()
    ensures { MessagesArriveWithin }
{}
