//! What the sessions of an end write on a channel, and what one has for its links, from the start.
ghost use Rattle.first_messages.specs.Reading.{NoneIsRead};
ghost use Rattle.first_messages.specs.Writing.{NoneIsWritten};

/// From where no session was begun, whatever the sessions of an end do, where they make no other session on a channel
/// than that of a name, and links give that session no Transfer on a handle: none was written on the channel, or is
/// to be, no other session is on it, and none waits in that session.
pub fn none_is_written()
    ensures { NoneIsWritten }
{}

/// From where no session was begun, whatever the sessions of an end do under names that are new, where no Transfer on a
/// handle was read on a channel: a session that was made once and that the peer has begun on that channel has given its
/// links none, has none for them, and none is on its way from it to them.
pub fn none_is_read()
    ensures { NoneIsRead }
{}
