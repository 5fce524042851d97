//! Sessions among all sessions of an end.
ghost use Rattle.session_lives.specs.Laws.{OneSessionLives, SessionsLive, OneOfAllLives, NoneIsKeyed};

/// Whatever the sessions of an end do: what goes to the connection is what sessions have written, and what goes to
/// links is what sessions have for them, in order; and each session that stood before, and that the deed does not
/// make, is let go or goes on by moves of its own. It has heard the frames that came for it and taken those of its
/// links, and has written and given just that.
pub fn one_session_lives()
    ensures { OneSessionLives }
{}

/// The same of deeds one after another.
pub fn sessions_live()
    ensures { SessionsLive }
{}

/// The session that stands under a name is let go, or goes through a life, as long as no session of that name is
/// made: it has heard the frames that came for it and taken those of its links, in order; what went to its links, and
/// what still is to, is what was to go and what it has given them, in order. Where no other session has written on
/// its channel, the frames on that channel that went to the connection, and that still are to, are those that were to
/// go and those that it has written, in order.
pub fn one_of_all_lives()
    ensures { OneOfAllLives }
{}

/// Where no session was begun no two have one name, which each deed keeps (`one_session_lives`).
pub fn none_is_keyed()
    ensures { NoneIsKeyed }
{}
