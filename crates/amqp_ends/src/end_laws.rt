//! Laws over an end that reads what another wrote (OASIS AMQP 1.0, part 2, section 2.4).
ghost use Rattle.std.specs.Prelude.{◌≡◌, List, []};
ghost use Rattle.amqp_engine.specs.Heard.{AllUnclosed};
ghost use Rattle.amqp_peer.specs.Causes.{AllCaused, IsRefusedAt};
ghost use Rattle.amqp_peer.specs.Frames.{sessions_of};
ghost use Rattle.amqp_peer.specs.History.{Local, Once, made_in, given_in, sent_in, replied_in};
ghost use Rattle.amqp_peer.specs.Said.{HasSaid};
ghost use Rattle.amqp_ends.specs.Honest.{AllHonest};
ghost use Rattle.amqp_ends.specs.Joined.{Hears, Meets, MeetsUnstrayed, NoneCloses};

/// The frames that an end was given are the first of those that the other queued.
pub fn ends_hear_one_another()
    ensures { (h far : List Local) → Meets h far → Hears (given_in h) (sent_in far) }
{}

/// What of sessions an end was given are the first of the frames that the other queued for its own sessions.
pub fn sessions_hear_one_another()
    ensures { (h far : List Local) → Meets h far → Hears (sessions_of (given_in h)) (sessions_of (sent_in far)) }
{}

/// Where the other queued no frame of a session, no frame that an end was given is astray.
pub fn no_frame_is_astray()
    ensures { (h far : List Local) → Meets h far → sessions_of (sent_in far) ≡ [] → MeetsUnstrayed h far }
{}

/// No reply of an end to which no frame came astray accuses the other of a frame of another type or whose body is none, of a
/// frame out of order, or of a Close in place of Open.
pub fn replies_are_honest()
    ensures { (h far : List Local) → MeetsUnstrayed h far → AllCaused h → AllHonest (replied_in h) }
{}

/// No frame that an end wrote is refused for its size by the other: a `FramingError` of a connection tells of a frame of the
/// end itself, of a call or of a session.
pub fn sizes_are_within()
    ensures { (h far : List Local) → Meets h far → Meets far h → Once IsRefusedAt h → ⊥ }
{}

/// An end at which nobody called close, and to which no frame came astray, says no Close where the other said none.
pub fn closes_are_called()
    ensures { (h far : List Local) → MeetsUnstrayed h far → HasSaid h → NoneCloses (made_in h) → AllUnclosed (sent_in far) → AllUnclosed (sent_in h) }
{}
