//! What the sessions and the links of two ends go through in a run of steps.
ghost use Rattle.world_lives.specs.Alone.{SpeaksAlone};
ghost use Rattle.world_lives.specs.Arriving.{MessagesArrive, LinksCarry};
ghost use Rattle.world_lives.specs.Hearing.{SessionsHear};
ghost use Rattle.world_lives.specs.Lived.{LifeGoes, LifeStops};
ghost use Rattle.world_lives.specs.Naming.{NamesAreNew, SendersGo, ReceiversGo};
ghost use Rattle.world_lives.specs.Once.{NamesAreUsedOnce};

/// Of all that an end did in steps from the start: its sessions and its links did it together, one deed after
/// another, from where no session was begun and no link attached to what they are behind the last step. What
/// happens between its deeds leaves both alone.
pub fn life_goes()
    ensures { LifeGoes }
{}

/// Between any two deeds of an end there is a moment at which its sessions and its links stand behind the one part
/// of them and before the other.
pub fn life_stops()
    ensures { LifeStops }
{}

/// No two sessions of an end are made under one name, and no two calls on its links have one: each is done under the name of
/// the call that is made, once, or of one that waits, and names rise.
pub fn names_are_used_once()
    ensures { NamesAreUsedOnce }
{}

/// Where no two sessions of an end are made under one name, and no two calls on its links have one: each name of a
/// session is new as it is used, and from a moment on none is used again under which a session or a link stands
/// there.
pub fn names_are_new()
    ensures { NamesAreNew }
{}

/// The session that stands under a name goes through a life, as long as no session of that name is made
/// (`one_of_all_lives` of session_lives), and on a channel on which no other stands, and none is made, no other has
/// written.
pub fn speaks_alone()
    ensures { SpeaksAlone }
{}

/// So a sender that stands at a moment, with its session, which both ends have begun, passes on what it sends from
/// that on, as `senders_pass` of `ends` says, where no call that waits has its name; and where its session is alone
/// on its channel, no other has written there.
pub fn senders_go()
    ensures { SendersGo }
{}

/// And a receiver that stands at a moment, with its session, reads what that hands over (`receivers_pass` of
/// `ends`).
pub fn receivers_go()
    ensures { ReceiversGo }
{}

/// A session of the one end that the peer has begun on a channel, and a session of the other end on that channel,
/// each from a moment on: of the frames of each kind but Begins, and of the Transfers on each handle, the one has
/// heard the first of those that the other has written, in order, as frames are read again, where nothing of that
/// kind was on its way between the two moments.
pub fn sessions_hear()
    ensures { SessionsHear }
{}

/// A sender of the one end and a receiver of the other, each with its session, each from a moment on: what the
/// receiver answers are the first of the messages that the sender has sent, in order and unchanged. The premises:
/// those of `messages_pass` of `ends`, but that the one session hears what the other writes, which follows here.
pub fn messages_arrive()
    ensures { MessagesArrive }
{}

/// The same from what stands at the two moments, where names are used once: a sender and a receiver, each with its
/// session, of which the sender's is alone on its channel, and the peer has begun the receiver's on that. They go on by
/// moves; and what the receiver answers are the first of the messages that the sender has sent, in order and
/// unchanged, where both have attached the link by the same two Attaches and nothing of it was on its way, the sender
/// does not detach, no other link of its session writes on the handle, and that leads to the receiver alone.
pub fn links_carry()
    ensures { LinksCarry }
{}
