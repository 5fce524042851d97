//! The first link of two ends on a handle of a session, from between two steps on.
ghost use Rattle.world_lives.specs.WorldLinks.Cutting.{StepsAreCut, ReadWasWritten};
ghost use Rattle.world_lives.specs.WorldLinks.Starting.{NoneIsWritten, NoneIsRead, FirstLinksCarry};
ghost use Rattle.world_lives.specs.WorldLinks.Unsent.{UnsentGaveNone, UnsentLinksCarry, LinksCarryFromTheStart};

/// Wherever the steps are cut in two, the ends made the first of them, with the first of the entries, and of each
/// there is a moment behind these: its sessions and its links stand there as they are behind the last of those steps.
/// At two such moments the Transfers on a handle that the one end has read on a channel are the first of those that
/// the other has written there, or is to write.
pub fn steps_are_cut()
    ensures cut { StepsAreCut }
    ensures read { ReadWasWritten }
{}

/// Where the links of an end have given a session no Transfer on a handle by a moment, and the end has made no other
/// session on the channel of that: none was written there, none waits in the session or is on its way to it, and no
/// other session is on that channel.
pub fn none_is_written()
    ensures { NoneIsWritten }
{}

/// Where no Transfer on a handle was read on a channel by a moment, the session that the peer has begun on that has
/// none for its links, and none is on its way from it to them.
pub fn none_is_read()
    ensures { NoneIsRead }
{}

/// Links that have sent no message by a moment have given their session no Transfer, on whichever handle, and none of
/// them is to write one.
pub fn unsent_gave_none()
    ensures { UnsentGaveNone }
{}

/// The answers of a receiver are the first of the messages that the sender at the other end has sent, from between two
/// steps on, where both ends have attached the link by the same two Attaches by then, and the links of the sender's end
/// have given its session no Transfer on that handle: the first link on that handle of the session. What
/// `agreed_links_carry` of `links` asks for besides, that nothing of the link is on its way between the two, that names
/// are used once, and that the sender's session stays alone on its channel, follows, where that end makes no other
/// session on the channel.
pub fn first_links_carry()
    ensures { FirstLinksCarry }
{}

/// So it is where no link of the sender's session has sent a message by then.
pub fn unsent_links_carry()
    ensures { UnsentLinksCarry }
{}

/// So it is wherever the steps are cut in two, and both ends have attached the link by then, while no link of the
/// sender's session has sent a message: each moment is given, and what stands there is what stands behind the steps
/// before the cut.
pub fn links_carry_from_the_start()
    ensures { LinksCarryFromTheStart }
{}
