//! What becomes of the messages of an end that attaches senders alone.
ghost use Rattle.connect_laws.specs.Bringing.{SessionsBring};
ghost use Rattle.connect_laws.specs.Ruling.{LinksTellOutcomes};

/// An outcome that a call is told is that of the message which the call that it names has sent: the message was sent settled, and so it was
/// accepted; or its delivery has left on a session, under a number, and the links have heard a Disposition of a receiver on that session that
/// covers the number and says that outcome. The premises (`Asked`): the links do this from the start, and their calls attach senders, send and ask
/// for outcomes; no call has the name of one of the two or of the link; the message is known by the name of its call as its outcome is asked for.
pub fn links_tell_outcomes()
    ensures { LinksTellOutcomes }
{}

#[tactic(auto, using(crate::proofs::Bringing::sessions_bring))]
/// Whatever a session goes through from a moment at which nothing is handed over: what it tells its links of a delivery that leaves, with its handle,
/// its number and its tag, is what stands in a Transfer that it has written, and a Disposition that it hands to them it has heard.
pub fn sessions_bring()
    ensures { SessionsBring }
{}
