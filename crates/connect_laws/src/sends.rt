//! What a run tells of the messages that it sends (OASIS AMQP 1.0, part 2, sections 2.6.12 and 2.7.6).
ghost use Rattle.connect_laws.specs.Asking.{RunsTellOutcomes};
ghost use Rattle.connect_laws.specs.Standing.{RunsStand};

use amqp_wire::link::Link;

/// A run of an end with no session and no link, in which a call sends a message over a link and a later one asks for its outcome. An outcome
/// that it tells for the later call is that of the message: this was sent settled, and so it was accepted; or its delivery has left on a session, under
/// a number, and the links have heard a Disposition of a receiver on that session that covers the number and says that outcome. The premises
/// (`AsksOutcome`): the calls attach senders, send and ask for outcomes, or are none on a link; and the link has a lower name than the call that sends.
pub fn runs_tell_outcomes<L: Link>()
    ensures { RunsTellOutcomes L.Link }
{}

/// Whatever is done over a link with an end at which no session was begun and no link attached, a client or a listener: each answer to a call for a link
/// stands for frames that the links have put out and for what their sessions handed to them, as in link_answers; and what these handed to them of the
/// peer stood in frames that they heard, on channels on which the peer has begun these sessions. So each delivery that `serve_on` counts came in
/// Transfers which it read, whose bytes spell its message, and each message that `connect_on` has sent left its link in a Transfer with its bytes.
pub fn runs_stand<L: Link>()
    ensures { RunsStand L.Link }
{}
