//! What an answer to a call for a link stands for.
ghost use Rattle.link_answers.specs.Laws.{NoneStands, AnswersStand, TraceAnswersStand};

use amqp_wire::link::Link;

/// From the start, and whatever an end does. A link is answered to be made only where an Attach of this end in that role is out, and
/// one of the peer was handed over for the link that the call asked for; to be detached or closed only where a Detach of this end is out, and
/// one of the peer was handed over for it; a message to be sent only where a Transfer with its bytes is out. A delivery is given only where Transfers
/// were handed over for its link, in order, that are its parts: they say its number and its tag, and their bytes, joined, spell its message. That the peer
/// has left a link is told only where a Detach of the peer that says so was handed over for it.
pub fn answers_stand<L: Link>()
    ensures begins { NoneStands }
    ensures goes { AnswersStand L.Link }
{}

/// Two ends made these steps: so it is with each answer of the trace to a call for a link.
pub fn trace_answers_stand()
    ensures { TraceAnswersStand }
{}
