//! What an answer to a call for a session stands for.
ghost use Rattle.amqp_sessions.specs.State.{none_begun};
ghost use Rattle.session_answers.specs.Past.{nothing};
ghost use Rattle.session_answers.specs.Standing.{AreStanding};
ghost use Rattle.session_answers.specs.Laws.{AnswersStand, TraceAnswersStand, TracesArePutOut};
ghost use Rattle.session_answers.specs.Refusals.{EndsRefuse};

use amqp_wire::link::Link;

/// From the start, and whatever an end does: a session is answered to be begun only where a Begin of the peer for it
/// was read, and this end's is out or answers it; and to be ended only where the End of both was. A call for a
/// session is refused only where the end has refused it by itself, or where there is a cause: an End of the peer or a
/// frame that the session could not take was read for it, its links had no place for an Attach, another call had
/// ended it before, or the connection has stopped.
pub fn answers_stand<L: Link>()
    ensures begins { AreStanding nothing none_begun }
    ensures goes { AnswersStand L.Link }
{}

/// Two ends made these steps: so it is with each answer of the trace to a call for a session.
pub fn trace_answers_stand()
    ensures { TraceAnswersStand }
{}

/// Two ends made these steps: each frame that the sessions of one were given a session of the other has put out.
pub fn traces_are_put_out()
    ensures { TracesArePutOut }
{}

/// Whatever an end does: the calls for sessions that it refuses by itself are refused since its connection is not open, or since no
/// channel up to the agreed channel-max is free.
pub fn ends_refuse<L: Link>()
    ensures { EndsRefuse L.Link }
{}
