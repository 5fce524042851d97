//! Which frames the messages of an end came in.
ghost use Rattle.served_connection.specs.ListenLaws.Accepts.{RunsAccept};
ghost use Rattle.served_connection.specs.ListenLaws.Disposed.{TellsWhatIsDisposed, TellsWhatIsAccepted};
ghost use Rattle.served_connection.specs.ListenLaws.Laws.{MessagesCame, ServedCame, ServedWhole};
ghost use Rattle.served_connection.specs.ListenLaws.Received.{AnswersWhatIsWhole};

use amqp_wire::link::Link;

/// Whatever is done with an end on which nothing was done before: the messages that came in its answers, in all, are no
/// more than the deliveries that the Transfers have ended which its sessions heard. A Transfer ends its delivery where it
/// says that no more comes and does not abort it. Nothing is asked of the peer, of the names of calls or of the link.
pub fn messages_came<L: Link>()
    ensures { MessagesCame L.Link }
{}

/// So it is with an end that was served: it has counted no more messages than that.
pub fn served_came<L: Link>()
    ensures { ServedCame L.Link }
{}

/// And no more than the deliveries that those Transfers carry whole, per channel and handle, where none of them resumes one.
pub fn served_whole<L: Link>()
    ensures { ServedWhole L.Link }
{}

/// Whatever a receiver goes through from a moment at which both ends have attached the link and nothing waits, and however
/// its peer has cut the deliveries: its answers are those of the first deliveries that the parts which it reads carry
/// whole, in order, each with its bytes. The premises: no part resumes a delivery, and no answer is an error but that
/// there was no credit.
pub fn answers_what_is_whole()
    ensures { AnswersWhatIsWhole }
{}

/// A receiver that is asked to give one delivery a state: the call is refused, since the link is not attached or its
/// session has stopped; or no delivery of that tag is unsettled; or the receiver writes a Disposition with the number of
/// that delivery alone and that state, which is settled in mode First.
pub fn tells_what_is_disposed()
    ensures { TellsWhatIsDisposed }
{}

/// So each call that accepts a delivery which a receiver of the end has given, as each accept of an end that serves is
/// one: its link takes no disposal any more, the delivery is not unsettled, or a Disposition that says that it is
/// accepted is to go out on the session of the link.
pub fn tells_what_is_accepted()
    ensures { TellsWhatIsAccepted }
{}

/// Whatever is done with an end over a link: for each call that accepts a delivery its links were asked to accept it, once, and it is as
/// `tells_what_is_accepted` says of such a call.
pub fn runs_accept<L: Link>()
    ensures { RunsAccept L.Link }
{}
