//! How many frames an end writes, and for what.
ghost use Rattle.few_frames.specs.Both.{BothWriteFew};
ghost use Rattle.few_frames.specs.Ends.{EndsWriteFew};
ghost use Rattle.few_frames.specs.Receivers.{ReceiverDrainsFew, ReceiverMakesFew, ReceiverAsksNone, ReceiverWritesFew};
ghost use Rattle.few_frames.specs.Senders.{SenderMakesFew, SenderAsksNone, SenderWritesFew};
ghost use Rattle.few_frames.specs.Sessions.{SessionMakesFew, SessionAsksNone, SessionWritesFew};
ghost use Rattle.few_frames.specs.Whole.{PairWritesFew};

#[tactic(auto, using(crate::proofs::Lives::session_asks_none, crate::proofs::Senders::sender_asks_none, crate::proofs::Receivers::receiver_asks_none))]
/// Whatever a sender or a receiver goes through, no Flow that it writes asks for an answer. Nor does one that a
/// session writes, whatever it goes through, where no Flow of its links does.
pub fn asks_no_echo()
    ensures session { SessionAsksNone }
    ensures sender { SenderAsksNone }
    ensures receiver { ReceiverAsksNone }
{}

#[tactic(auto, using(crate::proofs::Sessions::session_makes_few, crate::proofs::Senders::sender_makes_few, crate::proofs::Receivers::receiver_makes_few))]
/// What one frame that is read, and what one call, makes an end write. A session: at most one frame beside the
/// Transfers that have waited, of a kind that the frame or the call asks for (`IsMade`); a Flow answers only a Flow
/// with echo or a Transfer, and asks for no answer. A sender: at most one frame, of such a kind. A receiver: no more
/// frames than its calls ask for, beside those that attach and detach the link and the first credit.
pub fn answers_few()
    ensures session { SessionMakesFew }
    ensures sender { SenderMakesFew }
    ensures receiver { ReceiverMakesFew }
{}

/// What an end writes over a life, whoever its peer is. A session: the parts of the Transfers of its links, their
/// other frames, a Flow for each Flow with echo that it reads and for each half of its window of Transfers, and an
/// End. A sender: two frames for each message and each delivery that is not settled, one for each Flow with drain,
/// and those that attach and detach its link. A receiver: what its calls may write, and those of its link; no frame
/// that it reads adds to that, and it writes no more Flows with drain than calls drain. The premise of a link: it is
/// attached again only where that is due.
pub fn lives_few()
    ensures session { SessionWritesFew }
    ensures sender { SenderWritesFew }
    ensures receiver { ReceiverWritesFew }
    ensures drains { ReceiverDrainsFew }
{}

#[tactic(auto, using(crate::proofs::Both::both_write_few))]
/// Two sessions, each from its begin on, have written together no more frames than their links have told, each
/// Transfer as its parts, a Begin and an End each, and their reports, each of which stands for half of a window of
/// the other's Transfers: so what links tell bounds it alone. The premises: each has read a front of what the other
/// has written, and no Flow of their links asks for an answer.
pub fn both_few()
    ensures { BothWriteFew }
{}

#[tactic(auto, using(crate::proofs::Ends::ends_write_few))]
/// Both ends of a link have written together no more frames than their calls ask for: two for each message, what the
/// receiver's calls may write, and one more for each that drains; and what both may write at first. The premises: the
/// sender hears a front of the Flows that the receiver has written, as far as they speak of the link, and each
/// attaches the link again only where that is due.
pub fn ends_few()
    ensures { EndsWriteFew }
{}

/// Two ends that have one link, a sender on a session and a receiver on the session at the other end, have written
/// together no more frames than the calls at both links ask for, the bytes of the messages that were sent, a Begin
/// and an End each, and the reports of the receiver's session, each of which stands for half of its window. The
/// premises (`Pair`): those of `both_few` and `ends_few`, and each session is told what its link writes.
pub fn pair_few()
    ensures { PairWritesFew }
{}
