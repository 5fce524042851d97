//! Messages, from the call that sends one to the call that receives it.
ghost use Rattle.session_laws.specs.Sending.{WritesWhatIsSent, SendsForCredit, KeepsCredit};
ghost use Rattle.session_laws.specs.Crediting.{SendsWhatIsGranted};
ghost use Rattle.session_laws.specs.Holding.{LeavesInOrder};
ghost use Rattle.session_laws.specs.Handing.{HandsInOrder};
ghost use Rattle.session_laws.specs.Receiving.{AnswersInOrder};
ghost use Rattle.session_laws.specs.Laws.{MessagesArriveInOrder, LimitsAgree};
ghost use Rattle.session_laws.specs.Example.{PathsAreMet};

#[tactic(auto, using(crate::proofs::Sends::writes_what_is_sent))]
/// Whatever a sender goes through: the Transfers that it writes are those of the messages that it has sent, in
/// order, each with its tag, its format and its bytes.
pub fn writes_what_is_sent()
    ensures { WritesWhatIsSent }
{}

#[tactic(auto, using(crate::proofs::Sends::sends_for_credit, crate::proofs::Sends::keeps_credit))]
/// A message is sent only where there is credit, of which it takes one. Whatever a sender goes through, its credit
/// is what its receiver gave last, less what it has sent since.
pub fn sends_by_credit()
    ensures takes { SendsForCredit }
    ensures keeps { KeepsCredit }
{}

/// No message is sent that the receiver at the other end has not given credit for, modulo 2^32: the delivery-count
/// at which a message is sent is behind that of a Flow which the receiver wrote by less than the credit in it. The
/// premises (`Way`): the sender has no credit at first, no Flow on the handle is under way, and the receiver orders
/// nothing; on the handle its session takes no Flow but those that it writes, the other session hears a front of
/// what that one writes, and the sender hears no Flow but those that its session hands over.
pub fn sends_what_is_granted()
    ensures { SendsWhatIsGranted }
{}

#[tactic(auto, using(crate::proofs::Holds::leaves_in_order))]
/// Whatever a session goes through: the Transfers of a link leave in the order in which it has told them, each whole
/// or in parts that have its bytes, with the number of its delivery, until the link detaches.
pub fn leaves_in_order()
    ensures { LeavesInOrder }
{}

#[tactic(auto, using(crate::proofs::Hands::hands_in_order))]
/// Whatever a session goes through from a moment at which both ends have begun it: of the Transfers on a handle that
/// it hears it hands a front to its links, in order and as they came; what comes once the session is ended is
/// dropped.
pub fn hands_in_order()
    ensures { HandsInOrder }
{}

#[tactic(auto, using(crate::proofs::Receives::answers_in_order))]
/// Whatever a receiver goes through: where it reads the parts of deliveries, its answers are those of the first of
/// them, in order: each with its number, its tag, its format and its bytes where there was credit, and else that
/// there was none.
pub fn answers_in_order()
    ensures { AnswersInOrder }
{}

/// Two ends that have attached a link by the same two Attaches have one limit of messages.
pub fn limits_agree()
    ensures { LimitsAgree }
{}

/// What a receiver answers are the first of the messages that were sent at the other end, in order and unchanged,
/// whatever each end asks and hears beside, and however the parts of deliveries are cut and delayed. The premises
/// (`Path`): both ends have attached the link by the same two Attaches, and nothing was sent on it before; the
/// sender's session takes a front of what the sender writes and the link does not detach; the other session, which
/// both ends have begun, hears a front of what that session writes on the handle; and the receiver, for which
/// nothing waits, reads a front of what its session hands over.
pub fn messages_arrive_in_order()
    ensures { MessagesArriveInOrder }
{}

/// There are two ends that meet these premises, and those of `outcomes_were_given` and `sends_what_is_granted`: one
/// sends a message by the credit that the other gives, the other receives it and accepts it, and the one tells that.
pub fn path_is_met()
    ensures { PathsAreMet }
{}
