//! What passes between the links of an end and its sessions.
ghost use Rattle.world_lives.specs.EndLives.Between.{SendOnTheirHandle, MessagesPass};
ghost use Rattle.world_lives.specs.EndLives.Laws.{EndsDo, SendersPass, ReceiversPass};

use amqp_wire::link::Link;

/// Whatever an end does, its sessions and its links do this: what the links hear is what the sessions gave them, each
/// under the name of its session and in order, and what they hand over is what the sessions took, in order.
pub fn ends_do<L: Link>()
    ensures { EndsDo L.Link }
{}

/// A sender among the links of an end, and its session among the sessions: the Transfers on its handle that the session
/// takes are a front of those that the sender writes, in order, where no other link of the session has written on
/// that handle and none of them was on its way before.
pub fn senders_pass()
    ensures { SendersPass }
{}

/// A receiver among the links of an end, and its session among the sessions: the Transfers that the receiver reads are
/// a front of those on the peer's handle that the session hands over, in order, as long as that handle and no other
/// leads to the receiver, and where none of them was on its way before.
pub fn receivers_pass()
    ensures { ReceiversPass }
{}

/// Whatever a sender goes through that both ends have attached: each Transfer that it writes has its handle.
pub fn send_on_their_handle()
    ensures { SendOnTheirHandle }
{}

/// A sender of one end and a receiver of another that have attached a link by the same two Attaches, each with its
/// session: what the receiver answers are the first of the messages that the sender has sent, in order and unchanged,
/// where the receiver's session hears a front of the frames that the sender's session writes on the handle. The
/// other premises: those of the two laws above, and that the sender does not detach.
pub fn messages_pass()
    ensures { MessagesPass }
{}
