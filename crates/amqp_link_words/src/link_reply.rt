//! What an end answers to calls for its links.
ghost use Rattle.std.specs.Prelude.{◌≡◌};

use amqp_delivery::DeliveryInfo;
use amqp_receiver::RecvError;
use amqp_receiver::amqp_messages::Message;
use amqp_sender::SendError;
use amqp_sender::amqp_link::{
    DetachError, DispositionError, FlowError, ReceiverAttachError, SenderAttachError,
};
use amqp_termini::Outcome;

/// Why no link is accepted.
#[derive(Debug, Drop)]
pub enum AcceptError {
    /// The sender that answers is not attached.
    LocalSender(SenderAttachError),
    /// The receiver that answers is not attached.
    LocalReceiver(ReceiverAttachError),
}

/// The answer to a call for a link.
#[derive(Debug)]
pub enum LinkReply {
    /// Not yet. To a `send` without a time and a `recv` it is the only answer, and nothing was done; to another call an answer may
    /// follow in a later step.
    Pending,
    /// A sender is attached at both ends.
    Sender,
    /// A receiver is attached at both ends.
    Receiver,
    /// The message was sent.
    Sent,
    /// A disposer is made.
    Disposer,
    /// What has become of a message.
    Outcome(Outcome),
    /// A message.
    Delivery {
        /// What names its delivery.
        info: DeliveryInfo,
        /// The message, in its own place of memory: it is large, and most answers are none.
        message: Box<Message>,
    },
    /// It was done.
    Done,
    /// The credit, in deliveries.
    Credit(u32),
    /// The sender is not attached.
    SenderAttachError(SenderAttachError),
    /// The receiver is not attached.
    ReceiverAttachError(ReceiverAttachError),
    /// The link is not accepted.
    AcceptError(AcceptError),
    /// The message was not sent, or has no outcome.
    SendError(SendError),
    /// There is no message.
    RecvError(RecvError),
    /// The deliveries are not settled.
    DispositionError(DispositionError),
    /// No credit is given.
    FlowError(FlowError),
    /// The time of the call is over, and no other answer was there.
    Elapsed,
    /// Both ends have detached the link.
    Detached,
    /// Both ends have closed the link.
    Closed,
    /// The link was not detached or closed as it was asked; or how the peer has detached it.
    DetachError(DetachError),
}

// An answer is let go by a call, so that no caller sees the parts of errors.
impl Drop for LinkReply {
    fn drop(self) {
        match self {
            LinkReply::Pending
            | LinkReply::Sender
            | LinkReply::Receiver
            | LinkReply::Sent
            | LinkReply::Disposer
            | LinkReply::Done
            | LinkReply::Elapsed
            | LinkReply::Detached
            | LinkReply::Closed
            | LinkReply::Credit(_) => {}
            LinkReply::Outcome(outcome) => drop(outcome),
            LinkReply::Delivery { info, message } => {
                drop(info);
                drop(message);
            }
            LinkReply::SenderAttachError(error) => drop(error),
            LinkReply::ReceiverAttachError(error) => drop(error),
            LinkReply::AcceptError(error) => drop(error),
            LinkReply::SendError(error) => drop(error),
            LinkReply::RecvError(error) => drop(error),
            LinkReply::DispositionError(error) => drop(error),
            LinkReply::FlowError(error) => drop(error),
            LinkReply::DetachError(error) => drop(error),
        }
    }
}

/// The answer to the call of a name.
#[derive(Debug)]
pub struct NamedLinkReply {
    /// The call's name.
    pub name: u64,
    /// The answer.
    pub reply: LinkReply,
}

// It is let go by a call, so that no caller sees what its answer holds.
impl Drop for NamedLinkReply {
    fn drop(self) {
        let NamedLinkReply { name: _, reply } = self;
        drop(reply);
    }
}

impl NamedLinkReply {
    /// The call's name and the answer.
    pub fn into_parts(self) -> (u64, LinkReply)
        ensures { (result.0 ≡ self.name) × (result.1 ≡ self.reply) }
    {
        let NamedLinkReply { name, reply } = self;
        (name, reply)
    }
}
