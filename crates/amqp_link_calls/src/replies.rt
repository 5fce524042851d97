//! What calls on links are answered.
ghost use Rattle.std.specs.Prelude.{◌≡◌};
ghost use Rattle.amqp_link_calls.specs.Replies.{made_reply, attach_error, accept_error, no_sender, is_pending, flag, error_of, terminal_of};

use amqp_composites::error::Error as AmqpError;
use amqp_composites::modes::Role;
use amqp_link::{AttachError, LinkStateError};
use amqp_link_words::amqp_sender::SendError;
use amqp_link_words::{AcceptError, Disposal, LinkReply};
use amqp_termini::{Accepted, Modified, Rejected, Released, TerminalDeliveryState};
use amqp_text::Symbol;

/// A link of that role is made.
pub(crate) fn made_reply(role: Role) -> LinkReply
    ensures { result ≡ made_reply role }
{
    match role {
        Role::Sender => LinkReply::Sender,
        Role::Receiver => LinkReply::Receiver,
    }
}

/// A link that this end attaches in that role is not made.
pub(crate) fn attach_error(role: Role, error: AttachError) -> LinkReply
    ensures { result ≡ attach_error role error }
{
    match role {
        Role::Sender => LinkReply::SenderAttachError(error),
        Role::Receiver => LinkReply::ReceiverAttachError(error),
    }
}

/// A link that this end accepts in that role is not made.
pub(crate) fn accept_error(role: Role, error: AttachError) -> LinkReply
    ensures { result ≡ accept_error role error }
{
    match role {
        Role::Sender => LinkReply::AcceptError(AcceptError::LocalSender(error)),
        Role::Receiver => LinkReply::AcceptError(AcceptError::LocalReceiver(error)),
    }
}

/// A receiver sends nothing.
pub(crate) fn no_sender() -> LinkReply
    ensures { result ≡ no_sender }
{
    LinkReply::SendError(SendError::LinkStateError(LinkStateError::IllegalState))
}

/// Whether a call has no answer yet.
pub(crate) fn is_pending(reply: &LinkReply) -> bool
    ensures { result ≡ is_pending reply.now }
{
    matches!(reply, LinkReply::Pending)
}

/// A flag of Modified is left out where it is not set.
fn flag(is_set: bool) -> Option<bool>
    ensures { result ≡ flag is_set }
{
    if is_set { Some(true) } else { None }
}

/// The error with that condition alone.
pub(crate) fn error_of(condition: Option<Symbol>) -> Option<AmqpError>
    ensures { result ≡ error_of condition }
{
    match condition {
        Some(condition) => Some(AmqpError {
            condition,
            description: None,
            info: None,
        }),
        None => None,
    }
}

/// The state in which deliveries are to end (part 3, section 3.4).
pub(crate) fn terminal_state(disposal: Disposal) -> TerminalDeliveryState
    ensures { result ≡ terminal_of disposal }
{
    match disposal {
        Disposal::Accepted => TerminalDeliveryState::Accepted(Accepted {}),
        Disposal::Rejected(condition) => TerminalDeliveryState::Rejected(Rejected {
            error: error_of(condition),
        }),
        Disposal::Released => TerminalDeliveryState::Released(Released {}),
        Disposal::Modified {
            delivery_failed,
            undeliverable_here,
        } => TerminalDeliveryState::Modified(Modified {
            delivery_failed: flag(delivery_failed),
            undeliverable_here: flag(undeliverable_here),
            message_annotations: None,
        }),
    }
}
