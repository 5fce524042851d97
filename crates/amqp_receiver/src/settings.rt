//! What a receiver is built with (OASIS AMQP 1.0, part 2, section 2.7.3).
use amqp_composites::modes::{ReceiverSettleMode, SenderSettleMode};
use amqp_data::Text;
use amqp_delivery::CreditMode;

/// What a receiver says of its link as it attaches, and when it gives credit.
#[derive(Debug, Drop)]
pub struct ReceiverSettings {
    /// The name of the link.
    pub name: Text,
    /// The address of the source, if it has one.
    pub source: Option<Text>,
    /// The address of the target, if it has one.
    pub target: Option<Text>,
    /// Whether the peer is to make the node of the source.
    pub dynamic: bool,
    /// When the sender settles.
    pub snd_settle_mode: SenderSettleMode,
    /// When the receiver settles.
    pub rcv_settle_mode: ReceiverSettleMode,
    /// The largest message, in bytes, where there is a limit.
    pub max_message_size: Option<u64>,
    /// When the sender is given credit.
    pub credit_mode: CreditMode,
    /// Whether each delivery is accepted as it is given.
    pub auto_accept: bool,
    /// Whether the addresses of termini that are to be made are looked at in the answer.
    pub verify: bool,
}
