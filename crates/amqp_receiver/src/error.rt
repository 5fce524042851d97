//! Why nothing is received (OASIS AMQP 1.0, part 2, sections 2.6.14, 2.7.3 and 2.7.5).
ghost use Rattle.std.specs.Prelude.{◌≡◌};

use amqp_delivery::DeliveryInfo;
use amqp_fields::BaseError;
use amqp_link::LinkStateError;
use std::alloc::AllocError;
use thiserror::Error;

/// Why nothing is received.
#[derive(Debug, Drop, Error)]
pub enum RecvError {
    /// There was not enough memory.
    #[error("Memory")]
    Memory(AllocError),
    /// The link gives no message.
    #[error("LinkStateError")]
    LinkStateError(LinkStateError),
    /// A delivery came for which there was no credit. It is dropped.
    #[error("TransferLimitExceeded")]
    TransferLimitExceeded,
    /// The first part of a delivery has no delivery-id. The link is closed.
    #[error("DeliveryIdIsNone")]
    DeliveryIdIsNone,
    /// The first part of a delivery has no delivery-tag. The link is closed.
    #[error("DeliveryTagIsNone")]
    DeliveryTagIsNone,
    /// The bytes of a delivery spell no message, or one with another body.
    #[error("MessageDecode")]
    MessageDecode {
        /// The delivery.
        info: DeliveryInfo,
        /// Why.
        source: BaseError,
    },
    /// A delivery is to be settled in `ReceiverSettleMode::Second` on a link that is not. It is dropped.
    #[error("IllegalRcvSettleModeInTransfer")]
    IllegalRcvSettleModeInTransfer,
    /// A part says of its delivery what the parts before it do not say. The link is closed.
    #[error("InconsistentFieldInMultiFrameDelivery")]
    InconsistentFieldInMultiFrameDelivery,
    /// A delivery is larger than the link takes, in bytes. The link is closed.
    #[error("MessageSizeExceeded")]
    MessageSizeExceeded {
        /// The size of what has come of it.
        size: u64,
        /// The largest message.
        max_size: u64,
    },
    /// A transaction is asked for. No call answers it.
    #[error("TransactionalAcquisitionIsNotImeplemented")]
    TransactionalAcquisitionIsNotImeplemented,
}

impl From<AllocError> for RecvError {
    ghost use Rattle.amqp_receiver.specs.declared.error.RecvError.TheVariants.{Memory};

    ghost from_gives = { λ a e. e ≡ Memory a };

    fn from(error: AllocError) -> Self {
        RecvError::Memory(error)
    }
}
