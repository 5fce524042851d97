//! How messages are received from the Transfers that wait (OASIS AMQP 1.0, part 2, sections 2.6.14 and 2.7.5).
ghost use Rattle.std.specs.Prelude.{◌≡◌};
ghost use Rattle.amqp_receiver.specs.Receiver.{seen};
ghost use Rattle.amqp_receiver.specs.Receiving.{Got, got, Steps, receiving, ended, received};

use crate::error::RecvError;
use crate::receiver::Receiver;
use amqp_delivery::DeliveryInfo;
use amqp_link::LinkStateError;
use bytes::Bytes;

/// A delivery that is complete.
#[derive(Debug)]
pub struct Received {
    /// What names it.
    pub info: DeliveryInfo,
    /// The format of its message.
    pub message_format: Option<u32>,
    /// The bytes of its parts, in order.
    pub payloads: Vec<Bytes>,
}

// It is let go by a call, so that no caller sees what it holds.
impl Drop for Received {
    fn drop(self) {
        let Received {
            info,
            message_format: _,
            payloads,
        } = self;
        drop(info);
        drop(payloads);
    }
}

impl Received {
    /// What names it, the format of its message, and the bytes of its parts.
    pub fn into_parts(self) -> (DeliveryInfo, Option<u32>, Vec<Bytes>)
        ensures { (result.0 ≡ self.info) × (result.1 ≡ self.message_format) × (result.2 ≡ self.payloads) }
    {
        let Received {
            info,
            message_format,
            payloads,
        } = self;
        (info, message_format, payloads)
    }
}

impl Receiver {
    /// Takes the Transfers that wait until one completes a delivery or is refused.
    fn receive_waiting(&mut self) -> Result<Option<Received>, RecvError>
        ensures { Steps result (receiving (seen self.old).incoming (seen self.old)) (seen self.new) }
    {
        while let Some(incoming) = self.incoming.pop_front() {
            let (transfer, payload) = incoming.into_parts();
            if let Some(received) = self.take(transfer, payload)? {
                return Ok(Some(received));
            }
        }
        Ok(None)
    }

    fn end(&mut self) -> Result<Option<Received>, RecvError>
        ensures { Steps result (ended (seen self.old)) (seen self.new) }
    {
        match self.link.ended_by()? {
            Some(error) => Err(RecvError::LinkStateError(error)),
            None => Ok(None),
        }
    }

    /// The next delivery that is complete, with its bytes as they came; none where more has to come. One of the credit is taken for it.
    /// Refusals: `LinkStateError` with `IllegalState` where this end has closed the link; `InconsistentFieldInMultiFrameDelivery`,
    /// `DeliveryIdIsNone`, `DeliveryTagIsNone` and `MessageSizeExceeded`, with which this end closes it; `IllegalRcvSettleModeInTransfer`
    /// and `TransferLimitExceeded` for a delivery that is dropped; where nothing waits `LinkStateError` by the Detach that was read, and
    /// then where the session has stopped. For want of memory the receiver is not known any more.
    pub fn receive(&mut self) -> Result<Option<Received>, RecvError>
        ensures { Steps result (received (seen self.old)) (seen self.new) }
    {
        if self.link.is_closed() {
            return Err(RecvError::LinkStateError(LinkStateError::IllegalState));
        }
        if let Some(received) = self.receive_waiting()? {
            return Ok(Some(received));
        }
        self.end()
    }
}
