//! What names a delivery, and what a disposer keeps of a link.
ghost use Rattle.std.specs.Prelude.{◌≡◌, IfOk};

use amqp_data::Binary;
use amqp_termini::amqp_composites::modes::ReceiverSettleMode;
use std::alloc::{AllocError, Global};

/// When a receiver gives its sender credit anew (OASIS AMQP 1.0, part 2, section 2.6.7).
#[derive(Clone, Copy, Debug)]
pub enum CreditMode {
    /// By calls alone.
    Manual,
    /// So much credit, whenever half of it was used.
    Auto(u32),
}

/// A delivery, as its receiver names it.
#[derive(Debug, Drop)]
pub struct DeliveryInfo {
    /// The delivery-id, the number of the delivery in its session (part 2, section 2.8.9).
    pub delivery_id: u32,
    /// The delivery-tag, which names it on its link (section 2.8.7).
    pub delivery_tag: Binary,
    /// When the receiver settles it, where its transfer says so; else as the link says (section 2.8.3).
    pub rcv_settle_mode: Option<ReceiverSettleMode>,
}

impl DeliveryInfo {
    /// A delivery with that number, tag and mode.
    pub fn new(
        delivery_id: u32,
        delivery_tag: Binary,
        rcv_settle_mode: Option<ReceiverSettleMode>,
    ) -> Self
        ensures { result ≡ record { delivery_id = delivery_id; delivery_tag = delivery_tag; rcv_settle_mode = rcv_settle_mode } }
    {
        DeliveryInfo {
            delivery_id,
            delivery_tag,
            rcv_settle_mode,
        }
    }

    /// A copy; the one error is want of memory.
    pub fn try_clone(&self, alloc: Global) -> Result<Self, AllocError>
        ensures { IfOk result (λ i. i ≡ self.now) }
    {
        let delivery_tag = self.delivery_tag.try_clone(alloc)?;
        Ok(DeliveryInfo {
            delivery_id: self.delivery_id,
            delivery_tag,
            rcv_settle_mode: self.rcv_settle_mode,
        })
    }
}

/// What a disposer keeps of a link when it is made.
#[derive(Clone, Copy, Debug)]
pub struct DisposerView {
    /// How often the link had attached.
    pub attachment: u64,
    /// The settle mode of the link.
    pub mode: ReceiverSettleMode,
    /// When credit was to be given anew.
    pub credit_mode: CreditMode,
    /// The handle of the link.
    pub handle: u32,
}
