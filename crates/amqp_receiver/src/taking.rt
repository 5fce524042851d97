//! What a Transfer comes to that waits (OASIS AMQP 1.0, part 2, sections 2.6.14 and 2.7.5).
ghost use Rattle.std.specs.Prelude.{◌≡◌, [], Some, None, unwrap_or, codes, IfOk, OnOk};
ghost use Rattle.amqp_parts.specs.Join as parts;
ghost use Rattle.amqp_receiver.specs.Receiver.{seen};
ghost use Rattle.amqp_receiver.specs.Receiving.{Steps, error_of, closed_for, closes, info_of, forgotten, disposition_read, aborted_at, belongs, size_before, is_too_large, is_second, is_first, given_if, complete, buffered, stated, entered, settled_if, started, continued, joined, total, too_large, is_stray_state, taken_whole, taken};

use crate::error::RecvError;
use crate::receiver::Receiver;
use crate::receiving::Received;
use amqp_composites::error::Error as AmqpError;
use amqp_composites::modes::ReceiverSettleMode;
use amqp_data::{Binary, Symbol};
use amqp_delivery::DeliveryInfo;
use amqp_link::amqp_frames::CoveredDelivery;
use amqp_parts::{IncompleteTransfer, PartError, let_go};
use amqp_performatives::transfer::Transfer;
use amqp_termini::DeliveryState;
use bytes::Bytes;
use std::alloc::{AllocError, Global};

/// The error with that condition, which is ASCII.
fn error_of(alloc: Global, condition: &[u8]) -> Result<AmqpError, AllocError>
    ensures { IfOk result (λ e. e ≡ error_of condition.now) }
{
    match Symbol::from_slice(alloc, condition) {
        Ok(condition) => Ok(AmqpError {
            condition,
            description: None,
            info: None,
        }),
        Err(_) => Err(AllocError),
    }
}

/// The tag that a delivery has, or no bytes.
fn tag_of(alloc: Global, tag: Option<Binary>) -> Binary
    ensures { result ≡ unwrap_or tag [] }
{
    match tag {
        Some(tag) => tag,
        None => Binary::new(alloc),
    }
}

fn copied_tag(alloc: Global, tag: &Option<Binary>) -> Result<Option<Binary>, AllocError>
    ensures { IfOk result (λ copy. copy ≡ tag.now) }
{
    match tag {
        Some(tag) => {
            let copy = tag.try_clone(alloc)?;
            Ok(Some(copy))
        }
        None => Ok(None),
    }
}

/// What names the delivery of those parts.
fn info_of(alloc: Global, transfer: &Transfer) -> Result<DeliveryInfo, AllocError>
    ensures { IfOk result (λ info. info ≡ info_of transfer.now) }
{
    let tag = copied_tag(alloc, &transfer.delivery_tag)?;
    Ok(DeliveryInfo {
        delivery_id: transfer.delivery_id.unwrap_or(0),
        delivery_tag: tag_of(alloc, tag),
        rcv_settle_mode: transfer.rcv_settle_mode,
    })
}

fn into_info(alloc: Global, transfer: Transfer) -> DeliveryInfo
    ensures { result ≡ info_of transfer }
{
    DeliveryInfo {
        delivery_id: transfer.delivery_id.unwrap_or(0),
        rcv_settle_mode: transfer.rcv_settle_mode,
        delivery_tag: tag_of(alloc, transfer.delivery_tag),
    }
}

fn is_too_large(size: u64, limit: u64) -> bool
    ensures { result ≡ is_too_large size limit }
{
    limit != 0 && limit < size
}

fn is_second(mode: Option<ReceiverSettleMode>) -> bool
    ensures { result ≡ is_second mode }
{
    matches!(mode, Some(ReceiverSettleMode::Second))
}

fn is_first(mode: ReceiverSettleMode) -> bool
    ensures { result ≡ is_first mode }
{
    matches!(mode, ReceiverSettleMode::First)
}

impl Receiver {
    /// A Disposition of the sender was read that covers this delivery of the link: one that is settled is not unsettled here any more.
    pub fn on_disposition(&mut self, covered: &CoveredDelivery, settled: bool)
        ensures { seen self.new ≡ disposition_read covered.now settled (seen self.old) }
    {
        if settled {
            self.book.forget(&covered.delivery_tag);
        }
    }

    /// Closes the link for that condition, where it is attached.
    fn close_for(&mut self, condition: &[u8]) -> Result<(), AllocError>
        ensures state { OnOk result (seen self.new ≡ closed_for condition.now (seen self.old)) }
        ensures incoming { self.new.incoming ≡ self.old.incoming }
    {
        let error = error_of(self.alloc, condition)?;
        self.link.make_room(1)?;
        if self.link.is_attached() {
            self.link.close(Some(error));
        }
        Ok(())
    }

    /// Closes the link for a Transfer that has no place.
    fn close(&mut self) -> Result<(), AllocError>
        ensures state { OnOk result (seen self.new ≡ closed_for (codes "amqp:not-allowed") (seen self.old)) }
        ensures incoming { self.new.incoming ≡ self.old.incoming }
    {
        self.close_for(b"amqp:not-allowed")
    }

    /// The delivery of that tag is not unsettled any more.
    fn forget(&mut self, tag: &Option<Binary>)
        ensures state { seen self.new ≡ forgotten tag.now (seen self.old) }
        ensures incoming { self.new.incoming ≡ self.old.incoming }
    {
        if let Some(tag) = tag {
            self.book.forget(tag);
        }
    }

    fn drop_buffer(&mut self, buffer: IncompleteTransfer)
        ensures state { seen self.new ≡ forgotten (parts.seen buffer).transfer.delivery_tag (seen self.old) }
        ensures incoming { self.new.incoming ≡ self.old.incoming }
    {
        let (transfer, payloads) = buffer.into_parts();
        drop(payloads);
        self.forget(&transfer.delivery_tag);
        let_go(transfer);
    }

    /// The sender gives up a delivery.
    fn abort(&mut self, transfer: Transfer) -> Result<Option<Received>, RecvError>
        ensures state { Steps result (aborted_at (seen self.old).buffer transfer (seen self.old)) (seen self.new) }
        ensures incoming { self.new.incoming ≡ self.old.incoming }
    {
        let Some(buffer) = self.buffer.take() else {
            let_go(transfer);
            return Ok(None);
        };
        let is_same = buffer.is_same_delivery_as(&transfer);
        let_go(transfer);
        if is_same {
            self.drop_buffer(buffer);
            return Ok(None);
        }
        self.buffer = Some(buffer);
        self.close()?;
        Err(RecvError::InconsistentFieldInMultiFrameDelivery)
    }

    fn belongs(&self, transfer: &Transfer) -> bool
        ensures { result ≡ belongs (seen self.now).buffer transfer.now }
    {
        match &self.buffer {
            Some(buffer) => buffer.is_same_delivery_as(transfer),
            None => false,
        }
    }

    fn size_before(&self, transfer: &Transfer) -> u64
        ensures { result ≡ size_before (seen self.now).buffer transfer.now }
    {
        match &self.buffer {
            Some(buffer) => {
                if buffer.is_same_delivery_as(transfer) {
                    buffer.accumulated_payload_size()
                } else {
                    0
                }
            }
            None => 0,
        }
    }

    fn total(&self, transfer: &Transfer, payload: &Bytes) -> u64
        ensures { result ≡ total transfer.now payload.now (seen self.now) }
    {
        self.size_before(transfer)
            .saturating_add(payload.len() as u64)
    }

    /// Gives a delivery, or drops it where there was no credit.
    fn give_delivery(
        &mut self,
        has_credit: bool,
        transfer: Transfer,
        payloads: Vec<Bytes>,
    ) -> Result<Option<Received>, RecvError>
        ensures state { Steps result (given_if has_credit transfer payloads.items (seen self.old)) (seen self.new) }
        ensures incoming { self.new.incoming ≡ self.old.incoming }
    {
        if !has_credit {
            self.forget(&transfer.delivery_tag);
            let_go(transfer);
            return Err(RecvError::TransferLimitExceeded);
        }
        let message_format = transfer.message_format;
        let info = into_info(self.alloc, transfer);
        Ok(Some(Received {
            info,
            message_format,
            payloads,
        }))
    }

    /// The last part has come.
    fn complete(&mut self, buffer: IncompleteTransfer) -> Result<Option<Received>, RecvError>
        ensures state { Steps result (complete (parts.seen buffer) (seen self.old)) (seen self.new) }
        ensures incoming { self.new.incoming ≡ self.old.incoming }
    {
        let (transfer, payloads) = buffer.into_parts();
        if is_second(transfer.rcv_settle_mode) && is_first(self.book.view(0).mode) {
            self.forget(&transfer.delivery_tag);
            let_go(transfer);
            return Err(RecvError::IllegalRcvSettleModeInTransfer);
        }
        let has_credit = self.book.credit() > 0;
        self.book.complete();
        self.give_delivery(has_credit, transfer, payloads)
    }

    fn keep_or_complete(
        &mut self,
        buffer: IncompleteTransfer,
    ) -> Result<Option<Received>, RecvError>
        ensures state { Steps result (buffered (parts.seen buffer) (seen self.old)) (seen self.new) }
        ensures incoming { self.new.incoming ≡ self.old.incoming }
    {
        if buffer.transfer().more {
            self.buffer = Some(buffer);
            return Ok(None);
        }
        self.complete(buffer)
    }

    /// Keeps what was said of an unsettled delivery.
    fn state(&mut self, state: Option<DeliveryState>, transfer: &Transfer)
        ensures state { seen self.new ≡ stated state transfer.now (seen self.old) }
        ensures incoming { self.new.incoming ≡ self.old.incoming }
    {
        if let Some(state) = state
            && let Some(tag) = &transfer.delivery_tag
        {
            self.book.record(tag, state);
        }
    }

    /// A delivery that is not settled is unsettled from its first part on.
    fn enter(&mut self, transfer: &Transfer) -> Result<(), AllocError>
        ensures state { OnOk result (seen self.new ≡ entered transfer.now (seen self.old)) }
        ensures incoming { self.new.incoming ≡ self.old.incoming }
    {
        if transfer.settled.unwrap_or(false) {
            return Ok(());
        }
        let info = info_of(self.alloc, transfer)?;
        self.book.register(info)?;
        Ok(())
    }

    fn settle_if(&mut self, transfer: &Transfer)
        ensures state { seen self.new ≡ settled_if transfer.now (seen self.old) }
        ensures incoming { self.new.incoming ≡ self.old.incoming }
    {
        if transfer.settled.unwrap_or(false) {
            self.forget(&transfer.delivery_tag);
        }
    }

    fn begin(
        &mut self,
        state: Option<DeliveryState>,
        buffer: IncompleteTransfer,
    ) -> Result<Option<Received>, RecvError>
        ensures state { Steps result (buffered (parts.seen buffer) (stated state (parts.seen buffer).transfer (entered (parts.seen buffer).transfer (seen self.old)))) (seen self.new) }
        ensures incoming { self.new.incoming ≡ self.old.incoming }
    {
        self.enter(buffer.transfer())?;
        self.state(state, buffer.transfer());
        self.keep_or_complete(buffer)
    }

    /// Takes a first part.
    fn start(
        &mut self,
        state: Option<DeliveryState>,
        transfer: Transfer,
        payload: Bytes,
    ) -> Result<Option<Received>, RecvError>
        ensures state { Steps result (started state transfer payload (seen self.old)) (seen self.new) }
        ensures incoming { self.new.incoming ≡ self.old.incoming }
    {
        match IncompleteTransfer::start(self.alloc, transfer, payload) {
            Ok(buffer) => self.begin(state, buffer),
            Err(PartError::Memory(error)) => Err(RecvError::Memory(error)),
            Err(PartError::DeliveryTagIsNone) => {
                self.close()?;
                Err(RecvError::DeliveryTagIsNone)
            }
            Err(PartError::DeliveryIdIsNone | PartError::InconsistentFieldInMultiFrameDelivery) => {
                self.close()?;
                Err(RecvError::DeliveryIdIsNone)
            }
        }
    }

    fn go_on(
        &mut self,
        state: Option<DeliveryState>,
        buffer: IncompleteTransfer,
    ) -> Result<Option<Received>, RecvError>
        ensures state { Steps result (buffered (parts.seen buffer) (stated state (parts.seen buffer).transfer (settled_if (parts.seen buffer).transfer (seen self.old)))) (seen self.new) }
        ensures incoming { self.new.incoming ≡ self.old.incoming }
    {
        self.settle_if(buffer.transfer());
        self.state(state, buffer.transfer());
        self.keep_or_complete(buffer)
    }

    fn refuse_part(&mut self, buffer: IncompleteTransfer) -> Result<Option<Received>, RecvError>
        ensures state { Steps result (closes RecvError.InconsistentFieldInMultiFrameDelivery (record (seen self.old) { buffer = Some (parts.seen buffer) })) (seen self.new) }
        ensures incoming { self.new.incoming ≡ self.old.incoming }
    {
        self.buffer = Some(buffer);
        self.close()?;
        Err(RecvError::InconsistentFieldInMultiFrameDelivery)
    }

    /// Takes a further part of the delivery that was begun.
    fn continue_with(
        &mut self,
        buffer: IncompleteTransfer,
        state: Option<DeliveryState>,
        transfer: Transfer,
        payload: Bytes,
    ) -> Result<Option<Received>, RecvError>
        requires { (seen self.old).buffer ≡ None }
        ensures state { Steps result (continued (parts.seen buffer) state transfer payload (record (seen self.old) { buffer = Some (parts.seen buffer) })) (seen self.new) }
        ensures incoming { self.new.incoming ≡ self.old.incoming }
    {
        let mut buffer = buffer;
        match buffer.try_append(transfer, payload) {
            Ok(()) => self.go_on(state, buffer),
            Err(PartError::Memory(error)) => Err(RecvError::Memory(error)),
            Err(
                PartError::DeliveryIdIsNone
                | PartError::DeliveryTagIsNone
                | PartError::InconsistentFieldInMultiFrameDelivery,
            ) => self.refuse_part(buffer),
        }
    }

    /// Takes a part of a delivery.
    fn join(&mut self, transfer: Transfer, payload: Bytes) -> Result<Option<Received>, RecvError>
        ensures state { Steps result (joined transfer payload (seen self.old)) (seen self.new) }
        ensures incoming { self.new.incoming ≡ self.old.incoming }
    {
        let mut transfer = transfer;
        let state = transfer.state.take();
        match self.buffer.take() {
            Some(buffer) => self.continue_with(buffer, state, transfer, payload),
            None => self.start(state, transfer, payload),
        }
    }

    /// Closes the link for a delivery that is too large.
    fn refuse_size(&mut self, size: u64) -> Result<Option<Received>, RecvError>
        ensures state { Steps result (too_large size (seen self.old)) (seen self.new) }
        ensures incoming { self.new.incoming ≡ self.old.incoming }
    {
        let max_size = self.link.max_message_size();
        self.buffer = None;
        self.close_for(b"amqp:link:message-size-exceeded")?;
        Err(RecvError::MessageSizeExceeded { size, max_size })
    }

    fn is_stray_state(&self, transfer: &Transfer) -> bool
        ensures { result ≡ is_stray_state transfer.now (seen self.now) }
    {
        transfer.state.is_some() && transfer.delivery_tag.is_none() && self.buffer.is_none()
    }

    fn take_whole(
        &mut self,
        transfer: Transfer,
        payload: Bytes,
    ) -> Result<Option<Received>, RecvError>
        ensures state { Steps result (taken_whole transfer payload (seen self.old)) (seen self.new) }
        ensures incoming { self.new.incoming ≡ self.old.incoming }
    {
        if self.is_stray_state(&transfer) {
            let_go(transfer);
            self.close()?;
            return Err(RecvError::DeliveryTagIsNone);
        }
        let size = self.total(&transfer, &payload);
        if is_too_large(size, self.link.max_message_size()) {
            let_go(transfer);
            return self.refuse_size(size);
        }
        self.join(transfer, payload)
    }

    #[tactic(auto, unfolding(crate::specs::Receiving::taken))]
    /// Takes a Transfer that has waited: none where more has to come.
    pub(crate) fn take(
        &mut self,
        transfer: Transfer,
        payload: Bytes,
    ) -> Result<Option<Received>, RecvError>
        ensures state { Steps result (taken transfer payload (seen self.old)) (seen self.new) }
        ensures incoming { self.new.incoming ≡ self.old.incoming }
    {
        if transfer.aborted {
            return self.abort(transfer);
        }
        if transfer.resume && !self.belongs(&transfer) {
            let_go(transfer);
            return Ok(None);
        }
        self.take_whole(transfer, payload)
    }
}
