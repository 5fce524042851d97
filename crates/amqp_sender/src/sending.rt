//! How a message is sent by credit (OASIS AMQP 1.0, part 2, sections 2.6.7 and 2.7.5).
ghost use Rattle.std.specs.Prelude.{◌≡◌, ◌<◌, if◌then◌else◌, length, true, IfOk, OnOk, OnErr};
ghost use Rattle.std.specs.Str.{bytes_eq};
ghost use Rattle.indexmap.specs.IndexMap.{insert_entry};
ghost use Rattle.amqp_link.specs.Link as link;
ghost use Rattle.amqp_sender.specs.Sender.{seen};
ghost use Rattle.amqp_sender.specs.Sending.{is_too_large, is_settled, tag_of, transfer_for, first_settlement, entered, spent, sent, sending, sending_unless, sending_with, Answers, credit_by, drained, credited, flow_read};

use crate::error::SendError;
use crate::sender::{DeliveryToken, SendReply, Sender, Settlement};
use amqp_composites::modes::SenderSettleMode;
use amqp_data::Binary;
use amqp_link::amqp_frames::LinkFrame;
use amqp_link::amqp_performatives::flow::Flow;
use amqp_link::amqp_performatives::transfer::Transfer;
use amqp_link::{DetachError, LinkPhase, link_flow};
use amqp_termini::{Accepted, Outcome};
use bytes::Bytes;
use std::alloc::{AllocError, Global};

fn is_too_large(size: u64, limit: u64) -> bool
    ensures { result ≡ is_too_large size limit }
{
    limit != 0 && limit < size
}

/// Whether a delivery is sent settled.
fn is_settled(mode: SenderSettleMode, wanted: Option<bool>) -> bool
    ensures { result ≡ is_settled mode wanted }
{
    match mode {
        SenderSettleMode::Settled => true,
        SenderSettleMode::Unsettled => false,
        SenderSettleMode::Mixed => wanted.unwrap_or(false),
    }
}

/// The tag of the delivery before which there were so many.
fn tag_of(alloc: Global, count: u32) -> Result<Binary, AllocError>
    ensures { IfOk result (λ tag. tag ≡ tag_of count) }
{
    Binary::from_slice(alloc, &count.to_be_bytes())
}

fn first_settlement(settled: bool) -> Settlement
    ensures { result ≡ first_settlement settled }
{
    if settled {
        Settlement::Settled(Outcome::Accepted(Accepted {}))
    } else {
        Settlement::Unsettled
    }
}

impl Sender {
    /// The Transfer of the next delivery.
    fn transfer_for(
        &self,
        format: u32,
        settled: bool,
        batchable: bool,
    ) -> Result<Transfer, AllocError>
        ensures { IfOk result (λ x. x ≡ transfer_for (seen self.now) format settled batchable) }
    {
        let tag = tag_of(self.alloc, self.delivery_count)?;
        Ok(Transfer {
            handle: self.link.handle(),
            delivery_id: None,
            delivery_tag: Some(tag),
            message_format: Some(format),
            settled: Some(settled),
            more: false,
            rcv_settle_mode: None,
            state: None,
            resume: false,
            aborted: false,
            batchable,
        })
    }

    /// Keeps the place of a delivery that is not settled.
    fn keep(&mut self, tag: Binary, settled: bool) -> Result<(), AllocError>
        ensures ok { OnOk result (self.new.unsettled.entries ≡ (if settled then self.old.unsettled.entries else insert_entry bytes_eq self.old.unsettled.entries tag (length self.old.settlements.items))) }
        ensures err { OnErr result (self.new.unsettled.entries ≡ self.old.unsettled.entries) }
        ensures settlements { self.new.settlements ≡ self.old.settlements }
        ensures link { self.new.link ≡ self.old.link }
        ensures counts { (self.new.credit ≡ self.old.credit) × (self.new.delivery_count ≡ self.old.delivery_count) }
    {
        if settled {
            return Ok(());
        }
        let place = self.settlements.len();
        self.unsettled.insert(tag, place)?;
        Ok(())
    }

    /// Keeps what becomes of a delivery, and answers its place.
    fn enter(&mut self, tag: Binary, settled: bool) -> Result<DeliveryToken, AllocError>
        ensures ok { OnOk result (seen self.new ≡ entered tag settled (seen self.old)) }
        ensures err { OnErr result (seen self.new ≡ seen self.old) }
        ensures place { IfOk result (λ token. token ≡ record { place = length (seen self.old).settlements }) }
        ensures room { link.spare self.new.link ≡ link.spare self.old.link }
    {
        self.settlements.reserve(1)?;
        let place = self.settlements.len();
        self.keep(tag, settled)?;
        self.settlements.push(first_settlement(settled)).unwrap();
        Ok(DeliveryToken { place })
    }

    /// A delivery takes one of the credit.
    fn spend(&mut self)
        requires { 0 < (seen self.old).credit }
        ensures { seen self.new ≡ spent (seen self.old) }
    {
        self.credit -= 1;
        self.delivery_count = self.delivery_count.wrapping_add(1);
    }

    fn transmit(
        &mut self,
        payload: Bytes,
        format: u32,
        settled: bool,
        batchable: bool,
    ) -> Result<SendReply, SendError>
        requires { 0 < (seen self.old).credit }
        ensures { Answers result (sending_with true payload format settled batchable (seen self.old)) (seen self.old) (seen self.new) }
    {
        let transfer = self.transfer_for(format, settled, batchable)?;
        let tag = tag_of(self.alloc, self.delivery_count)?;
        self.link.make_room(1)?;
        let token = self.enter(tag, settled)?;
        self.link.say(LinkFrame::Transfer(transfer, payload));
        self.spend();
        Ok(SendReply::Sent(token))
    }

    fn send_as(
        &mut self,
        payload: Bytes,
        format: u32,
        settled: bool,
        batchable: bool,
    ) -> Result<SendReply, SendError>
        ensures { Answers result (sending_unless (link.refusal (seen self.old).link) payload format settled batchable (seen self.old)) (seen self.old) (seen self.new) }
    {
        if let Some(error) = self.link.refusal()? {
            return Err(SendError::LinkStateError(error));
        }
        if self.link.is_detaching() {
            return Err(SendError::Detached(DetachError::IllegalState));
        }
        if self.credit == 0 {
            return Ok(SendReply::Pending);
        }
        self.transmit(payload, format, settled, batchable)
    }

    /// Sends a message, whose bytes are given, where there is credit: a Transfer with all of it is to be written, which the session
    /// splits. It is sent settled as the link's mode says, in `SenderSettleMode::Mixed` as is asked for, else not. `Pending` comes
    /// where there is no credit. Refusals in this order: `MessageSizeExceeded` where the message is larger than the link takes;
    /// `LinkStateError` where this end has closed the link, the peer has detached it, the session has stopped or the link is not
    /// attached; `Detached` with `IllegalState` where the Detach of this end waits for its answer.
    pub fn send(
        &mut self,
        payload: Bytes,
        message_format: u32,
        settled: Option<bool>,
        batchable: bool,
    ) -> Result<SendReply, SendError>
        ensures { Answers result (sending payload message_format settled batchable (seen self.old)) (seen self.old) (seen self.new) }
    {
        let size = payload.len() as u64;
        let max_size = self.link.max_message_size();
        if is_too_large(size, max_size) {
            return Err(SendError::MessageSizeExceeded { size, max_size });
        }
        let settled = is_settled(self.link.terms().snd_settle_mode, settled);
        self.send_as(payload, message_format, settled, batchable)
    }

    /// How many deliveries the receiver lets this end send.
    fn credit_by(&self, flow: &Flow) -> u32
        ensures { result ≡ credit_by flow.now (seen self.now) }
    {
        let initial = self.link.terms().initial_delivery_count.unwrap_or(0);
        let count = flow.delivery_count.unwrap_or(initial);
        let unknown = self.delivery_count.wrapping_sub(count);
        flow.link_credit.unwrap_or(0).saturating_sub(unknown)
    }

    /// Takes the credit, uses it up, and tells the receiver.
    fn credit_and_drain(&mut self, credit: u32) -> Result<(), AllocError>
        ensures ok { OnOk result (seen self.new ≡ drained (record (seen self.old) { credit = credit })) }
        ensures err { OnErr result (seen self.new ≡ seen self.old) }
    {
        self.link.make_room(1)?;
        let count = self.delivery_count.wrapping_add(credit);
        let flow = link_flow(self.link.handle(), count, 0, true);
        self.link.say(LinkFrame::Flow(flow));
        self.credit = 0;
        self.delivery_count = count;
        Ok(())
    }

    fn take_credit(&mut self, flow: &Flow) -> Result<(), AllocError>
        ensures ok { OnOk result (seen self.new ≡ credited flow.now (seen self.old)) }
        ensures err { OnErr result (seen self.new ≡ seen self.old) }
    {
        let credit = self.credit_by(flow);
        if flow.drain {
            return self.credit_and_drain(credit);
        }
        self.credit = credit;
        Ok(())
    }

    /// The receiver's Flow was read.
    pub fn on_flow(&mut self, flow: &Flow) -> Result<(), AllocError>
        ensures ok { OnOk result (seen self.new ≡ flow_read flow.now (seen self.old)) }
        ensures err { OnErr result (seen self.new ≡ seen self.old) }
    {
        match self.link.phase() {
            LinkPhase::Attached => self.take_credit(flow),
            LinkPhase::AttachSent
            | LinkPhase::DetachExpected
            | LinkPhase::Refused
            | LinkPhase::DetachSent
            | LinkPhase::CloseSent
            | LinkPhase::HalfClosed
            | LinkPhase::HandleWanted
            | LinkPhase::ReattachSent
            | LinkPhase::RecloseSent
            | LinkPhase::Detached => self.link.on_unexpected(),
        }
    }
}
