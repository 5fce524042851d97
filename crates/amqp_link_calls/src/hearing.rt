//! What a link hears of its peer (OASIS AMQP 1.0, part 2, section 2.6).
ghost use Rattle.std.specs.Prelude.{◌≡◌, IfOk, OnOk};
ghost use Rattle.std.specs.Option.{option_map};
ghost use Rattle.amqp_link_words.specs.amqp_sender.Sender as sending;
ghost use Rattle.amqp_link_calls.specs.Answering.{attach_answered_now, outcomes_answered_now};
ghost use Rattle.amqp_link_calls.specs.Leaving.{part_answered_now};
ghost use Rattle.amqp_link_calls.specs.Hearing.{attach_read, flow_read, transfer_read, detach_read, is_done, done_answered, disposition_read, is_settled_by};

use crate::called::CalledLink;
use crate::side::LinkSide;
use amqp_frames::CoveredDelivery;
use amqp_link_words::amqp_sender::{DeliveryToken, Sender};
use amqp_performatives::attach::Attach;
use amqp_performatives::detach::Detach;
use amqp_performatives::flow::Flow;
use amqp_performatives::transfer::Transfer;
use amqp_termini::DeliveryState;
use bytes::Bytes;
use std::alloc::AllocError;

/// Whether it is known what has become of a delivery; one that was not unsettled any more is done with too.
fn is_done(sender: &Sender, token: Option<DeliveryToken>) -> bool
    ensures { result ≡ is_done (option_map (λ t. t.place) token) (sending.seen sender.now) }
{
    match token {
        Some(token) => sender.is_settled(&token),
        None => true,
    }
}

impl CalledLink {
    /// Answers the call that attaches the link; once the session has stopped it waits until that is over.
    fn answer_attach_now(&mut self) -> Result<(), AllocError>
        ensures { OnOk result (self.new ≡ attach_answered_now self.old) }
    {
        if self.side.is_stopped() {
            return Ok(());
        }
        self.answer_attach()
    }

    /// Answers the call that leaves the link; once the session has stopped it waits until that is over.
    fn answer_part_now(&mut self) -> Result<(), AllocError>
        ensures { OnOk result (self.new ≡ part_answered_now self.old) }
    {
        if self.side.is_stopped() {
            return Ok(());
        }
        self.answer_part()
    }

    /// Answers the calls for outcomes where none comes any more; once the session has stopped they wait until that is over.
    fn answer_outcomes_now(&mut self) -> Result<(), AllocError>
        ensures { OnOk result (self.new ≡ outcomes_answered_now self.old) }
    {
        if self.side.is_stopped() || !self.side.is_closed_by_both() {
            return Ok(());
        }
        self.answer_outcomes()
    }

    /// The peer's Attach was read. For want of memory the link is not known any more.
    pub fn on_attach(&mut self, attach: Attach) -> Result<(), AllocError>
        ensures { OnOk result (self.new ≡ attach_read attach self.old) }
    {
        self.side.on_attach(attach)?;
        self.answer_attach_now()
    }

    /// The peer's Flow was read.
    pub fn on_flow(&mut self, flow: &Flow) -> Result<(), AllocError>
        ensures { OnOk result (self.new ≡ flow_read flow.now self.old) }
    {
        self.side.on_flow(flow)
    }

    /// A Transfer was read; a sender has no use for it.
    pub fn on_transfer(&mut self, transfer: Transfer, payload: Bytes) -> Result<(), AllocError>
        ensures { OnOk result (self.new ≡ transfer_read transfer payload self.old) }
    {
        self.side.on_transfer(transfer, payload)
    }

    /// The peer's Detach was read: the calls are answered that wait and to which no other answer can come. For want of memory the
    /// link is not known any more.
    pub fn on_detach(&mut self, detach: Detach) -> Result<(), AllocError>
        ensures { OnOk result (self.new ≡ detach_read detach self.old) }
    {
        self.side.on_detach(detach)?;
        self.answer_attach_now()?;
        self.answer_part_now()?;
        self.answer_outcomes_now()
    }

    fn answer_done(&mut self, token: Option<DeliveryToken>, is_done: bool) -> Result<(), AllocError>
        ensures { OnOk result (self.new ≡ done_answered (option_map (λ t. t.place) token) is_done self.old) }
    {
        match token {
            Some(token) if is_done => self.answer_outcome(token.place),
            Some(_) | None => Ok(()),
        }
    }

    /// A Disposition of the peer was read that covers this delivery of the link, with that state: at a sender the call is answered
    /// that waits for its outcome, where that is known now; a receiver forgets a delivery that is settled. Whether the peer says no
    /// more of the delivery, so that its number may be forgotten. For want of memory the link is not known any more.
    pub fn on_disposition(
        &mut self,
        covered: CoveredDelivery,
        settled: bool,
        state: Option<DeliveryState>,
    ) -> Result<bool, AllocError>
        ensures state { OnOk result (self.new ≡ disposition_read covered settled state self.old) }
        ensures answer { IfOk result (λ r. r ≡ is_settled_by self.old.side covered settled state) }
    {
        match &mut self.side {
            LinkSide::Sender(sender) => {
                let token = sender.token_of(&covered.delivery_tag);
                sender.on_disposition(covered, settled, state)?;
                let is_done = is_done(sender, token);
                self.answer_done(token, is_done)?;
                Ok(is_done)
            }
            LinkSide::Receiver(receiver) => {
                receiver.on_disposition(&covered, settled);
                Ok(settled)
            }
        }
    }
}
