//! The credit of a receiver, and what it reads (OASIS AMQP 1.0, part 2, sections 2.6.3 and 2.6.7).
ghost use Rattle.std.specs.Prelude.{◌≡◌, ◌<◌, IfOk, OnOk, OnErr};
ghost use Rattle.amqp_link.specs.Link as link;
ghost use Rattle.amqp_receiver.specs.Receiver.{seen, telling_credit, giving, giving_first, opened, opened_if, accepted, attach_read, Answers, credit_set, works, waiting, transfer_read, draining, drained_more, drain_read, flow_read};

use crate::receiver::{Incoming, Receiver};
use amqp_composites::modes::Role;
use amqp_delivery::CreditMode;
use amqp_link::amqp_frames::LinkFrame;
use amqp_link::{AcceptSettings, FlowError, LinkEndpoint, LinkPhase, link_flow};
use amqp_performatives::attach::Attach;
use amqp_performatives::flow::Flow;
use amqp_performatives::transfer::Transfer;
use bytes::Bytes;
use std::alloc::{AllocError, Global};

impl Receiver {
    /// Tells the sender its credit, and whether it is to use it up.
    pub(crate) fn tell_credit(&mut self, drain: bool)
        requires { 0 < link.spare self.old.link }
        ensures { seen self.new ≡ telling_credit drain (seen self.old) }
    {
        let handle = self.link.handle();
        let flow = link_flow(
            handle,
            self.book.delivery_count(),
            self.book.credit(),
            drain,
        );
        self.link.say(LinkFrame::Flow(flow));
    }

    /// Gives credit.
    fn give(&mut self, credit: u32)
        requires { 0 < link.spare self.old.link }
        ensures { seen self.new ≡ giving credit (seen self.old) }
    {
        self.book.set_credit(credit);
        self.is_draining = false;
        self.tell_credit(false);
    }

    fn give_first(&mut self, mode: CreditMode)
        requires { 0 < link.spare self.old.link }
        ensures { seen self.new ≡ giving_first mode (seen self.old) }
    {
        if let CreditMode::Auto(credit) = mode {
            self.give(credit);
        }
    }

    /// Both ends have attached.
    fn open(&mut self, count: u32)
        requires { 0 < link.spare self.old.link }
        ensures { seen self.new ≡ opened count (seen self.old) }
    {
        let mode = self.book.view(0).credit_mode;
        self.book.attach(count);
        self.initial = count;
        self.give_first(mode);
    }

    fn open_if(&mut self, is_open: bool, count: Option<u32>)
        requires { 0 < link.spare self.old.link }
        ensures { seen self.new ≡ opened_if is_open count (seen self.old) }
    {
        if is_open {
            self.open(count.unwrap_or(0));
        }
    }

    /// A receiver that answers the Attach of a sender: its own is to be written, and behind it a Flow where credit is kept up, or a
    /// closing Detach where the link is refused. It accepts no delivery by itself. The one error is want of memory.
    pub fn accept(
        alloc: Global,
        settings: AcceptSettings,
        credit_mode: CreditMode,
        handle: u32,
        attach: Attach,
    ) -> Result<Self, AllocError>
        requires { attach.role ≡ Role.Sender }
        ensures { IfOk result (λ s. seen s ≡ accepted settings credit_mode handle attach) }
    {
        let count = attach.initial_delivery_count;
        let link = LinkEndpoint::accept(alloc, settings, handle, attach)?;
        let is_made = link.is_made();
        let mut receiver = Receiver::new(alloc, link, credit_mode, false);
        receiver.link.make_room(1)?;
        receiver.open_if(is_made, count);
        Ok(receiver)
    }

    /// The peer's Attach was read. For want of memory the receiver is not known any more.
    pub fn on_attach(&mut self, attach: Attach) -> Result<(), AllocError>
        ensures { OnOk result (seen self.new ≡ attach_read attach (seen self.old)) }
    {
        let count = attach.initial_delivery_count;
        let was_made = self.link.is_made();
        self.link.on_attach(attach)?;
        self.link.make_room(1)?;
        let is_made = self.link.is_made();
        self.open_if(!was_made && is_made, count);
        Ok(())
    }

    /// Gives the sender that much credit, which `CreditMode::Auto` keeps up from then on, and which it need not use up: a Flow is to be
    /// written. `IllegalState` comes where the link is not attached, then `SessionStopped` where the session has stopped.
    pub fn set_credit(&mut self, credit: u32) -> Result<(), FlowError>
        ensures { Answers result (credit_set credit (seen self.old)) (seen self.new) }
    {
        if let Some(error) = self.link.disposal_refusal()? {
            return Err(error);
        }
        self.link.make_room(1)?;
        self.give(credit);
        Ok(())
    }

    fn wait(&mut self, transfer: Transfer, payload: Bytes) -> Result<(), AllocError>
        ensures ok { OnOk result (seen self.new ≡ waiting transfer payload (seen self.old)) }
        ensures err { OnErr result (seen self.new ≡ seen self.old) }
    {
        self.incoming.reserve(1)?;
        if !self.is_inside {
            self.begun = self.begun.wrapping_add(1);
        }
        self.is_inside = transfer.more && !transfer.aborted;
        self.incoming
            .push_back_reserved(Incoming { transfer, payload });
        Ok(())
    }

    /// A Transfer was read.
    pub fn on_transfer(&mut self, transfer: Transfer, payload: Bytes) -> Result<(), AllocError>
        ensures ok { OnOk result (seen self.new ≡ transfer_read transfer payload (seen self.old)) }
        ensures err { OnErr result (seen self.new ≡ seen self.old) }
    {
        match self.link.phase() {
            LinkPhase::Attached => self.wait(transfer, payload),
            LinkPhase::AttachSent
            | LinkPhase::DetachExpected
            | LinkPhase::Refused
            | LinkPhase::DetachSent
            | LinkPhase::CloseSent
            | LinkPhase::HalfClosed
            | LinkPhase::HandleWanted
            | LinkPhase::ReattachSent
            | LinkPhase::RecloseSent
            | LinkPhase::Detached => {
                amqp_parts::let_go(transfer);
                self.link.on_unexpected()
            }
        }
    }

    /// How much credit the sender has drained.
    fn drained_more(&self, count: u32) -> u32
        ensures { result ≡ drained_more count (seen self.now) }
    {
        let known = self
            .initial
            .wrapping_add(self.begun)
            .wrapping_add(self.drained);
        count.wrapping_sub(known)
    }

    /// The sender has used up so much of its credit.
    fn lose_credit(&mut self, amount: u32)
        ensures { seen self.new ≡ draining amount (seen self.old) }
    {
        self.book.drained(amount);
        self.drained = self.drained.wrapping_add(amount);
    }

    fn on_drain(&mut self, drain: bool, count: Option<u32>)
        ensures { seen self.new ≡ drain_read drain count (seen self.old) }
    {
        if let Some(count) = count
            && drain
        {
            let amount = self.drained_more(count);
            self.lose_credit(amount);
        }
    }

    /// The sender's Flow was read.
    pub fn on_flow(&mut self, flow: &Flow) -> Result<(), AllocError>
        ensures ok { OnOk result (seen self.new ≡ flow_read flow.now (seen self.old)) }
        ensures err { OnErr result (seen self.new ≡ seen self.old) }
    {
        match self.link.phase() {
            LinkPhase::Attached => {
                self.on_drain(flow.drain, flow.delivery_count);
                Ok(())
            }
            LinkPhase::AttachSent
            | LinkPhase::DetachExpected
            | LinkPhase::Refused
            | LinkPhase::DetachSent
            | LinkPhase::CloseSent
            | LinkPhase::HalfClosed
            | LinkPhase::HandleWanted
            | LinkPhase::ReattachSent
            | LinkPhase::RecloseSent
            | LinkPhase::Detached => self.link.on_unexpected(),
        }
    }
}
