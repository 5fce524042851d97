//! One end of a link: a sender or a receiver (OASIS AMQP 1.0, part 2, section 2.6).
ghost use Rattle.std.specs.Prelude.{◌≡◌, IfOk, OnOk};
ghost use Rattle.std.specs.Option.{option_map};
ghost use Rattle.amqp_link.specs.Link as link;
ghost use Rattle.amqp_link_calls.specs.Side.{seen, link_of, role_of, credit_of, is_stopped, is_closed_by_both, attach_read, flow_read, transfer_read, detach_read, stopped, polled_answer, polled, Polls, TakesFrame};

use amqp_composites::modes::Role;
use amqp_data::Text;
use amqp_frames::{LinkFrame, SessionStopReason};
use amqp_link::{AttachError, AttachPoll};
use amqp_link_words::amqp_receiver::Receiver;
use amqp_link_words::amqp_sender::Sender;
use amqp_performatives::attach::Attach;
use amqp_performatives::detach::Detach;
use amqp_performatives::flow::Flow;
use amqp_performatives::transfer::Transfer;
use bytes::Bytes;
use std::alloc::AllocError;

/// One end of a link.
pub enum LinkSide {
    /// It sends.
    Sender(Sender),
    /// It receives.
    Receiver(Receiver),
}

// A side is let go by a call, so that no caller sees what it holds.
impl Drop for LinkSide {
    fn drop(self) {
        match self {
            LinkSide::Sender(sender) => drop(sender),
            LinkSide::Receiver(receiver) => drop(receiver),
        }
    }
}

impl LinkSide {
    /// Whether it sends or receives.
    pub(crate) fn role(&self) -> Role
        ensures { result ≡ role_of (seen self.now) }
    {
        match self {
            LinkSide::Sender(_) => Role::Sender,
            LinkSide::Receiver(_) => Role::Receiver,
        }
    }

    /// Its handle.
    pub(crate) fn handle(&self) -> u32
        ensures { result ≡ (link_of (seen self.now)).own.handle }
    {
        match self {
            LinkSide::Sender(sender) => sender.handle(),
            LinkSide::Receiver(receiver) => receiver.handle(),
        }
    }

    /// The name of the link, lent.
    pub(crate) fn name(&self) -> &Text
        ensures { result.now ≡ (link_of (seen self.now)).own.name }
    {
        match self {
            LinkSide::Sender(sender) => sender.name(),
            LinkSide::Receiver(receiver) => receiver.name(),
        }
    }

    /// Whether both ends have detached.
    pub(crate) fn is_over(&self) -> bool
        ensures { result ≡ link.is_over (link_of (seen self.now)).phase }
    {
        match self {
            LinkSide::Sender(sender) => sender.is_over(),
            LinkSide::Receiver(receiver) => receiver.is_over(),
        }
    }

    /// Whether its session has stopped.
    pub(crate) fn is_stopped(&self) -> bool
        ensures { result ≡ is_stopped (seen self.now) }
    {
        match self {
            LinkSide::Sender(sender) => sender.stop_reason().is_some(),
            LinkSide::Receiver(receiver) => receiver.stop_reason().is_some(),
        }
    }

    /// Whether both ends have closed the link, so that a sender learns no outcome any more.
    pub(crate) fn is_closed_by_both(&self) -> bool
        ensures { result ≡ is_closed_by_both (seen self.now) }
    {
        match self {
            LinkSide::Sender(sender) => sender.is_closed_by_both(),
            LinkSide::Receiver(_) => false,
        }
    }

    /// How much credit the sender has.
    pub(crate) fn credit(&self) -> u32
        ensures { result ≡ credit_of (seen self.now) }
    {
        match self {
            LinkSide::Sender(sender) => sender.credit(),
            LinkSide::Receiver(receiver) => receiver.credit(),
        }
    }

    /// The peer's Attach was read.
    pub(crate) fn on_attach(&mut self, attach: Attach) -> Result<(), AllocError>
        ensures { OnOk result (seen self.new ≡ attach_read attach (seen self.old)) }
    {
        match self {
            LinkSide::Sender(sender) => sender.on_attach(attach),
            LinkSide::Receiver(receiver) => receiver.on_attach(attach),
        }
    }

    /// The peer's Flow was read.
    pub(crate) fn on_flow(&mut self, flow: &Flow) -> Result<(), AllocError>
        ensures { OnOk result (seen self.new ≡ flow_read flow.now (seen self.old)) }
    {
        match self {
            LinkSide::Sender(sender) => sender.on_flow(flow),
            LinkSide::Receiver(receiver) => receiver.on_flow(flow),
        }
    }

    /// A Transfer was read; a sender has no use for it.
    pub(crate) fn on_transfer(
        &mut self,
        transfer: Transfer,
        payload: Bytes,
    ) -> Result<(), AllocError>
        ensures { OnOk result (seen self.new ≡ transfer_read transfer payload (seen self.old)) }
    {
        match self {
            LinkSide::Sender(sender) => {
                amqp_parts::let_go(transfer);
                sender.on_unexpected()
            }
            LinkSide::Receiver(receiver) => receiver.on_transfer(transfer, payload),
        }
    }

    /// The peer's Detach was read.
    pub(crate) fn on_detach(&mut self, detach: Detach) -> Result<(), AllocError>
        ensures { OnOk result (seen self.new ≡ detach_read detach (seen self.old)) }
    {
        match self {
            LinkSide::Sender(sender) => sender.on_detach(detach),
            LinkSide::Receiver(receiver) => receiver.on_detach(detach),
        }
    }

    /// The session has stopped. The first reason stays.
    pub(crate) fn stop(&mut self, reason: SessionStopReason)
        ensures { seen self.new ≡ stopped reason (seen self.old) }
    {
        match self {
            LinkSide::Sender(sender) => sender.stop(reason),
            LinkSide::Receiver(receiver) => receiver.stop(reason),
        }
    }

    /// How far the attach is.
    fn poll_attach(&mut self) -> Result<AttachPoll, AttachError>
        ensures { Polls result (seen self.old) (seen self.new) }
    {
        match self {
            LinkSide::Sender(sender) => sender.poll_attach(),
            LinkSide::Receiver(receiver) => receiver.poll_attach(),
        }
    }

    /// How far the attach is, and why it failed; the one error is want of memory.
    pub(crate) fn attach_news(&mut self) -> Result<Result<AttachPoll, AttachError>, AllocError>
        ensures state { OnOk result (seen self.new ≡ polled (seen self.old)) }
        ensures answer { IfOk result (λ news. news ≡ polled_answer (seen self.old)) }
    {
        match self.poll_attach() {
            Ok(poll) => Ok(Ok(poll)),
            Err(AttachError::Memory(error)) => Err(error),
            Err(error) => Ok(Err(error)),
        }
    }

    /// The first frame to be written.
    pub(crate) fn take_output(&mut self) -> Option<LinkFrame>
        ensures { TakesFrame (seen self.old) (option_map link.body_of result) (seen self.new) }
    {
        match self {
            LinkSide::Sender(sender) => sender.take_output(),
            LinkSide::Receiver(receiver) => receiver.take_output(),
        }
    }
}
