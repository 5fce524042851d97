//! Calls that receive messages, settle deliveries and give credit (OASIS AMQP 1.0, part 2, sections 2.6.7 and 2.6.12).
ghost use Rattle.std.specs.Prelude.{◌≡◌, IfOk, OnOk};
ghost use Rattle.amqp_link_words.specs.amqp_receiver.Receiver as receiving;
ghost use Rattle.amqp_link_words.specs.amqp_receiver.Receiving.{received};
ghost use Rattle.amqp_link_calls.specs.Called.{with_side};
ghost use Rattle.amqp_link_calls.specs.Calling.{having_told, having_received, TellsReceived, Receives, disposing, disposes, sets_credit};
ghost use Rattle.amqp_link_calls.specs.Replies.{disposal_reply, credit_reply};
ghost use Rattle.amqp_link_calls.specs.Side.{seen};

use crate::called::CalledLink;
use crate::replies::terminal_state;
use crate::side::LinkSide;
use amqp_delivery::DeliveryInfo;
use amqp_link::{IllegalLinkStateError, LinkStateError};
use amqp_link_words::amqp_receiver::{Receiver, RecvError, RecvReply};
use amqp_link_words::{Disposal, LinkReply};
use std::alloc::AllocError;

fn receive(receiver: &mut Receiver) -> Result<LinkReply, AllocError>
    ensures state { IfOk result (λ r. receiving.seen receiver.new ≡ having_told r (receiving.seen receiver.old)) }
    ensures answer { IfOk result (λ r. TellsReceived r (received (receiving.seen receiver.old))) }
{
    match receiver.recv() {
        Ok(RecvReply::Pending) => Ok(LinkReply::Pending),
        Ok(RecvReply::Ready(delivery)) => {
            let (info, message) = delivery.into_parts();
            Ok(LinkReply::Delivery { info, message })
        }
        Err(RecvError::Memory(error)) => Err(error),
        Err(error) => Ok(LinkReply::RecvError(error)),
    }
}

fn dispose(
    receiver: &mut Receiver,
    disposal: Disposal,
    infos: &[DeliveryInfo],
) -> Result<LinkReply, AllocError>
    ensures state { OnOk result (receiving.seen receiver.new ≡ (disposing disposal infos.now (receiving.seen receiver.old)).state) }
    ensures answer { IfOk result (λ r. r ≡ disposal_reply (disposing disposal infos.now (receiving.seen receiver.old)).answer) }
{
    match receiver.dispose_all(infos, terminal_state(disposal)) {
        Ok(()) => Ok(LinkReply::Done),
        Err(IllegalLinkStateError::Memory(error)) => Err(error),
        Err(error) => Ok(LinkReply::DispositionError(error)),
    }
}

fn set_credit(receiver: &mut Receiver, credit: u32) -> Result<LinkReply, AllocError>
    ensures state { OnOk result (receiving.seen receiver.new ≡ (receiving.credit_set credit (receiving.seen receiver.old)).state) }
    ensures answer { IfOk result (λ r. r ≡ credit_reply (receiving.credit_set credit (receiving.seen receiver.old)).answer) }
{
    match receiver.set_credit(credit) {
        Ok(()) => Ok(LinkReply::Done),
        Err(IllegalLinkStateError::Memory(error)) => Err(error),
        Err(error) => Ok(LinkReply::FlowError(error)),
    }
}

impl LinkSide {
    fn recv(&mut self) -> Result<LinkReply, AllocError>
        ensures state { IfOk result (λ r. seen self.new ≡ having_received r (seen self.old)) }
        ensures answer { IfOk result (λ r. Receives r (seen self.old)) }
    {
        match self {
            LinkSide::Receiver(receiver) => receive(receiver),
            LinkSide::Sender(_) => Ok(LinkReply::RecvError(RecvError::LinkStateError(
                LinkStateError::IllegalState,
            ))),
        }
    }

    fn dispose(
        &mut self,
        disposal: Disposal,
        infos: &[DeliveryInfo],
    ) -> Result<LinkReply, AllocError>
        ensures state { OnOk result (seen self.new ≡ (disposes disposal infos.now (seen self.old)).side) }
        ensures answer { IfOk result (λ r. r ≡ (disposes disposal infos.now (seen self.old)).reply) }
    {
        match self {
            LinkSide::Receiver(receiver) => dispose(receiver, disposal, infos),
            LinkSide::Sender(_) => Ok(LinkReply::DispositionError(
                IllegalLinkStateError::IllegalState,
            )),
        }
    }

    fn set_credit(&mut self, credit: u32) -> Result<LinkReply, AllocError>
        ensures state { OnOk result (seen self.new ≡ (sets_credit credit (seen self.old)).side) }
        ensures answer { IfOk result (λ r. r ≡ (sets_credit credit (seen self.old)).reply) }
    {
        match self {
            LinkSide::Receiver(receiver) => set_credit(receiver, credit),
            LinkSide::Sender(_) => Ok(LinkReply::FlowError(IllegalLinkStateError::IllegalState)),
        }
    }
}

impl CalledLink {
    /// The next message: a `Delivery`, which is accepted where that is to be done at once, `Pending` where more has to come, or a
    /// `RecvError` as `Receiver::recv` says. A sender answers `IllegalState`. For want of memory the link is not known any more.
    pub fn recv(&mut self) -> Result<LinkReply, AllocError>
        ensures state { IfOk result (λ r. self.new ≡ with_side (having_received r self.old.side) self.old) }
        ensures answer { IfOk result (λ r. Receives r self.old.side) }
    {
        self.side.recv()
    }

    /// Gives deliveries a state in which they end: `Done`, or a `DispositionError` as `Receiver::dispose_all` says. A sender answers
    /// `IllegalState`. For want of memory the link is not known any more.
    pub fn dispose(
        &mut self,
        disposal: Disposal,
        infos: &[DeliveryInfo],
    ) -> Result<LinkReply, AllocError>
        ensures state { OnOk result (self.new ≡ with_side (disposes disposal infos.now self.old.side).side self.old) }
        ensures answer { IfOk result (λ r. r ≡ (disposes disposal infos.now self.old.side).reply) }
    {
        self.side.dispose(disposal, infos)
    }

    /// Gives the sender that much credit: `Done`, or a `FlowError` as `Receiver::set_credit` says. A sender answers `IllegalState`. For
    /// want of memory the link is not known any more.
    pub fn set_credit(&mut self, credit: u32) -> Result<LinkReply, AllocError>
        ensures state { OnOk result (self.new ≡ with_side (sets_credit credit self.old.side).side self.old) }
        ensures answer { IfOk result (λ r. r ≡ (sets_credit credit self.old.side).reply) }
    {
        self.side.set_credit(credit)
    }
}
