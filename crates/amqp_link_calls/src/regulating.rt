//! Calls that have a receiver go on otherwise (OASIS AMQP 1.0, part 2, section 2.6.7).
ghost use Rattle.std.specs.Prelude.{◌≡◌, IfOk, OnOk};
ghost use Rattle.amqp_link_words.specs.amqp_receiver.Receiver as receiving;
ghost use Rattle.amqp_link_words.specs.amqp_receiver.Regulating.{drain_asked, properties_told};
ghost use Rattle.amqp_link_calls.specs.Called.{with_side};
ghost use Rattle.amqp_link_calls.specs.Regulating.{regulating, regulates};
ghost use Rattle.amqp_link_calls.specs.Replies.{credit_reply};
ghost use Rattle.amqp_link_calls.specs.Side.{seen};

use crate::called::CalledLink;
use crate::side::LinkSide;
use amqp_link::IllegalLinkStateError;
use amqp_link_words::amqp_receiver::Receiver;
use amqp_link_words::{LinkReply, Regulation};
use std::alloc::AllocError;

fn drain(receiver: &mut Receiver) -> Result<LinkReply, AllocError>
    ensures state { OnOk result (receiving.seen receiver.new ≡ (drain_asked (receiving.seen receiver.old)).state) }
    ensures answer { IfOk result (λ r. r ≡ credit_reply (drain_asked (receiving.seen receiver.old)).answer) }
{
    match receiver.drain() {
        Ok(()) => Ok(LinkReply::Done),
        Err(IllegalLinkStateError::Memory(error)) => Err(error),
        Err(error) => Ok(LinkReply::FlowError(error)),
    }
}

fn send_properties(receiver: &mut Receiver) -> Result<LinkReply, AllocError>
    ensures state { OnOk result (receiving.seen receiver.new ≡ (properties_told (receiving.seen receiver.old)).state) }
    ensures answer { IfOk result (λ r. r ≡ credit_reply (properties_told (receiving.seen receiver.old)).answer) }
{
    match receiver.send_properties() {
        Ok(()) => Ok(LinkReply::Done),
        Err(IllegalLinkStateError::Memory(error)) => Err(error),
        Err(error) => Ok(LinkReply::FlowError(error)),
    }
}

fn regulate(receiver: &mut Receiver, regulation: Regulation) -> Result<LinkReply, AllocError>
    ensures state { OnOk result (receiving.seen receiver.new ≡ (regulating regulation (receiving.seen receiver.old)).state) }
    ensures answer { IfOk result (λ r. r ≡ credit_reply (regulating regulation (receiving.seen receiver.old)).answer) }
{
    match regulation {
        Regulation::CreditMode(mode) => {
            receiver.set_credit_mode(mode);
            Ok(LinkReply::Done)
        }
        Regulation::AutoAccept(value) => {
            receiver.set_auto_accept(value);
            Ok(LinkReply::Done)
        }
        Regulation::Drain => drain(receiver),
        Regulation::Properties => send_properties(receiver),
    }
}

impl LinkSide {
    fn regulate(&mut self, regulation: Regulation) -> Result<LinkReply, AllocError>
        ensures state { OnOk result (seen self.new ≡ (regulates regulation (seen self.old)).side) }
        ensures answer { IfOk result (λ r. r ≡ (regulates regulation (seen self.old)).reply) }
    {
        match self {
            LinkSide::Receiver(receiver) => regulate(receiver, regulation),
            LinkSide::Sender(_) => Ok(LinkReply::FlowError(IllegalLinkStateError::IllegalState)),
        }
    }
}

impl CalledLink {
    /// Has a receiver go on otherwise: `Done`, or a `FlowError` as `Receiver::drain` and `Receiver::send_properties` say. A sender
    /// answers `IllegalState`. For want of memory the link is not known any more.
    pub fn regulate(&mut self, regulation: Regulation) -> Result<LinkReply, AllocError>
        ensures state { OnOk result (self.new ≡ with_side (regulates regulation self.old.side).side self.old) }
        ensures answer { IfOk result (λ r. r ≡ (regulates regulation self.old.side).reply) }
    {
        self.side.regulate(regulation)
    }
}
