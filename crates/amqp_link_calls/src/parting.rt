//! How one end of a link is left (OASIS AMQP 1.0, part 2, sections 2.6.4 to 2.6.6).
ghost use Rattle.std.specs.Prelude.{◌≡◌, IfOk, OnOk};
ghost use Rattle.amqp_link.specs.Link as link;
ghost use Rattle.amqp_link.specs.Parting as parting;
ghost use Rattle.amqp_link_calls.specs.Side.{seen, link_of, parts, parted_poll, detach_news, abandoned, unplaced, reattached};

use crate::side::LinkSide;
use amqp_composites::error::Error as AmqpError;
use amqp_link::{DetachError, DetachPoll};
use std::alloc::AllocError;

impl LinkSide {
    /// Detaches the link, with that error, and closes it where asked.
    pub(crate) fn part(
        &mut self,
        closes: bool,
        error: Option<AmqpError>,
    ) -> Result<DetachPoll, AllocError>
        ensures state { OnOk result (seen self.new ≡ (parts closes error (seen self.old)).side) }
        ensures answer { IfOk result (λ p. p ≡ (parts closes error (seen self.old)).answer) }
    {
        match self {
            LinkSide::Sender(sender) => sender.part(closes, error),
            LinkSide::Receiver(receiver) => receiver.part(closes, error),
        }
    }

    /// What a call is told that has waited since `part`.
    pub(crate) fn poll_parted(&self, closes: bool) -> Result<DetachPoll, AllocError>
        ensures { IfOk result (λ p. p ≡ parted_poll closes (seen self.now)) }
    {
        match self {
            LinkSide::Sender(sender) => sender.poll_parted(closes),
            LinkSide::Receiver(receiver) => receiver.poll_parted(closes),
        }
    }

    /// How the peer has detached the link.
    pub(crate) fn detach_news(&self) -> Result<Option<DetachError>, AllocError>
        ensures { IfOk result (λ e. e ≡ detach_news (seen self.now)) }
    {
        match self {
            LinkSide::Sender(sender) => sender.detach_news(),
            LinkSide::Receiver(receiver) => receiver.detach_news(),
        }
    }

    /// Lets the link go.
    pub(crate) fn abandon(&mut self) -> Result<(), AllocError>
        ensures { OnOk result (seen self.new ≡ abandoned (seen self.old)) }
    {
        match self {
            LinkSide::Sender(sender) => sender.abandon(),
            LinkSide::Receiver(receiver) => receiver.abandon(),
        }
    }

    /// Whether the peer may still speak of deliveries.
    pub(crate) fn is_heard(&self) -> bool
        ensures { result ≡ link.is_heard (link_of (seen self.now)).phase }
    {
        match self {
            LinkSide::Sender(sender) => sender.is_heard(),
            LinkSide::Receiver(receiver) => receiver.is_heard(),
        }
    }

    /// Whether the link is to be attached again, and has no handle for that yet.
    pub(crate) fn wants_handle(&self) -> bool
        ensures { result ≡ parting.wants_handle (link_of (seen self.now)).phase }
    {
        match self {
            LinkSide::Sender(sender) => sender.wants_handle(),
            LinkSide::Receiver(receiver) => receiver.wants_handle(),
        }
    }

    /// Whether the link was attached again, and the peer's Attach is awaited.
    pub(crate) fn is_reattaching(&self) -> bool
        ensures { result ≡ parting.is_reattaching (link_of (seen self.now)).phase }
    {
        match self {
            LinkSide::Sender(sender) => sender.is_reattaching(),
            LinkSide::Receiver(receiver) => receiver.is_reattaching(),
        }
    }

    /// Attaches the link again at that handle.
    pub(crate) fn reattach(&mut self, handle: u32) -> Result<(), AllocError>
        ensures { OnOk result (seen self.new ≡ reattached handle (seen self.old)) }
    {
        match self {
            LinkSide::Sender(sender) => sender.reattach(handle),
            LinkSide::Receiver(receiver) => receiver.reattach(handle),
        }
    }

    /// There is no handle at which the link could be attached again.
    pub(crate) fn refuse_handle(&mut self)
        ensures { seen self.new ≡ unplaced (seen self.old) }
    {
        match self {
            LinkSide::Sender(sender) => sender.refuse_handle(),
            LinkSide::Receiver(receiver) => receiver.refuse_handle(),
        }
    }
}
