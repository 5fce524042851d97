//! A receiver: what it is built from, and what it tells of itself (OASIS AMQP 1.0, part 2, section 2.6).
ghost use Rattle.std.specs.Prelude.{◌≡◌, length, IfOk, OnOk, OnErr};
ghost use Rattle.std.specs.Option.{option_map};
ghost use Rattle.amqp_link.specs.Link as link;
ghost use Rattle.amqp_receiver.specs.Receiver.{seen, fresh, own_of, asked, limit_of, TakesFrame, Polls};

use crate::settings::ReceiverSettings;
use amqp_composites::modes::Role;
use amqp_data::Text;
use amqp_delivery::{BookState, CreditMode};
use amqp_link::amqp_frames::{LinkFrame, SessionStopReason};
use amqp_link::{AttachPoll, LinkEndpoint, LinkPhase, ReceiverAttachError, source_at, target_at};
use amqp_parts::IncompleteTransfer;
use amqp_performatives::attach::Attach;
use amqp_performatives::detach::Detach;
use amqp_performatives::transfer::Transfer;
use amqp_termini::TargetArchetype;
use bytes::Bytes;
use std::alloc::{AllocError, Global};
use std::collections::VecDeque;

/// A Transfer that waits until it is received.
#[derive(Debug)]
pub struct Incoming {
    /// The Transfer.
    pub transfer: Transfer,
    /// Its bytes.
    pub payload: Bytes,
}

// It is let go by a call, so that no caller sees the fields of its Transfer.
impl Drop for Incoming {
    fn drop(self) {
        let Incoming { transfer, payload } = self;
        drop(transfer);
        drop(payload);
    }
}

impl Incoming {
    /// The Transfer and its bytes.
    pub fn into_parts(self) -> (Transfer, Bytes)
        ensures { (result.0 ≡ self.transfer) × (result.1 ≡ self.payload) }
    {
        let Incoming { transfer, payload } = self;
        (transfer, payload)
    }
}

/// The receiving end of a link.
pub struct Receiver {
    pub(crate) alloc: Global,
    pub(crate) link: LinkEndpoint,
    /// The deliveries that are not settled, and the credit.
    pub(crate) book: BookState,
    /// The Transfers that wait until they are received, in order.
    pub(crate) incoming: VecDeque<Incoming>,
    /// The delivery of which more is to come.
    pub(crate) buffer: Option<IncompleteTransfer>,
    /// Where the sender's delivery-count began.
    pub(crate) initial: u32,
    /// How many deliveries the sender has begun since, modulo 2^32.
    pub(crate) begun: u32,
    /// How much credit the sender has drained, modulo 2^32.
    pub(crate) drained: u32,
    /// Whether the last Transfer that was read has more to come.
    pub(crate) is_inside: bool,
    /// Whether each delivery is accepted as it is given.
    pub(crate) auto_accept: bool,
    /// Whether the sender was asked to use up its credit, and was given none since.
    pub(crate) is_draining: bool,
}

// A receiver is let go by a call, so that no caller sees what it holds.
impl Drop for Receiver {
    fn drop(self) {
        let Receiver {
            alloc: _,
            link,
            book,
            incoming,
            buffer,
            initial: _,
            begun: _,
            drained: _,
            is_inside: _,
            auto_accept: _,
            is_draining: _,
        } = self;
        drop(link);
        drop(book);
        drop(incoming);
        drop(buffer);
    }
}

/// The Attach that the settings say.
fn own_of(alloc: Global, settings: ReceiverSettings, handle: u32) -> Result<Attach, AllocError>
    ensures { IfOk result (λ x. x ≡ own_of settings handle) }
{
    let source = source_at(alloc, settings.source, settings.dynamic)?;
    let target = target_at(alloc, settings.target, false)?;
    Ok(Attach {
        name: settings.name,
        handle,
        role: Role::Receiver,
        snd_settle_mode: settings.snd_settle_mode,
        rcv_settle_mode: settings.rcv_settle_mode,
        source: Some(source),
        target: Some(TargetArchetype::Target(target)),
        unsettled: None,
        incomplete_unsettled: false,
        initial_delivery_count: None,
        max_message_size: settings.max_message_size,
        offered_capabilities: None,
        desired_capabilities: None,
        properties: None,
    })
}

impl Receiver {
    /// A receiver without deliveries.
    pub(crate) fn new(
        alloc: Global,
        endpoint: LinkEndpoint,
        credit_mode: CreditMode,
        auto_accept: bool,
    ) -> Self
        ensures { seen result ≡ fresh (link.seen endpoint) credit_mode auto_accept }
    {
        let mode = endpoint.terms().rcv_settle_mode;
        Receiver {
            alloc,
            link: endpoint,
            book: BookState::new(alloc, mode, credit_mode, 0),
            incoming: VecDeque::new(alloc),
            buffer: None,
            initial: 0,
            begun: 0,
            drained: 0,
            is_inside: false,
            auto_accept,
            is_draining: false,
        }
    }

    /// A receiver that this end attaches at that handle: its Attach is to be written. The one error is want of memory.
    pub fn attach(
        alloc: Global,
        settings: ReceiverSettings,
        handle: u32,
    ) -> Result<Self, AllocError>
        ensures { IfOk result (λ s. seen s ≡ asked settings handle) }
    {
        let verify = settings.verify;
        let credit_mode = settings.credit_mode;
        let auto_accept = settings.auto_accept;
        let own = own_of(alloc, settings, handle)?;
        let link = LinkEndpoint::attach(alloc, own, verify)?;
        Ok(Receiver::new(alloc, link, credit_mode, auto_accept))
    }

    /// The peer's Detach was read: it is answered at once, unless it answers the Detach of this end.
    pub fn on_detach(&mut self, detach: Detach) -> Result<(), AllocError>
        ensures ok { OnOk result (seen self.new ≡ record (seen self.old) { link = link.detach_read detach (seen self.old).link }) }
        ensures err { OnErr result (seen self.new ≡ seen self.old) }
    {
        self.link.on_detach(detach)
    }

    /// The session has stopped. The first reason stays.
    pub fn stop(&mut self, reason: SessionStopReason)
        ensures { seen self.new ≡ record (seen self.old) { link = link.stopped reason (seen self.old).link } }
    {
        self.link.stop(reason);
    }

    /// How far the attach is. Why it failed is told once: to a receiver that attaches when the peer has answered its Detach, to one
    /// that accepts at once. `SessionStopped` comes where the session stopped first, `IllegalState` once the failure was told.
    pub fn poll_attach(&mut self) -> Result<AttachPoll, ReceiverAttachError>
        ensures { Polls result (seen self.old) (seen self.new) }
    {
        self.link.poll_attach()
    }

    /// The first frame to be written.
    pub fn take_output(&mut self) -> Option<LinkFrame>
        ensures { TakesFrame (seen self.old) (option_map link.body_of result) (seen self.new) }
    {
        self.link.take_output()
    }

    /// The handle of this end.
    pub fn handle(&self) -> u32
        ensures { result ≡ (seen self.now).link.own.handle }
    {
        self.link.handle()
    }

    /// The name of the link, lent.
    pub fn name(&self) -> &Text
        ensures { result.now ≡ (seen self.now).link.own.name }
    {
        self.link.name()
    }

    /// What the ends have said of the link, lent: the target and the mode of this end, the source and the mode of the sender.
    pub fn terms(&self) -> &Attach
        ensures { result.now ≡ (seen self.now).link.own }
    {
        self.link.terms()
    }

    /// How far the link is.
    pub fn phase(&self) -> LinkPhase
        ensures { result ≡ (seen self.now).link.phase }
    {
        self.link.phase()
    }

    /// Whether both ends have detached, so that the handle is free.
    pub fn is_over(&self) -> bool
        ensures { result ≡ link.is_over (seen self.now).link.phase }
    {
        self.link.is_over()
    }

    /// The Detach that was read, lent, where the link had been attached.
    pub fn remote_detach(&self) -> Option<&Detach>
        ensures { option_map (λ x. x.now) result ≡ (seen self.now).link.remote }
    {
        self.link.remote_detach()
    }

    /// Why the session has stopped, if it has.
    pub fn stop_reason(&self) -> Option<&SessionStopReason>
        ensures { option_map (λ x. x.now) result ≡ (seen self.now).link.stop_reason }
    {
        self.link.stop_reason()
    }

    /// The largest message, in bytes: none where there is no limit.
    pub fn max_message_size(&self) -> Option<u64>
        ensures { result ≡ limit_of (seen self.now).link.max_message_size }
    {
        match self.link.max_message_size() {
            0 => None,
            size => Some(size),
        }
    }

    /// How many deliveries the sender may still send.
    pub fn credit(&self) -> u32
        ensures { result ≡ (seen self.now).book.credit }
    {
        self.book.credit()
    }

    /// How many Transfers wait until they are received.
    pub fn waiting(&self) -> usize
        ensures { result ≡ length (seen self.now).incoming }
    {
        self.incoming.len()
    }
}
