//! A sender: what it is built from, and what it tells of itself (OASIS AMQP 1.0, part 2, section 2.6).
ghost use Rattle.std.specs.Prelude.{◌≡◌, Some, IfOk, OnOk, OnErr};
ghost use Rattle.std.specs.Option.{option_map};
ghost use Rattle.amqp_link.specs.Link as link;
ghost use Rattle.amqp_sender.specs.Sender.{seen, own_of, begun, asked, accepted, limit_of, TakesFrame, Polls};

use crate::settings::SenderSettings;
use amqp_composites::modes::Role;
use amqp_data::{Binary, Text};
use amqp_link::amqp_frames::{LinkFrame, SessionStopReason};
use amqp_link::amqp_performatives::attach::Attach;
use amqp_link::amqp_performatives::detach::Detach;
use amqp_link::{
    AcceptSettings, AttachPoll, LinkEndpoint, LinkPhase, SenderAttachError, source_at, target_at,
};
use amqp_termini::{Outcome, TargetArchetype};
use indexmap::IndexMap;
use std::alloc::{AllocError, Global};

/// What has become of a delivery.
#[derive(Debug)]
pub enum Settlement {
    /// It is not settled.
    Unsettled,
    /// It has that outcome.
    Settled(Outcome),
    /// It was settled without a state in which a delivery ends.
    NonTerminal,
    /// It was settled with the state of a transaction.
    Illegal,
}

// It is let go by a call, so that no caller sees what its outcome holds.
impl Drop for Settlement {
    fn drop(self) {
        match self {
            Settlement::Unsettled => {}
            Settlement::Settled(outcome) => drop(outcome),
            Settlement::NonTerminal => {}
            Settlement::Illegal => {}
        }
    }
}

/// A delivery that a sender has sent: its place among all of that sender, from 0.
#[derive(Clone, Copy, Debug, PartialEq, Eq)]
pub struct DeliveryToken {
    /// The place.
    pub place: usize,
}

/// What a call that sends answers.
#[derive(Clone, Copy, Debug, PartialEq, Eq)]
pub enum SendReply {
    /// The message was sent.
    Sent(DeliveryToken),
    /// There is no credit: nothing was sent, and nothing has changed.
    Pending,
}

/// What is known of the outcome of a delivery.
#[derive(Debug, Drop)]
pub enum OutcomePoll {
    /// Nothing yet.
    Pending,
    /// Its outcome.
    Ready(Outcome),
}

/// The sending end of a link.
pub struct Sender {
    pub(crate) alloc: Global,
    pub(crate) link: LinkEndpoint,
    /// How many deliveries may still be sent.
    pub(crate) credit: u32,
    /// The deliveries of the link so far, modulo 2^32.
    pub(crate) delivery_count: u32,
    /// What has become of each delivery, in the order in which they were sent.
    pub(crate) settlements: Vec<Settlement>,
    /// The places of the deliveries that are not settled, by their tags.
    pub(crate) unsettled: IndexMap<Binary, usize>,
}

// A sender is let go by a call, so that no caller sees what it holds.
impl Drop for Sender {
    fn drop(self) {
        let Sender {
            alloc: _,
            link,
            credit: _,
            delivery_count: _,
            settlements,
            unsettled,
        } = self;
        drop(link);
        drop(settlements);
        drop(unsettled);
    }
}

/// The Attach that the settings say.
fn own_of(alloc: Global, settings: SenderSettings, handle: u32) -> Result<Attach, AllocError>
    ensures { IfOk result (λ x. x ≡ own_of settings handle) }
{
    let source = source_at(alloc, settings.source, false)?;
    let target = target_at(alloc, settings.target, settings.dynamic)?;
    Ok(Attach {
        name: settings.name,
        handle,
        role: Role::Sender,
        snd_settle_mode: settings.snd_settle_mode,
        rcv_settle_mode: settings.rcv_settle_mode,
        source: Some(source),
        target: Some(TargetArchetype::Target(target)),
        unsettled: None,
        incomplete_unsettled: false,
        initial_delivery_count: Some(settings.initial_delivery_count),
        max_message_size: settings.max_message_size,
        offered_capabilities: None,
        desired_capabilities: None,
        properties: None,
    })
}

impl Sender {
    /// A sender without deliveries.
    fn new(alloc: Global, endpoint: LinkEndpoint, delivery_count: u32) -> Self
        ensures { seen result ≡ begun (link.seen endpoint) delivery_count }
    {
        Sender {
            alloc,
            link: endpoint,
            credit: 0,
            delivery_count,
            settlements: Vec::new(alloc),
            unsettled: IndexMap::new(alloc),
        }
    }

    /// A sender that this end attaches at that handle: its Attach is to be written. The one error is want of memory.
    pub fn attach(alloc: Global, settings: SenderSettings, handle: u32) -> Result<Self, AllocError>
        ensures { IfOk result (λ s. seen s ≡ asked settings handle) }
    {
        let verify = settings.verify;
        let count = settings.initial_delivery_count;
        let own = own_of(alloc, settings, handle)?;
        let link = LinkEndpoint::attach(alloc, own, verify)?;
        Ok(Sender::new(alloc, link, count))
    }

    /// A sender that answers the Attach of a receiver: its own is to be written, and where the link is refused a closing Detach
    /// behind it. The one error is want of memory.
    pub fn accept(
        alloc: Global,
        settings: AcceptSettings,
        handle: u32,
        attach: Attach,
    ) -> Result<Self, AllocError>
        requires { attach.role ≡ Role.Receiver }
        ensures { IfOk result (λ s. seen s ≡ accepted settings handle attach) }
    {
        let count = settings.initial_delivery_count;
        let link = LinkEndpoint::accept(alloc, settings, handle, attach)?;
        Ok(Sender::new(alloc, link, count))
    }

    /// The peer's Attach was read.
    pub fn on_attach(&mut self, attach: Attach) -> Result<(), AllocError>
        ensures ok { OnOk result (seen self.new ≡ record (seen self.old) { link = link.attach_read attach (seen self.old).link }) }
        ensures err { OnErr result (seen self.new ≡ seen self.old) }
    {
        self.link.on_attach(attach)
    }

    /// The peer's Detach was read: it is answered at once, unless it answers the Detach of this end.
    pub fn on_detach(&mut self, detach: Detach) -> Result<(), AllocError>
        ensures ok { OnOk result (seen self.new ≡ record (seen self.old) { link = link.detach_read detach (seen self.old).link }) }
        ensures err { OnErr result (seen self.new ≡ seen self.old) }
    {
        self.link.on_detach(detach)
    }

    /// The session has stopped. The first reason stays.
    pub fn stop(&mut self, reason: SessionStopReason)
        ensures { seen self.new ≡ record (seen self.old) { link = link.stopped reason (seen self.old).link } }
    {
        self.link.stop(reason);
    }

    /// How far the attach is. Why it failed is told once: to a sender that attaches when the peer has answered its Detach, to one that
    /// accepts at once. `SessionStopped` comes where the session stopped first, `IllegalState` once the failure was told.
    pub fn poll_attach(&mut self) -> Result<AttachPoll, SenderAttachError>
        ensures { Polls result (seen self.old) (seen self.new) }
    {
        self.link.poll_attach()
    }

    /// The first frame to be written.
    pub fn take_output(&mut self) -> Option<LinkFrame>
        ensures { TakesFrame (seen self.old) (option_map link.body_of result) (seen self.new) }
    {
        self.link.take_output()
    }

    /// The handle of this end.
    pub fn handle(&self) -> u32
        ensures { result ≡ (seen self.now).link.own.handle }
    {
        self.link.handle()
    }

    /// The name of the link, lent.
    pub fn name(&self) -> &Text
        ensures { result.now ≡ (seen self.now).link.own.name }
    {
        self.link.name()
    }

    /// What the ends have said of the link, lent: the source and the modes of this end, the target of the receiver.
    pub fn terms(&self) -> &Attach
        ensures { result.now ≡ (seen self.now).link.own }
    {
        self.link.terms()
    }

    /// How far the link is.
    pub fn phase(&self) -> LinkPhase
        ensures { result ≡ (seen self.now).link.phase }
    {
        self.link.phase()
    }

    /// Whether both ends have detached, so that the handle is free.
    pub fn is_over(&self) -> bool
        ensures { result ≡ link.is_over (seen self.now).link.phase }
    {
        self.link.is_over()
    }

    /// Whether both ends have closed the link, so that no outcome comes any more.
    pub fn is_closed_by_both(&self) -> bool
        ensures { result ≡ link.is_closed_by_both (seen self.now).link }
    {
        self.link.is_closed_by_both()
    }

    /// A frame was read for which a sender has no use; before both ends have attached it refuses the link.
    pub fn on_unexpected(&mut self) -> Result<(), AllocError>
        ensures ok { OnOk result (seen self.new ≡ record (seen self.old) { link = link.unexpected (seen self.old).link }) }
        ensures err { OnErr result (seen self.new ≡ seen self.old) }
    {
        self.link.on_unexpected()
    }

    /// The Detach that was read, lent, where the link had been attached.
    pub fn remote_detach(&self) -> Option<&Detach>
        ensures { option_map (λ x. x.now) result ≡ (seen self.now).link.remote }
    {
        self.link.remote_detach()
    }

    /// Why the session has stopped, if it has.
    pub fn stop_reason(&self) -> Option<&SessionStopReason>
        ensures { option_map (λ x. x.now) result ≡ (seen self.now).link.stop_reason }
    {
        self.link.stop_reason()
    }

    /// The largest message, in bytes: none where there is no limit.
    pub fn max_message_size(&self) -> Option<u64>
        ensures { result ≡ limit_of (seen self.now).link.max_message_size }
    {
        match self.link.max_message_size() {
            0 => None,
            size => Some(size),
        }
    }

    /// How many deliveries may still be sent.
    pub fn credit(&self) -> u32
        ensures { result ≡ (seen self.now).credit }
    {
        self.credit
    }

    /// The deliveries of the link so far, modulo 2^32.
    pub fn delivery_count(&self) -> u32
        ensures { result ≡ (seen self.now).delivery_count }
    {
        self.delivery_count
    }
}
