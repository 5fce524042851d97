//! A link endpoint, and the calls that wait at it: what it is built from, and what it tells of itself (OASIS AMQP 1.0, part 2,
//! section 2.6).
ghost use Rattle.std.specs.Prelude.{◌≡◌, IfOk, OnOk};
ghost use Rattle.std.specs.Option.{option_map};
ghost use Rattle.amqp_link.specs.Link as link;
ghost use Rattle.amqp_link_calls.specs.Side.{seen, link_of, role_of, credit_of};
ghost use Rattle.amqp_link_calls.specs.Called.{begun, sender_asked, receiver_asked, answering_side, accepted, takes_calls, may_abandon, is_awaited, stopped, TakesFrame};
ghost use Rattle.amqp_link_calls.specs.Answering.{accept_answered, accept_reply};

use crate::leave::{Leaving, WaitingPart};
use crate::replies::{accept_error, made_reply};
use crate::side::LinkSide;
use amqp_composites::modes::Role;
use amqp_data::Text;
use amqp_delivery::CreditMode;
use amqp_frames::{LinkFrame, SessionStopReason};
use amqp_link::{AcceptSettings, AttachPoll};
use amqp_link_words::amqp_receiver::{Receiver, ReceiverSettings};
use amqp_link_words::amqp_sender::{DeliveryToken, Sender, SenderSettings};
use amqp_link_words::{LinkReply, NamedLinkReply};
use amqp_performatives::attach::Attach;
use indexmap::IndexMap;
use std::alloc::{AllocError, Global};
use std::marker::Model;

/// One end of a link, and the calls that wait at it.
pub struct CalledLink {
    pub(crate) alloc: Global,
    /// The name of the call that made the session.
    pub(crate) session: u64,
    pub(crate) side: LinkSide,
    /// The call that waits until the peer has answered the Attach.
    pub(crate) attaching: Option<u64>,
    /// Whether the call that attached or accepted the link was answered that it is made.
    pub(crate) is_made: bool,
    /// The calls that wait for outcomes, by the places of the deliveries.
    pub(crate) waiting: IndexMap<usize, u64>,
    /// The call that leaves the link and waits.
    pub(crate) parting: Option<WaitingPart>,
    /// Whether a call has left the link.
    pub(crate) leaving: Leaving,
    /// Whether the session is over.
    pub(crate) is_concluded: bool,
    /// The answers of calls that have waited.
    pub(crate) answers: Vec<NamedLinkReply>,
}

// A link is let go by a call, so that no caller sees what it holds.
impl Drop for CalledLink {
    fn drop(self) {
        let CalledLink {
            alloc: _,
            session: _,
            side,
            attaching: _,
            is_made: _,
            waiting,
            parting: _,
            leaving: _,
            is_concluded: _,
            answers,
        } = self;
        drop(side);
        drop(waiting);
        drop(answers);
    }
}

impl Model for CalledLink {
    ghost use Rattle.std.specs.Coded.{codes};
    ghost use Rattle.amqp_fields.specs.contracts.map.FieldMap as map;
    ghost use Rattle.amqp_frames.specs.contracts.body.FrameBody as body;
    ghost use Rattle.amqp_frames.specs.contracts.shared.SessionStopReason as stop_reason;
    ghost use Rattle.amqp_performatives.specs.contracts.attach.Attach as attach;
    ghost use Rattle.amqp_link_words.specs.contracts.link_reply.LinkReply as reply;
    ghost use Rattle.amqp_link_calls.specs.Side.{seen};
    ghost use Rattle.amqp_link_calls.specs.Called.{Called};

    ghost Value = { Called };

    ghost coded = { Prim.hlevel (codes, map.the_row.coded, body.the_row.coded, stop_reason.the_row.coded, attach.the_row.coded, reply.the_row.coded) };

    ghost view = { λ s. record { session = s.session; side = seen s.side; attaching = s.attaching; is_made = s.is_made; waiting = s.waiting.entries; parting = s.parting; leaving = s.leaving; is_concluded = s.is_concluded; answers = s.answers.items } };
}

/// The end that answers the peer's Attach.
fn accepting_side(
    alloc: Global,
    settings: AcceptSettings,
    credit_mode: CreditMode,
    auto_accept: bool,
    handle: u32,
    attach: Attach,
) -> Result<LinkSide, AllocError>
    ensures { IfOk result (λ s. seen s ≡ answering_side attach.role settings credit_mode auto_accept handle attach) }
{
    match attach.role {
        Role::Sender => {
            let mut receiver = Receiver::accept(alloc, settings, credit_mode, handle, attach)?;
            receiver.set_auto_accept(auto_accept);
            Ok(LinkSide::Receiver(receiver))
        }
        Role::Receiver => {
            let sender = Sender::accept(alloc, settings, handle, attach)?;
            Ok(LinkSide::Sender(sender))
        }
    }
}

impl CalledLink {
    fn new(alloc: Global, session: u64, side: LinkSide, attaching: Option<u64>) -> Self
        ensures { result ≡ begun session (seen side) attaching }
    {
        CalledLink {
            alloc,
            session,
            side,
            attaching,
            is_made: false,
            waiting: IndexMap::new(alloc),
            parting: None,
            leaving: Leaving::Stays,
            is_concluded: false,
            answers: Vec::new(alloc),
        }
    }

    /// A sender that the call `name` attaches at that handle, on the session of that name: its Attach is to be written, and the call
    /// waits until the peer has answered. The one error is want of memory.
    pub fn attach_sender(
        alloc: Global,
        name: u64,
        session: u64,
        settings: SenderSettings,
        handle: u32,
    ) -> Result<Self, AllocError>
        ensures { IfOk result (λ s. s ≡ sender_asked name session settings handle) }
    {
        let sender = Sender::attach(alloc, settings, handle)?;
        Ok(CalledLink::new(alloc, session, LinkSide::Sender(sender), Some(name)))
    }

    /// A receiver that the call `name` attaches at that handle, on the session of that name: its Attach is to be written, and the
    /// call waits until the peer has answered. The one error is want of memory.
    pub fn attach_receiver(
        alloc: Global,
        name: u64,
        session: u64,
        settings: ReceiverSettings,
        handle: u32,
    ) -> Result<Self, AllocError>
        ensures { IfOk result (λ s. s ≡ receiver_asked name session settings handle) }
    {
        let receiver = Receiver::attach(alloc, settings, handle)?;
        Ok(CalledLink::new(alloc, session, LinkSide::Receiver(receiver), Some(name)))
    }

    /// The end that answers the peer's Attach, in the other role: its own is to be written, and a closing Detach behind it where the
    /// link is refused. The one error is want of memory.
    pub fn accept(
        alloc: Global,
        session: u64,
        settings: AcceptSettings,
        credit_mode: CreditMode,
        auto_accept: bool,
        handle: u32,
        attach: Attach,
    ) -> Result<Self, AllocError>
        ensures { IfOk result (λ s. s ≡ accepted session settings credit_mode auto_accept handle attach) }
    {
        let side = accepting_side(alloc, settings, credit_mode, auto_accept, handle, attach)?;
        Ok(CalledLink::new(alloc, session, side, None))
    }

    /// What the call that accepted the link is answered, right behind `accept`: that it is made, or why it is refused.
    pub fn accepted(&mut self) -> Result<LinkReply, AllocError>
        ensures state { OnOk result (self.new ≡ accept_answered self.old) }
        ensures answer { IfOk result (λ r. r ≡ accept_reply self.old) }
    {
        let role = self.side.role();
        match self.side.attach_news()? {
            Ok(AttachPoll::Done) => {
                self.is_made = true;
                Ok(made_reply(role))
            }
            Ok(AttachPoll::Pending) => Ok(LinkReply::Pending),
            Err(error) => Ok(accept_error(role, error)),
        }
    }

    /// The name of the call that made the session.
    pub fn session(&self) -> u64
        ensures { result ≡ self.now.session }
    {
        self.session
    }

    /// Whether this end sends or receives.
    pub fn role(&self) -> Role
        ensures { result ≡ role_of self.now.side }
    {
        self.side.role()
    }

    /// The handle of this end.
    pub fn handle(&self) -> u32
        ensures { result ≡ (link_of self.now.side).own.handle }
    {
        self.side.handle()
    }

    /// The name of the link, lent.
    pub fn name(&self) -> &Text
        ensures { result.now ≡ (link_of self.now.side).own.name }
    {
        self.side.name()
    }

    /// Whether both ends have detached, so that the handle is free.
    pub fn is_over(&self) -> bool
        ensures { result ≡ link.is_over (link_of self.now.side).phase }
    {
        self.side.is_over()
    }

    /// Whether the peer may still speak of the deliveries of the link: until both ends have sent their Detach.
    pub fn is_heard(&self) -> bool
        ensures { result ≡ link.is_heard (link_of self.now.side).phase }
    {
        self.side.is_heard()
    }

    /// Whether the link takes calls: it was made, no call waits that leaves it, and none has left it.
    pub fn takes_calls(&self) -> bool
        ensures { result ≡ takes_calls self.now }
    {
        self.is_made && matches!(self.leaving, Leaving::Stays) && self.parting.is_none()
    }

    /// Whether the link may be abandoned: it was made, no call waits that leaves it, and it was neither closed nor abandoned.
    pub fn may_abandon(&self) -> bool
        ensures { result ≡ may_abandon self.now }
    {
        self.is_made && !matches!(self.leaving, Leaving::Dropped) && self.parting.is_none()
    }

    /// Whether the call that attached or accepted the link was answered that it is made.
    pub fn is_made(&self) -> bool
        ensures { result ≡ self.now.is_made }
    {
        self.is_made
    }

    /// The call that waits until the peer has answered the Attach.
    pub fn attaching(&self) -> Option<u64>
        ensures { result ≡ self.now.attaching }
    {
        self.attaching
    }

    /// Whether a call waits for the outcome of that delivery.
    pub fn is_awaited(&self, token: DeliveryToken) -> bool
        ensures { result ≡ is_awaited token.place self.now }
    {
        self.waiting.get(&token.place).is_some()
    }

    /// How much credit the sender has, as far as this end knows.
    pub fn credit(&self) -> u32
        ensures { result ≡ credit_of self.now.side }
    {
        self.side.credit()
    }

    /// The first frame to be written.
    pub fn take_output(&mut self) -> Option<LinkFrame>
        ensures { TakesFrame self.old (option_map link.body_of result) self.new }
    {
        self.side.take_output()
    }

    /// The session has stopped: calls that are made from now on are refused. The first reason stays.
    pub fn stop(&mut self, reason: SessionStopReason)
        ensures { self.new ≡ stopped reason self.old }
    {
        self.side.stop(reason);
    }
}
