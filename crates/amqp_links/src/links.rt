//! The links of an end.
ghost use Rattle.std.specs.Prelude.{◌≡◌, ◌↔◌, IsTrue, [], nat_eq, option_map, Some, OnOk};
ghost use Rattle.std.specs.Map.{lookup};
ghost use Rattle.amqp_links.specs.May.{MayCall, may_call, is_busy_on, is_spent_on, may_attach, same_role, made_as, is_made, may_ask, may_ask_at, given_by, are_given, is_any, may_dispose, may_dispose_by, may_leave_at, may_leave};
ghost use Rattle.amqp_links.specs.Parts.{told};
ghost use Rattle.amqp_links.specs.State.{seen, no_links, link_of, answering, answering_all, TakesOutput};

use crate::output::{LinksOutput, OutputQueue};
use crate::timed::TimedCall;
use amqp_composites::modes::Role;
use amqp_data::Text;
use amqp_delivery::{DeliveryInfo, DisposerView};
use amqp_link_calls::CalledLink;
use amqp_link_calls::amqp_link_words::{LinkCall, LinkReply, NamedLinkReply, Parting};
use amqp_sender::DeliveryToken;
use amqp_session_links::SessionLinks;
use indexmap::IndexMap;
use std::alloc::{AllocError, Global};
use std::mem;

/// A message that a call has sent.
#[derive(Clone, Copy, Debug, PartialEq, Eq)]
pub struct SentDelivery {
    /// The name of the sender.
    pub link: u64,
    /// What the sender calls the delivery.
    pub token: DeliveryToken,
}

/// A delivery that a call was given.
#[derive(Debug)]
pub struct GivenDelivery {
    /// The name of the receiver.
    pub link: u64,
    /// What names the delivery.
    pub info: DeliveryInfo,
}

// It is let go by a call, so that no caller sees its parts.
impl Drop for GivenDelivery {
    fn drop(self) {
        let GivenDelivery { link: _, info } = self;
        drop(info);
    }
}

/// A disposer that a call has made.
#[derive(Clone, Copy, Debug)]
pub struct KeptDisposer {
    /// The name of the receiver.
    pub link: u64,
    /// What it keeps of the link.
    pub view: DisposerView,
}

/// The links of an end. A link, a message that was sent, a delivery that was given and a disposer are known by the names of their calls,
/// and a session by the name of the call that made it.
pub struct Links {
    pub(crate) alloc: Global,
    /// Whether this end accepts the links of the peer.
    pub(crate) accepts: bool,
    /// What the links of each session share.
    pub(crate) sessions: IndexMap<u64, SessionLinks>,
    /// The links.
    pub(crate) endpoints: IndexMap<u64, CalledLink>,
    /// The messages that were sent.
    pub(crate) sends: IndexMap<u64, SentDelivery>,
    /// The deliveries that were given.
    pub(crate) deliveries: IndexMap<u64, GivenDelivery>,
    /// The disposers that were made.
    pub(crate) disposers: IndexMap<u64, KeptDisposer>,
    /// The calls with a time, by the links at which they wait.
    pub(crate) timed: IndexMap<u64, TimedCall>,
    /// The moment of the step, in milliseconds.
    pub(crate) moment: u64,
    /// What is to be done on the sessions, in order.
    pub(crate) output: OutputQueue,
    /// The answers that were not taken, in order.
    pub(crate) replies: Vec<NamedLinkReply>,
}

// The links are let go by a call, so that no caller sees what they hold.
impl Drop for Links {
    fn drop(self) {
        let Links {
            alloc: _,
            accepts: _,
            sessions,
            endpoints,
            sends,
            deliveries,
            disposers,
            timed,
            moment: _,
            output,
            replies,
        } = self;
        drop(sessions);
        drop(endpoints);
        drop(sends);
        drop(deliveries);
        drop(disposers);
        drop(timed);
        drop(output);
        drop(replies);
    }
}

/// Whether two roles are the same.
fn same_role(left: Role, right: Role) -> bool
    ensures { result ≡ same_role left right }
{
    match (left, right) {
        (Role::Sender, Role::Sender) => true,
        (Role::Receiver, Role::Receiver) => true,
        (Role::Sender, Role::Receiver) => false,
        (Role::Receiver, Role::Sender) => false,
    }
}

/// Whether there is any.
fn is_any(deliveries: &[u64]) -> bool
    ensures { result ≡ is_any deliveries.now }
{
    !deliveries.is_empty()
}

/// Whether a link takes that call that leaves it.
fn takes(link: &CalledLink, parting: &Parting) -> bool
    ensures { result ≡ may_leave_at parting.now (Some link.now) }
{
    match parting {
        Parting::Abandon => link.may_abandon(),
        Parting::OnDetach | Parting::Detach { .. } | Parting::Close { .. } => link.takes_calls(),
    }
}

impl Links {
    /// No links, at an end that accepts those of the peer or not; takes no memory.
    pub fn new(alloc: Global, accepts: bool) -> Self
        ensures { seen result ≡ no_links accepts }
    {
        Links {
            alloc,
            accepts,
            sessions: IndexMap::new(alloc),
            endpoints: IndexMap::new(alloc),
            sends: IndexMap::new(alloc),
            deliveries: IndexMap::new(alloc),
            disposers: IndexMap::new(alloc),
            timed: IndexMap::new(alloc),
            moment: 0,
            output: OutputQueue::new(alloc),
            replies: Vec::new(alloc),
        }
    }

    /// Whether a call waits on the session of that name: an attach for the peer's answer, or an accept for an Attach of the peer.
    pub fn is_busy(&self, session: u64) -> bool
        ensures { result ≡ is_busy_on session (seen self.now) }
    {
        match self.sessions.get(&session) {
            Some(place) => place.is_busy(),
            None => false,
        }
    }

    /// Whether no attach may use that name again on the session.
    pub fn is_spent(&self, session: u64, name: &Text) -> bool
        ensures { result ≡ is_spent_on session name.now (seen self.now) }
    {
        match self.sessions.get(&session) {
            Some(place) => place.is_spent(name),
            None => false,
        }
    }

    fn may_attach(&self, session: u64, name: &Text) -> bool
        ensures { result ≡ may_attach session name.now (seen self.now) }
    {
        !self.is_busy(session) && !self.is_spent(session, name)
    }

    /// Whether that link was made, with this end in that role, and takes calls.
    fn is_made(&self, link: u64, role: Role) -> bool
        ensures { result ≡ is_made link role (seen self.now) }
    {
        match self.endpoints.get(&link) {
            Some(endpoint) => {
                endpoint.takes_calls() && same_role(endpoint.role(), role) && !self.is_sending(link)
            }
            None => false,
        }
    }

    /// Whether that call sent a message, for whose outcome no call waits.
    fn may_ask(&self, send: u64) -> bool
        ensures { result ≡ may_ask send (seen self.now) }
    {
        match self.sends.get(&send) {
            Some(sent) => self.may_ask_of(sent.link, sent.token),
            None => false,
        }
    }

    fn may_ask_of(&self, link: u64, token: DeliveryToken) -> bool
        ensures { result ≡ may_ask_at token (link_of link (seen self.now)) }
    {
        match self.endpoints.get(&link) {
            Some(endpoint) => !endpoint.is_awaited(token),
            None => false,
        }
    }

    /// Whether that call was given a delivery by that receiver.
    fn is_given(&self, link: u64, delivery: u64) -> bool
        ensures { result ≡ given_by link (lookup (nat_eq delivery) (seen self.now).deliveries) }
    {
        match self.deliveries.get(&delivery) {
            Some(given) => given.link == link,
            None => false,
        }
    }

    /// Whether each of those calls was.
    fn are_given(&self, link: u64, deliveries: &[u64]) -> bool
        ensures { result ≡ are_given link deliveries.now (seen self.now) }
    {
        for delivery in deliveries {
            if !self.is_given(link, *delivery) {
                return false;
            }
        }
        true
    }

    fn may_dispose(&self, link: u64, deliveries: &[u64]) -> bool
        ensures { result ≡ may_dispose link deliveries.now (seen self.now) }
    {
        self.is_made(link, Role::Receiver) && is_any(deliveries) && self.are_given(link, deliveries)
    }

    fn may_dispose_by(&self, disposer: u64, delivery: u64) -> bool
        ensures { result ≡ may_dispose_by (lookup (nat_eq disposer) (seen self.now).disposers) delivery (seen self.now) }
    {
        match self.disposers.get(&disposer) {
            Some(kept) => self.is_given(kept.link, delivery),
            None => false,
        }
    }

    /// Whether that call that leaves a link is taken.
    fn may_leave(&self, link: u64, parting: &Parting) -> bool
        ensures { result ≡ may_leave link parting.now (seen self.now) }
    {
        match self.endpoints.get(&link) {
            Some(endpoint) => takes(endpoint, parting) && !self.is_sending(link),
            None => false,
        }
    }

    /// Whether the links take a call: an attach while no attach or accept waits on its session, of a name that is not spent there; an
    /// accept while none waits; a `send` of a message with a body on a sender that was made; an `outcome` of a message that was sent,
    /// where no other waits; another call for a receiver on one that was made; a disposal of one or more deliveries, each of which that
    /// receiver, or the receiver of that disposer, gave; a call that leaves a link that was made. A link takes calls while none waits
    /// that leaves it and no send with a time, and once it was detached `abandon` alone, once it was closed or abandoned none, but for
    /// outcomes and disposers.
    pub fn may_call(&self, call: &LinkCall) -> bool
        ensures { IsTrue result ↔ MayCall (seen self.now) call.now }
    {
        match call {
            LinkCall::Sender { session, settings } => self.may_attach(*session, &settings.name),
            LinkCall::Receiver { session, settings } => self.may_attach(*session, &settings.name),
            LinkCall::Accept {
                session,
                settings: _,
                credit_mode: _,
                auto_accept: _,
            } => !self.is_busy(*session),
            LinkCall::Send { link, message } => {
                message.has_body && self.is_made(*link, Role::Sender)
            }
            LinkCall::SendTimed {
                link,
                message,
                timeout: _,
            } => message.has_body && self.is_made(*link, Role::Sender),
            LinkCall::Outcome { send } => self.may_ask(*send),
            LinkCall::Dispose {
                link,
                disposal: _,
                deliveries,
            } => self.may_dispose(*link, deliveries.as_slice()),
            LinkCall::Recv { link } => self.is_made(*link, Role::Receiver),
            LinkCall::SetCredit { link, credit: _ } => self.is_made(*link, Role::Receiver),
            LinkCall::Credit { link } => self.is_made(*link, Role::Receiver),
            LinkCall::Regulate {
                link,
                regulation: _,
            } => self.is_made(*link, Role::Receiver),
            LinkCall::Disposer { link } => self.is_made(*link, Role::Receiver),
            LinkCall::DisposeBy {
                disposer,
                disposal: _,
                delivery,
            } => self.may_dispose_by(*disposer, *delivery),
            LinkCall::Part { link, parting } => self.may_leave(*link, parting),
        }
    }

    /// Answers the call of that name. The one error is want of memory.
    pub(crate) fn answer(&mut self, name: u64, reply: LinkReply) -> Result<(), AllocError>
        ensures { OnOk result (seen self.new ≡ answering name reply (seen self.old)) }
    {
        self.replies.push(NamedLinkReply { name, reply })?;
        Ok(())
    }

    /// Answers calls that have waited. The one error is want of memory.
    pub(crate) fn answer_all(&mut self, answers: Vec<NamedLinkReply>) -> Result<(), AllocError>
        ensures { OnOk result (seen self.new ≡ answering_all answers.items (seen self.old)) }
    {
        let mut answers = answers;
        self.replies.append(&mut answers)
    }

    /// The first of what is to be done on the sessions.
    pub fn take_output(&mut self) -> Option<LinksOutput>
        ensures { TakesOutput (seen self.old) (option_map told result) (seen self.new) }
    {
        self.output.pop()
    }

    /// The answers since they were last taken, in order.
    pub fn take_replies(&mut self) -> Vec<NamedLinkReply>
        ensures replies { result.items ≡ (seen self.old).replies }
        ensures state { seen self.new ≡ record (seen self.old) { replies = [] } }
    {
        mem::replace(&mut self.replies, Vec::new(self.alloc))
    }
}
