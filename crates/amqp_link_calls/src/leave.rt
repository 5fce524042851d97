//! How links are left (OASIS AMQP 1.0, part 2, sections 2.6.4 to 2.6.6).
ghost use Rattle.std.specs.Prelude.{◌≡◌, IfOk, OnOk};
ghost use Rattle.amqp_link_calls.specs.Leaving.{left_by, part_reply, news_reply, known, told_part, part_answered, asked_part, error_for, credit_taken, closed_for, receiver_closed, closed_side, closed_by, closed_at_once, on_detach_asked, detach_asked, close_asked, abandoned, leaves, awaits_both, is_parting, wants_handle, awaits_part, part_given_up, is_reattaching, handle_given, handle_refused};
ghost use Rattle.amqp_link_calls.specs.Side.{seen};
ghost use Rattle.amqp_link_words.specs.amqp_receiver.Receiver as of;

use crate::called::CalledLink;
use crate::replies::{error_of, is_pending};
use crate::side::LinkSide;
use amqp_composites::error::Error as AmqpError;
use amqp_link::{DetachError, DetachPoll, IllegalLinkStateError};
use amqp_link_words::amqp_receiver::Receiver;
use amqp_link_words::{LinkReply, Parting};
use amqp_text::Symbol;
use std::alloc::AllocError;

/// What a call asks that leaves a link and waits.
#[derive(Clone, Copy, Debug, PartialEq, Eq)]
pub enum PartKind {
    /// To be told of the peer's Detach.
    OnDetach,
    /// To detach the link.
    Detach,
    /// To close the link.
    Close,
}

/// A call that leaves a link and waits.
#[derive(Clone, Copy, Debug, PartialEq, Eq)]
pub struct WaitingPart {
    /// The name of the call.
    pub name: u64,
    /// What it asks.
    pub kind: PartKind,
}

/// Whether a call has left a link.
#[derive(Clone, Copy, Debug, PartialEq, Eq)]
pub enum Leaving {
    /// None has.
    Stays,
    /// The link was detached.
    Detached,
    /// The link was closed or abandoned.
    Dropped,
}

/// How a link is left once the call is answered.
fn left_by(kind: PartKind, before: Leaving) -> Leaving
    ensures { result ≡ left_by kind before }
{
    match kind {
        PartKind::OnDetach => before,
        PartKind::Detach => Leaving::Detached,
        PartKind::Close => Leaving::Dropped,
    }
}

/// Whether a call waits until both ends have detached.
fn awaits_both(kind: PartKind) -> bool
    ensures { result ≡ awaits_both kind }
{
    match kind {
        PartKind::OnDetach => false,
        PartKind::Detach | PartKind::Close => true,
    }
}

/// What a call is answered that detaches a link, or closes it.
fn part_reply(closes: bool, poll: DetachPoll) -> LinkReply
    ensures { result ≡ part_reply closes poll }
{
    match poll {
        DetachPoll::Pending => LinkReply::Pending,
        DetachPoll::Done => {
            if closes {
                LinkReply::Closed
            } else {
                LinkReply::Detached
            }
        }
        DetachPoll::Failed(error) => LinkReply::DetachError(error),
    }
}

fn news_reply(news: Option<DetachError>) -> LinkReply
    ensures { result ≡ news_reply news }
{
    match news {
        Some(error) => LinkReply::DetachError(error),
        None => LinkReply::Pending,
    }
}

/// Why a link is not closed that gives no credit.
fn error_for(error: IllegalLinkStateError) -> DetachError
    ensures { result ≡ error_for error }
{
    match error {
        IllegalLinkStateError::SessionStopped(reason) => DetachError::SessionStopped(reason),
        IllegalLinkStateError::Memory(_) | IllegalLinkStateError::IllegalState => {
            DetachError::IllegalState
        }
    }
}

/// Takes the credit of the sender, if that can be done: else why not.
fn take_credit(receiver: &mut Receiver) -> Result<Option<IllegalLinkStateError>, AllocError>
    ensures state { OnOk result (of.seen receiver.new ≡ (credit_taken (of.seen receiver.old)).state) }
    ensures answer { IfOk result (λ r. r ≡ (credit_taken (of.seen receiver.old)).answer) }
{
    match receiver.set_credit(0) {
        Ok(()) => Ok(None),
        Err(IllegalLinkStateError::Memory(error)) => Err(error),
        Err(error) => Ok(Some(error)),
    }
}

/// Closes a receiver for an error: first it takes the sender's credit, and where that cannot be done the link is not closed.
fn close_for(receiver: &mut Receiver, error: AmqpError) -> Result<DetachPoll, AllocError>
    ensures state { OnOk result (of.seen receiver.new ≡ (closed_for error (of.seen receiver.old)).state) }
    ensures answer { IfOk result (λ p. p ≡ (closed_for error (of.seen receiver.old)).answer) }
{
    match take_credit(receiver)? {
        Some(refusal) => {
            drop(error);
            Ok(DetachPoll::Failed(error_for(refusal)))
        }
        None => receiver.part(true, Some(error)),
    }
}

fn close_receiver(
    receiver: &mut Receiver,
    error: Option<AmqpError>,
) -> Result<DetachPoll, AllocError>
    ensures state { OnOk result (of.seen receiver.new ≡ (receiver_closed error (of.seen receiver.old)).state) }
    ensures answer { IfOk result (λ p. p ≡ (receiver_closed error (of.seen receiver.old)).answer) }
{
    match error {
        Some(error) => close_for(receiver, error),
        None => receiver.part(true, None),
    }
}

impl LinkSide {
    /// Closes the link.
    fn close(&mut self, error: Option<AmqpError>) -> Result<DetachPoll, AllocError>
        ensures state { OnOk result (seen self.new ≡ (closed_side error (seen self.old)).side) }
        ensures answer { IfOk result (λ p. p ≡ (closed_side error (seen self.old)).answer) }
    {
        match self {
            LinkSide::Sender(sender) => sender.part(true, error),
            LinkSide::Receiver(receiver) => close_receiver(receiver, error),
        }
    }

    /// What is known of what a call asks.
    fn known(&self, kind: PartKind) -> Result<LinkReply, AllocError>
        ensures { IfOk result (λ r. r ≡ known kind (seen self.now)) }
    {
        match kind {
            PartKind::OnDetach => {
                let news = self.detach_news()?;
                Ok(news_reply(news))
            }
            PartKind::Detach => {
                let poll = self.poll_parted(false)?;
                Ok(part_reply(false, poll))
            }
            PartKind::Close => {
                let poll = self.poll_parted(true)?;
                Ok(part_reply(true, poll))
            }
        }
    }
}

impl CalledLink {
    /// A call that has closed the link lets it go.
    fn close_by(&mut self, reply: &LinkReply) -> Result<(), AllocError>
        ensures { OnOk result (self.new ≡ closed_by reply.now self.old) }
    {
        match reply {
            LinkReply::Closed => self.side.abandon(),
            _ => Ok(()),
        }
    }

    /// The same, where the link is closed at once: no outcome comes any more.
    fn close_at_once(&mut self, reply: &LinkReply) -> Result<(), AllocError>
        ensures { OnOk result (self.new ≡ closed_at_once reply.now self.old) }
    {
        match reply {
            LinkReply::Closed => {
                self.side.abandon()?;
                self.answer_outcomes()
            }
            _ => Ok(()),
        }
    }

    fn tell_part(&mut self, reply: LinkReply, part: WaitingPart) -> Result<(), AllocError>
        ensures { OnOk result (self.new ≡ told_part reply part self.old) }
    {
        if is_pending(&reply) {
            return Ok(());
        }
        self.parting = None;
        self.leaving = left_by(part.kind, self.leaving);
        self.close_by(&reply)?;
        self.answer(part.name, reply)
    }

    /// Answers the call that leaves the link, where it waits and an answer can be given.
    pub(crate) fn answer_part(&mut self) -> Result<(), AllocError>
        ensures { OnOk result (self.new ≡ part_answered self.old) }
    {
        match self.parting {
            Some(part) => {
                let reply = self.side.known(part.kind)?;
                self.tell_part(reply, part)
            }
            None => Ok(()),
        }
    }

    /// The call waits, or has left the link.
    fn ask_part(&mut self, name: u64, kind: PartKind, is_pending: bool)
        ensures { self.new ≡ asked_part is_pending name kind self.old }
    {
        if is_pending {
            self.parting = Some(WaitingPart { name, kind });
        } else {
            self.leaving = left_by(kind, self.leaving);
        }
    }

    fn ask_on_detach(&mut self, name: u64) -> Result<LinkReply, AllocError>
        ensures state { OnOk result (self.new ≡ (on_detach_asked name self.old).called) }
        ensures reply { IfOk result (λ r. r ≡ (on_detach_asked name self.old).reply) }
    {
        let reply = self.side.known(PartKind::OnDetach)?;
        self.ask_part(name, PartKind::OnDetach, is_pending(&reply));
        Ok(reply)
    }

    fn ask_detach(&mut self, name: u64, error: Option<Symbol>) -> Result<LinkReply, AllocError>
        ensures state { OnOk result (self.new ≡ (detach_asked name error self.old).called) }
        ensures reply { IfOk result (λ r. r ≡ (detach_asked name error self.old).reply) }
    {
        let poll = self.side.part(false, error_of(error))?;
        let reply = part_reply(false, poll);
        self.ask_part(name, PartKind::Detach, is_pending(&reply));
        Ok(reply)
    }

    fn ask_close(&mut self, name: u64, error: Option<Symbol>) -> Result<LinkReply, AllocError>
        ensures state { OnOk result (self.new ≡ (close_asked name error self.old).called) }
        ensures reply { IfOk result (λ r. r ≡ (close_asked name error self.old).reply) }
    {
        let poll = self.side.close(error_of(error))?;
        let reply = part_reply(true, poll);
        self.ask_part(name, PartKind::Close, is_pending(&reply));
        self.close_at_once(&reply)?;
        Ok(reply)
    }

    /// Lets the link go: no outcome comes any more.
    fn abandon(&mut self) -> Result<LinkReply, AllocError>
        ensures state { OnOk result (self.new ≡ abandoned self.old) }
        ensures reply { IfOk result (λ r. r ≡ LinkReply.Done) }
    {
        self.side.abandon()?;
        self.leaving = Leaving::Dropped;
        self.answer_outcomes()?;
        Ok(LinkReply::Done)
    }

    /// Leaves the link: `Detached`, `Closed`, `Done`, or a `DetachError`, by which `on_detach` tells of the peer's Detach. Else
    /// `Pending`, and the call waits. A receiver that is closed for an error first takes the sender's credit. For want of memory the
    /// link is not known any more.
    pub fn part(&mut self, name: u64, parting: Parting) -> Result<LinkReply, AllocError>
        ensures state { OnOk result (self.new ≡ (leaves name parting self.old).called) }
        ensures reply { IfOk result (λ r. r ≡ (leaves name parting self.old).reply) }
    {
        match parting {
            Parting::OnDetach => self.ask_on_detach(name),
            Parting::Detach { error, timeout: _ } => self.ask_detach(name, error),
            Parting::Close { error } => self.ask_close(name, error),
            Parting::Abandon => self.abandon(),
        }
    }

    /// Whether a call waits until the link is detached or closed.
    fn is_parting(&self) -> bool
        ensures { result ≡ is_parting self.now.parting }
    {
        match self.parting {
            Some(part) => awaits_both(part.kind),
            None => false,
        }
    }

    /// Whether the link is to be attached again, since a call waits for that, and has no handle for it yet.
    pub fn wants_handle(&self) -> bool
        ensures { result ≡ wants_handle self.now }
    {
        self.is_parting() && self.side.wants_handle()
    }

    /// The time of the call of that name is over: if it waits until the link is detached, it waits no more. Whether it did. The
    /// handshake goes on.
    pub fn give_up_part(&mut self, name: u64) -> bool
        ensures state { self.new ≡ part_given_up name self.old }
        ensures answer { result ≡ awaits_part name self.old.parting }
    {
        match self.parting {
            Some(part) => {
                if part.name == name {
                    self.parting = None;
                    true
                } else {
                    false
                }
            }
            None => false,
        }
    }

    /// Whether the link was attached again, and the peer's Attach is awaited.
    pub fn is_reattaching(&self) -> bool
        ensures { result ≡ is_reattaching self.now }
    {
        self.side.is_reattaching()
    }

    /// The link is attached again at that handle: its Attach is to be written. For want of memory the link is not known any more.
    pub fn give_handle(&mut self, handle: u32) -> Result<(), AllocError>
        ensures { OnOk result (self.new ≡ handle_given handle self.old) }
    {
        self.side.reattach(handle)
    }

    /// There is no handle at which the link could be attached again: the call that leaves it is answered.
    pub fn refuse_handle(&mut self) -> Result<(), AllocError>
        ensures { OnOk result (self.new ≡ handle_refused self.old) }
    {
        self.side.refuse_handle();
        self.answer_part()
    }
}
