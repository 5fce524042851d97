//! Calls that send, and that ask what has become of a message (OASIS AMQP 1.0, part 2, sections 2.6.7 and 2.6.12).
ghost use Rattle.std.specs.Prelude.{◌≡◌, nat_eq, IfOk, OnOk};
ghost use Rattle.amqp_link_words.specs.amqp_sender.Sender as sending;
ghost use Rattle.amqp_link_words.specs.amqp_sender.Settling as settling;
ghost use Rattle.std.specs.Map.{lookup};
ghost use Rattle.amqp_link_calls.specs.Answering.{outcome_at, is_own_end, is_stop, is_of_stop, tells_of_stop, put_off, outcome_now};
ghost use Rattle.amqp_link_calls.specs.Called.{is_call, awaits_outcome};
ghost use Rattle.amqp_link_calls.specs.Calling.{sending_of, sends, token_of, having_sent, awaiting, outcome_asked, outcome_given_up};
ghost use Rattle.amqp_link_calls.specs.Replies.{sent_reply, sent_token, outcome_reply, is_pending};
ghost use Rattle.amqp_link_calls.specs.Side.{seen};

use crate::called::CalledLink;
use crate::replies::{is_pending, no_sender};
use crate::side::LinkSide;
use amqp_frames::SessionStopReason;
use amqp_link::LinkStateError;
use amqp_link_words::amqp_sender::{DeliveryToken, OutcomePoll, SendError, SendReply, Sender};
use amqp_link_words::{LinkReply, Sendable};
use std::alloc::AllocError;

fn send(
    sender: &mut Sender,
    message: Sendable,
) -> Result<(LinkReply, Option<DeliveryToken>), AllocError>
    ensures state { OnOk result (sending.seen sender.new ≡ (sending_of message (sending.seen sender.old)).state) }
    ensures answer { IfOk result (λ r. (r.0 ≡ sent_reply (sending_of message (sending.seen sender.old)).answer) × (r.1 ≡ sent_token (sending_of message (sending.seen sender.old)).answer)) }
{
    let (settled, batchable) = (message.settled, message.batchable);
    match sender.send(message.payload, 0, settled, batchable) {
        Ok(SendReply::Sent(token)) => Ok((LinkReply::Sent, Some(token))),
        Ok(SendReply::Pending) => Ok((LinkReply::Pending, None)),
        Err(SendError::Memory(error)) => Err(error),
        Err(error) => Ok((LinkReply::SendError(error), None)),
    }
}

/// What is known of the outcome of the delivery at a place.
fn outcome_of(sender: &Sender, place: usize) -> Result<LinkReply, AllocError>
    ensures { IfOk result (λ r. r ≡ outcome_reply (settling.outcome_at place (sending.seen sender.now))) }
{
    match sender.outcome(&DeliveryToken { place }) {
        Ok(OutcomePoll::Pending) => Ok(LinkReply::Pending),
        Ok(OutcomePoll::Ready(outcome)) => Ok(LinkReply::Outcome(outcome)),
        Err(SendError::Memory(error)) => Err(error),
        Err(error) => Ok(LinkReply::SendError(error)),
    }
}

impl LinkSide {
    /// Sends a message; a receiver sends nothing.
    fn send(&mut self, message: Sendable) -> Result<(LinkReply, Option<DeliveryToken>), AllocError>
        ensures state { OnOk result (seen self.new ≡ (sends message (seen self.old)).side) }
        ensures answer { IfOk result (λ r. (r.0 ≡ (sends message (seen self.old)).reply) × (r.1 ≡ token_of message (seen self.old))) }
    {
        match self {
            LinkSide::Sender(sender) => send(sender, message),
            LinkSide::Receiver(_) => Ok((no_sender(), None)),
        }
    }

    /// What is known of the outcome of the delivery at a place; a receiver has sent none.
    pub(crate) fn outcome_at(&self, place: usize) -> Result<LinkReply, AllocError>
        ensures { IfOk result (λ r. r ≡ outcome_at place (seen self.now)) }
    {
        match self {
            LinkSide::Sender(sender) => outcome_of(sender, place),
            LinkSide::Receiver(_) => Ok(no_sender()),
        }
    }
}

fn is_own_end(reason: &SessionStopReason) -> bool
    ensures { result ≡ is_own_end reason.now }
{
    match reason {
        SessionStopReason::Ended | SessionStopReason::EndedWithError(_) => true,
        _ => false,
    }
}

fn is_stop(error: &LinkStateError) -> bool
    ensures { result ≡ is_stop error.now }
{
    match error {
        LinkStateError::SessionStopped(reason) => is_own_end(reason),
        _ => false,
    }
}

fn is_of_stop(error: &SendError) -> bool
    ensures { result ≡ is_of_stop error.now }
{
    match error {
        SendError::LinkStateError(error) => is_stop(error),
        _ => false,
    }
}

/// Whether an answer says that this end has ended the session.
fn tells_of_stop(reply: &LinkReply) -> bool
    ensures { result ≡ tells_of_stop reply.now }
{
    match reply {
        LinkReply::SendError(error) => is_of_stop(error),
        _ => false,
    }
}

/// That this end has ended the session is told once it is over: till then a Disposition may come.
fn put_off(is_over: bool, reply: LinkReply) -> LinkReply
    ensures { result ≡ put_off is_over reply }
{
    if !is_over && tells_of_stop(&reply) {
        drop(reply);
        return LinkReply::Pending;
    }
    reply
}

/// Whether that is the call of that name.
fn is_call(waiting: Option<u64>, name: u64) -> bool
    ensures { result ≡ is_call name waiting }
{
    match waiting {
        Some(other) => other == name,
        None => false,
    }
}

impl CalledLink {
    /// Sends a message where there is credit, and names its delivery: `Sent`, `Pending`, or a `SendError` in the order of
    /// `Sender::send`. A receiver answers `IllegalState`. The message format is 0.
    pub fn send(
        &mut self,
        message: Sendable,
    ) -> Result<(LinkReply, Option<DeliveryToken>), AllocError>
        ensures state { OnOk result (self.new ≡ having_sent message self.old) }
        ensures answer { IfOk result (λ r. (r.0 ≡ (sends message self.old.side).reply) × (r.1 ≡ token_of message self.old.side)) }
    {
        self.side.send(message)
    }

    fn wait_if(&mut self, is_pending: bool, name: u64, place: usize) -> Result<(), AllocError>
        ensures { OnOk result (self.new ≡ awaiting is_pending name place self.old) }
    {
        if is_pending {
            self.waiting.insert(place, name)?;
        }
        Ok(())
    }

    /// What has become of a delivery: its `Outcome`, or a `SendError` where none comes any more. Else `Pending`, and the call waits,
    /// in the place of one that waited for the same delivery: also behind the own End, until the session is over. A receiver
    /// answers `IllegalState`.
    pub fn outcome(&mut self, name: u64, token: DeliveryToken) -> Result<LinkReply, AllocError>
        ensures state { OnOk result (self.new ≡ outcome_asked name token.place self.old) }
        ensures answer { IfOk result (λ r. r ≡ outcome_now token.place self.old) }
    {
        let reply = put_off(self.is_concluded, self.side.outcome_at(token.place)?);
        self.wait_if(is_pending(&reply), name, token.place)?;
        Ok(reply)
    }

    /// Whether the call of that name waits for the outcome of that delivery.
    pub fn awaits_outcome(&self, name: u64, token: DeliveryToken) -> bool
        ensures { result ≡ awaits_outcome name token.place self.now }
    {
        is_call(self.waiting.get(&token.place).copied(), name)
    }

    /// The time of the call of that name is over: if it waits for the outcome of that delivery, it waits no more. Whether it did.
    pub fn give_up_outcome(&mut self, name: u64, token: DeliveryToken) -> bool
        ensures state { self.new ≡ outcome_given_up name token.place self.old }
        ensures answer { result ≡ awaits_outcome name token.place self.old }
    {
        if !self.awaits_outcome(name, token) {
            return false;
        }
        self.waiting.swap_remove(&token.place);
        true
    }
}
