//! Calls with a time (OASIS AMQP 1.0, part 2, sections 2.6.6, 2.6.7 and 2.6.12).
ghost use Rattle.std.specs.Prelude.{◌≡◌, IfOk, OnOk};
ghost use Rattle.amqp_link_calls.specs.Replies.{is_pending as is_pending_reply};
ghost use Rattle.amqp_links.specs.State.{seen, link_of, answering};
ghost use Rattle.amqp_links.specs.Timing.{at_moment, timed_of, waiting_as, waiting_for, waiting_no_more, is_sending, send_kept, awaiting_as, awaiting, sent, unsent, tried, trying_at, message_for, tried_again, outcome_elapsed, part_elapsed, elapsed, looked_at, all_looked, looked, waiting_send, waiting_told, told_waiting, timed_sending, waiting_part, part_told_in, part_told};

use crate::links::{Links, SentDelivery};
use crate::timed::{Awaited, TimedCall, Timer};
use amqp_link_calls::amqp_link_words::{LinkReply, Sendable};
use amqp_sender::DeliveryToken;
use indexmap::IndexMap;
use std::alloc::AllocError;
use std::mem;

/// Lets a message go that is not sent.
fn discard(_message: Sendable) {}

/// Whether a call has no answer yet.
fn is_pending(reply: &LinkReply) -> bool
    ensures { result ≡ is_pending_reply reply.now }
{
    matches!(reply, LinkReply::Pending)
}

impl Links {
    /// From now on the moment is `at`, in milliseconds.
    pub fn set_moment(&mut self, at: u64)
        ensures { seen self.new ≡ at_moment at (seen self.old) }
    {
        self.moment = at;
    }

    /// Whether a send with a time waits at the link.
    pub(crate) fn is_sending(&self, link: u64) -> bool
        ensures { result ≡ is_sending link (seen self.now) }
    {
        let Some(call) = self.timed.get(&link) else {
            return false;
        };
        match self.endpoints.get(&link) {
            Some(endpoint) => call.sends_at(endpoint),
            None => false,
        }
    }

    fn await_as(&mut self, link: u64, call: TimedCall) -> Result<(), AllocError>
        ensures { OnOk result (seen self.new ≡ waiting_as link call (seen self.old)) }
    {
        self.timed.insert(link, call)?;
        Ok(())
    }

    fn await_for(&mut self, timer: Timer, awaited: Awaited, link: u64) -> Result<(), AllocError>
        ensures { OnOk result (seen self.new ≡ waiting_for timer awaited link (seen self.old)) }
    {
        self.await_as(link, TimedCall { timer, awaited })
    }

    fn forget_timed(&mut self, link: u64)
        ensures { seen self.new ≡ waiting_no_more link (seen self.old) }
    {
        self.timed.swap_remove(&link);
    }

    /// Answers a call with a time that waits no more.
    fn answer_timed(&mut self, name: u64, link: u64, reply: LinkReply) -> Result<(), AllocError>
        ensures { OnOk result (seen self.new ≡ waiting_no_more link (answering name reply (seen self.old))) }
    {
        self.answer(name, reply)?;
        self.forget_timed(link);
        Ok(())
    }

    /// A message that a call has sent is known by the name of the call.
    pub(crate) fn keep_send(
        &mut self,
        name: u64,
        link: u64,
        token: Option<DeliveryToken>,
    ) -> Result<(), AllocError>
        ensures { OnOk result (seen self.new ≡ send_kept name link token (seen self.old)) }
    {
        match token {
            Some(token) => {
                self.sends.insert(name, SentDelivery { link, token })?;
                Ok(())
            }
            None => Ok(()),
        }
    }

    /// What has become of the message is told, or awaited.
    fn tell_outcome(
        &mut self,
        reply: LinkReply,
        link: u64,
        timer: Timer,
        token: DeliveryToken,
    ) -> Result<(), AllocError>
        ensures { OnOk result (seen self.new ≡ awaiting_as reply link timer token (seen self.old)) }
    {
        if is_pending(&reply) {
            drop(reply);
            return self.await_for(timer, Awaited::Outcome(token), link);
        }
        self.answer_timed(timer.name, link, reply)
    }

    fn ask_outcome(
        &mut self,
        link: u64,
        timer: Timer,
        token: DeliveryToken,
    ) -> Result<(), AllocError>
        ensures { OnOk result (seen self.new ≡ awaiting link timer token (seen self.old)) }
    {
        let Some(endpoint) = self.endpoints.get_mut(&link) else {
            return Ok(());
        };
        let reply = endpoint.outcome(timer.name, token)?;
        self.tell_outcome(reply, link, timer, token)
    }

    /// The message was sent.
    fn on_sent(&mut self, link: u64, timer: Timer, token: DeliveryToken) -> Result<(), AllocError>
        ensures { OnOk result (seen self.new ≡ sent link timer token (seen self.old)) }
    {
        self.keep_send(timer.name, link, Some(token))?;
        self.answer(timer.name, LinkReply::Sent)?;
        self.ask_outcome(link, timer, token)
    }

    /// It was not: it waits on, or is refused.
    fn on_unsent(&mut self, name: u64, link: u64, reply: LinkReply) -> Result<(), AllocError>
        ensures { OnOk result (seen self.new ≡ unsent reply name link (seen self.old)) }
    {
        if is_pending(&reply) {
            drop(reply);
            return Ok(());
        }
        self.answer_timed(name, link, reply)
    }

    fn on_tried(
        &mut self,
        token: Option<DeliveryToken>,
        reply: LinkReply,
        link: u64,
        timer: Timer,
    ) -> Result<(), AllocError>
        ensures { OnOk result (seen self.new ≡ tried token reply link timer (seen self.old)) }
    {
        match token {
            Some(token) => {
                drop(reply);
                self.on_sent(link, timer, token)
            }
            None => self.on_unsent(timer.name, link, reply),
        }
    }

    /// Sends the message of a call where that can be done now.
    fn try_message(&mut self, link: u64, timer: Timer, message: Sendable) -> Result<(), AllocError>
        ensures { OnOk result (seen self.new ≡ trying_at (link_of link (seen self.old)) link timer message (seen self.old)) }
    {
        let Some(endpoint) = self.endpoints.get_mut(&link) else {
            discard(message);
            return Ok(());
        };
        let (reply, token) = endpoint.send(message)?;
        self.on_tried(token, reply, link, timer)
    }

    /// The message that waits for credit on the link, if one does, while its time is not over or whatever the time.
    fn message_for(&self, link: u64, always: bool) -> Result<Option<(Timer, Sendable)>, AllocError>
        ensures { IfOk result (λ found. found ≡ message_for always (timed_of link (seen self.now)) (seen self.now).moment) }
    {
        match self.timed.get(&link) {
            Some(call) => call.message_at(self.moment, always),
            None => Ok(None),
        }
    }

    /// Sends the message that waits for credit on the link, if one does and it can be sent now: `always`, or while its time is not
    /// over. Where it is refused its call is answered.
    pub(crate) fn try_again(&mut self, link: u64, always: bool) -> Result<(), AllocError>
        ensures { OnOk result (seen self.new ≡ tried_again always link (seen self.old)) }
    {
        match self.message_for(link, always)? {
            Some((timer, message)) => self.try_message(link, timer, message),
            None => Ok(()),
        }
    }

    fn elapse_outcome(
        &mut self,
        name: u64,
        link: u64,
        token: DeliveryToken,
    ) -> Result<(), AllocError>
        ensures { OnOk result (seen self.new ≡ outcome_elapsed (link_of link (seen self.old)) name link token (seen self.old)) }
    {
        let Some(endpoint) = self.endpoints.get_mut(&link) else {
            return Ok(());
        };
        if !endpoint.give_up_outcome(name, token) {
            return Ok(());
        }
        self.answer(name, LinkReply::Elapsed)
    }

    fn elapse_part(&mut self, name: u64, link: u64) -> Result<(), AllocError>
        ensures { OnOk result (seen self.new ≡ part_elapsed (link_of link (seen self.old)) name link (seen self.old)) }
    {
        let Some(endpoint) = self.endpoints.get_mut(&link) else {
            return Ok(());
        };
        if !endpoint.give_up_part(name) {
            return Ok(());
        }
        self.answer(name, LinkReply::Elapsed)
    }

    /// The time of a call is over: it is told so, if it still waits.
    fn elapse(&mut self, awaited: Awaited, name: u64, link: u64) -> Result<(), AllocError>
        ensures { OnOk result (seen self.new ≡ elapsed awaited name link (seen self.old)) }
    {
        match awaited {
            Awaited::Credit(message) => {
                discard(message);
                self.answer(name, LinkReply::Elapsed)
            }
            Awaited::Outcome(token) => self.elapse_outcome(name, link, token),
            Awaited::Detach => self.elapse_part(name, link),
        }
    }

    fn look_at(&mut self, link: u64, call: TimedCall) -> Result<(), AllocError>
        ensures { OnOk result (seen self.new ≡ looked_at link call (seen self.old)) }
    {
        if call.timer.is_due(self.moment) {
            let (timer, awaited) = call.into_parts();
            return self.elapse(awaited, timer.name, link);
        }
        self.await_as(link, call)
    }

    fn look_at_all(&mut self, calls: IndexMap<u64, TimedCall>) -> Result<(), AllocError>
        ensures { OnOk result (seen self.new ≡ all_looked calls.entries (seen self.old)) }
    {
        let mut left = calls.into_iter();
        while let Some((link, call)) = left.next() {
            self.look_at(link, call)?;
        }
        Ok(())
    }

    /// Looks at the clock: each call whose time is over, and that still waits, is answered `Elapsed`. The one error is want of memory.
    pub fn look(&mut self) -> Result<(), AllocError>
        ensures { OnOk result (seen self.new ≡ looked (seen self.old)) }
    {
        let calls = mem::replace(&mut self.timed, IndexMap::new(self.alloc));
        self.look_at_all(calls)
    }

    /// Tells a send that has no credit that it waits, or that its time is over at once.
    fn tell_waiting(&mut self, name: u64, link: u64, is_due: bool) -> Result<(), AllocError>
        ensures { OnOk result (seen self.new ≡ waiting_told is_due name link (seen self.old)) }
    {
        if is_due {
            return self.answer_timed(name, link, LinkReply::Elapsed);
        }
        self.answer(name, LinkReply::Pending)
    }

    /// The send that waits for credit on the link: its name, and whether its time is over.
    fn waiting_send(&self, link: u64) -> Option<(u64, bool)>
        ensures { result ≡ waiting_send (timed_of link (seen self.now)) (seen self.now).moment }
    {
        let call = self.timed.get(&link)?;
        call.waiting_send(self.moment)
    }

    fn tell_send(&mut self, link: u64) -> Result<(), AllocError>
        ensures { OnOk result (seen self.new ≡ told_waiting link (seen self.old)) }
    {
        match self.waiting_send(link) {
            Some((name, is_due)) => self.tell_waiting(name, link, is_due),
            None => Ok(()),
        }
    }

    /// Sends a message, and waits so long for credit and for its outcome.
    pub(crate) fn send_timed(
        &mut self,
        name: u64,
        link: u64,
        message: Sendable,
        timeout: u64,
    ) -> Result<(), AllocError>
        ensures { OnOk result (seen self.new ≡ timed_sending name link message timeout (seen self.old)) }
    {
        let timer = Timer {
            name,
            since: self.moment,
            duration: timeout,
        };
        self.await_for(timer, Awaited::Credit(message), link)?;
        self.try_again(link, true)?;
        self.tell_send(link)?;
        self.take_up(link)
    }

    fn await_part(&mut self, timer: Timer, link: u64) -> Result<(), AllocError>
        ensures { OnOk result (seen self.new ≡ waiting_part timer link (seen self.old)) }
    {
        if timer.is_due(self.moment) {
            return self.elapse_part(timer.name, link);
        }
        self.answer(timer.name, LinkReply::Pending)?;
        self.await_for(timer, Awaited::Detach, link)
    }

    fn tell_part_in(
        &mut self,
        duration: u64,
        reply: LinkReply,
        name: u64,
        link: u64,
    ) -> Result<(), AllocError>
        ensures { OnOk result (seen self.new ≡ part_told_in duration reply name link (seen self.old)) }
    {
        if is_pending(&reply) {
            drop(reply);
            let since = self.moment;
            return self.await_part(
                Timer {
                    name,
                    since,
                    duration,
                },
                link,
            );
        }
        self.answer(name, reply)
    }

    /// Answers a call that leaves a link, and that waits so long, or until it is answered.
    pub(crate) fn tell_part(
        &mut self,
        timeout: Option<u64>,
        reply: LinkReply,
        name: u64,
        link: u64,
    ) -> Result<(), AllocError>
        ensures { OnOk result (seen self.new ≡ part_told timeout reply name link (seen self.old)) }
    {
        match timeout {
            Some(duration) => self.tell_part_in(duration, reply, name, link),
            None => self.answer(name, reply),
        }
    }
}
