//! Calls with a time, as they wait.
ghost use Rattle.std.specs.Prelude.{◌≡◌, IfOk};
ghost use Rattle.amqp_links.specs.Timing.{is_due, message_of, message_for, sends_at, waiting_send};

use amqp_link_calls::CalledLink;
use amqp_link_calls::amqp_link_words::Sendable;
use amqp_sender::DeliveryToken;
use std::alloc::AllocError;

/// What a call with a time waits for.
#[derive(Debug, Drop)]
pub enum Awaited {
    /// Credit for this message.
    Credit(Sendable),
    /// The outcome of the message that it has sent.
    Outcome(DeliveryToken),
    /// The peer's Detach.
    Detach,
}

/// A call with a time.
#[derive(Clone, Copy, Debug, PartialEq, Eq)]
pub struct Timer {
    /// The name of the call.
    pub name: u64,
    /// The moment at which it was made, in milliseconds.
    pub since: u64,
    /// How long it waits, in milliseconds.
    pub duration: u64,
}

/// A call with a time that waits at a link.
#[derive(Debug)]
pub struct TimedCall {
    /// The call.
    pub timer: Timer,
    /// What it waits for.
    pub awaited: Awaited,
}

// It is let go by a call, so that no caller sees the message that waits.
impl Drop for TimedCall {
    fn drop(self) {
        let TimedCall { timer: _, awaited } = self;
        drop(awaited);
    }
}

impl Timer {
    /// Whether the time of the call is over at that moment.
    pub fn is_due(self, now: u64) -> bool
        ensures { result ≡ is_due self now }
    {
        self.duration <= now.saturating_sub(self.since)
    }
}

impl TimedCall {
    /// The call, and what it waits for.
    pub fn into_parts(self) -> (Timer, Awaited)
        ensures { (result.0 ≡ self.timer) × (result.1 ≡ self.awaited) }
    {
        let TimedCall { timer, awaited } = self;
        (timer, awaited)
    }

    /// Whether the call waits at the link to send its message, or for its outcome.
    pub fn sends_at(&self, endpoint: &CalledLink) -> bool
        ensures { result ≡ sends_at self.now.timer.name self.now.awaited endpoint.now }
    {
        match &self.awaited {
            Awaited::Credit(_) => true,
            Awaited::Outcome(token) => endpoint.awaits_outcome(self.timer.name, *token),
            Awaited::Detach => false,
        }
    }

    /// The message that waits for credit, if one does; the one error is want of memory.
    fn message(&self) -> Result<Option<(Timer, Sendable)>, AllocError>
        ensures { IfOk result (λ found. found ≡ message_of self.now.timer self.now.awaited) }
    {
        match &self.awaited {
            Awaited::Credit(message) => {
                let message = message.try_clone()?;
                Ok(Some((self.timer, message)))
            }
            Awaited::Outcome(_) | Awaited::Detach => Ok(None),
        }
    }

    /// The message that waits for credit, if one does and its time is not over, or whatever the time; the one error is want of
    /// memory.
    pub fn message_at(
        &self,
        now: u64,
        always: bool,
    ) -> Result<Option<(Timer, Sendable)>, AllocError>
        ensures { IfOk result (λ found. found ≡ message_for always (Some self.now) now) }
    {
        if always || !self.timer.is_due(now) {
            return self.message();
        }
        Ok(None)
    }

    /// Where the call waits for credit, its name, and whether its time is over.
    pub fn waiting_send(&self, now: u64) -> Option<(u64, bool)>
        ensures { result ≡ waiting_send (Some self.now) now }
    {
        match &self.awaited {
            Awaited::Credit(_) => Some((self.timer.name, self.timer.is_due(now))),
            Awaited::Outcome(_) | Awaited::Detach => None,
        }
    }
}
