//! The calls that wait, and the end of the session.
ghost use Rattle.std.specs.Prelude.{◌≡◌};
ghost use Rattle.amqp_session_links.specs.State.{awaiting_answer, attach_ended, awaiting_attach, accept_taken, stopped};

use crate::place::{SessionLinks, WaitingAccept};
use amqp_frames::SessionStopReason;

impl SessionLinks {
    /// The attach of that link waits for the peer's answer.
    pub fn await_answer(&mut self, link: u64)
        ensures { self.new ≡ awaiting_answer link self.old }
    {
        self.attaching = Some(link);
    }

    /// No attach waits.
    pub fn end_attach(&mut self)
        ensures { self.new ≡ attach_ended self.old }
    {
        self.attaching = None;
    }

    /// That call waits for an Attach of the peer.
    pub fn await_attach(&mut self, accept: WaitingAccept)
        ensures { self.new ≡ awaiting_attach accept self.old }
    {
        self.accepting = Some(accept);
    }

    /// The call that has waited for an Attach of the peer.
    pub fn take_accept(&mut self) -> Option<WaitingAccept>
        ensures accept { result ≡ self.old.accepting }
        ensures state { self.new ≡ accept_taken self.old }
    {
        self.accepting.take()
    }

    /// The session has stopped. The first reason stays.
    pub fn stop(&mut self, reason: SessionStopReason)
        ensures { self.new ≡ stopped reason self.old }
    {
        if self.stop_reason.is_none() {
            self.stop_reason = Some(reason);
        }
    }
}
