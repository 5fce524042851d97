//! The stop of a connection, as its sessions see it (OASIS AMQP 1.0, part 2, sections 2.4.3 and 2.5.4).
ghost use Rattle.std.specs.Prelude.{◌≡◌, is_none, slice_get, OnOk};
ghost use Rattle.std.specs.Map.{values_of};
ghost use Rattle.amqp_sessions.specs.declared.sessions.Waiting.TheVariants.{Begin};
ghost use Rattle.amqp_sessions.specs.Endpoint.{over, last_words};
ghost use Rattle.amqp_sessions.specs.State.{seen};
ghost use Rattle.amqp_sessions.specs.Stops.{halting, stop_of, turned_in, turned_at, halted, finished, name_at, ending_at, end_answered, ends_answered, without_ends, ends_concluded, begin_concluded, concluded};

use crate::copies::copied_reason;
use crate::endpoint::Endpoint;
use crate::sessions::{Sessions, Waiting};
use amqp_calls::SessionReply;
use amqp_frames::{ConnectionStopReason, SessionStopReason};
use amqp_session::{BeginError, Error};
use std::alloc::AllocError;

impl Sessions {
    /// Stops each session, since a Close is out or the connection has stopped: no more is written or read on it, and what it has for
    /// its links is handed on. The one error is want of memory.
    pub fn halt(&mut self, reason: &ConnectionStopReason) -> Result<(), AllocError>
        ensures { OnOk result (seen self.new ≡ halted reason.now (seen self.old)) }
    {
        for at in 0..self.endpoints.len() {
            self.halt_at(at, reason)?;
        }
        Ok(())
    }

    /// The name of the session at that place of the table.
    fn name_at(&self, at: usize) -> Option<u64>
        ensures { result ≡ name_at (slice_get (seen self.now).endpoints at) }
    {
        let (name, _) = self.endpoints.get_index(at)?;
        Some(*name)
    }

    /// The session at that place of the table stops.
    fn halt_at(&mut self, at: usize, reason: &ConnectionStopReason) -> Result<(), AllocError>
        ensures { OnOk result (seen self.new ≡ turned_at (halting reason.now) (stop_of reason.now) at (seen self.old)) }
    {
        match self.name_at(at) {
            Some(name) => self.halt_named(at, name, reason),
            None => Ok(()),
        }
    }

    fn halt_named(
        &mut self,
        at: usize,
        name: u64,
        reason: &ConnectionStopReason,
    ) -> Result<(), AllocError>
        ensures { OnOk result (seen self.new ≡ turned_in (halting reason.now) (stop_of reason.now) at name (slice_get (values_of (seen self.old).endpoints) at) (seen self.old)) }
    {
        let reason = copied_reason(self.alloc, reason)?;
        match self.endpoints.get_index_mut(at) {
            Some(endpoint) => {
                endpoint.cut(reason)?;
                endpoint.relay(name, &mut self.incoming)
            }
            None => {
                drop(reason);
                Ok(())
            }
        }
    }

    /// Tells the links of each session that nothing more comes.
    fn finish(&mut self) -> Result<(), AllocError>
        ensures { OnOk result (seen self.new ≡ finished (seen self.old)) }
    {
        for at in 0..self.endpoints.len() {
            self.finish_at(at)?;
        }
        Ok(())
    }

    fn finish_at(&mut self, at: usize) -> Result<(), AllocError>
        ensures { OnOk result (seen self.new ≡ turned_at over last_words at (seen self.old)) }
    {
        match self.name_at(at) {
            Some(name) => self.finish_named(at, name),
            None => Ok(()),
        }
    }

    fn finish_named(&mut self, at: usize, name: u64) -> Result<(), AllocError>
        ensures { OnOk result (seen self.new ≡ turned_in over last_words at name (slice_get (values_of (seen self.old).endpoints) at) (seen self.old)) }
    {
        match self.endpoints.get_index_mut(at) {
            Some(endpoint) => endpoint.finish(name, &mut self.incoming),
            None => Ok(()),
        }
    }

    /// The connection has stopped for that reason: the links of each session are told so, and that nothing more comes; a `begin` that
    /// waits is answered, and each `end` that waits. An `accept_session` goes on waiting. The one error is want of memory.
    pub fn conclude(&mut self, reason: &ConnectionStopReason) -> Result<(), AllocError>
        ensures { OnOk result (seen self.new ≡ concluded reason.now (seen self.old)) }
    {
        self.halt(reason)?;
        self.finish()?;
        self.conclude_ends()?;
        self.conclude_begin(reason)
    }

    /// A `begin` that waits is answered.
    fn conclude_begin(&mut self, reason: &ConnectionStopReason) -> Result<(), AllocError>
        ensures { OnOk result (seen self.new ≡ begin_concluded (seen self.old).waiting reason.now (seen self.old)) }
    {
        match self.waiting {
            Some(Waiting::Begin(name)) => self.refuse_stopped(name, reason),
            Some(Waiting::Accept(_, _)) | None => Ok(()),
        }
    }

    /// The `begin` of that name is refused, since its connection has stopped.
    fn refuse_stopped(&mut self, name: u64, reason: &ConnectionStopReason) -> Result<(), AllocError>
        ensures { OnOk result (seen self.new ≡ begin_concluded (Some (Begin name)) reason.now (seen self.old)) }
    {
        let reason = copied_reason(self.alloc, reason)?;
        let why = SessionStopReason::ConnectionStopped(reason);
        self.let_go(name);
        self.refuse(name, BeginError::SessionStopped(why))
    }

    /// Each `end` that waits is answered, and its session let go.
    fn conclude_ends(&mut self) -> Result<(), AllocError>
        ensures { OnOk result (seen self.new ≡ ends_concluded (seen self.old)) }
    {
        self.answer_ends()?;
        self.let_ends_go();
        Ok(())
    }

    /// Each `end` that waits is answered.
    fn answer_ends(&mut self) -> Result<(), AllocError>
        ensures { OnOk result (seen self.new ≡ ends_answered (seen self.old).endpoints (seen self.old)) }
    {
        for at in 0..self.endpoints.len() {
            let ending = self.ending_at(at);
            self.answer_end(ending)?;
        }
        Ok(())
    }

    /// The name of the `end` that waits at the session at that place of the table.
    fn ending_at(&self, at: usize) -> Option<u64>
        ensures { result ≡ ending_at (slice_get (seen self.now).endpoints at) }
    {
        let (_, endpoint) = self.endpoints.get_index(at)?;
        endpoint.ending()
    }

    fn answer_end(&mut self, ending: Option<u64>) -> Result<(), AllocError>
        ensures { OnOk result (seen self.new ≡ end_answered ending (seen self.old)) }
    {
        match ending {
            Some(end) => self.answer(end, SessionReply::SessionError(Error::IllegalState)),
            None => Ok(()),
        }
    }

    /// Each session at which an `end` waits is let go.
    fn let_ends_go(&mut self)
        ensures { seen self.new ≡ without_ends (seen self.old) }
    {
        self.endpoints.retain(
            |_name: &u64, endpoint: &mut Endpoint| -> bool
                ensures { (result ≡ is_none endpoint.old.ending) × (endpoint.new ≡ endpoint.old) }
            { endpoint.is_idle() },
        );
    }
}
