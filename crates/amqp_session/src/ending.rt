//! The end of a session (OASIS AMQP 1.0, part 2, sections 2.5.4 and 2.7.8).
ghost use Rattle.std.specs.Prelude.{◌≡◌, IfOk, OnOk};
ghost use Rattle.amqp_session.specs.State.{seen, works, refuses, Answers};
ghost use Rattle.amqp_session.specs.Ends.{stopping, stopped, ending, ended, answered, failing, saying_end, own_reason, remote_reason, refusal, refusal_for, end_asked, attach_refused};
ghost use Rattle.amqp_session.specs.declared.session.SessionState.TheVariants.{Unmapped};

use crate::copies::{copied_error, copied_reason};
use crate::error::{Error, Fault};
use crate::session::{LinkInput, Session, SessionState};
use amqp_composites::error::Error as AmqpError;
use amqp_frames::{FrameBody, SessionStopReason};
use amqp_performatives::end::End;
use std::alloc::{AllocError, Global};

/// Why the peer has ended a session.
fn remote_reason(error: Option<AmqpError>) -> SessionStopReason
    ensures { result ≡ remote_reason error }
{
    match error {
        Some(error) => SessionStopReason::RemoteEndedWithError(error),
        None => SessionStopReason::RemoteEnded,
    }
}

/// Why this end has ended a session: a copy of its error.
fn own_reason(alloc: Global, error: &Option<AmqpError>) -> Result<SessionStopReason, AllocError>
    ensures { IfOk result (λ r. r ≡ own_reason error.now) }
{
    match error {
        Some(error) => {
            let error = copied_error(alloc, error)?;
            Ok(SessionStopReason::EndedWithError(error))
        }
        None => Ok(SessionStopReason::Ended),
    }
}

/// What a call that ends a session is told where that has stopped for this reason.
fn refusal_for(alloc: Global, reason: &Option<SessionStopReason>) -> Result<Error, AllocError>
    ensures { IfOk result (λ e. e ≡ refusal_for reason.now) }
{
    match reason {
        Some(SessionStopReason::RemoteEnded) => Ok(Error::RemoteEnded),
        Some(SessionStopReason::RemoteEndedWithError(error)) => {
            let error = copied_error(alloc, error)?;
            Ok(Error::RemoteEndedWithError(error))
        }
        _ => Ok(Error::IllegalState),
    }
}

impl Session {
    /// Has the links told why the session stops, if it has not stopped before.
    fn tell_stop(&mut self, reason: SessionStopReason) -> Result<(), AllocError>
        ensures { OnOk result (seen self.new ≡ stopping (seen self.old).stop_reason reason (seen self.old)) }
    {
        if self.stop_reason.is_some() {
            return Ok(());
        }
        let told = copied_reason(self.alloc, &reason)?;
        self.stop_reason = Some(reason);
        self.hand(LinkInput::Stopped(told))
    }

    /// The session stops, and drops what is held.
    fn halt(&mut self, state: SessionState, reason: SessionStopReason) -> Result<(), AllocError>
        ensures { OnOk result (seen self.new ≡ stopped state reason (seen self.old)) }
    {
        self.state = state;
        self.held.clear();
        self.tell_stop(reason)
    }

    /// Queues an End.
    fn say_end(&mut self, error: Option<AmqpError>) -> Result<(), AllocError>
        ensures { OnOk result (seen self.new ≡ saying_end error (seen self.old)) }
    {
        self.say(FrameBody::End(End { error }))
    }

    /// This end ends the session.
    fn close(&mut self, error: Option<AmqpError>) -> Result<(), AllocError>
        ensures { OnOk result (seen self.new ≡ ending error (seen self.old)) }
    {
        let reason = own_reason(self.alloc, &error)?;
        self.halt(SessionState::EndSent, reason)?;
        self.say_end(error)
    }

    /// This end ends the session for a frame that it has read, and answers why.
    pub(crate) fn fail(&mut self, fault: Fault) -> Result<(), Error>
        ensures { Answers result (failing fault (seen self.old)) (seen self.new) }
    {
        let error = fault.error(self.alloc)?;
        self.close(Some(error))?;
        self.fault = Some(fault);
        Err(fault.told())
    }

    /// The peer ends the session.
    pub(crate) fn on_end(&mut self, end: End) -> Result<(), Error>
        ensures { Answers result (works (ended end.error (seen self.old))) (seen self.new) }
    {
        self.halt(SessionState::Unmapped, remote_reason(end.error))?;
        self.say_end(None)?;
        self.hand(LinkInput::Over)?;
        Ok(())
    }

    /// The peer answers the End of this end.
    pub(crate) fn on_answer(&mut self, end: End) -> Result<(), Error>
        ensures { Answers result (answered end.error (seen self.old)) (seen self.new) }
    {
        self.state = SessionState::Unmapped;
        self.hand(LinkInput::Over)?;
        match end.error {
            Some(error) => Err(Error::RemoteEndedWithError(error)),
            None => Ok(()),
        }
    }

    /// What a call that ends the session is told where that is not mapped.
    fn refusal(&self) -> Result<Error, AllocError>
        ensures { IfOk result (λ e. e ≡ refusal self.now.fault self.now.stop_reason) }
    {
        match self.fault {
            Some(fault) => Ok(fault.told()),
            None => refusal_for(self.alloc, &self.stop_reason),
        }
    }

    fn refuse_end(&mut self) -> Result<(), Error>
        ensures { Answers result (refuses (refusal (seen self.old).fault (seen self.old).stop_reason) (seen self.old)) (seen self.new) }
    {
        let error = self.refusal()?;
        Err(error)
    }

    fn end_with(&mut self, error: Option<AmqpError>) -> Result<(), Error>
        ensures { Answers result (end_asked (seen self.old).state error (seen self.old)) (seen self.new) }
    {
        match self.state {
            SessionState::Mapped => {
                self.close(error)?;
                Ok(())
            }
            SessionState::BeginSent | SessionState::EndSent | SessionState::Unmapped => {
                drop(error);
                self.refuse_end()
            }
        }
    }

    /// Ends the session: its End is to be written. Where the session is not mapped it is told the fault for which this end has ended
    /// it, `RemoteEnded` or `RemoteEndedWithError` where the peer has, and else `IllegalState`.
    pub fn end(&mut self) -> Result<(), Error>
        ensures { Answers result (end_asked (seen self.old).state None (seen self.old)) (seen self.new) }
    {
        self.end_with(None)
    }

    /// Ends the session for that error, as `end` does.
    pub fn end_with_error(&mut self, error: AmqpError) -> Result<(), Error>
        ensures { Answers result (end_asked (seen self.old).state (Some error) (seen self.old)) (seen self.new) }
    {
        self.end_with(Some(error))
    }

    /// The links have no place for an Attach of the peer. The session is ended with `amqp:not-found`, and that is answered; where it is
    /// not mapped nothing is done, which is `IllegalState`.
    pub fn refuse_attach(&mut self) -> Result<(), Error>
        ensures { Answers result (attach_refused (seen self.old).state (seen self.old)) (seen self.new) }
    {
        match self.state {
            SessionState::Mapped => self.fail(Fault::RemoteAttachingLinkNameNotFound),
            SessionState::BeginSent | SessionState::EndSent | SessionState::Unmapped => {
                Err(Error::IllegalState)
            }
        }
    }

    /// The session stops with its connection: nothing more is written or read. The first reason of a stop stays. The one error is
    /// want of memory.
    pub fn stop(&mut self, reason: SessionStopReason) -> Result<(), AllocError>
        ensures { OnOk result (seen self.new ≡ stopped Unmapped reason (seen self.old)) }
    {
        self.halt(SessionState::Unmapped, reason)
    }
}
