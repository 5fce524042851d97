//! How a link is detached, and why a call on it is refused then (OASIS AMQP 1.0, part 2, sections 2.6.4 to 2.6.6).
ghost use Rattle.std.specs.Prelude.{◌≡◌, ◌<◌, true, Some, IfOk, OnOk, OnErr};
ghost use Rattle.amqp_link.specs.Link.{seen, spare, saying_detach, failed_for, absent_terminus, failing, agree, phase_behind, met, detach_read, closing, detached_by, ended_by, stopped_by, closed_by, settlement_refusal, refusal, disposal_refusal};

use crate::copies::{copied, copied_reason};
use crate::endpoint::{LinkEndpoint, LinkPhase};
use crate::error::{AttachError, AttachFault, IllegalLinkStateError, LinkStateError};
use amqp_composites::error::Error as AmqpError;
use amqp_composites::modes::Role;
use amqp_frames::amqp_performatives::detach::Detach;
use amqp_frames::{LinkFrame, SessionStopReason};
use std::alloc::{AllocError, Global};

/// Why a link that is being attached is not.
fn failed_for(error: Option<AmqpError>, fault: AttachFault) -> AttachError
    ensures { result ≡ failed_for error fault }
{
    match error {
        Some(error) => AttachError::RemoteClosedWithError(error),
        None => fault.told(),
    }
}

/// What an end of that role is told of an absent terminus.
fn absent_terminus(role: Role) -> AttachFault
    ensures { result ≡ absent_terminus role }
{
    match role {
        Role::Sender => AttachFault::IncomingTargetIsNone,
        Role::Receiver => AttachFault::IncomingSourceIsNone,
    }
}

/// Why a call is refused once the peer's Detach was read.
fn detached_by(
    alloc: Global,
    closed: bool,
    error: &Option<AmqpError>,
) -> Result<LinkStateError, AllocError>
    ensures { IfOk result (λ e. e ≡ detached_by closed error.now) }
{
    match error {
        Some(error) => {
            let error = copied(alloc, error)?;
            if closed {
                return Ok(LinkStateError::RemoteClosedWithError(error));
            }
            Ok(LinkStateError::RemoteDetachedWithError(error))
        }
        None => {
            if closed {
                return Ok(LinkStateError::RemoteClosed);
            }
            Ok(LinkStateError::RemoteDetached)
        }
    }
}

fn ended_by(
    alloc: Global,
    remote: &Option<Detach>,
    stop: &Option<SessionStopReason>,
) -> Result<Option<LinkStateError>, AllocError>
    ensures { IfOk result (λ e. e ≡ ended_by remote.now stop.now) }
{
    if let Some(detach) = remote {
        let error = detached_by(alloc, detach.closed, &detach.error)?;
        return Ok(Some(error));
    }
    if let Some(reason) = stop {
        let reason = copied_reason(alloc, reason)?;
        return Ok(Some(LinkStateError::SessionStopped(reason)));
    }
    Ok(None)
}

fn stopped_by(
    alloc: Global,
    stop: &Option<SessionStopReason>,
) -> Result<Option<LinkStateError>, AllocError>
    ensures { IfOk result (λ e. e ≡ stopped_by stop.now) }
{
    match stop {
        Some(reason) => {
            let reason = copied_reason(alloc, reason)?;
            Ok(Some(LinkStateError::SessionStopped(reason)))
        }
        None => Ok(None),
    }
}

fn closed_by(
    alloc: Global,
    remote: &Option<Detach>,
    stop: &Option<SessionStopReason>,
) -> Result<Option<LinkStateError>, AllocError>
    ensures { IfOk result (λ e. e ≡ closed_by remote.now stop.now) }
{
    match remote {
        Some(detach) => {
            if detach.closed {
                let error = detached_by(alloc, true, &detach.error)?;
                return Ok(Some(error));
            }
            stopped_by(alloc, stop)
        }
        None => stopped_by(alloc, stop),
    }
}

/// Whether both Detaches close the link, or neither does.
fn agree(own: bool, closed: bool) -> bool
    ensures { result ≡ agree own closed }
{
    own == closed
}

/// How far a link is once its Detach is answered.
fn phase_behind(agrees: bool, is_parting: bool) -> LinkPhase
    ensures { result ≡ phase_behind agrees is_parting }
{
    if agrees {
        LinkPhase::Detached
    } else if is_parting {
        LinkPhase::HandleWanted
    } else {
        LinkPhase::HalfClosed
    }
}

impl LinkEndpoint {
    /// Answers the peer's Detach.
    fn say_detach(&mut self, closed: bool)
        requires { 0 < spare self.old }
        ensures { seen self.new ≡ saying_detach closed (seen self.old) }
    {
        let handle = self.own.handle;
        self.say(LinkFrame::Detach(Detach {
            handle,
            closed,
            error: None,
        }));
        self.phase = LinkPhase::Detached;
    }

    fn fail(&mut self, fault: AttachFault, detach: Detach) -> Result<(), AllocError>
        ensures ok { OnOk result (seen self.new ≡ failing fault detach (seen self.old)) }
        ensures err { OnErr result (seen self.new ≡ seen self.old) }
    {
        self.make_room(1)?;
        self.say_detach(detach.closed);
        self.failure = Some(failed_for(detach.error, fault));
        Ok(())
    }

    fn detach(&mut self, detach: Detach) -> Result<(), AllocError>
        ensures ok { OnOk result (seen self.new ≡ record (saying_detach detach.closed (seen self.old)) { remote = Some detach }) }
        ensures err { OnErr result (seen self.new ≡ seen self.old) }
    {
        self.make_room(1)?;
        self.say_detach(detach.closed);
        self.remote = Some(detach);
        Ok(())
    }

    /// The peer has answered this end's Detach.
    fn meet(&mut self, detach: Detach)
        ensures { seen self.new ≡ met detach (seen self.old) }
    {
        self.phase = phase_behind(agree(self.is_closed, detach.closed), self.is_parting);
        self.remote = Some(detach);
    }

    /// The peer has closed the link too, after it was attached again.
    fn end(&mut self, detach: Detach)
        ensures { seen self.new ≡ record (seen self.old) { phase = LinkPhase.Detached; last_error = detach.error } }
    {
        self.phase = LinkPhase::Detached;
        self.last_error = detach.error;
    }

    /// The peer's Detach was read: it is answered at once, unless it answers the Detach of this end.
    pub fn on_detach(&mut self, detach: Detach) -> Result<(), AllocError>
        ensures ok { OnOk result (seen self.new ≡ detach_read detach (seen self.old)) }
        ensures err { OnErr result (seen self.new ≡ seen self.old) }
    {
        match self.phase {
            LinkPhase::AttachSent => self.fail(AttachFault::NonAttachFrameReceived, detach),
            LinkPhase::DetachExpected => self.fail(absent_terminus(self.own.role), detach),
            LinkPhase::Attached => self.detach(detach),
            LinkPhase::DetachSent | LinkPhase::CloseSent => {
                self.meet(detach);
                Ok(())
            }
            LinkPhase::RecloseSent => {
                self.end(detach);
                Ok(())
            }
            LinkPhase::Refused => {
                self.phase = LinkPhase::Detached;
                Ok(())
            }
            LinkPhase::HalfClosed
            | LinkPhase::HandleWanted
            | LinkPhase::ReattachSent
            | LinkPhase::Detached => Ok(()),
        }
    }

    /// Closes the link: its closing Detach is to be written.
    pub fn close(&mut self, error: Option<AmqpError>)
        requires { 0 < spare self.old }
        ensures state { seen self.new ≡ closing error (seen self.old) }
    {
        self.say_close(error);
        self.phase = LinkPhase::CloseSent;
        self.is_closed = true;
    }

    /// Why a call that sends is refused: `IllegalState` where this end has closed the link; then by the Detach that was read; then
    /// `SessionStopped`; then `IllegalState` where the link is not attached. A sender whose own Detach waits for its answer is refused
    /// by another error: see `is_detaching`.
    pub fn refusal(&self) -> Result<Option<LinkStateError>, AllocError>
        ensures { IfOk result (λ e. e ≡ refusal (seen self.now)) }
    {
        if self.is_closed {
            return Ok(Some(LinkStateError::IllegalState));
        }
        if let Some(error) = ended_by(self.alloc, &self.remote, &self.stop_reason)? {
            return Ok(Some(error));
        }
        if self.is_attached() || self.is_detaching() {
            return Ok(None);
        }
        Ok(Some(LinkStateError::IllegalState))
    }

    /// Why a call that waits until a delivery is settled is answered otherwise: `IllegalState` where this end has abandoned the link;
    /// once both ends have detached, `IllegalState` where this end has closed the link, or the peer's closing Detach; else
    /// `SessionStopped`. After any other Detach it goes on waiting.
    pub fn settlement_refusal(&self) -> Result<Option<LinkStateError>, AllocError>
        ensures { IfOk result (λ e. e ≡ settlement_refusal (seen self.now)) }
    {
        if self.is_gone {
            return Ok(Some(LinkStateError::IllegalState));
        }
        if !self.is_done() {
            return stopped_by(self.alloc, &self.stop_reason);
        }
        if self.is_closed {
            return Ok(Some(LinkStateError::IllegalState));
        }
        closed_by(self.alloc, &self.remote, &self.stop_reason)
    }

    /// Why a call that has waited for what may still come is answered: by the Detach that was read, then `SessionStopped`.
    pub fn ended_by(&self) -> Result<Option<LinkStateError>, AllocError>
        ensures { IfOk result (λ e. e ≡ ended_by (seen self.now).remote (seen self.now).stop_reason) }
    {
        ended_by(self.alloc, &self.remote, &self.stop_reason)
    }

    /// Why a call that settles deliveries or gives credit is refused: `IllegalState` where the link is not attached, then
    /// `SessionStopped`.
    pub fn disposal_refusal(&self) -> Result<Option<IllegalLinkStateError>, AllocError>
        ensures { IfOk result (λ e. e ≡ disposal_refusal (seen self.now)) }
    {
        if !self.is_attached() {
            return Ok(Some(IllegalLinkStateError::IllegalState));
        }
        match &self.stop_reason {
            Some(reason) => {
                let reason = copied_reason(self.alloc, reason)?;
                Ok(Some(IllegalLinkStateError::SessionStopped(reason)))
            }
            None => Ok(None),
        }
    }
}
