//! How calls detach, close and abandon a link (OASIS AMQP 1.0, part 2, sections 2.6.4 to 2.6.6).
ghost use Rattle.std.specs.Prelude.{◌≡◌, true, None, IfOk, OnOk, OnErr};
ghost use Rattle.amqp_link.specs.Link.{seen, closing};
ghost use Rattle.amqp_link.specs.Parting.{late_poll, sent_phase, detaching, parting_unless, parting_in, parting, opened_poll, closed_poll, closing_poll, open_poll, close_poll, met_poll, stuck_poll, done_poll, waiting_poll, parted_poll, parted_by, news_of, detach_news, abandoned};

use crate::copies::{copied, copied_reason};
use crate::endpoint::{DetachPoll, LinkEndpoint, LinkPhase};
use crate::error::DetachError;
use amqp_composites::error::Error as AmqpError;
use amqp_frames::amqp_performatives::detach::Detach;
use amqp_frames::{LinkFrame, SessionStopReason};
use std::alloc::{AllocError, Global};

/// Lets the error of a Detach go that is not sent.
fn discard(_error: Option<AmqpError>) {}

/// What a call is told where both ends have detached before.
fn late_poll(is_closed: bool, closes: bool) -> DetachPoll
    ensures { result ≡ late_poll is_closed closes }
{
    if is_closed && !closes {
        return DetachPoll::Failed(DetachError::ClosedByRemote);
    }
    DetachPoll::Done
}

fn sent_phase(closes: bool) -> LinkPhase
    ensures { result ≡ sent_phase closes }
{
    if closes {
        LinkPhase::CloseSent
    } else {
        LinkPhase::DetachSent
    }
}

fn opened_poll(alloc: Global, error: &Option<AmqpError>) -> Result<DetachPoll, AllocError>
    ensures { IfOk result (λ p. p ≡ opened_poll error.now) }
{
    match error {
        Some(error) => {
            let error = copied(alloc, error)?;
            Ok(DetachPoll::Failed(DetachError::RemoteDetachedWithError(error)))
        }
        None => Ok(DetachPoll::Done),
    }
}

fn closed_poll(alloc: Global, error: &Option<AmqpError>) -> Result<DetachPoll, AllocError>
    ensures { IfOk result (λ p. p ≡ closed_poll error.now) }
{
    match error {
        Some(error) => {
            let error = copied(alloc, error)?;
            Ok(DetachPoll::Failed(DetachError::RemoteClosedWithError(error)))
        }
        None => Ok(DetachPoll::Done),
    }
}

fn closing_poll(
    alloc: Global,
    error: &Option<AmqpError>,
    closed: bool,
    last: &Option<AmqpError>,
) -> Result<DetachPoll, AllocError>
    ensures { IfOk result (λ p. p ≡ closing_poll error.now closed last.now) }
{
    match error {
        Some(error) => {
            let error = copied(alloc, error)?;
            if closed {
                return Ok(DetachPoll::Failed(DetachError::RemoteClosedWithError(error)));
            }
            Ok(DetachPoll::Failed(DetachError::RemoteDetachedWithError(error)))
        }
        None => closed_poll(alloc, last),
    }
}

/// What the call is told of a link that this end has closed.
fn close_poll(
    alloc: Global,
    closes: bool,
    detach: &Detach,
    last: &Option<AmqpError>,
) -> Result<DetachPoll, AllocError>
    ensures { IfOk result (λ p. p ≡ close_poll closes detach.now last.now) }
{
    if closes {
        return closing_poll(alloc, &detach.error, detach.closed, last);
    }
    Ok(DetachPoll::Failed(DetachError::ClosedByRemote))
}

/// What the call is told of a link that this end has detached without closing it.
fn open_poll(alloc: Global, detach: &Detach) -> Result<DetachPoll, AllocError>
    ensures { IfOk result (λ p. p ≡ open_poll detach.now) }
{
    if detach.closed {
        return Ok(DetachPoll::Failed(DetachError::ClosedByRemote));
    }
    opened_poll(alloc, &detach.error)
}

fn met_poll(
    alloc: Global,
    own: bool,
    closes: bool,
    remote: &Option<Detach>,
    last: &Option<AmqpError>,
) -> Result<DetachPoll, AllocError>
    ensures { IfOk result (λ p. p ≡ met_poll own closes remote.now last.now) }
{
    let Some(detach) = remote else {
        return Ok(DetachPoll::Done);
    };
    if own {
        return close_poll(alloc, closes, detach, last);
    }
    open_poll(alloc, detach)
}

fn stuck_poll(alloc: Global, stop: &Option<SessionStopReason>) -> Result<DetachPoll, AllocError>
    ensures { IfOk result (λ p. p ≡ stuck_poll stop.now) }
{
    match stop {
        Some(reason) => {
            let reason = copied_reason(alloc, reason)?;
            Ok(DetachPoll::Failed(DetachError::SessionStopped(reason)))
        }
        None => Ok(DetachPoll::Failed(DetachError::IllegalState)),
    }
}

fn waiting_poll(alloc: Global, stop: &Option<SessionStopReason>) -> Result<DetachPoll, AllocError>
    ensures { IfOk result (λ p. p ≡ waiting_poll stop.now) }
{
    match stop {
        Some(reason) => {
            let reason = copied_reason(alloc, reason)?;
            Ok(DetachPoll::Failed(DetachError::SessionStopped(reason)))
        }
        None => Ok(DetachPoll::Pending),
    }
}

fn parted_by(
    alloc: Global,
    closed: bool,
    error: &Option<AmqpError>,
) -> Result<DetachError, AllocError>
    ensures { IfOk result (λ e. e ≡ parted_by closed error.now) }
{
    match error {
        Some(error) => {
            let error = copied(alloc, error)?;
            if closed {
                return Ok(DetachError::RemoteClosedWithError(error));
            }
            Ok(DetachError::RemoteDetachedWithError(error))
        }
        None => {
            if closed {
                return Ok(DetachError::ClosedByRemote);
            }
            Ok(DetachError::DetachedByRemote)
        }
    }
}

fn news_of(
    alloc: Global,
    remote: &Option<Detach>,
    stop: &Option<SessionStopReason>,
) -> Result<Option<DetachError>, AllocError>
    ensures { IfOk result (λ e. e ≡ news_of remote.now stop.now) }
{
    if let Some(detach) = remote {
        let error = parted_by(alloc, detach.closed, &detach.error)?;
        return Ok(Some(error));
    }
    match stop {
        Some(reason) => {
            let reason = copied_reason(alloc, reason)?;
            Ok(Some(DetachError::SessionStopped(reason)))
        }
        None => Ok(None),
    }
}

impl LinkEndpoint {
    /// Writes this end's Detach.
    fn say_parting(&mut self, closes: bool, error: Option<AmqpError>) -> Result<(), AllocError>
        ensures ok { OnOk result (seen self.new ≡ detaching closes error (seen self.old)) }
        ensures err { OnErr result (seen self.new ≡ seen self.old) }
    {
        self.make_room(1)?;
        let handle = self.own.handle;
        self.say(LinkFrame::Detach(Detach {
            handle,
            closed: closes,
            error,
        }));
        self.phase = sent_phase(closes);
        self.is_closed = closes;
        self.is_parting = true;
        Ok(())
    }

    /// Detaches a link that is attached, in a session that has not stopped.
    fn part_attached(
        &mut self,
        closes: bool,
        error: Option<AmqpError>,
    ) -> Result<DetachPoll, AllocError>
        ensures state { OnOk result (seen self.new ≡ (parting_unless (seen self.old).stop_reason (detaching closes error (seen self.old)) (seen self.old)).link) }
        ensures answer { IfOk result (λ p. p ≡ (parting_unless (seen self.old).stop_reason (detaching closes error (seen self.old)) (seen self.old)).answer) }
        ensures err { OnErr result (seen self.new ≡ seen self.old) }
    {
        if self.stop_reason.is_some() {
            discard(error);
            return waiting_poll(self.alloc, &self.stop_reason);
        }
        self.say_parting(closes, error)?;
        Ok(DetachPoll::Pending)
    }

    /// Waits until both ends have detached, in a session that has not stopped; in that phase from then on.
    fn part_later(&mut self, phase: LinkPhase) -> Result<DetachPoll, AllocError>
        ensures state { OnOk result (seen self.new ≡ (parting_unless (seen self.old).stop_reason (record (seen self.old) { phase = phase; is_parting = true }) (seen self.old)).link) }
        ensures answer { IfOk result (λ p. p ≡ (parting_unless (seen self.old).stop_reason (record (seen self.old) { phase = phase; is_parting = true }) (seen self.old)).answer) }
        ensures err { OnErr result (seen self.new ≡ seen self.old) }
    {
        if self.stop_reason.is_some() {
            return waiting_poll(self.alloc, &self.stop_reason);
        }
        self.phase = phase;
        self.is_parting = true;
        Ok(DetachPoll::Pending)
    }

    fn part_in_phase(
        &mut self,
        closes: bool,
        error: Option<AmqpError>,
    ) -> Result<DetachPoll, AllocError>
        ensures state { OnOk result (seen self.new ≡ (parting_in (seen self.old).phase closes error (seen self.old)).link) }
        ensures answer { IfOk result (λ p. p ≡ (parting_in (seen self.old).phase closes error (seen self.old)).answer) }
        ensures err { OnErr result (seen self.new ≡ seen self.old) }
    {
        match self.phase {
            LinkPhase::Attached => self.part_attached(closes, error),
            LinkPhase::AttachSent | LinkPhase::DetachExpected | LinkPhase::Refused => {
                discard(error);
                Ok(DetachPoll::Failed(DetachError::IllegalState))
            }
            LinkPhase::Detached => {
                discard(error);
                Ok(late_poll(self.is_closed_by_one(), closes))
            }
            LinkPhase::HalfClosed => {
                discard(error);
                self.part_later(LinkPhase::HandleWanted)
            }
            LinkPhase::DetachSent
            | LinkPhase::CloseSent
            | LinkPhase::HandleWanted
            | LinkPhase::ReattachSent
            | LinkPhase::RecloseSent => {
                discard(error);
                self.part_later(self.phase)
            }
        }
    }

    /// Detaches the link, with that error, and closes it where asked. `Pending` comes where the peer's answer is awaited, so that
    /// `poll_parted` tells more. Where both ends have detached before, `ClosedByRemote` comes where the link is closed and the call does
    /// not close it, else `Done`. A link that is not attached answers `IllegalState`, one of a session that has stopped
    /// `SessionStopped`. For want of memory nothing changes.
    pub fn part(&mut self, closes: bool, error: Option<AmqpError>) -> Result<DetachPoll, AllocError>
        ensures state { OnOk result (seen self.new ≡ (parting closes error (seen self.old)).link) }
        ensures answer { IfOk result (λ p. p ≡ (parting closes error (seen self.old)).answer) }
        ensures err { OnErr result (seen self.new ≡ seen self.old) }
    {
        if self.is_gone {
            discard(error);
            return Ok(DetachPoll::Failed(DetachError::IllegalState));
        }
        self.part_in_phase(closes, error)
    }

    fn poll_done(&self, closes: bool) -> Result<DetachPoll, AllocError>
        ensures { IfOk result (λ p. p ≡ done_poll closes (seen self.now)) }
    {
        if self.is_stuck {
            return stuck_poll(self.alloc, &self.stop_reason);
        }
        met_poll(
            self.alloc,
            self.is_closed,
            closes,
            &self.remote,
            &self.last_error,
        )
    }

    /// What a call is told that has waited since `part`: `Pending` while the peer's answer is awaited; `SessionStopped` where none comes
    /// any more. Once both ends have detached, `ClosedByRemote` comes where another than the call has closed the link,
    /// `RemoteDetachedWithError` or `RemoteClosedWithError` by the error of an answer, and `IllegalState` where the link could not be
    /// closed once it was attached again.
    pub fn poll_parted(&self, closes: bool) -> Result<DetachPoll, AllocError>
        ensures { IfOk result (λ p. p ≡ parted_poll closes (seen self.now)) }
    {
        if self.is_done() {
            return self.poll_done(closes);
        }
        waiting_poll(self.alloc, &self.stop_reason)
    }

    /// How the peer has detached the link: none until a Detach was read or the session has stopped.
    pub fn detach_news(&self) -> Result<Option<DetachError>, AllocError>
        ensures { IfOk result (λ e. e ≡ detach_news (seen self.now)) }
    {
        if self.is_gone {
            return Ok(Some(DetachError::IllegalState));
        }
        news_of(self.alloc, &self.remote, &self.stop_reason)
    }

    fn close_and_go(&mut self) -> Result<(), AllocError>
        ensures ok { OnOk result (seen self.new ≡ record (closing None (seen self.old)) { is_gone = true }) }
        ensures err { OnErr result (seen self.new ≡ seen self.old) }
    {
        self.make_room(1)?;
        self.close(None);
        self.is_gone = true;
        Ok(())
    }

    /// Lets the link go: where it is attached, and its session has not stopped, a closing Detach is to be written, and no answer is
    /// waited for. For want of memory nothing changes.
    pub fn abandon(&mut self) -> Result<(), AllocError>
        ensures ok { OnOk result (seen self.new ≡ abandoned (seen self.old)) }
        ensures err { OnErr result (seen self.new ≡ seen self.old) }
    {
        if self.is_attached() && self.stop_reason.is_none() {
            return self.close_and_go();
        }
        self.is_gone = true;
        Ok(())
    }
}
