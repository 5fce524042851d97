//! A link endpoint: what it is built from, its queue, and what it tells of itself (OASIS AMQP 1.0, part 2, section 2.6).
ghost use Rattle.std.specs.Prelude.{◌≡◌, ◌≤◌, ◌<◌, ◌+◌, map, Some, IfOk, OnOk};
ghost use Rattle.std.specs.Option.{option_map};
ghost use Rattle.amqp_link.specs.Link.{body_of, seen, spare, saying, TakesFrame, stopped, is_over, is_attached, is_detaching, is_heard, is_done, closes, is_closed_by_one, is_closed_by_both};

use crate::error::{AttachError, DetachError};
use amqp_composites::error::Error as AmqpError;
use amqp_data::Text;
use amqp_frames::amqp_performatives::attach::Attach;
use amqp_frames::amqp_performatives::detach::Detach;
use amqp_frames::{LinkFrame, SessionStopReason};
use std::alloc::{AllocError, Global};
use std::collections::VecDeque;

/// How far a link is (part 2, sections 2.6.3 to 2.6.6). A Detach of the peer is answered at once, so no phase stands for that time.
#[derive(Clone, Copy, Debug, PartialEq, Eq)]
pub enum LinkPhase {
    /// This end has sent its Attach.
    AttachSent,
    /// The peer's Attach has no terminus for the link: its Detach has to come next.
    DetachExpected,
    /// This end has refused the link: its closing Detach was sent.
    Refused,
    /// Both ends have attached.
    Attached,
    /// This end has sent a Detach that does not close the link.
    DetachSent,
    /// This end has sent a closing Detach.
    CloseSent,
    /// Both ends have sent their Detach, of which one closes the link and the other does not.
    HalfClosed,
    /// The same, and a call waits until the link is closed: this end is to attach it anew, and has no handle for that yet.
    HandleWanted,
    /// This end has sent its Attach again, so that it may close the link.
    ReattachSent,
    /// Both ends have attached again, and this end has sent a closing Detach.
    RecloseSent,
    /// Both ends have sent their Detach.
    Detached,
}

/// How far an attach is.
#[derive(Clone, Copy, Debug, PartialEq, Eq)]
pub enum AttachPoll {
    /// The peer's answer is awaited.
    Pending,
    /// Both ends have attached.
    Done,
}

/// How far a detach is.
#[derive(Debug, Drop)]
pub enum DetachPoll {
    /// The peer's answer is awaited.
    Pending,
    /// Both ends have detached.
    Done,
    /// Both ends have detached, or will not, and it did not go as it was asked.
    Failed(DetachError),
}

/// What both ends of a link have in common.
pub struct LinkEndpoint {
    pub(crate) alloc: Global,
    /// What this end says of the link as it attaches, with what the peer has said since.
    pub(crate) own: Attach,
    /// Whether this end answers the peer's Attach with its own.
    pub(crate) accepts: bool,
    /// Whether it looks at the addresses of termini that are to be made.
    pub(crate) verify: bool,
    pub(crate) phase: LinkPhase,
    /// The largest message, in bytes; 0 where there is no limit.
    pub(crate) max_message_size: u64,
    /// Whether both ends have attached, once.
    pub(crate) is_made: bool,
    /// Whether this end has closed the link.
    pub(crate) is_closed: bool,
    /// Why the link is not attached, until its caller was told.
    pub(crate) failure: Option<AttachError>,
    /// The Detach that was read of an attached link.
    pub(crate) remote: Option<Detach>,
    /// Whether a call waits until both ends have detached.
    pub(crate) is_parting: bool,
    /// Whether this end has abandoned the link.
    pub(crate) is_gone: bool,
    /// Whether the link could not be closed as it was asked, once it was attached again.
    pub(crate) is_stuck: bool,
    /// The error of the Detach that was read of a link that was attached again.
    pub(crate) last_error: Option<AmqpError>,
    pub(crate) stop_reason: Option<SessionStopReason>,
    /// The frames to be written, in order.
    pub(crate) output: VecDeque<LinkFrame>,
}

// An endpoint is let go by a call, so that no caller sees what it holds.
impl Drop for LinkEndpoint {
    fn drop(self) {
        let LinkEndpoint {
            alloc: _,
            own,
            accepts: _,
            verify: _,
            phase: _,
            max_message_size: _,
            is_made: _,
            is_closed: _,
            failure,
            remote,
            is_parting: _,
            is_gone: _,
            is_stuck: _,
            last_error,
            stop_reason,
            output,
        } = self;
        drop(own);
        drop(failure);
        drop(remote);
        drop(last_error);
        drop(stop_reason);
        drop(output);
    }
}

impl LinkEndpoint {
    /// Makes room for so many frames.
    pub fn make_room(&mut self, more: usize) -> Result<(), AllocError>
        ensures same { seen self.new ≡ seen self.old }
        ensures room { OnOk result (more ≤ spare self.new) }
    {
        self.output.reserve(more)
    }

    /// Queues a frame.
    pub fn say(&mut self, frame: LinkFrame)
        requires { 0 < spare self.old }
        ensures state { seen self.new ≡ saying (body_of frame) (seen self.old) }
        ensures room { spare self.new + 1 ≡ spare self.old }
    {
        self.output.push_back_reserved(frame);
    }

    /// The first frame to be written.
    pub fn take_output(&mut self) -> Option<LinkFrame>
        ensures { TakesFrame (seen self.old) (option_map body_of result) (seen self.new) }
    {
        self.output.pop_front()
    }

    /// The session has stopped. The first reason stays.
    pub fn stop(&mut self, reason: SessionStopReason)
        ensures state { seen self.new ≡ stopped reason (seen self.old) }
        ensures room { spare self.new ≡ spare self.old }
    {
        if self.stop_reason.is_none() {
            self.stop_reason = Some(reason);
        }
    }

    /// The handle of this end.
    pub fn handle(&self) -> u32
        ensures { result ≡ (seen self.now).own.handle }
    {
        self.own.handle
    }

    /// The name of the link, lent.
    pub fn name(&self) -> &Text
        ensures { result.now ≡ (seen self.now).own.name }
    {
        &self.own.name
    }

    /// What the ends have said of the link, lent: the source and the modes of the sender, the target of the receiver.
    pub fn terms(&self) -> &Attach
        ensures { result.now ≡ (seen self.now).own }
    {
        &self.own
    }

    /// The largest message, in bytes; 0 where there is no limit.
    pub fn max_message_size(&self) -> u64
        ensures { result ≡ (seen self.now).max_message_size }
    {
        self.max_message_size
    }

    /// How far the link is.
    pub fn phase(&self) -> LinkPhase
        ensures { result ≡ (seen self.now).phase }
    {
        self.phase
    }

    /// Whether both ends have attached, and neither has detached.
    pub fn is_attached(&self) -> bool
        ensures { result ≡ is_attached (seen self.now).phase }
    {
        matches!(self.phase, LinkPhase::Attached)
    }

    /// Whether both ends have attached, once.
    pub fn is_made(&self) -> bool
        ensures { result ≡ (seen self.now).is_made }
    {
        self.is_made
    }

    /// Whether this end has closed the link.
    pub fn is_closed(&self) -> bool
        ensures { result ≡ (seen self.now).is_closed }
    {
        self.is_closed
    }

    /// Whether both ends have detached, so that the handle is free.
    pub fn is_over(&self) -> bool
        ensures { result ≡ is_over (seen self.now).phase }
    {
        matches!(
            self.phase,
            LinkPhase::HalfClosed | LinkPhase::HandleWanted | LinkPhase::Detached
        )
    }

    /// Whether this end has sent a Detach that does not close the link, and none was read.
    pub fn is_detaching(&self) -> bool
        ensures { result ≡ is_detaching (seen self.now).phase }
    {
        matches!(self.phase, LinkPhase::DetachSent)
    }

    /// Whether the peer may still speak of the deliveries of the link: until both ends have sent their Detach.
    pub fn is_heard(&self) -> bool
        ensures { result ≡ is_heard (seen self.now).phase }
    {
        matches!(
            self.phase,
            LinkPhase::AttachSent
                | LinkPhase::DetachExpected
                | LinkPhase::Refused
                | LinkPhase::Attached
                | LinkPhase::DetachSent
                | LinkPhase::CloseSent
        )
    }

    /// Whether both ends have detached, and nothing more follows.
    pub(crate) fn is_done(&self) -> bool
        ensures { result ≡ is_done (seen self.now).phase }
    {
        matches!(self.phase, LinkPhase::Detached)
    }

    /// Whether a Detach was read that closes the link.
    fn is_closed_by_peer(&self) -> bool
        ensures { result ≡ closes (seen self.now).remote }
    {
        match &self.remote {
            Some(detach) => detach.closed,
            None => false,
        }
    }

    /// Whether one of the ends has closed the link.
    pub(crate) fn is_closed_by_one(&self) -> bool
        ensures { result ≡ is_closed_by_one (seen self.now) }
    {
        self.is_closed || self.is_closed_by_peer()
    }

    /// Whether both ends have closed the link, or this end has abandoned it.
    pub fn is_closed_by_both(&self) -> bool
        ensures { result ≡ is_closed_by_both (seen self.now) }
    {
        self.is_gone || self.is_done() && self.is_closed_by_one()
    }

    /// Why the session has stopped, if it has.
    pub fn stop_reason(&self) -> Option<&SessionStopReason>
        ensures { option_map (λ x. x.now) result ≡ (seen self.now).stop_reason }
    {
        self.stop_reason.as_ref()
    }

    /// The Detach that was read, lent, where the link had been attached.
    pub fn remote_detach(&self) -> Option<&Detach>
        ensures { option_map (λ x. x.now) result ≡ (seen self.now).remote }
    {
        self.remote.as_ref()
    }
}
