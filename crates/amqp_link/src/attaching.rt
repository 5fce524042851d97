//! How a link is attached (OASIS AMQP 1.0, part 2, section 2.6.3).
ghost use Rattle.std.specs.Prelude.{◌≡◌, ◌<◌, IfOk, OnOk, OnErr};
ghost use Rattle.amqp_link.specs.Link.{seen, saying_close, lesser, size_of, fresh, asked, agreed_as, attached, refused, answered, unexpected, attach_read, poll_waiting, poll_failing, polled, Polls, spare};

use crate::copies::{copied_attach, copied_reason};
use crate::endpoint::{AttachPoll, LinkEndpoint, LinkPhase};
use crate::error::{AttachError, AttachFault};
use crate::rules::fault_of;
use amqp_composites::error::Error as AmqpError;
use amqp_composites::modes::Role;
use amqp_frames::LinkFrame;
use amqp_frames::amqp_performatives::attach::Attach;
use amqp_frames::amqp_performatives::detach::Detach;
use std::alloc::{AllocError, Global};
use std::collections::VecDeque;

/// Lets an Attach go. Its drop has as many places as it has fields; for a caller of this it has one.
pub(crate) fn let_go(_attach: Attach) {}

/// The lesser of two sizes that are not 0.
fn lesser(left: u64, right: u64) -> u64
    ensures { result ≡ lesser left right }
{
    if left == 0 {
        right
    } else if right == 0 {
        left
    } else {
        left.min(right)
    }
}

impl LinkEndpoint {
    /// A link whose Attach is to be written; the peer's limit of messages is `size`.
    pub(crate) fn new(
        alloc: Global,
        own: Attach,
        accepts: bool,
        verify: bool,
        size: u64,
    ) -> Result<Self, AllocError>
        ensures { IfOk result (λ s. seen s ≡ fresh accepts verify size own) }
    {
        let attach = copied_attach(alloc, &own)?;
        let mut output = VecDeque::new(alloc);
        output.reserve(1)?;
        output.push_back_reserved(LinkFrame::Attach(attach));
        let max_message_size = lesser(own.max_message_size.unwrap_or(0), size);
        Ok(LinkEndpoint {
            alloc,
            own,
            accepts,
            verify,
            phase: LinkPhase::AttachSent,
            max_message_size,
            is_made: false,
            is_closed: false,
            failure: None,
            remote: None,
            is_parting: false,
            is_gone: false,
            is_stuck: false,
            last_error: None,
            stop_reason: None,
            output,
        })
    }

    /// A link that this end attaches: its Attach is to be written. `verify` says whether the addresses of termini that are to be
    /// made are looked at in the answer. The one error is want of memory.
    pub fn attach(alloc: Global, own: Attach, verify: bool) -> Result<Self, AllocError>
        ensures { IfOk result (λ s. seen s ≡ asked verify own) }
    {
        LinkEndpoint::new(alloc, own, false, verify, 0)
    }

    /// Queues a closing Detach.
    pub(crate) fn say_close(&mut self, error: Option<AmqpError>)
        requires { 0 < spare self.old }
        ensures { seen self.new ≡ saying_close error (seen self.old) }
    {
        let handle = self.own.handle;
        self.say(LinkFrame::Detach(Detach {
            handle,
            closed: true,
            error,
        }));
    }

    /// Refuses the link.
    pub(crate) fn refuse(&mut self, fault: AttachFault) -> Result<(), AllocError>
        ensures ok { OnOk result (seen self.new ≡ refused fault (seen self.old)) }
        ensures err { OnErr result (seen self.new ≡ seen self.old) }
    {
        let error = fault.error(self.alloc)?;
        self.make_room(1)?;
        self.say_close(error);
        self.phase = LinkPhase::Refused;
        self.failure = Some(fault.told());
        Ok(())
    }

    /// What the peer says of its own terminus and mode counts.
    fn agree(&mut self, attach: Attach)
        ensures { seen self.new ≡ record (seen self.old) { own = agreed_as (seen self.old).own.role (seen self.old).own attach } }
    {
        match self.own.role {
            Role::Sender => {
                self.own.rcv_settle_mode = attach.rcv_settle_mode;
                self.own.target = attach.target;
            }
            Role::Receiver => {
                self.own.snd_settle_mode = attach.snd_settle_mode;
                self.own.source = attach.source;
            }
        }
    }

    /// Both ends have attached.
    fn begin(&mut self, attach: Attach)
        ensures { seen self.new ≡ attached attach (seen self.old) }
    {
        self.phase = LinkPhase::Attached;
        self.is_made = true;
        let size = attach.max_message_size.unwrap_or(0);
        self.max_message_size = lesser(self.max_message_size, size);
        self.agree(attach);
    }

    fn expect_detach(&mut self, attach: Attach)
        ensures { seen self.new ≡ record (seen self.old) { phase = LinkPhase.DetachExpected } }
    {
        let_go(attach);
        self.phase = LinkPhase::DetachExpected;
    }

    fn answer(&mut self, fault: Option<AttachFault>, attach: Attach) -> Result<(), AllocError>
        ensures ok { OnOk result (seen self.new ≡ answered fault attach (seen self.old)) }
        ensures err { OnErr result (seen self.new ≡ seen self.old) }
    {
        match fault {
            None => {
                self.begin(attach);
                Ok(())
            }
            Some(AttachFault::IncomingTargetIsNone | AttachFault::IncomingSourceIsNone) => {
                self.expect_detach(attach);
                Ok(())
            }
            Some(fault) => {
                let_go(attach);
                self.refuse(fault)
            }
        }
    }

    /// A frame was read that is neither an Attach nor a Detach; before both ends have attached it refuses the link.
    pub fn on_unexpected(&mut self) -> Result<(), AllocError>
        ensures ok { OnOk result (seen self.new ≡ unexpected (seen self.old)) }
        ensures err { OnErr result (seen self.new ≡ seen self.old) }
    {
        match self.phase {
            LinkPhase::AttachSent => self.refuse(AttachFault::NonAttachFrameReceived),
            LinkPhase::DetachExpected => self.refuse(AttachFault::ExpectImmediateDetach),
            LinkPhase::Refused
            | LinkPhase::Attached
            | LinkPhase::DetachSent
            | LinkPhase::CloseSent
            | LinkPhase::HalfClosed
            | LinkPhase::HandleWanted
            | LinkPhase::ReattachSent
            | LinkPhase::RecloseSent
            | LinkPhase::Detached => Ok(()),
        }
    }

    /// The peer's Attach was read.
    pub fn on_attach(&mut self, attach: Attach) -> Result<(), AllocError>
        ensures ok { OnOk result (seen self.new ≡ attach_read attach (seen self.old)) }
        ensures err { OnErr result (seen self.new ≡ seen self.old) }
    {
        match self.phase {
            LinkPhase::AttachSent => {
                let mode = self.own.snd_settle_mode;
                let fault = fault_of(self.own.role, false, self.verify, mode, &attach);
                self.answer(fault, attach)
            }
            LinkPhase::ReattachSent => self.reclose(attach),
            LinkPhase::DetachExpected
            | LinkPhase::Refused
            | LinkPhase::Attached
            | LinkPhase::DetachSent
            | LinkPhase::CloseSent
            | LinkPhase::HalfClosed
            | LinkPhase::HandleWanted
            | LinkPhase::RecloseSent
            | LinkPhase::Detached => {
                let_go(attach);
                self.on_unexpected()
            }
        }
    }

    fn poll_waiting(&mut self) -> Result<AttachPoll, AttachError>
        ensures { Polls result (poll_waiting (seen self.old).stop_reason (seen self.old)) (seen self.old) (seen self.new) }
    {
        if let Some(reason) = &self.stop_reason {
            let reason = copied_reason(self.alloc, reason)?;
            return Err(AttachError::SessionStopped(reason));
        }
        match self.phase {
            LinkPhase::AttachSent | LinkPhase::DetachExpected | LinkPhase::Refused => {
                Ok(AttachPoll::Pending)
            }
            LinkPhase::Attached
            | LinkPhase::DetachSent
            | LinkPhase::CloseSent
            | LinkPhase::HalfClosed
            | LinkPhase::HandleWanted
            | LinkPhase::ReattachSent
            | LinkPhase::RecloseSent
            | LinkPhase::Detached => Err(AttachError::IllegalState),
        }
    }

    fn poll_failing(&mut self) -> Result<AttachPoll, AttachError>
        ensures { Polls result (poll_failing (seen self.old).failure (seen self.old)) (seen self.old) (seen self.new) }
    {
        if !self.accepts && !self.is_done() {
            return self.poll_waiting();
        }
        match self.failure.take() {
            Some(error) => Err(error),
            None => self.poll_waiting(),
        }
    }

    /// How far the attach is. Why it failed is told once: to an end that attaches when the peer has answered its Detach, to one that
    /// accepts at once. `SessionStopped` comes where the session stopped first, `IllegalState` once the failure was told.
    pub fn poll_attach(&mut self) -> Result<AttachPoll, AttachError>
        ensures { Polls result (polled (seen self.old)) (seen self.old) (seen self.new) }
    {
        if self.is_made {
            return Ok(AttachPoll::Done);
        }
        self.poll_failing()
    }
}
