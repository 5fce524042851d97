//! What the links of a session write (OASIS AMQP 1.0, part 2, section 2.5.6).
ghost use Rattle.std.specs.Prelude.{◌≡◌, ◌<◌, ◌++◌, OnOk};
ghost use Rattle.amqp_frames.specs.declared.body.FrameBody.TheVariants as b;
ghost use Rattle.amqp_session.specs.State.{seen, saying, Answers};
ghost use Rattle.amqp_session.specs.Hold.{begins, numbered, left_of, kept, parting, leaving, released, sending, dropping, reporting};
ghost use Rattle.amqp_session.specs.Frames.{told, told_in, telling_flow};

use crate::error::Error;
use crate::session::{LeftDelivery, LinkInput, Session, SessionState};
use amqp_frames::{FrameBody, LinkFrame};
use amqp_parts::{Cut, Part, first_part};
use amqp_performatives::detach::Detach;
use amqp_performatives::flow::Flow;
use amqp_performatives::transfer::Transfer;
use std::alloc::AllocError;

/// Whether the Transfer begins a delivery: it has a tag.
fn begins(transfer: &Transfer) -> bool
    ensures { result ≡ begins transfer.now }
{
    transfer.delivery_tag.is_some()
}

/// The Transfer, with the number of its delivery where it begins one.
fn numbered(number: u32, transfer: Transfer) -> Transfer
    ensures { result ≡ numbered number transfer }
{
    let mut transfer = transfer;
    if begins(&transfer) {
        transfer.delivery_id = Some(number);
    }
    transfer
}

impl Session {
    /// Has its link told that a delivery begins to leave, where the Transfer begins one.
    fn tell_left(&mut self, transfer: &Transfer) -> Result<(), AllocError>
        ensures { OnOk result (seen self.new ≡ record (seen self.old) { incoming = (seen self.old).incoming ++ left_of transfer.now.delivery_tag (seen self.old).windows.next_delivery_id transfer.now }) }
    {
        let Some(tag) = &transfer.delivery_tag else {
            return Ok(());
        };
        let left = LeftDelivery {
            handle: transfer.handle,
            delivery_id: self.windows.next_delivery_id,
            delivery_tag: tag.try_clone(self.alloc)?,
            settled: transfer.settled.unwrap_or(false),
        };
        self.hand(LinkInput::Left(left))
    }

    /// What is left of a delivery waits in front of all others.
    fn keep(&mut self, rest: Option<Part>) -> Result<(), AllocError>
        ensures { OnOk result (seen self.new ≡ record (seen self.old) { held = kept rest (seen self.old).held }) }
    {
        match rest {
            Some(part) => self.held.push_front(part)?,
            None => {}
        }
        Ok(())
    }

    /// Writes a part of a delivery, and keeps what is left.
    fn part(&mut self, cut: Cut) -> Result<(), AllocError>
        ensures { OnOk result (seen self.new ≡ parting cut (seen self.old)) }
    {
        let Cut { first, rest } = cut;
        self.keep(rest)?;
        let (transfer, payload) = first.into_parts();
        self.say(FrameBody::Transfer(transfer, payload))
    }

    /// Writes the first part of what has waited, which takes its numbers.
    fn leave(&mut self, held: Part) -> Result<(), AllocError>
        requires { 0 < self.old.windows.allowance }
        ensures { OnOk result (seen self.new ≡ leaving held (seen self.old)) }
    {
        let (transfer, payload) = held.into_parts();
        self.tell_left(&transfer)?;
        let begins = begins(&transfer);
        let transfer = numbered(self.windows.next_delivery_id, transfer);
        let cut = first_part(self.alloc, transfer, payload, self.max_frame_size)?;
        self.windows.on_leave(begins);
        self.part(cut)
    }

    /// Writes what waits, in order, as far as the peer can take it.
    pub(crate) fn release(&mut self) -> Result<(), AllocError>
        ensures { OnOk result (seen self.new ≡ released (seen self.old)) }
    {
        while self.windows.allowance > 0 {
            match self.held.pop_front() {
                Some(held) => self.leave(held)?,
                None => return Ok(()),
            }
        }
        Ok(())
    }

    /// Tells the peer the state of the session.
    pub(crate) fn report(&mut self) -> Result<(), AllocError>
        ensures { OnOk result (seen self.new ≡ reporting (seen self.old)) }
    {
        let flow = self.windows.session_flow();
        self.windows.on_report();
        self.say(FrameBody::Flow(flow))
    }

    /// Holds a Transfer behind all others, and writes it as far as the peer can take it.
    fn send_transfer(&mut self, held: Part) -> Result<(), AllocError>
        ensures { OnOk result (seen self.new ≡ sending held (seen self.old)) }
    {
        self.held.push_back(held)?;
        self.release()
    }

    /// Writes a link's Flow, with the state of the session in it.
    fn send_flow(&mut self, flow: Flow) -> Result<(), AllocError>
        ensures { OnOk result (seen self.new ≡ telling_flow flow (seen self.old)) }
    {
        let flow = self.windows.stamp(flow);
        self.windows.on_report();
        self.say(FrameBody::Flow(flow))
    }

    /// Writes a Detach, and drops what waits on its handle.
    fn send_detach(&mut self, detach: Detach) -> Result<(), AllocError>
        ensures { OnOk result (seen self.new ≡ saying (b.Detach detach) (dropping detach.handle (seen self.old))) }
    {
        self.drop_held(detach.handle);
        self.say(FrameBody::Detach(detach))
    }

    /// Drops what waits on a handle of this end.
    fn drop_held(&mut self, handle: u32)
        ensures { seen self.new ≡ dropping handle (seen self.old) }
    {
        self.held.retain(|part| part.transfer.handle != handle);
    }

    fn send(&mut self, frame: LinkFrame) -> Result<(), AllocError>
        ensures { OnOk result (seen self.new ≡ told frame (seen self.old)) }
    {
        match frame {
            LinkFrame::Attach(attach) => self.say(FrameBody::Attach(attach)),
            LinkFrame::Flow(flow) => self.send_flow(flow),
            LinkFrame::Transfer(transfer, payload) => {
                self.send_transfer(Part { transfer, payload })
            }
            LinkFrame::Disposition(disposition, _) => {
                self.say(FrameBody::Disposition(disposition))
            }
            LinkFrame::Detach(detach) => self.send_detach(detach),
        }
    }

    /// A link writes a frame: `IllegalState` exactly where the session is not mapped. A Flow gets the state of the session. A Transfer
    /// waits whole until the peer can take it, in order; it takes its numbers as it leaves, in parts that the limit of frames has room
    /// for, each of which takes one of what the peer can take. A Detach drops what waits on its handle. For want of memory the
    /// session is not known any more.
    pub fn on_link_frame(&mut self, frame: LinkFrame) -> Result<(), Error>
        ensures { Answers result (told_in (seen self.old).state frame (seen self.old)) (seen self.new) }
    {
        match self.state {
            SessionState::Mapped => {
                self.send(frame)?;
                Ok(())
            }
            SessionState::BeginSent | SessionState::EndSent | SessionState::Unmapped => {
                discard(frame);
                Err(Error::IllegalState)
            }
        }
    }
}

/// Lets a frame go. Its drop has as many places as its performatives have fields; for a caller of this it has one.
fn discard(_frame: LinkFrame) {}
