//! The frames that a session reads (OASIS AMQP 1.0, part 2, section 2.5.5).
ghost use Rattle.std.specs.Prelude.{◌≡◌, Err};
ghost use Rattle.amqp_session.specs.declared.error.Error.TheVariants.{IllegalState};
ghost use Rattle.amqp_session.specs.State.{framed, seen, works, Answers};
ghost use Rattle.amqp_session.specs.Begin.{mapped};
ghost use Rattle.amqp_session.specs.Hold.{released};
ghost use Rattle.amqp_session.specs.Frames.{heard_unanswered, heard_mapped, heard_ending, heard};

use crate::error::Error;
use crate::session::{Session, SessionState};
use amqp_frames::{FrameBody, SessionFrame, let_go};
use amqp_performatives::begin::Begin;

/// Lets a frame go that has no place.
fn discard(body: FrameBody) -> Result<(), Error>
    ensures { result ≡ Err IllegalState }
{
    let_go(body);
    Err(Error::IllegalState)
}

impl Session {
    /// The peer's answering Begin was read.
    fn on_begin(&mut self, channel: u16, begin: &Begin) -> Result<(), Error>
        ensures { Answers result (works (released (mapped channel begin.now (seen self.old)))) (seen self.new) }
    {
        self.map(channel, begin);
        self.release()?;
        Ok(())
    }

    fn hear_unanswered(&mut self, channel: u16, body: FrameBody) -> Result<(), Error>
        ensures { Answers result (heard_unanswered channel body (seen self.old)) (seen self.new) }
    {
        match body {
            FrameBody::Begin(begin) => self.on_begin(channel, &begin),
            FrameBody::End(end) => self.on_end(end),
            other => discard(other),
        }
    }

    fn hear_mapped(&mut self, body: FrameBody) -> Result<(), Error>
        ensures { Answers result (heard_mapped body (seen self.old)) (seen self.new) }
    {
        match body {
            FrameBody::Attach(attach) => self.on_attach(attach),
            FrameBody::Flow(flow) => self.on_flow(flow),
            FrameBody::Transfer(transfer, payload) => self.on_transfer(transfer, payload),
            FrameBody::Disposition(disposition) => self.on_disposition(disposition),
            FrameBody::Detach(detach) => self.on_detach(detach),
            FrameBody::End(end) => self.on_end(end),
            other => discard(other),
        }
    }

    fn hear_ending(&mut self, body: FrameBody) -> Result<(), Error>
        ensures { Answers result (heard_ending body (seen self.old)) (seen self.new) }
    {
        match body {
            FrameBody::Disposition(disposition) => self.on_disposition(disposition),
            FrameBody::End(end) => self.on_answer(end),
            other => {
                let_go(other);
                Ok(())
            }
        }
    }

    /// A frame was read. Refusals, each exactly where it says: `IllegalState` for a frame that has no place in this state of the
    /// session; `UnattachedHandle`, `HandleInUse` and `TransferFrameToSender`, with which this end has ended the session; `FramingError`
    /// for a handle above the highest; `RemoteEndedWithError` where the peer answers the End of this end for an error of its own. For
    /// want of memory the session is not known any more.
    pub fn on_frame(&mut self, frame: SessionFrame) -> Result<(), Error>
        ensures { Answers result (heard (framed frame) (seen self.old)) (seen self.new) }
    {
        let (channel, body) = frame.into_parts();
        match self.state {
            SessionState::BeginSent => self.hear_unanswered(channel, body),
            SessionState::Mapped => self.hear_mapped(body),
            SessionState::EndSent => self.hear_ending(body),
            SessionState::Unmapped => discard(body),
        }
    }
}
