//! The frames of sessions that are read (OASIS AMQP 1.0, part 2, sections 2.5.1 and 2.5.5).
ghost use Rattle.std.specs.Prelude.{◌≡◌, ℕ, nat_eq, [], ◌∷◌, OnOk, IfOk};
ghost use Rattle.std.specs.Map.{lookup};
ghost use Rattle.indexmap.specs.IndexMap.{insert_entry};
ghost use Rattle.amqp_session.specs.State.{framed};
ghost use Rattle.amqp_session.specs.declared.error.BeginError.TheVariants.{RemoteEnded};
ghost use Rattle.amqp_sessions.specs.Frames.{answered_channel, place_of, refused, freed, freed_own, end_reply, concluding_for, concluding, changed, hearing_at, kept, heard_by, heard, heard_all, heard_early};
ghost use Rattle.amqp_sessions.specs.State.{seen, endpoint_of, let_go};

use crate::endpoint::Change;
use crate::queue::FrameQueue;
use crate::sessions::Sessions;
use amqp_calls::SessionReply;
use amqp_frames::{FrameBody, SessionFrame};
use amqp_session::{BeginError, Error};
use std::alloc::AllocError;

/// The channel of this end whose Begin a Begin answers.
fn answered_channel(body: &FrameBody) -> Option<u16>
    ensures { result ≡ answered_channel body.now }
{
    match body {
        FrameBody::Begin(begin) => begin.remote_channel,
        _ => None,
    }
}

/// How an `end` is answered at the peer's End.
fn end_reply(error: Option<Error>) -> SessionReply
    ensures { result ≡ end_reply error }
{
    match error {
        Some(error) => SessionReply::SessionError(error),
        None => SessionReply::Ended,
    }
}

/// Lets a frame go.
fn discard(_frame: SessionFrame) {}

/// Lets an error go.
fn pass_over(_error: Option<Error>) {}

impl Sessions {
    /// The name of the session that a frame is of, or answers.
    fn place_of(&self, frame: &SessionFrame) -> Option<u64>
        ensures { result ≡ place_of (framed frame.now) (seen self.now) }
    {
        match answered_channel(frame.body()) {
            Some(channel) => self.channels.get(&channel).copied(),
            None => self.remotes.get(&frame.channel()).copied(),
        }
    }

    /// A frame of a session was read. What it asks for is done: frames to be written, answers, channels that are free. The answer is
    /// the name of the session that has heard it, if there is one by now. The one error is want of memory.
    pub fn on_frame(&mut self, frame: SessionFrame) -> Result<Option<u64>, AllocError>
        ensures place { IfOk result (λ place. place ≡ place_of (framed frame) (seen self.old)) }
        ensures state { OnOk result (seen self.new ≡ heard (framed frame) (seen self.old)) }
    {
        let place = self.place_of(&frame);
        self.hear_by(place, frame)?;
        Ok(place)
    }

    fn hear_by(&mut self, place: Option<u64>, frame: SessionFrame) -> Result<(), AllocError>
        ensures { OnOk result (seen self.new ≡ heard_by place (framed frame) (seen self.old)) }
    {
        match place {
            Some(name) => self.hear(name, frame),
            None => self.keep(frame),
        }
    }

    /// Keeps a frame of a session that no call has accepted yet.
    fn keep(&mut self, frame: SessionFrame) -> Result<(), AllocError>
        ensures { OnOk result (seen self.new ≡ kept (framed frame) (seen self.old)) }
    {
        let channel = frame.channel();
        match self.early.get_mut(&channel) {
            Some(queue) => queue.push(frame),
            None => self.keep_first(frame),
        }
    }

    fn keep_first(&mut self, frame: SessionFrame) -> Result<(), AllocError>
        ensures { OnOk result (seen self.new ≡ record (seen self.old) { early = insert_entry nat_eq (seen self.old).early frame.channel (framed frame ∷ []) }) }
    {
        let channel = frame.channel();
        let mut queue = FrameQueue::new(self.alloc);
        queue.push(frame)?;
        self.early.insert(channel, queue)?;
        Ok(())
    }

    /// The session on that channel of the peer hears what came before it was accepted.
    pub(crate) fn hear_early(&mut self, remote: u16) -> Result<(), AllocError>
        ensures { OnOk result (seen self.new ≡ heard_early remote (seen self.old)) }
    {
        match self.early.swap_remove(&remote) {
            Some(queue) => self.hear_all(queue),
            None => Ok(()),
        }
    }

    /// Those frames are heard, in order.
    fn hear_all(&mut self, queue: FrameQueue) -> Result<(), AllocError>
        ensures { OnOk result (seen self.new ≡ heard_all queue (seen self.old)) }
    {
        let mut queue = queue;
        while let Some(frame) = queue.pop() {
            self.on_frame(frame)?;
        }
        Ok(())
    }

    /// The session of that name hears a frame.
    fn hear(&mut self, name: u64, frame: SessionFrame) -> Result<(), AllocError>
        ensures { OnOk result (seen self.new ≡ hearing_at (endpoint_of name (seen self.old)) name (framed frame) (seen self.old)) }
    {
        let remote = frame.channel();
        let Some(endpoint) = self.endpoints.get_mut(&name) else {
            discard(frame);
            return Ok(());
        };
        let (change, error) = endpoint.hear(frame)?;
        self.hand_out(name)?;
        self.take_up(change, name, remote, error)
    }

    /// Does what has become of a session.
    fn take_up(
        &mut self,
        change: Change,
        name: u64,
        remote: u16,
        error: Option<Error>,
    ) -> Result<(), AllocError>
        ensures { OnOk result (seen self.new ≡ changed change name remote error (seen self.old)) }
    {
        match change {
            Change::Answered => self.on_answered(name, remote, error),
            Change::Begun => {
                pass_over(error);
                self.join(name, remote)
            }
            Change::Refused => {
                pass_over(error);
                self.on_refused(name)
            }
            Change::Gone => {
                pass_over(error);
                self.free(name, remote)
            }
            Change::Same => {
                pass_over(error);
                Ok(())
            }
        }
    }

    /// The peer has ended the session in place of beginning it.
    fn on_refused(&mut self, name: u64) -> Result<(), AllocError>
        ensures { OnOk result (seen self.new ≡ refused name RemoteEnded (let_go name (freed_own name (seen self.old)))) }
    {
        self.free_own(name)?;
        self.let_go(name);
        self.refuse(name, BeginError::RemoteEnded)
    }

    /// Both ends have ended the session, this one first.
    fn on_answered(
        &mut self,
        name: u64,
        remote: u16,
        error: Option<Error>,
    ) -> Result<(), AllocError>
        ensures { OnOk result (seen self.new ≡ concluding (endpoint_of name (seen self.old)) name error (freed name remote (seen self.old))) }
    {
        let Some(endpoint) = self.endpoints.get(&name) else {
            pass_over(error);
            return self.free(name, remote);
        };
        let ending = endpoint.ending();
        let is_left = endpoint.is_left();
        self.free(name, remote)?;
        self.settle(ending, is_left, name, error)
    }

    /// Answers the `end` that waits, and lets a session go that no call is made on any more.
    fn settle(
        &mut self,
        ending: Option<u64>,
        is_left: bool,
        name: u64,
        error: Option<Error>,
    ) -> Result<(), AllocError>
        ensures { OnOk result (seen self.new ≡ concluding_for ending is_left name error (seen self.old)) }
    {
        match ending {
            Some(end) => {
                self.let_go(name);
                self.answer(end, end_reply(error))
            }
            None => {
                pass_over(error);
                self.let_go_if(is_left, name);
                Ok(())
            }
        }
    }

    fn let_go_if(&mut self, is_left: bool, name: u64)
        ensures { seen self.new ≡ concluding_for None is_left name None (seen self.old) }
    {
        if is_left {
            self.let_go(name);
        }
    }

    /// The channels of a session that is ended at both ends are free.
    fn free(&mut self, name: u64, remote: u16) -> Result<(), AllocError>
        ensures { OnOk result (seen self.new ≡ freed name remote (seen self.old)) }
    {
        self.remotes.swap_remove(&remote);
        self.free_own(name)
    }

    /// The channel of this end is free.
    fn free_own(&mut self, name: u64) -> Result<(), AllocError>
        ensures { OnOk result (seen self.new ≡ freed_own name (seen self.old)) }
    {
        let Some(endpoint) = self.endpoints.get(&name) else {
            return Ok(());
        };
        let channel = endpoint.channel();
        self.channels.swap_remove(&channel);
        self.freed.push_back(channel)?;
        Ok(())
    }
}
