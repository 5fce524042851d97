//! A session endpoint with the call that waits at it (OASIS AMQP 1.0, part 2, sections 2.5.1 and 2.5.4).
ghost use Rattle.std.specs.Prelude.{◌≡◌, [], ◌++◌, is_none, OnOk, IfOk};
ghost use Rattle.amqp_session.specs.State.{seen, framed};
ghost use Rattle.amqp_sessions.specs.Parts.{idle, named};
ghost use Rattle.amqp_sessions.specs.Endpoint.{change_between, ends, turned, hearing, change_of, having_heard, error_of, asking_end, having_asked, having_written, having_refused, handle_max_of, cut, relayed, last_words, over, emptied};

use crate::queue::{FrameQueue, InputQueue};
use amqp_composites::error::Error as AmqpError;
use amqp_frames::{ConnectionStopReason, LinkFrame, SessionFrame, SessionStopReason};
use amqp_session::{Error, LinkInput, Session, SessionState};
use amqp_text::Symbol;
use std::alloc::AllocError;
use std::marker::Model;

/// A session endpoint, and the `end` that waits for the peer's answer.
pub struct Endpoint {
    session: Session,
    /// The name of the `end` that waits.
    ending: Option<u64>,
    /// Whether calls have left it, since its `end` was refused.
    is_left: bool,
    /// Whether its links were told that nothing more comes.
    is_over: bool,
}

// An endpoint is let go by a call, so that no caller sees the parts of its session.
impl Drop for Endpoint {
    fn drop(self) {
        let Endpoint {
            session,
            ending: _,
            is_left: _,
            is_over: _,
        } = self;
        drop(session);
    }
}

impl Model for Endpoint {
    ghost use Rattle.std.specs.Coded.{codes};
    ghost use Rattle.amqp_frames.specs.contracts.body.FrameBody as body;
    ghost use Rattle.amqp_frames.specs.contracts.shared.SessionStopReason as stop_reason;
    ghost use Rattle.amqp_parts.specs.contracts.part.Part as part;
    ghost use Rattle.amqp_session.specs.contracts.session.LinkInput as input;
    ghost use Rattle.amqp_session.specs.State.{seen};
    ghost use Rattle.amqp_sessions.specs.Parts.{EndpointState};

    ghost Value = { EndpointState };

    ghost coded = { Prim.hlevel (codes, body.the_row.coded, stop_reason.the_row.coded, part.the_row.coded, input.the_row.coded) };

    ghost view = { λ e. record { session = seen e.session; ending = e.ending; is_left = e.is_left; is_over = e.is_over } };
}

/// What a frame makes of a session.
#[derive(Clone, Copy, Debug, PartialEq, Eq)]
pub enum Change {
    /// It stands as before.
    Same,
    /// The peer has begun it too.
    Begun,
    /// The peer has ended it in place of beginning it.
    Refused,
    /// The peer has ended it.
    Gone,
    /// The peer has answered the End of this end.
    Answered,
}

/// The change from one state to another.
fn change_between(old: SessionState, new: SessionState) -> Change
    ensures { result ≡ change_between old new }
{
    match (old, new) {
        (SessionState::BeginSent, SessionState::Mapped) => Change::Begun,
        (SessionState::BeginSent, SessionState::Unmapped) => Change::Refused,
        (SessionState::Mapped, SessionState::Unmapped) => Change::Gone,
        (SessionState::EndSent, SessionState::Unmapped) => Change::Answered,
        _ => Change::Same,
    }
}

/// Whether both ends have ended a session with it.
fn ends(change: Change) -> bool
    ensures { result ≡ ends change }
{
    match change {
        Change::Refused | Change::Gone | Change::Answered => true,
        Change::Same | Change::Begun => false,
    }
}

/// Has what a session has to write written behind those frames.
fn write_out(session: &mut Session, output: &mut FrameQueue) -> Result<(), AllocError>
    ensures session { OnOk result (seen session.new ≡ record (seen session.old) { output = [] }) }
    ensures output { OnOk result (output.new ≡ output.old ++ (seen session.old).output) }
{
    while let Some(frame) = session.take_output() {
        output.push(frame)?;
    }
    Ok(())
}

/// Has what a session has for its links put behind all else that links are to hear, under its name.
fn relay(session: &mut Session, name: u64, incoming: &mut InputQueue) -> Result<(), AllocError>
    ensures session { OnOk result (seen session.new ≡ record (seen session.old) { incoming = [] }) }
    ensures incoming { OnOk result (incoming.new ≡ incoming.old ++ named name (seen session.old).incoming) }
{
    while let Some(input) = session.take_for_link() {
        incoming.push(name, input)?;
    }
    Ok(())
}

/// Lets a refusal go.
fn pass_over(_error: Error) {}

/// The error of that condition, if there is one.
fn error_of(condition: Option<Symbol>) -> Option<AmqpError>
    ensures { result ≡ error_of condition }
{
    let condition = condition?;
    Some(AmqpError {
        condition,
        description: None,
        info: None,
    })
}

impl Endpoint {
    /// A session at which no call waits.
    pub(crate) fn new(session: Session) -> Self
        ensures { result ≡ idle (seen session) }
    {
        Endpoint {
            session,
            ending: None,
            is_left: false,
            is_over: false,
        }
    }

    /// The channel of this end.
    pub(crate) fn channel(&self) -> u16
        ensures { result ≡ self.now.session.channel }
    {
        self.session.channel()
    }

    /// The name of the `end` that waits.
    pub(crate) fn ending(&self) -> Option<u64>
        ensures { result ≡ self.now.ending }
    {
        self.ending
    }

    /// Whether calls have left the session, since its `end` was refused.
    pub(crate) fn is_left(&self) -> bool
        ensures { result ≡ self.now.is_left }
    {
        self.is_left
    }

    /// How far the session is.
    pub(crate) fn state(&self) -> SessionState
        ensures { result ≡ self.now.session.state }
    {
        self.session.local_state()
    }

    /// Whether no `end` waits.
    pub(crate) fn is_idle(&self) -> bool
        ensures { result ≡ is_none self.now.ending }
    {
        self.ending.is_none()
    }

    /// The highest handle that this end may use, where both ends have begun the session and none has ended it.
    pub(crate) fn handle_max(&self) -> Option<u32>
        ensures { result ≡ handle_max_of self.now.session }
    {
        match self.session.local_state() {
            SessionState::Mapped => Some(self.session.handle_max()),
            SessionState::BeginSent | SessionState::EndSent | SessionState::Unmapped => None,
        }
    }

    /// A frame of the session was read. The answer says what it makes of the session, and the refusal, if there is one, as the error
    /// with which the peer has answered the End of this end. The one error is want of memory.
    pub(crate) fn hear(
        &mut self,
        frame: SessionFrame,
    ) -> Result<(Change, Option<Error>), AllocError>
        ensures state { OnOk result (self.new ≡ having_heard (framed frame) self.old) }
        ensures answer { IfOk result (λ r. (r.0 ≡ change_of (framed frame) self.old) × (r.1 ≡ (hearing (framed frame) self.old).answer)) }
    {
        let old = self.session.local_state();
        match self.session.on_frame(frame) {
            Ok(()) => Ok((self.changed_from(old), None)),
            Err(Error::Memory(error)) => Err(error),
            Err(error) => Ok((self.changed_from(old), Some(error))),
        }
    }

    /// The change from that state.
    fn changed_from(&mut self, old: SessionState) -> Change
        ensures change { result ≡ change_between old self.old.session.state }
        ensures state { self.new ≡ turned (change_between old self.old.session.state) self.old }
    {
        let change = change_between(old, self.session.local_state());
        if ends(change) {
            self.is_over = true;
        }
        change
    }

    /// A link of the session writes a frame; it is dropped where the session is not begun at both ends. The one error is want of
    /// memory.
    pub(crate) fn write(&mut self, frame: LinkFrame) -> Result<(), AllocError>
        ensures { OnOk result (self.new ≡ having_written frame self.old) }
    {
        match self.session.on_link_frame(frame) {
            Ok(()) => Ok(()),
            Err(Error::Memory(error)) => Err(error),
            Err(error) => {
                pass_over(error);
                Ok(())
            }
        }
    }

    /// The peer has attached a link that this end does not have: the session is ended, where it is begun at both ends. The one
    /// error is want of memory.
    pub(crate) fn refuse_attach(&mut self) -> Result<(), AllocError>
        ensures { OnOk result (self.new ≡ having_refused self.old) }
    {
        match self.session.refuse_attach() {
            Ok(()) => Ok(()),
            Err(Error::Memory(error)) => Err(error),
            Err(error) => {
                pass_over(error);
                Ok(())
            }
        }
    }

    /// Ends the session under that name, for the error of that condition if there is one: the End is to be written. The answer is
    /// the refusal, where it is refused, and calls leave the session. The one error is want of memory.
    pub(crate) fn end(
        &mut self,
        name: u64,
        condition: Option<Symbol>,
    ) -> Result<Option<Error>, AllocError>
        ensures state { OnOk result (self.new ≡ having_asked name condition self.old) }
        ensures answer { IfOk result (λ refusal. refusal ≡ (asking_end condition self.old).answer) }
    {
        let error = error_of(condition);
        let ended = match error {
            Some(error) => self.session.end_with_error(error),
            None => self.session.end(),
        };
        match ended {
            Ok(()) => {
                self.ending = Some(name);
                Ok(None)
            }
            Err(Error::Memory(error)) => Err(error),
            Err(error) => {
                self.is_left = true;
                Ok(Some(error))
            }
        }
    }

    /// The session stops with its connection. The one error is want of memory.
    pub(crate) fn cut(&mut self, reason: ConnectionStopReason) -> Result<(), AllocError>
        ensures { OnOk result (self.new ≡ cut reason self.old) }
    {
        self.session
            .stop(SessionStopReason::ConnectionStopped(reason))
    }

    /// Puts what the session has for its links behind all else that links are to hear, under its name. The one error is want of
    /// memory.
    pub(crate) fn relay(&mut self, name: u64, incoming: &mut InputQueue) -> Result<(), AllocError>
        ensures session { OnOk result (self.new ≡ relayed self.old) }
        ensures incoming { OnOk result (incoming.new ≡ incoming.old ++ named name self.old.session.incoming) }
    {
        relay(&mut self.session, name, incoming)
    }

    /// Tells the links of the session that nothing more comes, where they were not told. The one error is want of memory.
    pub(crate) fn finish(&mut self, name: u64, incoming: &mut InputQueue) -> Result<(), AllocError>
        ensures session { OnOk result (self.new ≡ over self.old) }
        ensures incoming { OnOk result (incoming.new ≡ incoming.old ++ named name (last_words self.old)) }
    {
        if !self.is_over {
            incoming.push(name, LinkInput::Over)?;
            self.is_over = true;
        }
        Ok(())
    }

    /// Has what the session has to write written behind those frames, and puts what it has for its links behind all else that links
    /// are to hear. The one error is want of memory.
    pub(crate) fn write_out(
        &mut self,
        name: u64,
        output: &mut FrameQueue,
        incoming: &mut InputQueue,
    ) -> Result<(), AllocError>
        ensures session { OnOk result (self.new ≡ emptied self.old) }
        ensures output { OnOk result (output.new ≡ output.old ++ self.old.session.output) }
        ensures incoming { OnOk result (incoming.new ≡ incoming.old ++ named name self.old.session.incoming) }
    {
        write_out(&mut self.session, output)?;
        relay(&mut self.session, name, incoming)
    }
}
