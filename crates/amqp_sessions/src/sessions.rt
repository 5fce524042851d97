//! The session endpoints of a connection.
ghost use Rattle.std.specs.Prelude.{◌≡◌, ◌↔◌, IsTrue, ℕ, [], nat_eq, option_map, OnOk, IfOk};
ghost use Rattle.amqp_calls.specs.declared.reply.SessionReply.TheVariants as reply;
ghost use Rattle.amqp_session.specs.State.{framed, seen as session_of};
ghost use Rattle.amqp_sessions.specs.Calls.{MayCall, MayEnd, begins, settings, begun, awaiting, accepted, entered, left, ended};
ghost use Rattle.amqp_sessions.specs.Frames.{joined, refused};
ghost use Rattle.amqp_sessions.specs.State.{seen, none_begun, let_go, answering, handed_out, TakesFrame, TakesChannel};

use crate::endpoint::Endpoint;
use crate::queue::{FrameQueue, InputQueue};
use amqp_calls::{NamedReply, Reply, SessionCall, SessionNumbers, SessionReply};
use amqp_frames::{IncomingSession, SessionFrame};
use amqp_session::{BeginError, Session, SessionSettings, SessionState};
use amqp_text::Symbol;
use indexmap::IndexMap;
use std::alloc::{AllocError, Global};
use std::collections::VecDeque;
use std::mem;

/// The call for a session that waits on the connection. There is one at most.
#[derive(Clone, Copy, Debug, PartialEq, Eq)]
pub enum Waiting {
    /// A `begin` of this name waits for the peer's Begin.
    Begin(u64),
    /// An `accept_session` of this name waits for a Begin that no session answers yet.
    Accept(u64, SessionNumbers),
}

/// The session endpoints of a connection. A session is known by the name of the call that made it, its frames by the channel.
pub struct Sessions {
    pub(crate) alloc: Global,
    /// The sessions that no call has left, and those whose End of the peer is awaited, by their names.
    pub(crate) endpoints: IndexMap<u64, Endpoint>,
    /// The name of the session on each channel of this end.
    pub(crate) channels: IndexMap<u16, u64>,
    /// The name of the session on each channel of the peer.
    pub(crate) remotes: IndexMap<u16, u64>,
    /// The frames of each channel of the peer whose Begin no session answers yet.
    pub(crate) early: IndexMap<u16, FrameQueue>,
    /// The call that waits on the connection.
    pub(crate) waiting: Option<Waiting>,
    /// The frames to be written, in order.
    pub(crate) output: FrameQueue,
    /// What the sessions have for their links, in order.
    pub(crate) incoming: InputQueue,
    /// The channels of this end whose session is ended at both ends.
    pub(crate) freed: VecDeque<u16>,
    /// The answers that were not taken, in order.
    pub(crate) replies: Vec<NamedReply>,
}

// The sessions are let go by a call, so that no caller sees the frames that wait.
impl Drop for Sessions {
    fn drop(self) {
        let Sessions {
            alloc: _,
            endpoints,
            channels,
            remotes,
            early,
            waiting: _,
            output,
            incoming,
            freed,
            replies,
        } = self;
        drop(endpoints);
        drop(channels);
        drop(remotes);
        drop(early);
        drop(output);
        drop(incoming);
        drop(freed);
        drop(replies);
    }
}

/// What a session is built with.
fn settings(numbers: SessionNumbers, max_frame_size: u32) -> SessionSettings
    ensures { result ≡ settings numbers max_frame_size }
{
    SessionSettings {
        next_outgoing_id: numbers.next_outgoing_id,
        incoming_window: numbers.incoming_window,
        outgoing_window: numbers.outgoing_window,
        handle_max: numbers.handle_max,
        offered_capabilities: None,
        desired_capabilities: None,
        properties: None,
        max_frame_size,
    }
}

/// Want of memory alone refuses a session whose channel is known.
fn made(session: Result<Session, BeginError>) -> Result<Session, AllocError>
    ensures { IfOk result (λ made. session ≡ Ok made) }
{
    match session {
        Ok(session) => Ok(session),
        Err(BeginError::Memory(error)) => Err(error),
        Err(_) => Err(AllocError),
    }
}

impl Sessions {
    /// No sessions; takes no memory.
    pub fn new(alloc: Global) -> Self
        ensures { seen result ≡ none_begun }
    {
        Sessions {
            alloc,
            endpoints: IndexMap::new(alloc),
            channels: IndexMap::new(alloc),
            remotes: IndexMap::new(alloc),
            early: IndexMap::new(alloc),
            waiting: None,
            output: FrameQueue::new(alloc),
            incoming: InputQueue::new(alloc),
            freed: VecDeque::new(alloc),
            replies: Vec::new(alloc),
        }
    }

    /// The call that waits on the connection.
    pub fn waiting(&self) -> Option<Waiting>
        ensures { result ≡ (seen self.now).waiting }
    {
        self.waiting
    }

    /// Whether the sessions take a call: a `begin` or `accept_session` while none waits, an `end` on a session that was made, that no
    /// call has let go, and at which no call waits.
    pub fn may_call(&self, call: &SessionCall) -> bool
        ensures { IsTrue result ↔ MayCall (seen self.now) call.now }
    {
        match call {
            SessionCall::Begin(_) | SessionCall::Accept(_) => self.waiting.is_none(),
            SessionCall::End { session, error: _ } => self.may_end(*session),
        }
    }

    /// Whether the `begin` of that name waits.
    fn is_begun(&self, session: u64) -> bool
        ensures { result ≡ begins session (seen self.now).waiting }
    {
        match self.waiting {
            Some(Waiting::Begin(name)) => name == session,
            Some(Waiting::Accept(_, _)) | None => false,
        }
    }

    /// Whether a call may be made on that session.
    pub(crate) fn may_end(&self, session: u64) -> bool
        ensures { IsTrue result ↔ MayEnd session (seen self.now) }
    {
        if self.is_begun(session) {
            return false;
        }
        match self.endpoints.get(&session) {
            Some(endpoint) => endpoint.is_idle() && !endpoint.is_left(),
            None => false,
        }
    }

    /// Answers the call of a name. The one error is want of memory.
    pub fn answer(&mut self, name: u64, reply: SessionReply) -> Result<(), AllocError>
        ensures { OnOk result (seen self.new ≡ answering name reply (seen self.old)) }
    {
        self.replies.push(NamedReply {
            name,
            reply: Reply::Session(reply),
        })?;
        Ok(())
    }

    /// Enters a session under that name.
    fn enter(&mut self, name: u64, channel: u16, session: Session) -> Result<(), AllocError>
        ensures { OnOk result (seen self.new ≡ entered name channel (session_of session) (seen self.old)) }
    {
        self.endpoints.insert(name, Endpoint::new(session))?;
        self.channels.insert(channel, name)?;
        Ok(())
    }

    /// Begins a session under that name on a channel of this end; its Begin goes out with `hand_out`. The one error is want of memory.
    pub fn begin(
        &mut self,
        name: u64,
        numbers: SessionNumbers,
        channel: u16,
        max_frame_size: u32,
    ) -> Result<(), AllocError>
        ensures { OnOk result (seen self.new ≡ begun name numbers channel max_frame_size (seen self.old)) }
    {
        let settings = settings(numbers, max_frame_size);
        let session = made(Session::begin(self.alloc, settings, channel))?;
        self.enter(name, channel, session)?;
        self.waiting = Some(Waiting::Begin(name));
        self.answer(name, SessionReply::Pending)
    }

    /// An `accept_session` of that name waits. The one error is want of memory.
    pub fn await_begin(&mut self, name: u64, numbers: SessionNumbers) -> Result<(), AllocError>
        ensures { OnOk result (seen self.new ≡ awaiting name numbers (seen self.old)) }
    {
        self.waiting = Some(Waiting::Accept(name, numbers));
        self.answer(name, SessionReply::Pending)
    }

    /// A session stands on the peer's channel, and its call waits no more.
    pub(crate) fn join(&mut self, name: u64, remote: u16) -> Result<(), AllocError>
        ensures { OnOk result (seen self.new ≡ joined name remote (seen self.old)) }
    {
        self.remotes.insert(remote, name)?;
        self.waiting = None;
        self.answer(name, SessionReply::Session)
    }

    /// Answers the peer's Begin under that name with a session on a channel of this end; its Begin goes out with `hand_out`. The
    /// session hears what the peer has written on its channel since. The one error is want of memory.
    pub fn accept(
        &mut self,
        name: u64,
        numbers: SessionNumbers,
        channel: u16,
        max_frame_size: u32,
        incoming: IncomingSession,
    ) -> Result<(), AllocError>
        ensures { OnOk result (seen self.new ≡ accepted name numbers channel max_frame_size incoming (seen self.old)) }
    {
        let remote = incoming.channel;
        let settings = settings(numbers, max_frame_size);
        let session = made(Session::accept(self.alloc, settings, channel, incoming))?;
        self.enter(name, channel, session)?;
        self.join(name, remote)?;
        self.hear_early(remote)
    }

    /// Refuses the call of that name; an `accept_session` that waited waits no more. The one error is want of memory.
    pub fn refuse(&mut self, name: u64, error: BeginError) -> Result<(), AllocError>
        ensures { OnOk result (seen self.new ≡ refused name error (seen self.old)) }
    {
        self.waiting = None;
        self.answer(name, SessionReply::BeginError(error))
    }

    /// Ends a session under that name; its End goes out with `hand_out`. The one error is want of memory.
    pub fn end(
        &mut self,
        name: u64,
        session: u64,
        condition: Option<Symbol>,
    ) -> Result<(), AllocError>
        ensures { OnOk result (seen self.new ≡ ended name session condition (seen self.old)) }
    {
        let Some(endpoint) = self.endpoints.get_mut(&session) else {
            drop(condition);
            return Ok(());
        };
        match endpoint.end(name, condition)? {
            None => self.answer(name, SessionReply::Pending),
            Some(error) => {
                self.leave(session);
                self.answer(name, SessionReply::SessionError(error))
            }
        }
    }

    /// Lets a session go that calls have left, but where the peer's End is awaited.
    fn leave(&mut self, session: u64)
        ensures { seen self.new ≡ left session (seen self.old) }
    {
        let Some(endpoint) = self.endpoints.get(&session) else {
            return;
        };
        match endpoint.state() {
            SessionState::EndSent => {}
            SessionState::BeginSent | SessionState::Mapped | SessionState::Unmapped => {
                self.let_go(session);
            }
        }
    }

    /// Lets the session of that name go.
    pub(crate) fn let_go(&mut self, session: u64)
        ensures { seen self.new ≡ let_go session (seen self.old) }
    {
        drop(self.endpoints.swap_remove(&session));
    }

    /// Has the frames of a session written behind those that are to be written, and puts what it has for its links behind what links
    /// are to hear. The one error is want of memory.
    pub fn hand_out(&mut self, session: u64) -> Result<(), AllocError>
        ensures { OnOk result (seen self.new ≡ handed_out session (seen self.old)) }
    {
        match self.endpoints.get_mut(&session) {
            Some(endpoint) => endpoint.write_out(session, &mut self.output, &mut self.incoming),
            None => Ok(()),
        }
    }

    /// The first frame to be written.
    pub fn take_output(&mut self) -> Option<SessionFrame>
        ensures { TakesFrame (seen self.old) (option_map framed result) (seen self.new) }
    {
        self.output.pop()
    }

    /// A channel of this end that is free again.
    pub fn take_freed(&mut self) -> Option<u16>
        ensures { TakesChannel (seen self.old) result (seen self.new) }
    {
        self.freed.pop_front()
    }

    /// The answers since they were last taken, in order.
    pub fn take_replies(&mut self) -> Vec<NamedReply>
        ensures replies { result.items ≡ (seen self.old).replies }
        ensures state { seen self.new ≡ record (seen self.old) { replies = [] } }
    {
        mem::replace(&mut self.replies, Vec::new(self.alloc))
    }
}
