//! The calls of an end.
ghost use Rattle.std.specs.Prelude.{◌≡◌, ℕ, [], ◌∷◌, Option, Some, OnOk, IfOk};
ghost use Rattle.amqp_end.specs.Goes.{Goes, GoesOn, GoesOnFor, Seated};
ghost use Rattle.amqp_end.specs.Handed.{HandsAll};
ghost use Rattle.amqp_end.specs.Named.{IsBy};
ghost use Rattle.amqp_end.specs.Rests.{Rests};
ghost use Rattle.amqp_peer.specs.Peering.{MayCall};
ghost use Rattle.amqp_sessions.specs.State.{seen};

use crate::end::{End, memory_of};
use amqp_composites::error::Error as AmqpError;
use amqp_engine::AllocSessionError;
use amqp_frames::ConnectionStopReason;
use amqp_session::BeginError;
use amqp_sessions::amqp_calls::{SessionCall, SessionNumbers};
use amqp_text::Symbol;
use amqp_wire::link::Link;
use amqp_words::Call as ConnectionCall;
use amqp_words::copies::copied_symbol;
use std::alloc::{AllocError, Global};

/// For what a call closes the connection, if it does.
fn own_reason(
    alloc: Global,
    call: &ConnectionCall,
) -> Result<Option<ConnectionStopReason>, AllocError> {
    match call {
        ConnectionCall::Close { error: Some(error) } => {
            let condition = copied_symbol(alloc, error)?;
            Ok(Some(ConnectionStopReason::ClosedWithError(AmqpError {
                condition,
                description: None,
                info: None,
            })))
        }
        ConnectionCall::Close { error: None } => Ok(Some(ConnectionStopReason::Closed)),
        ConnectionCall::Open { .. } | ConnectionCall::Accept { .. } => Ok(None),
    }
}

impl<L: Link> End<L> {
    /// Makes a call on the connection. A `close` stops the sessions.
    pub(crate) fn call_connection(
        &mut self,
        at: u64,
        name: u64,
        call: ConnectionCall,
    ) -> Result<(), AllocError>
        requires { MayCall self.old.connection name call }
        ensures goes { OnOk result (Goes L.Link at (Some name) ((name, call) ∷ []) [] self.old self.new) }
        ensures rests { OnOk result (Rests self.new) }
        ensures handed { OnOk result (HandsAll L.Link at self.old self.new) }
    {
        self.know(at);
        self.stop_sessions(&call)?;
        match self.connection.call(at, name, call) {
            Ok(()) => {}
            Err(error) => return Err(memory_of(error)),
        }
        self.take_up()?;
        self.steps(at)?;
        self.look()
    }

    /// A `close` stops the sessions, of which their links hear. What was left between them is handed on whatever the call.
    fn stop_sessions(&mut self, call: &ConnectionCall) -> Result<(), AllocError>
        ensures ok { OnOk result ((at : ℕ) → GoesOn L.Link at self.old self.new) }
        ensures connection { self.new.connection ≡ self.old.connection }
        ensures handed { OnOk result ((at : ℕ) → HandsAll L.Link at self.old self.new) }
    {
        self.halt_for(call)?;
        self.hand_on_all()
    }

    /// The sessions stop where the call is a `close`.
    fn halt_for(&mut self, call: &ConnectionCall) -> Result<(), AllocError>
        ensures ok { OnOk result ((at : ℕ) → GoesOn L.Link at self.old self.new) }
        ensures connection { self.new.connection ≡ self.old.connection }
    {
        match own_reason(self.alloc, call)? {
            Some(reason) => {
                self.has_closed = true;
                self.sessions.halt(&reason)
            }
            None => Ok(()),
        }
    }

    /// Makes a call for a session: what it answers at once comes first, then what was read, then what the call writes.
    pub(crate) fn call_session(
        &mut self,
        at: u64,
        name: u64,
        call: SessionCall,
    ) -> Result<(), AllocError>
        ensures goes { OnOk result (Goes L.Link at (Some name) [] [] self.old self.new) }
        ensures rests { OnOk result (Rests self.new) }
        ensures handed { OnOk result (HandsAll L.Link at self.old self.new) }
    {
        let session = self.ask(name, call)?;
        self.collect()?;
        self.run(at)?;
        self.let_out(session)?;
        self.steps(at)
    }

    /// The frames of a session go out, and its links hear what it has for them.
    fn let_out(&mut self, session: u64) -> Result<(), AllocError>
        ensures goes { OnOk result ((at : ℕ) → GoesOn L.Link at self.old self.new) }
        ensures handed { OnOk result ((at : ℕ) → HandsAll L.Link at self.old self.new) }
    {
        self.sessions.hand_out(session)?;
        self.hand_on_all()?;
        self.hand_over()
    }

    /// Makes the call. The answer is the name of the session whose frames it writes.
    fn ask(&mut self, name: u64, call: SessionCall) -> Result<u64, AllocError>
        ensures { OnOk result ((at : ℕ) → GoesOnFor L.Link at (Some name) self.old self.new) }
    {
        match call {
            SessionCall::Begin(numbers) => {
                self.begin(name, numbers)?;
                Ok(name)
            }
            SessionCall::Accept(numbers) => {
                self.accept(name, numbers)?;
                Ok(name)
            }
            SessionCall::End { session, error } => {
                self.end_session(name, session, error)?;
                Ok(session)
            }
        }
    }

    fn end_session(
        &mut self,
        name: u64,
        session: u64,
        error: Option<Symbol>,
    ) -> Result<(), AllocError>
        ensures { OnOk result ((at : ℕ) → GoesOnFor L.Link at (Some name) self.old self.new) }
    {
        self.sessions.end(name, session, error)
    }

    /// A channel for a session: none where the call of that name is refused, and answered so.
    fn seat(&mut self, name: u64) -> Result<Option<u16>, AllocError>
        ensures { IfOk result (Seated L.Link name self.old self.new) }
    {
        if !self.connection.is_open() {
            self.sessions.refuse(name, BeginError::IllegalState)?;
            return Ok(None);
        }
        match self.connection.allocate_session() {
            Ok(channel) => Ok(Some(channel)),
            Err(AllocSessionError::Memory(error)) => Err(error),
            Err(AllocSessionError::ChannelMaxReached) => {
                self.sessions
                    .refuse(name, BeginError::LocalChannelMaxReached)?;
                Ok(None)
            }
        }
    }

    /// The limit of a session's frames, in bytes.
    fn frame_limit(&self) -> u32 {
        u32::try_from(self.connection.max_frame_size()).unwrap_or(u32::MAX)
    }

    fn begin(&mut self, name: u64, numbers: SessionNumbers) -> Result<(), AllocError>
        ensures { OnOk result ((at : ℕ) → GoesOnFor L.Link at (Some name) self.old self.new) }
    {
        let limit = self.frame_limit();
        match self.seat(name)? {
            Some(channel) => self.sessions.begin(name, numbers, channel, limit),
            None => Ok(()),
        }
    }

    fn accept(&mut self, name: u64, numbers: SessionNumbers) -> Result<(), AllocError>
        ensures { OnOk result ((at : ℕ) → GoesOnFor L.Link at (Some name) self.old self.new) }
    {
        if self.connection.incoming_session().is_none() {
            return self.sessions.await_begin(name, numbers);
        }
        self.accept_first(name, numbers)
    }

    /// Accepts the first session that the peer has begun and that waits.
    pub(crate) fn accept_first(
        &mut self,
        name: u64,
        numbers: SessionNumbers,
    ) -> Result<(), AllocError>
        ensures { OnOk result ((at : ℕ) (call : Option ℕ) → IsBy call (seen self.old.sessions) name → GoesOnFor L.Link at call self.old self.new) }
    {
        let limit = self.frame_limit();
        let Some(channel) = self.seat(name)? else {
            return Ok(());
        };
        match self.connection.next_incoming_session() {
            Some(incoming) => self
                .sessions
                .accept(name, numbers, channel, limit, incoming),
            None => Ok(()),
        }
    }
}
