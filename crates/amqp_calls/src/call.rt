//! What an end is asked to do.
ghost use Rattle.std.specs.Prelude.{◌≡◌, IfOk};

use amqp_link_words::LinkCall;
use amqp_text::Symbol;
use amqp_words::Call as ConnectionCall;
use amqp_words::copies::copied_symbol;
use std::alloc::{AllocError, Global};

/// What an end says of itself as a session begins (OASIS AMQP 1.0, part 2, section 2.7.2).
#[derive(Clone, Copy, Debug, PartialEq, Eq)]
pub struct SessionNumbers {
    /// The number of the first transfer that it sends.
    pub next_outgoing_id: u32,
    /// How many transfers it takes before it announces more.
    pub incoming_window: u32,
    /// How many transfers it may send.
    pub outgoing_window: u32,
    /// The highest handle that the peer may use.
    pub handle_max: u32,
}

/// A call on a connection for a session, or on a session.
#[derive(Debug, Drop)]
pub enum SessionCall {
    /// The client begins a session.
    Begin(SessionNumbers),
    /// The listener accepts the first session that the client has begun and that waits, or the next.
    Accept(SessionNumbers),
    /// Either end ends a session.
    End {
        /// The name of the call that made the session.
        session: u64,
        /// The condition of the error for which it does, if it is for one (part 2, section 2.8.14).
        error: Option<Symbol>,
    },
}

/// A call of an end.
#[derive(Debug, Drop)]
pub enum Call {
    /// On its connection.
    Connection(ConnectionCall),
    /// For its sessions.
    Session(SessionCall),
    /// For their links.
    Link(LinkCall),
}

impl SessionCall {
    /// A copy; the one error is want of memory.
    pub fn try_clone(&self, alloc: Global) -> Result<Self, AllocError>
        ensures { IfOk result (λ c. c ≡ self.now) }
    {
        match self {
            SessionCall::Begin(numbers) => Ok(SessionCall::Begin(*numbers)),
            SessionCall::Accept(numbers) => Ok(SessionCall::Accept(*numbers)),
            SessionCall::End {
                session,
                error: Some(error),
            } => {
                let error = copied_symbol(alloc, error)?;
                Ok(SessionCall::End {
                    session: *session,
                    error: Some(error),
                })
            }
            SessionCall::End {
                session,
                error: None,
            } => Ok(SessionCall::End {
                session: *session,
                error: None,
            }),
        }
    }
}

impl Call {
    /// A copy; the one error is want of memory.
    pub fn try_clone(&self, alloc: Global) -> Result<Self, AllocError>
        ensures { IfOk result (λ c. c ≡ self.now) }
    {
        match self {
            Call::Connection(call) => {
                let call = call.try_clone(alloc)?;
                Ok(Call::Connection(call))
            }
            Call::Session(call) => {
                let call = call.try_clone(alloc)?;
                Ok(Call::Session(call))
            }
            Call::Link(call) => {
                let call = call.try_clone(alloc)?;
                Ok(Call::Link(call))
            }
        }
    }
}
