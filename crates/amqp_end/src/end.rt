//! One end with its sessions and their links: what it is asked to do, and what it answers.
ghost use Rattle.std.specs.Prelude.{◌≡◌, ◌↔◌, [], None, Some, true, false, OnOk, OnErr, IfOk, IfErr, IsTrue, IsErrOf};
ghost use Rattle.std.specs.Borrow.{Lends, sem};
ghost use Rattle.amqp_end.specs.contracts.end.End.{the_row};
ghost use Rattle.amqp_end.specs.Asks.{IsNew, Takes, HasSession, TakesForLink, MayAskFor, MayAsk};
ghost use Rattle.amqp_end.specs.Goes.{Goes, on_connection, on_links};
ghost use Rattle.amqp_end.specs.Handed.{HandsAll};
ghost use Rattle.amqp_end.specs.Rests.{Rests};
ghost use Rattle.amqp_links.specs.Forgetting.{forgotten};
ghost use Rattle.amqp_links.specs.State.{seen as linked, no_links};
ghost use Rattle.amqp_peer.specs.Peering.{fresh, link_of, with_link_of};
ghost use Rattle.amqp_sessions.specs.State.{seen, none_begun};

use amqp_links::Links;
use amqp_peer::{Peer, PeerError, PeerKind};
use amqp_sessions::Sessions;
use amqp_sessions::amqp_calls::{Call, LinkCall, NamedReply, SessionCall};
use amqp_wire::link::Link;
use std::alloc::{AllocError, Global};
use std::mem;
use thiserror::Error;

/// Why a call or a poll of an end fails.
#[derive(Clone, Copy, Debug, PartialEq, Eq, Error)]
pub enum EndError {
    /// There was not enough memory. The end can go no further.
    #[error("Memory")]
    Memory(AllocError),
    /// Memory was wanting at an earlier call.
    #[error("Failed")]
    Failed,
}

impl From<AllocError> for EndError {
    ghost use Rattle.amqp_end.specs.declared.end.EndError.TheVariants.{Memory};

    ghost from_gives = { λ a e. e ≡ Memory a };

    fn from(error: AllocError) -> Self {
        EndError::Memory(error)
    }
}

/// One end over a link: its connection, the sessions on it, and their links.
pub struct End<L: Link> {
    pub(crate) connection: Peer<L>,
    pub(crate) sessions: Sessions,
    pub(crate) links: Links,
    /// Whether this end was asked to close the connection.
    pub(crate) has_closed: bool,
    /// Whether the sessions were told that the connection has stopped.
    pub(crate) has_concluded: bool,
    /// The answers that were not taken, in order.
    pub(crate) replies: Vec<NamedReply>,
    /// The name of the last call.
    pub(crate) last: Option<u64>,
    pub(crate) failed: bool,
    pub(crate) alloc: Global,
}

// An end is let go by a call, so that no caller sees what it holds.
impl<L: Link> Drop for End<L> {
    fn drop(self) {
        let End {
            connection,
            sessions,
            links,
            has_closed: _,
            has_concluded: _,
            replies,
            last: _,
            failed: _,
            alloc: _,
        } = self;
        drop(connection);
        drop(sessions);
        drop(links);
        drop(replies);
    }
}

/// Lets a call go.
fn discard(_call: Call) {}

/// Want of memory, as an end of a connection tells it.
pub(crate) fn memory_of(error: PeerError) -> AllocError {
    match error {
        PeerError::Memory(error) => error,
        PeerError::Failed => AllocError,
    }
}

impl<L: Link> End<L> {
    /// An end over that connection and with those links, on which nothing was done.
    fn new(alloc: Global, connection: Peer<L>, links: Links) -> Self
        ensures connection { result.connection ≡ connection }
        ensures sessions { seen result.sessions ≡ none_begun }
        ensures links { result.links ≡ links }
        ensures last { result.last ≡ None }
        ensures replies { result.replies.items ≡ [] }
        ensures alive { result.failed ≡ false }
    {
        End {
            connection,
            sessions: Sessions::new(alloc),
            links,
            has_closed: false,
            has_concluded: false,
            replies: Vec::new(alloc),
            last: None,
            failed: false,
            alloc,
        }
    }

    /// A client over the link. It takes no memory, so that the error, want of memory, never comes.
    pub fn client(alloc: Global, link: L) -> Result<Self, (AllocError, L)>
        ensures connection { IfOk result (λ e. e.connection ≡ fresh link PeerKind.Client) }
        ensures sessions { IfOk result (λ e. seen e.sessions ≡ none_begun) }
        ensures links { IfOk result (λ e. linked e.links ≡ no_links false) }
        ensures last { IfOk result (λ e. e.last ≡ None) }
        ensures replies { IfOk result (λ e. e.replies.items ≡ []) }
        ensures alive { IfOk result (λ e. e.failed ≡ false) }
        ensures err { IfErr result (λ e. e.1 ≡ link) }
    {
        let connection = Peer::client(alloc, link)?;
        Ok(End::new(alloc, connection, Links::new(alloc, false)))
    }

    /// A listener over the link. It takes no memory, so that the error, want of memory, never comes.
    pub fn listener(alloc: Global, link: L) -> Result<Self, (AllocError, L)>
        ensures connection { IfOk result (λ e. e.connection ≡ fresh link PeerKind.Listener) }
        ensures sessions { IfOk result (λ e. seen e.sessions ≡ none_begun) }
        ensures links { IfOk result (λ e. linked e.links ≡ no_links true) }
        ensures last { IfOk result (λ e. e.last ≡ None) }
        ensures replies { IfOk result (λ e. e.replies.items ≡ []) }
        ensures alive { IfOk result (λ e. e.failed ≡ false) }
        ensures err { IfErr result (λ e. e.1 ≡ link) }
    {
        let connection = Peer::listener(alloc, link)?;
        Ok(End::new(alloc, connection, Links::new(alloc, true)))
    }

    /// Whether a call of this name may be made now. The name is above that of each call before. Calls on the connection as its end
    /// says, but a `close` not while a `begin` or `accept_session` waits; `begin` at a client and `accept_session` at a listener,
    /// after the connection was made and before a `close`, one at a time; `end` on a session that was made, that no `end` has let
    /// go, and at which no `end` and no call for a link waits; on such sessions `sender` and `receiver` at a client and `accept_link`
    /// at a listener; and these and calls on links as the links say.
    pub fn may_call(&self, name: u64, call: &Call) -> bool
        ensures { IsTrue result ↔ MayAsk self.now name call.now }
    {
        self.is_new(name) && self.takes(name, call)
    }

    fn is_new(&self, name: u64) -> bool
        ensures { IsTrue result ↔ IsNew self.now.last name }
    {
        match self.last {
            Some(last) => last < name,
            None => true,
        }
    }

    fn takes(&self, name: u64, call: &Call) -> bool
        ensures { IsTrue result ↔ MayAskFor self.now name call.now }
    {
        match call {
            Call::Connection(call) => {
                self.sessions.waiting().is_none() && self.connection.may_call(name, call)
            }
            Call::Session(call) => self.takes_at(call) && self.sessions.may_call(call),
            Call::Link(call) => self.takes_for_link(call) && self.links.may_call(call),
        }
    }

    fn takes_at(&self, call: &SessionCall) -> bool
        ensures { IsTrue result ↔ Takes self.now.connection (linked self.now.links) call.now }
    {
        match call {
            SessionCall::Begin(_) => {
                self.connection.kind() == PeerKind::Client && self.connection.has_connection()
            }
            SessionCall::Accept(_) => {
                self.connection.kind() == PeerKind::Listener && self.connection.has_connection()
            }
            SessionCall::End { session, error: _ } => !self.links.is_busy(*session),
        }
    }

    fn takes_for_link(&self, call: &LinkCall) -> bool
        ensures { IsTrue result ↔ TakesForLink self.now.connection (seen self.now.sessions) call.now }
    {
        match call {
            LinkCall::Sender { session, .. } | LinkCall::Receiver { session, .. } => {
                self.has_session(PeerKind::Client, *session)
            }
            LinkCall::Accept { session, .. } => self.has_session(PeerKind::Listener, *session),
            LinkCall::Send { .. }
            | LinkCall::SendTimed { .. }
            | LinkCall::Outcome { .. }
            | LinkCall::Recv { .. }
            | LinkCall::Dispose { .. }
            | LinkCall::SetCredit { .. }
            | LinkCall::Credit { .. }
            | LinkCall::Regulate { .. }
            | LinkCall::Disposer { .. }
            | LinkCall::DisposeBy { .. }
            | LinkCall::Part { .. } => true,
        }
    }

    /// Whether the end is on that side, and calls may be made on that session.
    fn has_session(&self, kind: PeerKind, session: u64) -> bool
        ensures { IsTrue result ↔ HasSession kind self.now.connection session (seen self.now.sessions) }
    {
        self.connection.kind() == kind && self.sessions.may_attach(session)
    }

    /// Makes a call of this name at the moment `at`, in milliseconds, and then goes on until nothing more can be done. Want of
    /// memory is final: each later call and poll answers `Failed`.
    pub fn call(&mut self, at: u64, name: u64, call: Call) -> Result<(), EndError>
        requires { MayAsk self.old name call }
        ensures ok { OnOk result (Goes L.Link at (Some name) (on_connection name call) (on_links name call) (record self.old { last = Some name }) self.new) }
        ensures rests { OnOk result (Rests self.new) }
        ensures handed { OnOk result (HandsAll L.Link at (record self.old { last = Some name }) self.new) }
        ensures memory { OnErr result (self.new.failed ≡ true) }
        ensures failed { IsErrOf result EndError.Failed ↔ (self.old.failed ≡ true) }
    {
        if self.failed {
            discard(call);
            return Err(EndError::Failed);
        }
        match self.make(at, name, call) {
            Ok(()) => Ok(()),
            Err(error) => {
                self.failed = true;
                Err(EndError::Memory(error))
            }
        }
    }

    fn make(&mut self, at: u64, name: u64, call: Call) -> Result<(), AllocError>
        requires { MayAsk self.old name call }
        ensures ok { OnOk result (Goes L.Link at (Some name) (on_connection name call) (on_links name call) (record self.old { last = Some name }) self.new) }
        ensures rests { OnOk result (Rests self.new) }
        ensures handed { OnOk result (HandsAll L.Link at (record self.old { last = Some name }) self.new) }
    {
        self.last = Some(name);
        match call {
            Call::Connection(call) => self.call_connection(at, name, call),
            Call::Session(call) => self.call_session(at, name, call),
            Call::Link(call) => self.call_link(at, name, call),
        }
    }

    /// Goes on at the moment `at`, in milliseconds, until nothing more can be done. Want of memory is final: each later call and
    /// poll answers `Failed`.
    pub fn poll(&mut self, at: u64) -> Result<(), EndError>
        ensures ok { OnOk result (Goes L.Link at None [] [] self.old self.new) }
        ensures rests { OnOk result (Rests self.new) }
        ensures handed { OnOk result (HandsAll L.Link at self.old self.new) }
        ensures memory { OnErr result (self.new.failed ≡ true) }
        ensures failed { IsErrOf result EndError.Failed ↔ (self.old.failed ≡ true) }
    {
        if self.failed {
            return Err(EndError::Failed);
        }
        match self.go_on(at) {
            Ok(()) => Ok(()),
            Err(error) => {
                self.failed = true;
                Err(EndError::Memory(error))
            }
        }
    }

    /// The replies since they were last taken out, in order.
    pub fn replies(&mut self) -> Vec<NamedReply>
        ensures taken { result.items ≡ self.old.replies.items }
        ensures left { self.new.replies.items ≡ [] }
        ensures connection { self.new.connection ≡ self.old.connection }
        ensures sessions { self.new.sessions ≡ self.old.sessions }
        ensures links { self.new.links ≡ self.old.links }
        ensures last { self.new.last ≡ self.old.last }
        ensures alive { self.new.failed ≡ self.old.failed }
    {
        mem::replace(&mut self.replies, Vec::new(self.alloc))
    }

    /// Forgets which message the call of that name has sent, or which delivery it was given, so that an end which lives long does not grow
    /// with each: no later call may name it. The link itself goes on as it would. Takes no memory, and does nothing for another name.
    pub fn forget(&mut self, name: u64)
        ensures links { linked self.new.links ≡ forgotten name (linked self.old.links) }
        ensures connection { self.new.connection ≡ self.old.connection }
        ensures sessions { self.new.sessions ≡ self.old.sessions }
        ensures replies { self.new.replies ≡ self.old.replies }
        ensures last { self.new.last ≡ self.old.last }
        ensures alive { self.new.failed ≡ self.old.failed }
    {
        self.links.forget(name);
    }

    /// The link.
    pub fn link(&mut self) -> &mut L
        ensures* writes_back { sem 𝓛 (Lends (the_row L.row L.Link) L.row self.entry result (λ w. record self.old { connection = with_link_of self.old.connection w })) }
        ensures value { (d : L) → result.now ≡ link_of d self.old.connection }
    {
        self.connection.link()
    }

    /// The link, to be looked at.
    pub fn link_ref(&self) -> &L
        ensures { (d : L) → result.now ≡ link_of d self.now.connection }
    {
        self.connection.link_ref()
    }
}
