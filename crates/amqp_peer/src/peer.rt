//! One end of a connection: what it is asked to do, and what it answers.
ghost use Rattle.std.specs.Prelude.{◌≡◌, ◌↔◌, ◌≤◌, ◌<◌, ◌+◌, ◌^◌, List, ℕ, [], ◌∷◌, ◌++◌, length, true, false, Ok, Err, Option, Some, None, IfOk, OnOk, OnErr, IsTrue, IsErrOf, IfErr, option_map};
ghost use Rattle.std.specs.Borrow.{Lends, sem};
ghost use Rattle.amqp_peer.specs.contracts.peer.Peer.{the_row};
ghost use Rattle.amqp_peer.specs.declared.peer.PeerError.TheVariants.{Memory};
ghost use Rattle.amqp_opening.specs.Authentication.{MadeFor, holds_by};
ghost use Rattle.amqp_opening.specs.Permission.{IsAllowedSaslCall};
ghost use Rattle.amqp_opening.specs.declared.authentication.SaslCall.{SaslCall};
ghost use Rattle.amqp_words.specs.declared.call.Call.{Call};
ghost use Rattle.amqp_peer.specs.declared.peer.Progress.{Progress};
ghost use Rattle.amqp_peer.specs.Calls.{IsAllowedLayer};
ghost use Rattle.amqp_peer.specs.Handed.{HandsOn, HandsLast};
ghost use Rattle.amqp_peer.specs.Held.{IsThere, IsEarly, IsReady, IsExchanged, IsActive, IsLate, FitsCall, with_link};
ghost use Rattle.amqp_peer.specs.History.{Made, Polled};
ghost use Rattle.amqp_peer.specs.Peering.{Peering, fresh, link_of, MayCall};
ghost use Rattle.amqp_peer.specs.Prepared.{prepared_of, sasl_of, error_for};
ghost use Rattle.amqp_peer.specs.Runs.{Stepped, AdvancedFrom, Worked, Rested, RestedFrom, IsAsked, IsAskedToClose, IsToClose, Refused, open_error_of, open_failure, open_reply, close_reply, told_of, first_fault, error_in, told, finished, concluded, greeted_if, greeted, without_memory, IsCloseNoted};

use crate::drops::discard;
use crate::held::{Held, Way};
use crate::prepared::{Prepared, client_prepared, client_sasl, listener_prepared, listener_sasl};
use crate::valid::is_first_call;
use amqp_composites::error::Error as AmqpError;
use amqp_engine::{EngineStep, Error as ConnectionError};
use amqp_frames::ConnectionStopReason;
use amqp_opening::authentication::{Authentication, SaslCall, exchange_for};
use amqp_opening::opening::{OpeningPoll, memory_in};
use amqp_text::Symbol;
use amqp_wire::link::Link;
use amqp_words::copies::copied_error;
use amqp_words::{Call, NamedReply, OpenError, Reply, ReplyList};
use sasl_gate::NegotiationError;
use std::alloc::{AllocError, Global};
use std::marker::Model;
use std::mem;
use thiserror::Error;

/// The most reads of the exchange of headers that give bytes, in a call or a poll.
const READS_OF_CALL: u64 = 1 << 62;

/// The most steps of the connection in a call or a poll; each reads at most one frame.
const STEPS_OF_CALL: u64 = 1 << 62;

/// Which side of a connection an end is.
#[derive(Clone, Copy, Debug, PartialEq, Eq)]
pub enum PeerKind {
    /// It opens the connection.
    Client,
    /// It accepts the connection.
    Listener,
}

/// How far the calls of an end are.
#[derive(Clone, Copy, Debug, PartialEq, Eq)]
pub enum Progress {
    /// No call was made.
    Idle,
    /// The connection is being opened.
    Opening,
    /// It is open, as far as the caller was told.
    Open,
    /// It is being closed by a call.
    Closing,
    /// The last call has its last answer.
    Over,
}

/// Why a call or a poll of an end fails.
#[derive(Clone, Copy, Debug, PartialEq, Eq, Error)]
pub enum PeerError {
    /// There was not enough memory. The end can go no further.
    #[error("Memory")]
    Memory(AllocError),
    /// Memory was wanting at an earlier call.
    #[error("Failed")]
    Failed,
}

impl From<AllocError> for PeerError {
    ghost from_gives = { λ a e. e ≡ Memory a };

    fn from(error: AllocError) -> Self {
        PeerError::Memory(error)
    }
}

/// One end over a link.
pub struct Peer<L: Link> {
    pub(crate) held: Held<L>,
    pub(crate) kind: PeerKind,
    pub(crate) progress: Progress,
    name: u64,
    fault: Option<ConnectionError>,
    replies: ReplyList,
    pub(crate) failed: bool,
    alloc: Global,
}

// An end is let go by a call, so that no caller sees what it holds.
impl<L: Link> Drop for Peer<L> {
    fn drop(self) {
        let Peer {
            held,
            kind: _,
            progress: _,
            name: _,
            fault,
            replies,
            failed: _,
            alloc: _,
        } = self;
        drop(held);
        drop(fault);
        drop(replies);
    }
}

impl<L: Link> Model for Peer<L> {
    ghost use Rattle.amqp_peer.specs.Peering.{Peering};
    ghost use Rattle.amqp_peer.specs.Held.{IsThere};
    ghost use Rattle.amqp_fields.specs.contracts.map.FieldMap as map;
    ghost use Rattle.amqp_frames.specs.contracts.shared.ConnectionStopReason as stop_reason;
    ghost use Rattle.amqp_frames.specs.contracts.shared.IncomingSession as asked;
    ghost use Rattle.amqp_transport.specs.contracts.frames.Frame as frame;
    ghost use Rattle.std.specs.Coded.{codes};

    ghost Value = { Peering L };

    ghost coded = { Prim.hlevel (codes, map.the_row.coded, stop_reason.the_row.coded, asked.the_row.coded, frame.the_row.coded) };

    ghost view = { λ p. record { held = p.held; kind = p.kind; progress = p.progress; name = p.name; fault = p.fault; replies = p.replies; failed = p.failed } };

    ghost invariant = { λ p. IsThere p.held };
}

// Why an open or accept failed: a connection that has stopped before it was made always tells why.
fn open_failure(error: Option<ConnectionError>) -> OpenError
    ensures { result ≡ open_failure error }
{
    match error {
        Some(error) => open_error_of(error),
        None => OpenError::IllegalState,
    }
}

// How a close is answered in the end.
fn close_reply(error: Option<ConnectionError>) -> Reply
    ensures { result ≡ close_reply error }
{
    match error {
        Some(error) => Reply::ConnectionError(error),
        None => Reply::Closed,
    }
}

// What an open or accept is answered for a fault.
fn open_error_of(fault: ConnectionError) -> OpenError
    ensures { result ≡ open_error_of fault }
{
    match fault {
        ConnectionError::TransportError(error) => OpenError::TransportError(error),
        ConnectionError::RemoteClosed => OpenError::RemoteClosed,
        ConnectionError::RemoteClosedWithError(error) => OpenError::RemoteClosedWithError(error),
        ConnectionError::Memory(_)
        | ConnectionError::IllegalState
        | ConnectionError::NotImplemented
        | ConnectionError::NotFound => OpenError::IllegalState,
    }
}

// Want of memory apart from the other faults.
fn without_memory(error: ConnectionError) -> Result<ConnectionError, AllocError>
    ensures { result ≡ without_memory error }
{
    match error {
        ConnectionError::Memory(error) => Err(error),
        error => Ok(error),
    }
}

// What the caller is told of the reason for which a connection has stopped: none where this end closed it.
fn told_of(
    alloc: Global,
    reason: Option<&ConnectionStopReason>,
) -> Result<Option<ConnectionError>, AllocError>
    ensures { IfOk result (λ e. e ≡ told_of (option_map (λ r. r.now) reason.entry)) }
{
    match reason {
        Some(ConnectionStopReason::RemoteClosed) => Ok(Some(ConnectionError::RemoteClosed)),
        Some(ConnectionStopReason::RemoteClosedWithError(error)) => {
            let error = copied_error(alloc, error)?;
            Ok(Some(ConnectionError::RemoteClosedWithError(error)))
        }
        _ => Ok(None),
    }
}

// The error of a condition.
fn error_for(condition: Option<Symbol>) -> Option<AmqpError>
    ensures { result ≡ error_for condition }
{
    match condition {
        Some(condition) => Some(AmqpError {
            condition,
            description: None,
            info: None,
        }),
        None => None,
    }
}

impl<L: Link> Peer<L> {
    fn new(alloc: Global, link: L, kind: PeerKind) -> Self
        ensures { result ≡ fresh link kind }
    {
        Peer {
            held: Held::new(alloc, link),
            kind,
            progress: Progress::Idle,
            name: 0,
            fault: None,
            replies: ReplyList::new(alloc),
            failed: false,
            alloc,
        }
    }

    /// A client over the link. It takes no memory, so that the error, want of memory, never comes.
    pub fn client(alloc: Global, link: L) -> Result<Self, (AllocError, L)>
        ensures ok { IfOk result (λ p. p ≡ fresh link PeerKind.Client) }
        ensures err { IfErr result (λ e. e.1 ≡ link) }
    {
        Ok(Peer::new(alloc, link, PeerKind::Client))
    }

    /// A listener over the link. It takes no memory, so that the error, want of memory, never comes.
    pub fn listener(alloc: Global, link: L) -> Result<Self, (AllocError, L)>
        ensures ok { IfOk result (λ p. p ≡ fresh link PeerKind.Listener) }
        ensures err { IfErr result (λ e. e.1 ≡ link) }
    {
        Ok(Peer::new(alloc, link, PeerKind::Listener))
    }

    /// Whether a call of this name may be made now: the client's first call is `open`, the listener's `accept`, and each comes
    /// once; nonce, salt and count are allowed. A `close` comes once, after the connection was made,
    /// under a name above that of the first call.
    pub fn may_call(&self, name: u64, call: &Call) -> bool
        ensures { IsTrue result ↔ MayCall self.now name call.now }
    {
        match self.progress {
            Progress::Idle => is_first_call(self.kind, call),
            Progress::Open => matches!(call, Call::Close { .. }) && name > self.name,
            Progress::Opening | Progress::Closing | Progress::Over => false,
        }
    }

    // Answers the call that was made.
    fn answer(&mut self, reply: Reply) -> Result<(), AllocError>
        ensures ok { OnOk result (self.new ≡ record self.old { replies = self.old.replies ++ record { name = self.old.name; reply = reply } ∷ [] }) }
        ensures err { OnErr result (self.new ≡ self.old) }
    {
        self.replies.push(NamedReply {
            name: self.name,
            reply,
        })?;
        Ok(())
    }

    // Answers the call that was made, for the last time.
    fn finish(&mut self, reply: Reply) -> Result<(), AllocError>
        ensures ok { OnOk result (self.new ≡ told self.old reply) }
        ensures alive { self.new.failed ≡ self.old.failed }
    {
        self.progress = Progress::Over;
        self.answer(reply)
    }

    // The first fault is kept.
    pub(crate) fn note(&mut self, error: ConnectionError)
        ensures { self.new ≡ record self.old { fault = first_fault self.old.fault error } }
    {
        match self.fault {
            Some(_) => discard(error),
            None => discard(mem::replace(&mut self.fault, Some(error))),
        }
    }

    // Why the connection has ended: its fault, else the reason for which it has stopped, where the peer closed it.
    fn take_error(&mut self) -> Result<Option<ConnectionError>, AllocError>
        ensures ok { IfOk result (λ e. e ≡ error_in self.old) }
        ensures state { self.new ≡ record self.old { fault = None } }
    {
        match mem::replace(&mut self.fault, None) {
            Some(error) => Ok(Some(error)),
            None => told_of(self.alloc, self.held.stop_reason()),
        }
    }

    // The connection has stopped: an open or accept that waits has its last answer.
    fn conclude_open(&mut self) -> Result<(), AllocError>
        ensures ok { OnOk result (self.new ≡ finished self.old (open_reply (error_in self.old))) }
        ensures alive { self.new.failed ≡ self.old.failed }
    {
        let error = self.take_error()?;
        self.finish(Reply::OpenError(open_failure(error)))
    }

    // The connection has stopped: a close that waits has its last answer.
    fn conclude_close(&mut self) -> Result<(), AllocError>
        ensures ok { OnOk result (self.new ≡ finished self.old (close_reply (error_in self.old))) }
        ensures alive { self.new.failed ≡ self.old.failed }
    {
        let error = self.take_error()?;
        self.finish(close_reply(error))
    }

    // The connection has stopped: the call that waits has its last answer.
    fn conclude(&mut self) -> Result<(), AllocError>
        ensures ok { OnOk result (self.new ≡ concluded self.old) }
        ensures alive { self.new.failed ≡ self.old.failed }
    {
        match self.progress {
            Progress::Opening => self.conclude_open(),
            Progress::Closing => self.conclude_close(),
            Progress::Idle | Progress::Open | Progress::Over => Ok(()),
        }
    }

    // The connection is made: the open or accept is answered.
    fn welcome(&mut self) -> Result<(), AllocError>
        ensures ok { OnOk result (self.new ≡ greeted_if true self.old) }
        ensures alive { self.new.failed ≡ self.old.failed }
    {
        self.progress = Progress::Open;
        self.answer(Reply::Connection)
    }

    // An open or accept that waits is answered where the connection is made.
    fn greet(&mut self) -> Result<(), AllocError>
        ensures ok { OnOk result (self.new ≡ greeted self.old) }
        ensures alive { self.new.failed ≡ self.old.failed }
    {
        match self.progress {
            Progress::Opening => {
                if self.held.is_made() {
                    return self.welcome();
                }
                Ok(())
            }
            Progress::Idle | Progress::Open | Progress::Closing | Progress::Over => Ok(()),
        }
    }

    // One step of the connection; whether another may follow.
    pub(crate) fn advance(&mut self, at: u64) -> Result<bool, AllocError>
        requires { IsLate self.old.held }
        ensures more { result ≡ Ok true → Worked L.Link at 1 self.old self.new }
        ensures rests { result ≡ Ok false → Rested L.Link at 1 self.old self.new }
        ensures hands { result ≡ Ok true → HandsOn L.Link at self.old self.new }
        ensures hands_last { result ≡ Ok false → HandsLast L.Link at self.old self.new }
        ensures late { OnOk result (IsLate self.new.held) }
        ensures alive { self.new.failed ≡ self.old.failed }
    {
        match self.held.step(at) {
            Ok(EngineStep::Worked) => {
                self.greet()?;
                Ok(true)
            }
            Ok(EngineStep::Pending) => Ok(false),
            Ok(EngineStep::Stopped) => {
                self.conclude()?;
                Ok(false)
            }
            Err(error) => {
                let error = without_memory(error)?;
                self.note(error);
                Ok(true)
            }
        }
    }

    // The connection goes on until nothing more can be done now.
    fn go_on(&mut self, at: u64) -> Result<(), AllocError>
        requires { IsLate self.old.held }
        ensures ok { OnOk result (Rested L.Link at (2 ^ 62) self.old self.new) }
        ensures alive { self.new.failed ≡ self.old.failed }
    {
        let mut left = STEPS_OF_CALL;
        'steps: while left > 0 {
            left -= 1;
            if !self.advance(at)? {
                return Ok(());
            }
        }
        Ok(())
    }

    // The headers are exchanged, and the connection begins.
    fn connect(&mut self, at: u64) -> Result<(), AllocError>
        requires { IsExchanged self.old.held }
        ensures ok { OnOk result (Rested L.Link at (2 ^ 62) self.old self.new) }
        ensures alive { self.new.failed ≡ self.old.failed }
    {
        match self.held.connect(self.alloc, at) {
            Ok(()) => self.go_on(at),
            Err(error) => {
                let error = without_memory(error)?;
                self.finish(Reply::OpenError(open_error_of(error)))
            }
        }
    }

    // The exchange of headers goes on, and then the connection.
    fn open(&mut self, at: u64) -> Result<(), AllocError>
        requires { IsReady self.old.held }
        ensures ok { OnOk result (Rested L.Link at (2 ^ 63) self.old self.new) }
        ensures alive { self.new.failed ≡ self.old.failed }
    {
        let mut reads_left = READS_OF_CALL;
        match self.held.run(&mut reads_left) {
            Ok(OpeningPoll::Pending) => Ok(()),
            Ok(OpeningPoll::Exchanged) => self.connect(at),
            Ok(OpeningPoll::Failed(error)) => {
                self.finish(Reply::OpenError(OpenError::Negotiation(error)))
            }
            Err(error) => Err(error),
        }
    }

    // The call begins no exchange: its one answer is this error.
    fn refuse(&mut self, error: NegotiationError) -> Result<(), AllocError>
        requires { IsEarly self.old.held }
        ensures ok { OnOk result (Refused self.old error self.new) }
        ensures alive { self.new.failed ≡ self.old.failed }
    {
        self.held.end();
        self.finish(Reply::OpenError(OpenError::Negotiation(error)))
    }

    // An open or accept with this exchange waits.
    fn begin_made(
        &mut self,
        at: u64,
        prepared: Prepared,
        exchange: Authentication,
    ) -> Result<(), AllocError>
        requires { IsEarly self.old.held }
        ensures ok { OnOk result ((call : Call) → (asked : SaslCall) → prepared_of call ≡ Some prepared → sasl_of call ≡ Some asked → MadeFor asked exchange → holds_by exchange [] [] → RestedFrom L.Link at (2 ^ 63) (IsAsked call self.old) self.old self.new) }
        ensures alive { self.new.failed ≡ self.old.failed }
    {
        self.answer(Reply::Pending)?;
        match self.held.begin(exchange, prepared) {
            Ok(()) => self.open(at),
            Err(error) => Err(error),
        }
    }

    // An open or accept with a SASL layer begins; it is answered at once where it has no exchange.
    fn begin_with(&mut self, at: u64, prepared: Prepared, sasl: SaslCall) -> Result<(), AllocError>
        requires early { IsEarly self.old.held }
        requires allowed { IsAllowedSaslCall sasl }
        ensures ok { OnOk result ((call : Call) → prepared_of call ≡ Some prepared → sasl_of call ≡ Some sasl → RestedFrom L.Link at (2 ^ 63) (IsAsked call self.old) self.old self.new) }
        ensures alive { self.new.failed ≡ self.old.failed }
    {
        match exchange_for(self.alloc, sasl) {
            Ok(exchange) => self.begin_made(at, prepared, exchange),
            Err(error) => match memory_in(&error) {
                Some(error) => Err(error),
                None => self.refuse(error),
            },
        }
    }

    // An open or accept without a SASL layer waits.
    fn begin_plain(&mut self, at: u64, prepared: Prepared) -> Result<(), AllocError>
        requires { IsEarly self.old.held }
        ensures ok { OnOk result ((call : Call) → prepared_of call ≡ Some prepared → sasl_of call ≡ None → RestedFrom L.Link at (2 ^ 63) (IsAsked call self.old) self.old self.new) }
        ensures alive { self.new.failed ≡ self.old.failed }
    {
        self.answer(Reply::Pending)?;
        match self.held.begin_plain(prepared) {
            Ok(()) => self.open(at),
            Err(error) => Err(error),
        }
    }

    // An open or accept begins.
    fn begin(
        &mut self,
        at: u64,
        prepared: Prepared,
        sasl: Option<SaslCall>,
    ) -> Result<(), AllocError>
        requires early { IsEarly self.old.held }
        requires allowed { IsAllowedLayer sasl }
        ensures ok { OnOk result ((call : Call) → prepared_of call ≡ Some prepared → sasl_of call ≡ sasl → RestedFrom L.Link at (2 ^ 63) (IsAsked call self.old) self.old self.new) }
        ensures alive { self.new.failed ≡ self.old.failed }
    {
        match sasl {
            Some(sasl) => self.begin_with(at, prepared, sasl),
            None => self.begin_plain(at, prepared),
        }
    }

    // An open or accept of this name.
    fn start(
        &mut self,
        at: u64,
        name: u64,
        prepared: Prepared,
        sasl: Option<SaslCall>,
    ) -> Result<(), AllocError>
        requires early { IsEarly self.old.held }
        requires allowed { IsAllowedLayer sasl }
        ensures ok { OnOk result ((call : Call) → self.old.progress ≡ Progress.Idle → prepared_of call ≡ Some prepared → sasl_of call ≡ sasl → Stepped L.Link self.old (Made at name call) self.new) }
        ensures alive { self.new.failed ≡ self.old.failed }
    {
        self.name = name;
        self.progress = Progress::Opening;
        self.begin(at, prepared, sasl)
    }

    // Queues a Close, unless one is queued or owed.
    fn queue_close(&mut self, condition: Option<Symbol>) -> Result<(), AllocError>
        requires { IsLate self.old.held }
        ensures ok { OnOk result ((at : ℕ) → self.old.progress ≡ Progress.Closing → AdvancedFrom L.Link at 0 (IsToClose condition self.old) self.old self.new) }
        ensures late { OnOk result (IsLate self.new.held) }
        ensures alive { self.new.failed ≡ self.old.failed }
    {
        match self.held.close(error_for(condition)) {
            Ok(()) => Ok(()),
            Err(error) => self.note_close(error),
        }
    }

    // A Close was not queued.
    fn note_close(&mut self, error: ConnectionError) -> Result<(), AllocError>
        ensures ok { OnOk result (IsCloseNoted error self.old self.new) }
        ensures held { self.new.held ≡ self.old.held }
        ensures alive { self.new.failed ≡ self.old.failed }
    {
        match error {
            ConnectionError::Memory(error) => Err(error),
            ConnectionError::IllegalState => Ok(()),
            error => {
                self.note(error);
                Ok(())
            }
        }
    }

    // A close waits: its Close goes out, and the peer's is awaited.
    fn close_open(&mut self, at: u64, condition: Option<Symbol>) -> Result<(), AllocError>
        requires { IsLate self.old.held }
        ensures ok { OnOk result (self.old.progress ≡ Progress.Closing → RestedFrom L.Link at (2 ^ 62) (IsAskedToClose condition self.old) self.old self.new) }
        ensures alive { self.new.failed ≡ self.old.failed }
    {
        self.answer(Reply::Pending)?;
        self.queue_close(condition)?;
        self.go_on(at)
    }

    // The connection has stopped before: a close is answered at once.
    fn close_stopped(&mut self, at: u64) -> Result<(), AllocError>
        requires late { IsLate self.old.held }
        requires stopped { IsActive self.old.held → ⊥ }
        ensures ok { OnOk result ((condition : Option (List ℕ)) → RestedFrom L.Link at 1 (IsAskedToClose condition self.old) self.old self.new) }
        ensures alive { self.new.failed ≡ self.old.failed }
    {
        match self.held.step(at) {
            Ok(_) => self.conclude_close(),
            Err(error) => {
                let error = without_memory(error)?;
                self.note(error);
                self.conclude_close()
            }
        }
    }

    fn close_on(&mut self, at: u64, condition: Option<Symbol>) -> Result<(), AllocError>
        requires { IsLate self.old.held }
        ensures ok { OnOk result (self.old.progress ≡ Progress.Closing → RestedFrom L.Link at (2 ^ 62) (IsAskedToClose condition self.old) self.old self.new) }
        ensures alive { self.new.failed ≡ self.old.failed }
    {
        if self.held.has_stopped() {
            discard(condition);
            return self.close_stopped(at);
        }
        self.close_open(at, condition)
    }

    // A close of this name; it is answered at once where the connection has stopped.
    fn close(&mut self, at: u64, name: u64, condition: Option<Symbol>) -> Result<(), AllocError>
        requires { IsLate self.old.held }
        ensures ok { OnOk result (self.old.progress ≡ Progress.Open → Stepped L.Link self.old (Made at name (Call.Close condition)) self.new) }
        ensures alive { self.new.failed ≡ self.old.failed }
    {
        self.name = name;
        self.progress = Progress::Closing;
        self.close_on(at, condition)
    }

    fn make(&mut self, at: u64, name: u64, call: Call) -> Result<(), AllocError>
        requires may { MayCall self.old name call }
        requires fits { FitsCall call self.old.held }
        ensures ok { OnOk result (Stepped L.Link self.old (Made at name call) self.new) }
        ensures alive { self.new.failed ≡ self.old.failed }
    {
        match call {
            Call::Open {
                settings,
                sasl_hostname,
                sasl,
            } => {
                let sasl = client_sasl(sasl, sasl_hostname);
                self.start(at, name, client_prepared(settings), sasl)
            }
            Call::Accept { settings, sasl } => {
                self.start(at, name, listener_prepared(settings), listener_sasl(sasl))
            }
            Call::Close { error } => self.close(at, name, error),
        }
    }

    // What an end holds fits each call that it may make.
    fn take(&mut self, at: u64, name: u64, call: Call) -> Result<(), AllocError>
        requires { MayCall self.old name call }
        ensures ok { OnOk result (Stepped L.Link self.old (Made at name call) self.new) }
        ensures alive { self.new.failed ≡ self.old.failed }
    {
        if self.held.fits(&call) {
            return self.make(at, name, call);
        }
        discard(call);
        self.run(at)
    }

    fn run(&mut self, at: u64) -> Result<(), AllocError>
        ensures ok { OnOk result (Stepped L.Link self.old (Polled at) self.new) }
        ensures alive { self.new.failed ≡ self.old.failed }
    {
        match self.held.way() {
            Way::Early => self.open(at),
            Way::Late => self.go_on(at),
            Way::Over => Ok(()),
        }
    }

    /// Makes a call of this name at the moment `at`, in milliseconds, and then goes on until nothing
    /// more can be done. Want of memory is final: each later call and poll answers `Failed`.
    pub fn call(&mut self, at: u64, name: u64, call: Call) -> Result<(), PeerError>
        requires { MayCall self.old name call }
        ensures ok { OnOk result (Stepped L.Link self.old (Made at name call) self.new) }
        ensures alive { OnOk result (self.new.failed ≡ self.old.failed) }
        ensures memory { OnErr result (self.new.failed ≡ true) }
        ensures failed { IsErrOf result PeerError.Failed ↔ (self.old.failed ≡ true) }
    {
        if self.failed {
            discard(call);
            return Err(PeerError::Failed);
        }
        match self.take(at, name, call) {
            Ok(()) => Ok(()),
            Err(error) => {
                self.failed = true;
                Err(PeerError::Memory(error))
            }
        }
    }

    /// Goes on at the moment `at`, in milliseconds, until nothing more can be done. Want of memory
    /// is final: each later call and poll answers `Failed`.
    pub fn poll(&mut self, at: u64) -> Result<(), PeerError>
        ensures ok { OnOk result (Stepped L.Link self.old (Polled at) self.new) }
        ensures alive { OnOk result (self.new.failed ≡ self.old.failed) }
        ensures memory { OnErr result (self.new.failed ≡ true) }
        ensures failed { IsErrOf result PeerError.Failed ↔ (self.old.failed ≡ true) }
    {
        if self.failed {
            return Err(PeerError::Failed);
        }
        match self.run(at) {
            Ok(()) => Ok(()),
            Err(error) => {
                self.failed = true;
                Err(PeerError::Memory(error))
            }
        }
    }

    /// The replies since they were last taken out.
    pub fn replies(&mut self) -> ReplyList
        ensures taken { result ≡ self.old.replies }
        ensures left { self.new ≡ record self.old { replies = [] } }
    {
        mem::replace(&mut self.replies, ReplyList::new(self.alloc))
    }

    /// The link.
    pub fn link(&mut self) -> &mut L
        ensures* writes_back { sem 𝓛 (Lends (the_row L.row L.Link) L.row self.entry result (λ w. record self.old { held = with_link self.old.held w })) }
        ensures value { (d : L) → result.now ≡ link_of d self.old }
    {
        self.held.link()
    }

    /// The link, to be looked at.
    pub fn link_ref(&self) -> &L
        ensures { (d : L) → result.now ≡ link_of d self.now }
    {
        self.held.link_ref()
    }
}
