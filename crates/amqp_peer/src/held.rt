//! What an end holds its link with, from the headers on to the connection.
ghost use Rattle.std.specs.Prelude.{◌≡◌, ◌↔◌, ◌++◌, [], true, OnOk, OnErr, IsTrue, Option, Some, None, option_map};
ghost use Rattle.std.specs.Borrow.{Lends, sem};
ghost use Rattle.amqp_engine.specs.Calls.{Sends};
ghost use Rattle.amqp_engine.specs.State.{State, closing, close_frame, stop_reason_of};
ghost use Rattle.amqp_peer.specs.contracts.held.Held.{the_row};
ghost use Rattle.amqp_peer.specs.declared.held.Held.{Held};
ghost use Rattle.amqp_peer.specs.Held.{IsThere, IsEarly, IsReady, IsExchanged, IsActive, IsStopped, IsLate, with_link, link_at, nothing_held, BeganWith, BeganPlain, EndedEarly, RanEarly, Connected, IsConnecting, bound, SteppedLate, ClosedLate, FitsCall, is_made, reason_of};

use crate::drops::discard;
use crate::prepared::Prepared;
use amqp_composites::error::Error as AmqpError;
use amqp_engine::{ConnectionEngine, EngineStep, Error as ConnectionError};
use amqp_frames::{ConnectionState, ConnectionStopReason};
use amqp_opening::authentication::Authentication;
use amqp_opening::opening::{Opening, OpeningPoll, Stage};
use amqp_transport::Transport;
use amqp_wire::codec::FramedCodec;
use amqp_wire::link::Link;
use amqp_words::Call;
use std::alloc::{AllocError, Global};
use std::mem;

/// How far a link has gone on.
#[derive(Clone, Copy, Debug, PartialEq, Eq)]
pub enum Way {
    /// The headers are being exchanged.
    Early,
    /// The connection has begun.
    Late,
    /// Neither, or no more.
    Over,
}

/// What an end holds its link with.
#[derive(Drop)]
pub enum Held<L: Link> {
    /// The exchange of headers, and with what the connection begins after it; no call was made while that is not known.
    Early(Opening<L, Authentication>, Option<Prepared>),
    /// The engine of the connection.
    Late(ConnectionEngine<L>),
    /// The codec of a connection whose Open is too large.
    Unopened(FramedCodec<L>),
    /// Nothing, while the link goes on.
    Moving,
}

fn milliseconds(idle: Option<u32>) -> Option<u64>
    ensures { result ≡ idle }
{
    match idle {
        Some(idle) => Some(u64::from(idle)),
        None => None,
    }
}

// The connection begins over the codec of an opening; a refusal leaves the codec.
fn begin_connection<L: Link>(
    alloc: Global,
    at: u64,
    opening: Opening<L, Authentication>,
    prepared: Prepared,
) -> (Held<L>, Result<(), ConnectionError>)
    ensures connecting { IsConnecting (bound opening.negotiation.codec prepared.idle at) prepared result.1 result.0 }
    ensures there { IsThere result.0 }
{
    let idle = milliseconds(prepared.idle);
    let transport = Transport::bind_to_framed_codec(opening.into_codec(), idle, at);
    match ConnectionEngine::open(alloc, transport, prepared.end) {
        Ok(engine) => (Held::Late(engine), Ok(())),
        Err((error, transport)) => (Held::Unopened(transport.into_framed_codec()), Err(error)),
    }
}

impl<L: Link> Held<L> {
    /// A link with which nothing was done; takes no memory.
    pub fn new(alloc: Global, link: L) -> Self
        ensures { result ≡ nothing_held link }
    {
        Held::Early(Opening::new(alloc, link, Authentication::Idle), None)
    }

    /// The link.
    pub fn link(&mut self) -> &mut L
        requires { IsThere self.old }
        ensures* writes_back { sem 𝓛 (Lends (the_row L.row L.Link) L.row self.entry result (with_link self.old)) }
        ensures value { (d : L) → result.now ≡ link_at d self.old }
    {
        match self {
            Held::Early(opening, _) => opening.link(),
            Held::Late(engine) => engine.link(),
            Held::Unopened(codec) => codec.link(),
            Held::Moving => unreachable!(),
        }
    }

    /// The link, to be looked at.
    pub fn link_ref(&self) -> &L
        requires { IsThere self.now }
        ensures { (d : L) → result.now ≡ link_at d self.now }
    {
        match self {
            Held::Early(opening, _) => opening.link_ref(),
            Held::Late(engine) => engine.link_ref(),
            Held::Unopened(codec) => codec.link_ref(),
            Held::Moving => unreachable!(),
        }
    }

    /// How far the link has gone on.
    pub fn way(&self) -> Way
        ensures early { result ≡ Way.Early → IsReady self.now }
        ensures late { result ≡ Way.Late → IsLate self.now }
        ensures over { result ≡ Way.Over → IsActive self.now → ⊥ }
        ensures begun { result ≡ Way.Over → IsStopped self.now → ⊥ }
    {
        match self {
            Held::Early(opening, Some(_)) => match opening.stage() {
                Stage::Negotiating | Stage::Header => Way::Early,
                Stage::Idle | Stage::Exchanged | Stage::Ended => Way::Over,
            },
            Held::Early(_, None) => Way::Over,
            Held::Late(_) => Way::Late,
            Held::Unopened(_) => Way::Over,
            Held::Moving => Way::Over,
        }
    }

    /// Begins with an exchange of the SASL layer. The one error is want of memory.
    pub fn begin(&mut self, exchange: Authentication, prepared: Prepared) -> Result<(), AllocError>
        requires { IsEarly self.old }
        ensures ok { OnOk result (BeganWith self.old exchange prepared self.new) }
        ensures there { IsThere self.new }
    {
        match self {
            Held::Early(opening, slot) => {
                opening.begin(exchange)?;
                discard(mem::replace(slot, Some(prepared)));
                Ok(())
            }
            _ => unreachable!(),
        }
    }

    /// Begins without a SASL layer. The one error is want of memory.
    pub fn begin_plain(&mut self, prepared: Prepared) -> Result<(), AllocError>
        requires { IsEarly self.old }
        ensures ok { OnOk result (BeganPlain self.old prepared self.new) }
        ensures there { IsThere self.new }
    {
        match self {
            Held::Early(opening, slot) => {
                opening.begin_plain()?;
                discard(mem::replace(slot, Some(prepared)));
                Ok(())
            }
            _ => unreachable!(),
        }
    }

    /// Ends the exchange of headers at once.
    pub fn end(&mut self)
        requires { IsEarly self.old }
        ensures { EndedEarly self.old self.new }
    {
        match self {
            Held::Early(opening, _) => opening.end(),
            _ => unreachable!(),
        }
    }

    /// Goes on with the exchange of headers, with at most so many reads that give bytes. The one error is want of memory.
    pub fn run(&mut self, reads_left: &mut u64) -> Result<OpeningPoll, AllocError>
        requires { IsReady self.old }
        ensures ran { RanEarly L.Link self.old reads_left.old result self.new reads_left.new }
        ensures there { IsThere self.new }
    {
        match self {
            Held::Early(opening, _) => opening.run(reads_left),
            _ => unreachable!(),
        }
    }

    /// The headers are exchanged: the connection begins at that moment, in milliseconds, and Open is queued.
    pub fn connect(&mut self, alloc: Global, at: u64) -> Result<(), ConnectionError>
        requires { IsExchanged self.old }
        ensures connected { Connected self.old at result self.new }
        ensures there { IsThere self.new }
    {
        match mem::replace(self, Held::Moving) {
            Held::Early(opening, prepared) => match prepared {
                Some(prepared) => {
                    let (held, result) = begin_connection(alloc, at, opening, prepared);
                    discard(mem::replace(self, held));
                    result
                }
                None => unreachable!(),
            },
            _ => unreachable!(),
        }
    }

    /// One step of the connection.
    pub fn step(&mut self, at: u64) -> Result<EngineStep, ConnectionError>
        requires { IsLate self.old }
        ensures stepped { SteppedLate L.Link at self.old result self.new }
        ensures there { IsThere self.new }
    {
        match self {
            Held::Late(engine) => engine.step(at),
            _ => unreachable!(),
        }
    }

    /// Queues a Close.
    pub fn close(&mut self, error: Option<AmqpError>) -> Result<(), ConnectionError>
        requires { IsLate self.old }
        ensures closed { ClosedLate L.Link error self.old result self.new }
        ensures there { IsThere self.new }
    {
        match self {
            Held::Late(engine) => engine.close(error),
            _ => unreachable!(),
        }
    }

    /// Whether a call fits: an open or accept where nothing began, a close where the connection did.
    pub fn fits(&self, call: &Call) -> bool
        ensures { IsTrue result ↔ FitsCall call.now self.now }
    {
        match (self, call) {
            (Held::Early(..), Call::Open { .. } | Call::Accept { .. }) => true,
            (Held::Late(_), Call::Close { .. }) => true,
            _ => false,
        }
    }

    /// Whether both ends have sent their Open, and no Close was read.
    pub fn is_made(&self) -> bool
        ensures { result ≡ is_made self.now }
    {
        match self {
            Held::Late(engine) => match engine.local_state() {
                ConnectionState::Opened
                | ConnectionState::CloseSent
                | ConnectionState::Discarding => true,
                _ => false,
            },
            _ => false,
        }
    }

    /// Whether the connection has begun and stopped.
    pub fn has_stopped(&self) -> bool
        ensures { IsTrue result ↔ IsStopped self.now }
    {
        match self {
            Held::Late(engine) => engine.stop_reason().is_some(),
            _ => false,
        }
    }

    /// Why the connection has stopped; none before it has.
    pub fn stop_reason(&self) -> Option<&ConnectionStopReason>
        ensures { option_map (λ r. r.now) result ≡ reason_of self.now }
    {
        match self {
            Held::Late(engine) => engine.stop_reason(),
            _ => None,
        }
    }
}
