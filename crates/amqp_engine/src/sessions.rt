//! The channels of sessions, and what came on them (OASIS AMQP 1.0, part 2, section 2.5).
ghost use Rattle.std.specs.Prelude.{◌≡◌, ◌<◌, [], false, slice_index_or, option_map, OnOk, OnErr};
ghost use Rattle.indexmap.specs.IndexSet.{spare};
ghost use Rattle.amqp_engine.specs.Limits.{is_beyond};
ghost use Rattle.amqp_engine.specs.Plans.{planned, known_plan, begin_plan, answer_plan, beyond_plan, rejection_told};
ghost use Rattle.amqp_engine.specs.Channels.{frame_in, asked, named_in, channels_of, no_channels, is_among, with_channel, without_channel, taken_in, said_in, HasRoom, CanAnnounce, first_free, seat_taken, seat_freed, first_of, TakesFrame, TakesSession};

use crate::connection::Settings;
use crate::drops::discard;
use crate::error::Error;
use crate::limits::HandleLimits;
use crate::phase::Rejection;
use crate::seats::Seats;
use amqp_transport::Frame;
use amqp_transport::amqp_frames::{FrameBody, IncomingSession, SessionFrame, let_go};
use indexmap::IndexSet;
use std::alloc::{AllocError, Global};
use std::collections::VecDeque;

/// What becomes of a frame of a session.
#[derive(Clone, Copy, Debug, PartialEq, Eq)]
pub enum Plan {
    /// It is of a session that the peer has begun.
    Deliver,
    /// It begins a session that this end has asked for.
    Answer,
    /// It ends a session.
    End,
    /// It asks for a session.
    Ask,
    /// It ends the connection.
    Reject(Rejection),
}

/// The sessions of a connection, by their channels, and what came for them.
pub struct Sessions {
    /// Of each channel of this end whether a session has it.
    seats: Seats,
    /// The channels of this end whose Begin the peer has answered.
    answered: IndexSet<u16>,
    /// The peer's channels on which it has begun a session, and not ended it.
    remotes: IndexSet<u16>,
    /// The frames that wait, in order.
    incoming: VecDeque<SessionFrame>,
    /// The sessions that the peer asks for, in order.
    begun: VecDeque<IncomingSession>,
    /// The highest handles of the peer's links.
    limits: HandleLimits,
}

// The sessions are let go by a call, so that no caller sees the frames that wait.
impl Drop for Sessions {
    fn drop(self) {
        let Sessions {
            seats,
            answered,
            remotes,
            incoming,
            begun,
            limits,
        } = self;
        drop(seats);
        drop(answered);
        drop(remotes);
        drop(incoming);
        drop(begun);
        drop(limits);
    }
}

/// The channel is one of these.
fn add(channels: &mut IndexSet<u16>, channel: u16)
    requires { 0 < spare channels.old }
    ensures { channels.new.keys ≡ with_channel channel channels.old.keys }
{
    let Ok(_) = channels.insert(channel) else {
        unreachable!()
    };
}

/// The channel is none of these.
fn remove(channels: &mut IndexSet<u16>, channel: u16)
    ensures { channels.new.keys ≡ without_channel channel channels.old.keys }
{
    channels.swap_remove(&channel);
}

/// The channel of this end that a Begin names.
fn named(body: &FrameBody) -> Option<u16>
    ensures { result ≡ named_in body.now }
{
    match body {
        FrameBody::Begin(begin) => begin.remote_channel,
        _ => None,
    }
}

fn ask(frame: SessionFrame) -> Option<IncomingSession>
    ensures { result ≡ asked (frame_in frame) }
{
    let (channel, body) = frame.into_parts();
    match body {
        FrameBody::Begin(begin) => Some(IncomingSession { channel, begin }),
        other => {
            let_go(other);
            None
        }
    }
}

impl Sessions {
    /// No sessions; takes no memory.
    pub(crate) fn new(alloc: Global) -> Self
        ensures { channels_of result ≡ no_channels }
    {
        Sessions {
            seats: Seats::new(alloc),
            answered: IndexSet::new(alloc),
            remotes: IndexSet::new(alloc),
            incoming: VecDeque::new(alloc),
            begun: VecDeque::new(alloc),
            limits: HandleLimits::new(alloc),
        }
    }

    /// Makes room for what one frame may add.
    pub(crate) fn make_room(&mut self) -> Result<(), AllocError>
        ensures same { channels_of self.new ≡ channels_of self.old }
        ensures room { OnOk result (HasRoom self.new) }
    {
        self.answered.reserve(1)?;
        self.remotes.reserve(1)?;
        self.incoming.reserve(1)?;
        self.begun.reserve(1)?;
        self.limits.make_room()
    }

    /// What becomes of the frame.
    pub(crate) fn plan(&self, settings: Settings, frame: &SessionFrame) -> Plan
        ensures { result ≡ planned settings (channels_of self.now) (frame_in frame.now) }
    {
        if frame.channel() > settings.channel_max {
            return Plan::Reject(Rejection::FramingError);
        }
        let is_known = self.remotes.contains(&frame.channel());
        match self.plan_for(is_known, settings.is_listener, frame.body()) {
            Plan::Deliver => self.plan_delivery(frame.channel(), frame.body()),
            plan => plan,
        }
    }

    fn plan_delivery(&self, channel: u16, body: &FrameBody) -> Plan
        ensures { result ≡ beyond_plan (is_beyond (channels_of self.now).limits channel body.now) Plan.Deliver }
    {
        if self.limits.is_beyond(channel, body) {
            return Plan::Reject(Rejection::FramingError);
        }
        Plan::Deliver
    }

    fn plan_for(&self, is_known: bool, is_listener: bool, body: &FrameBody) -> Plan
        ensures { result ≡ known_plan is_known is_listener (channels_of self.now) body.now }
    {
        match body {
            FrameBody::Begin(begin) => self.plan_begin(is_known, is_listener, begin.remote_channel),
            FrameBody::End(_) => {
                if is_known {
                    Plan::End
                } else {
                    Plan::Reject(Rejection::NotFound)
                }
            }
            _ => {
                if is_known {
                    Plan::Deliver
                } else {
                    Plan::Reject(Rejection::NotFound)
                }
            }
        }
    }

    fn plan_begin(&self, is_known: bool, is_listener: bool, named: Option<u16>) -> Plan
        ensures { result ≡ begin_plan is_known is_listener (channels_of self.now) named }
    {
        if is_known {
            return Plan::Reject(Rejection::IllegalState);
        }
        match named {
            Some(channel) => self.plan_answer(channel),
            None => {
                if is_listener {
                    Plan::Ask
                } else {
                    Plan::Reject(Rejection::NotImplemented)
                }
            }
        }
    }

    fn plan_answer(&self, channel: u16) -> Plan
        ensures { result ≡ answer_plan (slice_index_or self.now.seats channel false) (is_among channel self.now.answered.keys) }
    {
        if !self.seats.has(channel) {
            return Plan::Reject(Rejection::NotFound);
        }
        if self.answered.contains(&channel) {
            return Plan::Reject(Rejection::IllegalState);
        }
        Plan::Answer
    }

    /// Takes the frame in, as is planned.
    pub(crate) fn take(&mut self, plan: Plan, frame: SessionFrame)
        requires { HasRoom self.old }
        ensures { channels_of self.new ≡ taken_in plan (channels_of self.old) (frame_in frame) }
    {
        match plan {
            Plan::Deliver => self.incoming.push_back_reserved(frame),
            Plan::Answer => {
                let answered = named(frame.body());
                if let Some(channel) = answered {
                    add(&mut self.answered, channel);
                }
                add(&mut self.remotes, frame.channel());
                self.limits.begin(frame.channel(), answered);
                self.incoming.push_back_reserved(frame);
            }
            Plan::End => {
                remove(&mut self.remotes, frame.channel());
                self.limits.end(frame.channel());
                self.incoming.push_back_reserved(frame);
            }
            Plan::Ask => {
                add(&mut self.remotes, frame.channel());
                self.limits.begin(frame.channel(), None);
                if let Some(session) = ask(frame) {
                    self.begun.push_back_reserved(session);
                }
            }
            Plan::Reject(_) => discard(frame),
        }
    }

    /// Makes room for what one Begin of this end may add.
    pub(crate) fn make_room_to_begin(&mut self) -> Result<(), AllocError>
        ensures same { channels_of self.new ≡ channels_of self.old }
        ensures room { OnOk result (CanAnnounce self.new) }
    {
        self.limits.make_room()
    }

    /// This end has queued that frame.
    pub(crate) fn announce(&mut self, frame: &Frame)
        requires { CanAnnounce self.old }
        ensures { channels_of self.new ≡ said_in (channels_of self.old) frame.now }
    {
        self.limits.announce(frame.channel, &frame.body);
    }

    /// The lowest free channel.
    pub(crate) fn lowest_free(&self) -> usize
        ensures { result ≡ first_free self.now.seats }
    {
        self.seats.lowest()
    }

    /// Gives the lowest free channel to a session.
    pub(crate) fn seat(&mut self, channel: usize) -> Result<(), AllocError>
        requires { channel ≡ first_free self.old.seats }
        ensures ok { OnOk result (channels_of self.new ≡ record (channels_of self.old) { seats = seat_taken self.old.seats channel }) }
        ensures err { OnErr result (channels_of self.new ≡ channels_of self.old) }
    {
        self.seats.take(channel)
    }

    /// Frees the channel.
    pub(crate) fn free(&mut self, channel: u16)
        ensures { channels_of self.new ≡ seat_freed channel (channels_of self.old) }
    {
        remove(&mut self.answered, channel);
        self.seats.free(channel);
        self.limits.free(channel);
    }

    /// Takes the first frame off.
    pub(crate) fn pop_incoming(&mut self) -> Option<SessionFrame>
        ensures { TakesFrame (channels_of self.old) (option_map frame_in result) (channels_of self.new) }
    {
        self.incoming.pop_front()
    }

    /// Takes the first session off that the peer asks for.
    pub(crate) fn pop_begun(&mut self) -> Option<IncomingSession>
        ensures { TakesSession (channels_of self.old) result (channels_of self.new) }
    {
        self.begun.pop_front()
    }

    /// The first session that the peer asks for, lent.
    pub(crate) fn first_begun(&self) -> Option<&IncomingSession>
        ensures { option_map (λ x. x.now) result ≡ first_of self.now.begun.items }
    {
        self.begun.front()
    }
}

impl Rejection {
    /// What the end's own caller is told.
    pub(crate) fn told(self) -> Error
        ensures { result ≡ rejection_told self }
    {
        match self {
            Rejection::IllegalState | Rejection::FramingError => Error::IllegalState,
            Rejection::NotImplemented => Error::NotImplemented,
            Rejection::NotFound => Error::NotFound,
        }
    }
}
