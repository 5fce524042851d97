//! A session endpoint: what it is built from, its queues, and what it tells of itself (OASIS AMQP 1.0, part 2, section 2.5).
ghost use Rattle.std.specs.Prelude.{◌≡◌, length, true, option_map, IfOk, OnOk};
ghost use Rattle.amqp_frames.specs.Session.{of_session};
ghost use Rattle.amqp_session.specs.State.{framed, seen, saying, handing, TakesFrame, TakesInput};
ghost use Rattle.amqp_session.specs.Begin.{IsShort, begin_of, asked, mapped, begun, accepted};

use crate::error::{BeginError, Fault};
use crate::settings::SessionSettings;
use crate::windows::Windows;
use amqp_composites::modes::Role;
use amqp_data::Binary;
use amqp_frames::{FrameBody, IncomingSession, SessionFrame, SessionStopReason, let_go};
use amqp_parts::Part;
use amqp_performatives::attach::Attach;
use amqp_performatives::begin::Begin;
use amqp_performatives::detach::Detach;
use amqp_performatives::disposition::Disposition;
use amqp_performatives::flow::Flow;
use amqp_performatives::transfer::Transfer;
use bytes::Bytes;
use indexmap::IndexMap;
use std::alloc::{AllocError, Global};
use std::collections::VecDeque;

/// How far a session is (part 2, section 2.5.5). A Begin or End of the peer is answered at once, so no state stands for that time.
#[derive(Clone, Copy, Debug, PartialEq, Eq)]
pub enum SessionState {
    /// This end has sent its Begin.
    BeginSent,
    /// Both ends have.
    Mapped,
    /// This end has sent its End.
    EndSent,
    /// Both ends have sent their End, or the connection has stopped.
    Unmapped,
}

/// A delivery of this end that has begun to leave.
#[derive(Drop)]
pub struct LeftDelivery {
    /// The handle of its link at this end.
    pub handle: u32,
    /// The number that it has got in the session.
    pub delivery_id: u32,
    /// The tag of the delivery on its link.
    pub delivery_tag: Binary,
    /// Whether it was settled as it left.
    pub settled: bool,
}

/// What a session hands to its links, in the order in which it came.
#[derive(Drop)]
pub enum LinkInput {
    /// The attach of a link of the peer, whose handle is in use from now on.
    Attach(Attach),
    /// The state of a link's credit.
    Flow(Flow),
    /// A part of a delivery or all of it, and the bytes of it.
    Transfer(Transfer, Bytes),
    /// What has become of deliveries.
    Disposition(Disposition),
    /// The detach of a link.
    Detach(Detach),
    /// A delivery of this end has begun to leave.
    Left(LeftDelivery),
    /// The session has stopped, for the first reason that it had.
    Stopped(SessionStopReason),
    /// The peer's End was read, so nothing more comes.
    Over,
}

/// One session endpoint.
pub struct Session {
    pub(crate) alloc: Global,
    pub(crate) state: SessionState,
    pub(crate) channel: u16,
    pub(crate) remote_channel: Option<u16>,
    /// The highest handle that the peer may use.
    pub(crate) own_handle_max: u32,
    /// The highest handle that this end may use: no more than either end has announced.
    pub(crate) handle_max: u32,
    pub(crate) max_frame_size: u32,
    pub(crate) windows: Windows,
    /// The Transfers that wait, in order: each whole and without its number, but for the rest of a delivery that has begun, which is
    /// the first.
    pub(crate) held: VecDeque<Part>,
    /// The peer's role at each of its handles that is attached.
    pub(crate) inputs: IndexMap<u32, Role>,
    /// What is handed to the links, in order.
    pub(crate) incoming: VecDeque<LinkInput>,
    /// The frames to be written, in order.
    pub(crate) output: VecDeque<SessionFrame>,
    /// The fault for which this end has ended the session.
    pub(crate) fault: Option<Fault>,
    pub(crate) stop_reason: Option<SessionStopReason>,
}

// A session is let go by a call, so that no caller sees the frames that wait.
impl Drop for Session {
    fn drop(self) {
        let Session {
            alloc: _,
            state: _,
            channel: _,
            remote_channel: _,
            own_handle_max: _,
            handle_max: _,
            max_frame_size: _,
            windows: _,
            held,
            inputs,
            incoming,
            output,
            fault: _,
            stop_reason,
        } = self;
        drop(held);
        drop(inputs);
        drop(incoming);
        drop(output);
        drop(stop_reason);
    }
}

/// The frame with a body of a session.
fn frame(channel: u16, body: FrameBody) -> SessionFrame
    requires { of_session body ≡ true }
    ensures { framed result ≡ record { channel = channel; body = body } }
{
    match SessionFrame::new(channel, body) {
        Ok(frame) => frame,
        Err(other) => {
            let_go(other);
            unreachable!()
        }
    }
}

/// The Begin that the settings say.
fn begin_of(settings: SessionSettings, remote_channel: Option<u16>) -> Begin
    ensures { result ≡ begin_of settings remote_channel }
{
    let SessionSettings {
        next_outgoing_id,
        incoming_window,
        outgoing_window,
        handle_max,
        offered_capabilities,
        desired_capabilities,
        properties,
        max_frame_size: _,
    } = settings;
    Begin {
        remote_channel,
        next_outgoing_id,
        incoming_window,
        outgoing_window,
        handle_max,
        offered_capabilities,
        desired_capabilities,
        properties,
    }
}

impl Session {
    /// A session with its Begin to be written.
    fn new(
        alloc: Global,
        settings: SessionSettings,
        channel: u16,
        remote_channel: Option<u16>,
    ) -> Result<Self, AllocError>
        ensures { IfOk result (λ s. seen s ≡ asked settings channel remote_channel) }
    {
        let mut output = VecDeque::new(alloc);
        output.reserve(1)?;
        let own_handle_max = settings.handle_max;
        let max_frame_size = settings.max_frame_size;
        let windows = Windows::new(
            settings.next_outgoing_id,
            settings.incoming_window,
            settings.outgoing_window,
        );
        let begin = begin_of(settings, remote_channel);
        output.push_back_reserved(frame(channel, FrameBody::Begin(begin)));
        Ok(Session {
            alloc,
            state: SessionState::BeginSent,
            channel,
            remote_channel,
            own_handle_max,
            handle_max: own_handle_max,
            max_frame_size,
            windows,
            held: VecDeque::new(alloc),
            inputs: IndexMap::new(alloc),
            incoming: VecDeque::new(alloc),
            output,
            fault: None,
            stop_reason: None,
        })
    }

    /// A session that this end begins, on a channel of its own: its Begin is to be written. The one error is want of memory.
    pub fn begin(alloc: Global, settings: SessionSettings, channel: u16) -> Result<Self, BeginError>
        ensures session { IfOk result (λ s. seen s ≡ begun settings channel) }
        ensures memory { IsShort result }
    {
        let session = Session::new(alloc, settings, channel, None)?;
        Ok(session)
    }

    /// A session that the peer has begun: the answering Begin is to be written. The one error is want of memory.
    pub fn accept(
        alloc: Global,
        settings: SessionSettings,
        channel: u16,
        incoming: IncomingSession,
    ) -> Result<Self, BeginError>
        ensures session { IfOk result (λ s. seen s ≡ accepted settings channel incoming) }
        ensures memory { IsShort result }
    {
        let IncomingSession {
            channel: remote_channel,
            begin,
        } = incoming;
        let mut session = Session::new(alloc, settings, channel, Some(remote_channel))?;
        session.map(remote_channel, &begin);
        Ok(session)
    }

    /// Both ends have begun.
    pub(crate) fn map(&mut self, remote_channel: u16, begin: &Begin)
        ensures { seen self.new ≡ mapped remote_channel begin.now (seen self.old) }
    {
        self.state = SessionState::Mapped;
        self.remote_channel = Some(remote_channel);
        self.handle_max = self.own_handle_max.min(begin.handle_max);
        self.windows.on_begin(begin);
    }

    /// Queues a frame.
    pub(crate) fn say(&mut self, body: FrameBody) -> Result<(), AllocError>
        requires { of_session body ≡ true }
        ensures { OnOk result (seen self.new ≡ saying body (seen self.old)) }
    {
        let frame = frame(self.channel, body);
        match self.output.reserve(1) {
            Ok(()) => {
                self.output.push_back_reserved(frame);
                Ok(())
            }
            Err(error) => {
                discard_frame(frame);
                Err(error)
            }
        }
    }

    /// Hands something to the links.
    pub(crate) fn hand(&mut self, input: LinkInput) -> Result<(), AllocError>
        ensures { OnOk result (seen self.new ≡ handing input (seen self.old)) }
    {
        match self.incoming.reserve(1) {
            Ok(()) => {
                self.incoming.push_back_reserved(input);
                Ok(())
            }
            Err(error) => {
                discard_input(input);
                Err(error)
            }
        }
    }

    /// The channel of this end.
    pub fn channel(&self) -> u16
        ensures { result ≡ (seen self.now).channel }
    {
        self.channel
    }

    /// The peer's channel, once its Begin was read.
    pub fn remote_channel(&self) -> Option<u16>
        ensures { result ≡ (seen self.now).remote_channel }
    {
        self.remote_channel
    }

    /// How far the session is.
    pub fn local_state(&self) -> SessionState
        ensures { result ≡ (seen self.now).state }
    {
        self.state
    }

    /// The highest handle that this end may use: before the peer's Begin was read the one that it has announced, then no more than
    /// either end has.
    pub fn handle_max(&self) -> u32
        ensures { result ≡ (seen self.now).handle_max }
    {
        self.handle_max
    }

    /// The limit of frames by which deliveries are split, in bytes.
    pub fn max_frame_size(&self) -> u32
        ensures { result ≡ (seen self.now).max_frame_size }
    {
        self.max_frame_size
    }

    /// The numbers and the windows.
    pub fn windows(&self) -> Windows
        ensures { result ≡ (seen self.now).windows }
    {
        self.windows
    }

    /// How many Transfers wait until the peer can take them, with the rest of one that has begun to leave.
    pub fn held_count(&self) -> usize
        ensures { result ≡ length (seen self.now).held }
    {
        self.held.len()
    }

    /// Why the session has stopped, if it has.
    pub fn stop_reason(&self) -> Option<&SessionStopReason>
        ensures { option_map (λ x. x.now) result ≡ (seen self.now).stop_reason }
    {
        self.stop_reason.as_ref()
    }

    /// The first frame to be written.
    pub fn take_output(&mut self) -> Option<SessionFrame>
        ensures { TakesFrame (seen self.old) (option_map framed result) (seen self.new) }
    {
        self.output.pop_front()
    }

    /// The first of what is handed to the links.
    pub fn take_for_link(&mut self) -> Option<LinkInput>
        ensures { TakesInput (seen self.old) result (seen self.new) }
    {
        self.incoming.pop_front()
    }
}

/// Lets a frame go. Its drop has as many places as its performatives have fields; for a caller of this it has one.
fn discard_frame(_frame: SessionFrame) {}

/// Lets what is handed to the links go, as `discard_frame` does a frame.
fn discard_input(_input: LinkInput) {}
