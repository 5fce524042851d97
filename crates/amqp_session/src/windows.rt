//! The numbers and the windows of a session (OASIS AMQP 1.0, part 2, section 2.5.6).
ghost use Rattle.std.specs.Prelude.{◌≡◌, ◌<◌, ◌-◌};
ghost use Rattle.amqp_session.specs.Windows.{minus, first_windows, windows_begun, windows_flowed, transfer_read, is_report_due, reported, session_flow, stamped, windows_left};

use amqp_performatives::begin::Begin;
use amqp_performatives::flow::Flow;

/// The numbers and the windows of a session. Numbers of transfers and of deliveries are modulo 2^32.
#[derive(Clone, Copy)]
pub struct Windows {
    /// How many transfers the session takes, as it was built.
    pub incoming_window: u32,
    /// How many transfers the session may send, as it was built.
    pub outgoing_window: u32,
    /// The number of the first transfer of this end.
    pub first_outgoing_id: u32,
    /// The number of the next transfer of this end.
    pub next_outgoing_id: u32,
    /// The number of the next transfer of the peer; 0 before its Begin was read.
    pub next_incoming_id: u32,
    /// The number of the next delivery of this end.
    pub next_delivery_id: u32,
    /// How many transfers this end may still write before the peer announces its window again.
    pub allowance: u32,
    /// How many transfers were read since the last Begin or Flow of this end.
    pub unreported: u32,
}

impl Windows {
    /// The windows before anything was read.
    pub(crate) fn new(next_outgoing_id: u32, incoming_window: u32, outgoing_window: u32) -> Self
        ensures { result ≡ first_windows next_outgoing_id incoming_window outgoing_window }
    {
        Windows {
            incoming_window,
            outgoing_window,
            first_outgoing_id: next_outgoing_id,
            next_outgoing_id,
            next_incoming_id: 0,
            next_delivery_id: 0,
            allowance: 0,
            unreported: 0,
        }
    }

    /// How many transfers may be written where the peer can take that many from that number on.
    fn allow(&mut self, window: u32, from: u32)
        ensures { self.new ≡ record self.old { allowance = window - minus self.old.next_outgoing_id from } }
    {
        let on_their_way = self.next_outgoing_id.wrapping_sub(from);
        self.allowance = window.saturating_sub(on_their_way);
    }

    /// The peer's Begin was read.
    pub(crate) fn on_begin(&mut self, begin: &Begin)
        ensures { self.new ≡ windows_begun begin.now self.old }
    {
        self.next_incoming_id = begin.next_outgoing_id;
        self.allow(begin.incoming_window, self.first_outgoing_id);
    }

    /// A Flow was read.
    pub(crate) fn on_flow(&mut self, flow: &Flow)
        ensures { self.new ≡ windows_flowed flow.now self.old }
    {
        self.next_incoming_id = flow.next_outgoing_id;
        let from = flow.next_incoming_id.unwrap_or(self.first_outgoing_id);
        self.allow(flow.incoming_window, from);
    }

    /// A Transfer was read.
    pub(crate) fn on_transfer(&mut self)
        ensures { self.new ≡ transfer_read self.old }
    {
        self.next_incoming_id = self.next_incoming_id.wrapping_add(1);
        self.unreported = self.unreported.saturating_add(1);
    }

    /// Whether the peer is to be told how many transfers were read.
    pub(crate) fn is_report_due(&self) -> bool
        ensures { result ≡ is_report_due self.now }
    {
        let most = (self.incoming_window / 2).max(1);
        most <= self.unreported
    }

    /// The peer was told.
    pub(crate) fn on_report(&mut self)
        ensures { self.new ≡ reported self.old }
    {
        self.unreported = 0;
    }

    /// A Transfer was written, which begins a delivery or goes on with one.
    pub(crate) fn on_leave(&mut self, begins: bool)
        requires { 0 < self.old.allowance }
        ensures { self.new ≡ windows_left begins self.old }
    {
        self.next_outgoing_id = self.next_outgoing_id.wrapping_add(1);
        self.allowance -= 1;
        if begins {
            self.next_delivery_id = self.next_delivery_id.wrapping_add(1);
        }
    }

    /// The Flow that tells the state of the session alone.
    pub(crate) fn session_flow(&self) -> Flow
        ensures { result ≡ session_flow self.now }
    {
        Flow {
            next_incoming_id: Some(self.next_incoming_id),
            incoming_window: self.incoming_window,
            next_outgoing_id: self.next_outgoing_id,
            outgoing_window: self.outgoing_window,
            handle: None,
            delivery_count: None,
            link_credit: None,
            available: None,
            drain: false,
            echo: false,
            properties: None,
        }
    }

    /// The link's Flow, with the state of the session in it.
    pub(crate) fn stamp(&self, flow: Flow) -> Flow
        ensures { result ≡ stamped self.now flow }
    {
        let mut flow = flow;
        flow.next_incoming_id = Some(self.next_incoming_id);
        flow.incoming_window = self.incoming_window;
        flow.next_outgoing_id = self.next_outgoing_id;
        flow.outgoing_window = self.outgoing_window;
        flow
    }
}
