//! What the links of one session share: what it is built from, and what it tells of itself (OASIS AMQP 1.0, part 2, section 2.6).
ghost use Rattle.std.specs.Prelude.{◌≡◌, ◌↔◌, IsTrue, [], option_map, IfOk};
ghost use Rattle.amqp_link_tables.specs.Calls as table;
ghost use Rattle.amqp_session_links.specs.State.{none_attached, is_busy};
ghost use Rattle.amqp_session_links.specs.Incoming.{first_of};

use crate::inputs::InputQueue;
use amqp_composites::modes::Role;
use amqp_data::Text;
use amqp_delivery::CreditMode;
use amqp_frames::SessionStopReason;
use amqp_link::{AcceptSettings, AttachError};
use amqp_link_tables::{DeliveryTable, LinkTable};
use amqp_performatives::attach::Attach;
use indexmap::IndexMap;
use std::alloc::{AllocError, Global};
use std::collections::VecDeque;
use std::marker::Model;

/// A call that accepts a link.
#[derive(Debug)]
pub struct WaitingAccept {
    /// The name of the call.
    pub name: u64,
    /// What this end says of the link.
    pub settings: AcceptSettings,
    /// When a receiver gives credit.
    pub credit_mode: CreditMode,
    /// Whether a receiver accepts each delivery as it gives it.
    pub auto_accept: bool,
    /// The highest handle that this end may use; none where the session is not begun at both ends.
    pub handle_max: Option<u32>,
}

// It is let go by a call, so that no caller sees its settings.
impl Drop for WaitingAccept {
    fn drop(self) {
        let WaitingAccept {
            name: _,
            settings,
            credit_mode: _,
            auto_accept: _,
            handle_max: _,
        } = self;
        drop(settings);
    }
}

impl WaitingAccept {
    /// Its settings, when a receiver gives credit, and whether that accepts each delivery as it gives it.
    pub fn into_parts(self) -> (AcceptSettings, CreditMode, bool)
        ensures { (result.0 ≡ self.settings) × (result.1 ≡ self.credit_mode) × (result.2 ≡ self.auto_accept) }
    {
        let WaitingAccept {
            name: _,
            settings,
            credit_mode,
            auto_accept,
            handle_max: _,
        } = self;
        (settings, credit_mode, auto_accept)
    }
}

/// What a link gets of its session.
#[derive(Debug, Drop)]
pub enum Claim {
    /// That handle of this end.
    Handle(u32),
    /// Nothing, for that reason.
    Refused(AttachError),
}

/// What the links of one session share. A link is known by the name of the call that made it.
pub struct SessionLinks {
    pub(crate) alloc: Global,
    /// The links that hold a handle, by handles and names.
    pub(crate) table: LinkTable,
    /// The deliveries that this end has sent, by numbers.
    pub(crate) outgoing: DeliveryTable,
    /// The deliveries that the peer has sent, by numbers.
    pub(crate) incoming: DeliveryTable,
    /// Each link that was made on the session, in order.
    pub(crate) links: Vec<u64>,
    /// The link whose attach waits for the peer's answer.
    pub(crate) attaching: Option<u64>,
    /// The call that waits for an Attach of the peer.
    pub(crate) accepting: Option<WaitingAccept>,
    /// The Attaches of the peer that no call has accepted, in order.
    pub(crate) attaches: VecDeque<Attach>,
    /// What was read of the handles of the peer that no link has, in order.
    pub(crate) early: IndexMap<u32, InputQueue>,
    /// The highest handle that this end may use, once a link has got one.
    pub(crate) handle_max: Option<u32>,
    /// Why the session has stopped.
    pub(crate) stop_reason: Option<SessionStopReason>,
}

// It is let go by a call, so that no caller sees what waits in it.
impl Drop for SessionLinks {
    fn drop(self) {
        let SessionLinks {
            alloc: _,
            table,
            outgoing,
            incoming,
            links,
            attaching: _,
            accepting,
            attaches,
            early,
            handle_max: _,
            stop_reason,
        } = self;
        drop(table);
        drop(outgoing);
        drop(incoming);
        drop(links);
        drop(accepting);
        drop(attaches);
        drop(early);
        drop(stop_reason);
    }
}

impl Model for SessionLinks {
    ghost use Rattle.std.specs.Coded.{codes};
    ghost use Rattle.amqp_frames.specs.contracts.shared.SessionStopReason as reason_row;
    ghost use Rattle.amqp_link_tables.specs.Deliveries.{deliveries_in};
    ghost use Rattle.amqp_link_tables.specs.State.{seen as table_seen};
    ghost use Rattle.amqp_performatives.specs.contracts.attach.Attach as attach_row;
    ghost use Rattle.amqp_session.specs.contracts.session.LinkInput as input_row;
    ghost use Rattle.amqp_session_links.specs.State.{State};

    ghost Value = { State };

    ghost coded = { Prim.hlevel (codes, reason_row.the_row.coded, attach_row.the_row.coded, input_row.the_row.coded) };

    ghost view = { λ p. record {
      table = table_seen p.table;
      outgoing = deliveries_in p.outgoing;
      incoming = deliveries_in p.incoming;
      links = p.links.items;
      attaching = p.attaching;
      accepting = p.accepting;
      attaches = p.attaches.items;
      early = p.early.entries;
      handle_max = p.handle_max;
      stop_reason = p.stop_reason;
    } };
}

impl SessionLinks {
    /// No links; takes no memory.
    pub fn new(alloc: Global) -> Self
        ensures { result ≡ none_attached }
    {
        SessionLinks {
            alloc,
            table: LinkTable::new(alloc),
            outgoing: DeliveryTable::new(alloc),
            incoming: DeliveryTable::new(alloc),
            links: Vec::new(alloc),
            attaching: None,
            accepting: None,
            attaches: VecDeque::new(alloc),
            early: IndexMap::new(alloc),
            handle_max: None,
            stop_reason: None,
        }
    }

    /// Whether a call waits: an attach for the peer's answer, or an accept for an Attach of the peer.
    pub fn is_busy(&self) -> bool
        ensures { result ≡ is_busy self.now }
    {
        self.attaching.is_some() || self.accepting.is_some()
    }

    /// The link whose attach waits for the peer's answer.
    pub fn attaching(&self) -> Option<u64>
        ensures { result ≡ self.now.attaching }
    {
        self.attaching
    }

    /// Whether no attach may use that name again.
    pub fn is_spent(&self, name: &Text) -> bool
        ensures { result ≡ table.is_spent name.now self.now.table }
    {
        self.table.is_spent(name)
    }

    /// The link of that name at which this end has that role.
    pub fn link_named(&self, name: &Text, role: Role) -> Option<u64>
        ensures { result ≡ table.link_named name.now role self.now.table }
    {
        self.table.link_named(name, role)
    }

    /// The link of that handle of the peer.
    pub fn link_from(&self, remote: u32) -> Option<u64>
        ensures { result ≡ table.link_from remote self.now.table }
    {
        self.table.link_from(remote)
    }

    /// The names of all links that were made on the session, in order. The one error is want of memory.
    pub fn links(&self) -> Result<Vec<u64>, AllocError>
        ensures { IfOk result (λ links. links.items ≡ self.now.links) }
    {
        self.links.clone()
    }

    /// The first Attach of the peer that waits, lent.
    pub fn first_attach(&self) -> Option<&Attach>
        ensures { option_map (λ x. x.now) result ≡ first_of self.now.attaches }
    {
        self.attaches.front()
    }
}
