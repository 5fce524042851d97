//! The deliveries of a session by their numbers, in both directions (OASIS AMQP 1.0, part 2, sections 2.6.12, 2.7.6 and 2.8.9).
ghost use Rattle.std.specs.Prelude.{◌≡◌, Some, option_map, OnOk, IfOk};
ghost use Rattle.amqp_link_tables.specs.Deliveries as deliveries;
ghost use Rattle.amqp_session_links.specs.Numbers.{told_by, entered_at, entered, begun, forgotten};

use crate::place::SessionLinks;
use amqp_composites::modes::Role;
use amqp_link_tables::Delivered;
use amqp_session::LeftDelivery;
use std::alloc::AllocError;

/// Lets a delivery go.
fn discard(_left: LeftDelivery) {}

impl SessionLinks {
    /// A delivery of this end has begun to leave; it is known by its number until it is settled. The one error is want of memory.
    pub fn enter(&mut self, left: LeftDelivery) -> Result<(), AllocError>
        ensures { OnOk result (self.new ≡ entered left self.old) }
    {
        match self.table.link_at(left.handle) {
            Some(link) => self.enter_at(link, left),
            None => {
                discard(left);
                Ok(())
            }
        }
    }

    fn enter_at(&mut self, link: u64, left: LeftDelivery) -> Result<(), AllocError>
        ensures { OnOk result (self.new ≡ entered_at (Some link) left self.old) }
    {
        if left.settled {
            discard(left);
            return Ok(());
        }
        let delivered = Delivered {
            link,
            tag: left.delivery_tag,
        };
        self.outgoing.enter(left.delivery_id, delivered)
    }

    /// A delivery of the peer has begun to come; it is known by its number until it is settled. The one error is want of memory.
    pub fn begin(&mut self, number: u32, delivered: Delivered) -> Result<(), AllocError>
        ensures { OnOk result (self.new ≡ begun number delivered self.old) }
    {
        self.incoming.enter(number, delivered)
    }

    /// The delivery of that number of which a peer in that role speaks.
    pub fn delivery(&self, teller: Role, number: u32) -> Option<&Delivered>
        ensures { option_map (λ d. d.now) result ≡ deliveries.delivery_of number (told_by teller self.now) }
    {
        match teller {
            Role::Receiver => self.outgoing.delivery(number),
            Role::Sender => self.incoming.delivery(number),
        }
    }

    /// The numbers from the first to the last, modulo 2^32, that have a delivery of which a peer in that role speaks. The one error is
    /// want of memory.
    pub fn covered(&self, teller: Role, first: u32, last: u32) -> Result<Vec<u32>, AllocError>
        ensures { IfOk result (λ numbers. numbers.items ≡ deliveries.covered first last (told_by teller self.now)) }
    {
        match teller {
            Role::Receiver => self.outgoing.covered(first, last),
            Role::Sender => self.incoming.covered(first, last),
        }
    }

    /// No delivery of which a peer in that role speaks has that number.
    pub fn forget(&mut self, teller: Role, number: u32)
        ensures { self.new ≡ forgotten teller number self.old }
    {
        match teller {
            Role::Receiver => drop(self.outgoing.forget(number)),
            Role::Sender => drop(self.incoming.forget(number)),
        }
    }
}
