//! How a sender is detached, and attached again so that it may be closed (OASIS AMQP 1.0, part 2, sections 2.6.3 to 2.6.6).
ghost use Rattle.std.specs.Prelude.{◌≡◌, map, Some, IfOk, OnOk};
ghost use Rattle.amqp_link.specs.Link as of;
ghost use Rattle.amqp_link.specs.Parting as link;
ghost use Rattle.amqp_sender.specs.Sender.{seen};
ghost use Rattle.amqp_sender.specs.Parting.{by_place, told_of, map_of, reattached};

use crate::sender::Sender;
use amqp_composites::error::Error as AmqpError;
use amqp_data::Binary;
use amqp_link::{DetachError, DetachPoll};
use amqp_termini::{UnsettledDelivery, UnsettledMap};
use std::alloc::{AllocError, Global};

/// Deliveries in the order in which they were sent.
fn sort_by_place(deliveries: &mut Vec<(Binary, usize)>) -> Result<(), AllocError>
    ensures { OnOk result (deliveries.new.items ≡ by_place deliveries.old.items) }
{
    deliveries.sort_by_key(|delivery| delivery.1)?;
    Ok(())
}

/// What the Attach says of those deliveries, in their order.
fn all_told(
    alloc: Global,
    deliveries: Vec<(Binary, usize)>,
) -> Result<Vec<UnsettledDelivery>, AllocError>
    ensures { IfOk result (λ v. v.items ≡ map told_of deliveries.items) }
{
    let mut told = Vec::new(alloc);
    for (delivery_tag, _) in deliveries {
        told.push(UnsettledDelivery {
            delivery_tag,
            state: None,
        })?;
    }
    Ok(told)
}

/// The map of those deliveries, if there are any. The tags of an end are distinct.
fn map_of(
    alloc: Global,
    deliveries: Vec<UnsettledDelivery>,
) -> Result<Option<UnsettledMap>, AllocError>
    ensures { IfOk result (λ m. m ≡ map_of deliveries.items) }
{
    if deliveries.is_empty() {
        return Ok(None);
    }
    match UnsettledMap::from_deliveries(alloc, deliveries) {
        Ok(map) => Ok(Some(map)),
        Err(_) => Err(AllocError),
    }
}

impl Sender {
    /// The deliveries that are not settled, with their places, as the table has them.
    fn unsettled(&self) -> Result<Vec<(Binary, usize)>, AllocError>
        ensures { IfOk result (λ v. v.items ≡ (seen self.now).unsettled) }
    {
        let mut deliveries = Vec::new(self.alloc);
        for (tag, place) in &self.unsettled {
            let tag = tag.try_clone(self.alloc)?;
            deliveries.push((tag, *place))?;
        }
        Ok(deliveries)
    }

    /// Attaches the link again at that handle: the Attach is to be written, with the deliveries that are not settled and the present
    /// delivery-count. There is no credit then. For want of memory the sender is not known any more.
    pub fn reattach(&mut self, handle: u32) -> Result<(), AllocError>
        ensures { OnOk result (seen self.new ≡ reattached handle (seen self.old)) }
    {
        let mut deliveries = self.unsettled()?;
        sort_by_place(&mut deliveries)?;
        let told = all_told(self.alloc, deliveries)?;
        let map = map_of(self.alloc, told)?;
        self.link.reattach(handle, map, Some(self.delivery_count))?;
        self.credit = 0;
        Ok(())
    }

    /// Detaches the link, with that error, and closes it where asked: see `LinkEndpoint::part`.
    pub fn part(&mut self, closes: bool, error: Option<AmqpError>) -> Result<DetachPoll, AllocError>
        ensures state { OnOk result (seen self.new ≡ record (seen self.old) { link = (link.parting closes error (seen self.old).link).link }) }
        ensures answer { IfOk result (λ p. p ≡ (link.parting closes error (seen self.old).link).answer) }
    {
        self.link.part(closes, error)
    }

    /// What a call is told that has waited since `part`: see `LinkEndpoint::poll_parted`.
    pub fn poll_parted(&self, closes: bool) -> Result<DetachPoll, AllocError>
        ensures { IfOk result (λ p. p ≡ link.parted_poll closes (seen self.now).link) }
    {
        self.link.poll_parted(closes)
    }

    /// How the peer has detached the link: none until a Detach was read or the session has stopped.
    pub fn detach_news(&self) -> Result<Option<DetachError>, AllocError>
        ensures { IfOk result (λ e. e ≡ link.detach_news (seen self.now).link) }
    {
        self.link.detach_news()
    }

    /// Lets the link go: where it is attached, and its session has not stopped, a closing Detach is to be written, and no answer is
    /// waited for.
    pub fn abandon(&mut self) -> Result<(), AllocError>
        ensures { OnOk result (seen self.new ≡ record (seen self.old) { link = link.abandoned (seen self.old).link }) }
    {
        self.link.abandon()
    }

    /// Whether the peer may still speak of the deliveries of the link.
    pub fn is_heard(&self) -> bool
        ensures { result ≡ of.is_heard (seen self.now).link.phase }
    {
        self.link.is_heard()
    }

    /// Whether this end is to attach the link again, and has no handle for that yet.
    pub fn wants_handle(&self) -> bool
        ensures { result ≡ link.wants_handle (seen self.now).link.phase }
    {
        self.link.wants_handle()
    }

    /// Whether this end has attached the link again, and the peer's Attach is awaited.
    pub fn is_reattaching(&self) -> bool
        ensures { result ≡ link.is_reattaching (seen self.now).link.phase }
    {
        self.link.is_reattaching()
    }

    /// There is no handle at which the link could be attached again: it is not closed as it was asked.
    pub fn refuse_handle(&mut self)
        ensures { seen self.new ≡ record (seen self.old) { link = link.unplaced (seen self.old).link } }
    {
        self.link.refuse_handle();
    }
}
