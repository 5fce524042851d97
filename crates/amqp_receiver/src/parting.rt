//! How a receiver is detached, and attached again so that it may be closed (OASIS AMQP 1.0, part 2, sections 2.6.3 to 2.6.6).
ghost use Rattle.std.specs.Prelude.{◌≡◌, IfOk, OnOk};
ghost use Rattle.amqp_delivery.specs.Book.{state_at};
ghost use Rattle.amqp_link.specs.Link as of;
ghost use Rattle.amqp_link.specs.Parting as link;
ghost use Rattle.amqp_receiver.specs.Receiver.{seen};
ghost use Rattle.amqp_receiver.specs.Parting.{told_at, all_told, unsettled_of, map_of, reattached};

use crate::receiver::Receiver;
use amqp_composites::error::Error as AmqpError;
use amqp_data::Binary;
use amqp_delivery::{BookState, copy_state};
use amqp_link::{DetachError, DetachPoll};
use amqp_termini::{DeliveryState, UnsettledDelivery, UnsettledMap};
use std::alloc::{AllocError, Global};

/// A copy of what was said of the delivery at a place of the book.
fn copied_state(
    alloc: Global,
    book: &BookState,
    place: usize,
) -> Result<Option<DeliveryState>, AllocError>
    ensures { IfOk result (λ copy. copy ≡ state_at book.now.book place) }
{
    match book.state_at(place) {
        Some(state) => {
            let copy = copy_state(alloc, state)?;
            Ok(Some(copy))
        }
        None => Ok(None),
    }
}

/// What the Attach says of the delivery at a place of the book.
fn told_at(alloc: Global, book: &BookState, place: usize) -> Result<UnsettledDelivery, AllocError>
    ensures { IfOk result (λ d. d ≡ told_at book.now.book.entries place) }
{
    let Some(tag) = book.tag_at(place) else {
        return Ok(UnsettledDelivery {
            delivery_tag: Binary::new(alloc),
            state: None,
        });
    };
    let delivery_tag = tag.try_clone(alloc)?;
    let state = copied_state(alloc, book, place)?;
    Ok(UnsettledDelivery {
        delivery_tag,
        state,
    })
}

/// What the Attach says of the deliveries in a book.
fn all_told(alloc: Global, book: &BookState) -> Result<Vec<UnsettledDelivery>, AllocError>
    ensures { IfOk result (λ v. v.items ≡ all_told book.now.book.entries) }
{
    let mut deliveries = Vec::new(alloc);
    for place in 0..book.len() {
        let delivery = told_at(alloc, book, place)?;
        deliveries.push(delivery)?;
    }
    Ok(deliveries)
}

/// The map of those deliveries, if there are any. The tags in a book are distinct.
fn map_of(
    alloc: Global,
    deliveries: Vec<UnsettledDelivery>,
) -> Result<Option<UnsettledMap>, AllocError>
    ensures { IfOk result (λ m. m ≡ map_of deliveries.items) }
{
    if deliveries.is_empty() {
        return Ok(None);
    }
    match UnsettledMap::from_deliveries(alloc, deliveries) {
        Ok(map) => Ok(Some(map)),
        Err(_) => Err(AllocError),
    }
}

impl Receiver {
    /// Attaches the link again at that handle: the Attach is to be written, with the deliveries that are not settled. For want of
    /// memory the receiver is not known any more.
    pub fn reattach(&mut self, handle: u32) -> Result<(), AllocError>
        ensures { OnOk result (seen self.new ≡ reattached handle (seen self.old)) }
    {
        let deliveries = all_told(self.alloc, &self.book)?;
        let map = map_of(self.alloc, deliveries)?;
        self.link.reattach(handle, map, None)
    }

    /// Detaches the link, with that error, and closes it where asked: see `LinkEndpoint::part`.
    pub fn part(&mut self, closes: bool, error: Option<AmqpError>) -> Result<DetachPoll, AllocError>
        ensures state { OnOk result (seen self.new ≡ record (seen self.old) { link = (link.parting closes error (seen self.old).link).link }) }
        ensures answer { IfOk result (λ p. p ≡ (link.parting closes error (seen self.old).link).answer) }
    {
        self.link.part(closes, error)
    }

    /// What a call is told that has waited since `part`: see `LinkEndpoint::poll_parted`.
    pub fn poll_parted(&self, closes: bool) -> Result<DetachPoll, AllocError>
        ensures { IfOk result (λ p. p ≡ link.parted_poll closes (seen self.now).link) }
    {
        self.link.poll_parted(closes)
    }

    /// How the peer has detached the link: none until a Detach was read or the session has stopped.
    pub fn detach_news(&self) -> Result<Option<DetachError>, AllocError>
        ensures { IfOk result (λ e. e ≡ link.detach_news (seen self.now).link) }
    {
        self.link.detach_news()
    }

    /// Lets the link go: where it is attached, and its session has not stopped, a closing Detach is to be written, and no answer is
    /// waited for.
    pub fn abandon(&mut self) -> Result<(), AllocError>
        ensures { OnOk result (seen self.new ≡ record (seen self.old) { link = link.abandoned (seen self.old).link }) }
    {
        self.link.abandon()
    }

    /// Whether the peer may still speak of the deliveries of the link.
    pub fn is_heard(&self) -> bool
        ensures { result ≡ of.is_heard (seen self.now).link.phase }
    {
        self.link.is_heard()
    }

    /// Whether this end is to attach the link again, and has no handle for that yet.
    pub fn wants_handle(&self) -> bool
        ensures { result ≡ link.wants_handle (seen self.now).link.phase }
    {
        self.link.wants_handle()
    }

    /// Whether this end has attached the link again, and the peer's Attach is awaited.
    pub fn is_reattaching(&self) -> bool
        ensures { result ≡ link.is_reattaching (seen self.now).link.phase }
    {
        self.link.is_reattaching()
    }

    /// There is no handle at which the link could be attached again: it is not closed as it was asked.
    pub fn refuse_handle(&mut self)
        ensures { seen self.new ≡ record (seen self.old) { link = link.unplaced (seen self.old).link } }
    {
        self.link.refuse_handle();
    }
}
