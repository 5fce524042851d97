//! Deliveries by their numbers in the session, and what becomes of them (OASIS AMQP 1.0, part 2, sections 2.6.12 and 2.7.6).
ghost use Rattle.std.specs.Prelude.{◌≡◌, option_map, OnOk, IfOk};
ghost use Rattle.amqp_links.specs.Parts.{disposition_heard, is_forgotten};
ghost use Rattle.amqp_links.specs.Settling.{left, forgetting, link_settled, forgets, settled_at, covered_by, delivery_at, settled, all_settled, covered_at, disposition_read};
ghost use Rattle.amqp_links.specs.State.{seen, place_of, link_of};

use crate::links::Links;
use amqp_composites::modes::Role;
use amqp_delivery::copy_state;
use amqp_frames::CoveredDelivery;
use amqp_link_calls::CalledLink;
use amqp_link_tables::Delivered;
use amqp_performatives::disposition::Disposition;
use amqp_session_links::amqp_session::LeftDelivery;
use amqp_termini::DeliveryState;
use std::alloc::{AllocError, Global};

/// Lets a delivery go.
fn discard_left(_left: LeftDelivery) {}

/// A copy of what there is; the one error is want of memory.
fn copied_state(
    alloc: Global,
    state: &Option<DeliveryState>,
) -> Result<Option<DeliveryState>, AllocError>
    ensures { IfOk result (λ copy. copy ≡ state.now) }
{
    match state {
        Some(state) => {
            let copy = copy_state(alloc, state)?;
            Ok(Some(copy))
        }
        None => Ok(None),
    }
}

/// The delivery of that number, and the name of its link.
fn covered_delivery(
    alloc: Global,
    number: u32,
    delivered: &Delivered,
) -> Result<(u64, CoveredDelivery), AllocError>
    ensures { IfOk result (λ r. r ≡ covered_by number delivered.now) }
{
    let tag = delivered.tag.try_clone(alloc)?;
    Ok((
        delivered.link,
        CoveredDelivery {
            delivery_id: number,
            delivery_tag: tag,
        },
    ))
}

/// Lets a delivery and its state go.
fn discard_covered(_covered: CoveredDelivery, _state: Option<DeliveryState>) {}

/// A link hears what has become of a delivery. The answer is whether its number may be forgotten: the delivery is settled, or both ends
/// have sent their Detach, and then nothing changes.
fn settle_at(
    link: &mut CalledLink,
    covered: CoveredDelivery,
    settled: bool,
    state: Option<DeliveryState>,
) -> Result<bool, AllocError>
    ensures link { OnOk result (link.new ≡ disposition_heard covered settled state link.old) }
    ensures answer { IfOk result (λ forgotten. forgotten ≡ is_forgotten covered settled state link.old) }
{
    if !link.is_heard() {
        discard_covered(covered, state);
        return Ok(true);
    }
    link.on_disposition(covered, settled, state)
}

impl Links {
    /// A delivery of this end has begun to leave.
    pub(crate) fn on_left(&mut self, session: u64, delivery: LeftDelivery) -> Result<(), AllocError>
        ensures { OnOk result (seen self.new ≡ left session delivery (seen self.old)) }
    {
        match self.sessions.get_mut(&session) {
            Some(place) => place.enter(delivery),
            None => {
                discard_left(delivery);
                Ok(())
            }
        }
    }

    /// A Disposition was read. One of the receivers of the peer speaks of deliveries of this end, one of its senders of its own.
    pub(crate) fn on_disposition(
        &mut self,
        session: u64,
        disposition: Disposition,
    ) -> Result<(), AllocError>
        ensures { OnOk result (seen self.new ≡ disposition_read session disposition (seen self.old)) }
    {
        let numbers = self.covered(session, &disposition)?;
        self.settle_all(&numbers, session, &disposition)
    }

    /// The numbers of deliveries that it covers.
    fn covered(&self, session: u64, disposition: &Disposition) -> Result<Vec<u32>, AllocError>
        ensures { IfOk result (λ numbers. numbers.items ≡ covered_at disposition.now (place_of session (seen self.now))) }
    {
        let last = disposition.last.unwrap_or(disposition.first);
        match self.sessions.get(&session) {
            Some(place) => place.covered(disposition.role, disposition.first, last),
            None => Ok(Vec::new(self.alloc)),
        }
    }

    fn settle_all(
        &mut self,
        numbers: &[u32],
        session: u64,
        disposition: &Disposition,
    ) -> Result<(), AllocError>
        ensures { OnOk result (seen self.new ≡ all_settled numbers.now session disposition.now (seen self.old)) }
    {
        for number in numbers {
            self.settle(session, *number, disposition)?;
        }
        Ok(())
    }

    /// The delivery of that number of which a peer in that role speaks, and the name of its link.
    fn delivery(
        &self,
        teller: Role,
        session: u64,
        number: u32,
    ) -> Result<Option<(u64, CoveredDelivery)>, AllocError>
        ensures { IfOk result (λ found. found ≡ option_map (covered_by number) (delivery_at teller number (place_of session (seen self.now)))) }
    {
        let Some(place) = self.sessions.get(&session) else {
            return Ok(None);
        };
        match place.delivery(teller, number) {
            Some(delivered) => {
                let covered = covered_delivery(self.alloc, number, delivered)?;
                Ok(Some(covered))
            }
            None => Ok(None),
        }
    }

    /// The link of the delivery of that number hears the Disposition.
    fn settle(
        &mut self,
        session: u64,
        number: u32,
        disposition: &Disposition,
    ) -> Result<(), AllocError>
        ensures { OnOk result (seen self.new ≡ settled session number disposition.now (seen self.old)) }
    {
        match self.delivery(disposition.role, session, number)? {
            Some((link, covered)) => self.settle_at(session, link, covered, disposition),
            None => Ok(()),
        }
    }

    fn settle_at(
        &mut self,
        session: u64,
        link: u64,
        covered: CoveredDelivery,
        disposition: &Disposition,
    ) -> Result<(), AllocError>
        ensures { OnOk result (seen self.new ≡ settled_at session link covered disposition.now (seen self.old)) }
    {
        let number = covered.delivery_id;
        let is_settled = self.settle_link(link, covered, disposition)?;
        self.forget_if(is_settled, disposition.role, session, number);
        self.take_up(link)
    }

    fn settle_link(
        &mut self,
        link: u64,
        covered: CoveredDelivery,
        disposition: &Disposition,
    ) -> Result<bool, AllocError>
        ensures state { OnOk result (seen self.new ≡
            link_settled (link_of link (seen self.old)) link covered disposition.now (seen self.old)) }
        ensures answer { IfOk result (λ forgotten. forgotten ≡ forgets (link_of link (seen self.old)) covered disposition.now) }
    {
        let state = copied_state(self.alloc, &disposition.state)?;
        match self.endpoints.get_mut(&link) {
            Some(endpoint) => settle_at(endpoint, covered, disposition.settled, state),
            None => {
                discard_covered(covered, state);
                Ok(true)
            }
        }
    }

    /// A delivery that is settled needs its number no more.
    pub(crate) fn forget_if(&mut self, is_settled: bool, teller: Role, session: u64, number: u32)
        ensures { seen self.new ≡ forgetting is_settled teller session number (seen self.old) }
    {
        if !is_settled {
            return;
        }
        if let Some(place) = self.sessions.get_mut(&session) {
            place.forget(teller, number);
        }
    }
}
