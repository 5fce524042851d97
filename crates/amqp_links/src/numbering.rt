//! Deliveries of the peer by their numbers, until they are settled (OASIS AMQP 1.0, part 2, sections 2.6.12 and 2.7.5).
ghost use Rattle.std.specs.Prelude.{◌≡◌, OnOk, IfOk};
ghost use Rattle.amqp_links.specs.Calling.{info_of};
ghost use Rattle.amqp_links.specs.Numbering.{begun_by, receives_at, begun_as, transfer_numbered, numbering, left_at, given_left, disposed_at, all_left, is_done, disposed_left};
ghost use Rattle.amqp_links.specs.State.{seen, link_of};

use crate::links::Links;
use amqp_composites::modes::Role;
use amqp_delivery::DeliveryInfo;
use amqp_link_calls::amqp_link_words::LinkReply;
use amqp_link_tables::Delivered;
use amqp_performatives::transfer::Transfer;
use amqp_session_links::amqp_session::LinkInput;
use std::alloc::{AllocError, Global};

/// The number of the delivery that a Transfer begins, and what it stands for; none where the delivery is settled.
fn begun_by(
    alloc: Global,
    link: u64,
    transfer: &Transfer,
) -> Result<Option<(u32, Delivered)>, AllocError>
    ensures { IfOk result (λ begun. begun ≡ begun_by link transfer.now) }
{
    if transfer.settled.unwrap_or(false) {
        return Ok(None);
    }
    match (transfer.delivery_id, &transfer.delivery_tag) {
        (Some(number), Some(tag)) => {
            let tag = tag.try_clone(alloc)?;
            Ok(Some((number, Delivered { link, tag })))
        }
        (Some(_), None) => Ok(None),
        (None, _) => Ok(None),
    }
}

/// Lets a delivery go.
fn discard_delivered(_delivered: Delivered) {}

/// Whether a disposal was made.
fn is_done(reply: &LinkReply) -> bool
    ensures { result ≡ is_done reply.now }
{
    matches!(reply, LinkReply::Done)
}

impl Links {
    fn receives(&self, link: u64) -> bool
        ensures { result ≡ receives_at (link_of link (seen self.now)) }
    {
        match self.endpoints.get(&link) {
            Some(endpoint) => endpoint.is_receiving(),
            None => false,
        }
    }

    fn begin_delivery(
        &mut self,
        session: u64,
        begun: Option<(u32, Delivered)>,
    ) -> Result<(), AllocError>
        ensures { OnOk result (seen self.new ≡ begun_as begun session (seen self.old)) }
    {
        let Some((number, delivered)) = begun else {
            return Ok(());
        };
        match self.sessions.get_mut(&session) {
            Some(place) => place.begin(number, delivered),
            None => {
                discard_delivered(delivered);
                Ok(())
            }
        }
    }

    fn number_transfer(
        &mut self,
        session: u64,
        link: u64,
        transfer: &Transfer,
    ) -> Result<(), AllocError>
        ensures { OnOk result (seen self.new ≡ transfer_numbered session link transfer.now (seen self.old)) }
    {
        if !self.receives(link) {
            return Ok(());
        }
        let begun = begun_by(self.alloc, link, transfer)?;
        self.begin_delivery(session, begun)
    }

    /// A delivery that begins on a link is known by its number. The one error is want of memory.
    pub(crate) fn number(
        &mut self,
        session: u64,
        link: u64,
        input: &LinkInput,
    ) -> Result<(), AllocError>
        ensures { OnOk result (seen self.new ≡ numbering session link input.now (seen self.old)) }
    {
        match input {
            LinkInput::Transfer(transfer, _) => self.number_transfer(session, link, transfer),
            _ => Ok(()),
        }
    }

    fn leave_at_once(&mut self, link: u64, info: &DeliveryInfo)
        ensures { seen self.new ≡ left_at (link_of link (seen self.old)) info.now (seen self.old) }
    {
        let Some(endpoint) = self.endpoints.get(&link) else {
            return;
        };
        let is_settled = endpoint.settles_at_once(info);
        let session = endpoint.session();
        self.forget_if(is_settled, Role::Sender, session, info.delivery_id);
    }

    /// A delivery that is settled as it is given needs its number no more.
    pub(crate) fn leave_given(&mut self, link: u64, reply: &LinkReply)
        ensures { seen self.new ≡ given_left link (info_of reply.now) (seen self.old) }
    {
        if let LinkReply::Delivery { info, message: _ } = reply {
            self.leave_at_once(link, info);
        }
    }

    fn leave(&mut self, link: u64, info: &DeliveryInfo)
        ensures { seen self.new ≡ disposed_at (link_of link (seen self.old)) info.now (seen self.old) }
    {
        let Some(endpoint) = self.endpoints.get(&link) else {
            return;
        };
        let is_settled = endpoint.settles(info);
        let session = endpoint.session();
        self.forget_if(is_settled, Role::Sender, session, info.delivery_id);
    }

    fn leave_all(&mut self, link: u64, infos: &[DeliveryInfo])
        ensures { seen self.new ≡ all_left link infos.now (seen self.old) }
    {
        for info in infos {
            self.leave(link, info);
        }
    }

    /// Deliveries that are settled as they were disposed of need their numbers no more.
    pub(crate) fn leave_disposed(&mut self, link: u64, infos: &[DeliveryInfo], reply: &LinkReply)
        ensures { seen self.new ≡ disposed_left (is_done reply.now) link infos.now (seen self.old) }
    {
        if is_done(reply) {
            self.leave_all(link, infos);
        }
    }
}
