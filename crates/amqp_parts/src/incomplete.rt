//! A delivery of which more is to come (OASIS AMQP 1.0, part 2, sections 2.6.14 and 2.7.5).
ghost use Rattle.std.specs.Prelude.{◌≡◌, ◌∷◌, ◌++◌, [], nat_eq, IfErr, OnErr, OnOk};
ghost use Rattle.std.specs.Str.{bytes_eq};
ghost use Rattle.amqp_composites.specs.Modes.{same_receiver_mode};
ghost use Rattle.amqp_parts.specs.Join.{seen, IsMemory, Starts, Appends, counted, lacks, agree, first_said, last_said, settled_by, joined, agrees, is_same_delivery};

use crate::part::let_go;
use amqp_composites::modes::ReceiverSettleMode;
use amqp_data::Binary;
use amqp_performatives::transfer::Transfer;
use bytes::Bytes;
use std::alloc::{AllocError, Global};
use thiserror::Error;

/// Why a part belongs to no delivery.
#[derive(Clone, Copy, Debug, PartialEq, Eq, Error)]
pub enum PartError {
    /// There was not enough memory.
    #[error("Memory")]
    Memory(AllocError),
    /// A first part has no delivery-id.
    #[error("DeliveryIdIsNone")]
    DeliveryIdIsNone,
    /// A first part has no delivery-tag.
    #[error("DeliveryTagIsNone")]
    DeliveryTagIsNone,
    /// A part says of its delivery what the parts before it do not say.
    #[error("InconsistentFieldInMultiFrameDelivery")]
    InconsistentFieldInMultiFrameDelivery,
}

impl From<AllocError> for PartError {
    ghost use Rattle.amqp_parts.specs.declared.incomplete.PartError.TheVariants.{Memory};

    ghost from_gives = { λ a e. e ≡ Memory a };

    fn from(error: AllocError) -> Self {
        PartError::Memory(error)
    }
}

/// A delivery of which more is to come: what its parts say together, and the bytes of each.
#[derive(Debug)]
pub struct IncompleteTransfer {
    pub(crate) transfer: Transfer,
    /// The bytes of each part, in order.
    pub(crate) payloads: Vec<Bytes>,
    /// How many bytes they are.
    pub(crate) size: u64,
}

// It is let go by a call, so that no caller sees its parts.
impl Drop for IncompleteTransfer {
    fn drop(self) {
        let IncompleteTransfer {
            transfer,
            payloads,
            size: _,
        } = self;
        drop(transfer);
        drop(payloads);
    }
}

fn agree_numbers(before: Option<u32>, now: Option<u32>) -> bool
    ensures { result ≡ agree nat_eq before now }
{
    match (before, now) {
        (Some(before), Some(now)) => before == now,
        _ => true,
    }
}

fn agree_tags(before: &Option<Binary>, now: &Option<Binary>) -> bool
    ensures { result ≡ agree bytes_eq before.now now.now }
{
    match (before, now) {
        (Some(before), Some(now)) => before.as_slice() == now.as_slice(),
        _ => true,
    }
}

fn agree_modes(before: Option<ReceiverSettleMode>, now: Option<ReceiverSettleMode>) -> bool
    ensures { result ≡ agree same_receiver_mode before now }
{
    match (before, now) {
        (Some(before), Some(now)) => before.number() == now.number(),
        _ => true,
    }
}

/// Whether a part says nothing else of its delivery than the parts before it.
fn agrees(before: &Transfer, now: &Transfer) -> bool
    ensures { result ≡ agrees before.now now.now }
{
    agree_numbers(before.delivery_id, now.delivery_id)
        && agree_tags(&before.delivery_tag, &now.delivery_tag)
        && agree_numbers(before.message_format, now.message_format)
        && agree_modes(before.rcv_settle_mode, now.rcv_settle_mode)
}

fn first_said<T: Drop>(before: Option<T>, now: Option<T>) -> Option<T>
    ensures { result ≡ first_said before now }
{
    match before {
        Some(before) => Some(before),
        None => now,
    }
}

fn last_said<T: Drop>(before: Option<T>, now: Option<T>) -> Option<T>
    ensures { result ≡ last_said before now }
{
    match now {
        Some(now) => Some(now),
        None => before,
    }
}

fn settled_by(before: Option<bool>, now: Option<bool>) -> Option<bool>
    ensures { result ≡ settled_by before now }
{
    match (before, now) {
        (Some(true), _) => Some(true),
        (_, Some(now)) => Some(now),
        (before, None) => before,
    }
}

/// Why a first part begins no delivery.
fn lacks(transfer: &Transfer) -> Option<PartError>
    ensures { result ≡ lacks transfer.now.delivery_id transfer.now.delivery_tag }
{
    if transfer.delivery_id.is_none() {
        return Some(PartError::DeliveryIdIsNone);
    }
    if transfer.delivery_tag.is_none() {
        return Some(PartError::DeliveryTagIsNone);
    }
    None
}

fn counted(before: u64, payload: &Bytes) -> u64
    ensures { result ≡ counted before payload.now }
{
    before.saturating_add(payload.len() as u64)
}

/// The bytes of one more part.
fn push(payloads: &mut Vec<Bytes>, payload: Bytes) -> Result<(), PartError>
    ensures ok { OnOk result (payloads.new.items ≡ payloads.old.items ++ payload ∷ []) }
    ensures err { OnErr result (payloads.new.items ≡ payloads.old.items) }
    ensures memory { IfErr result IsMemory }
{
    match payloads.push(payload) {
        Ok(()) => Ok(()),
        Err(failed) => Err(PartError::Memory(AllocError::from(failed))),
    }
}

impl IncompleteTransfer {
    /// What the parts say together with one more.
    fn join(&mut self, now: Transfer)
        ensures { seen self.new ≡ record (seen self.old) { transfer = joined (seen self.old).transfer now } }
    {
        let before = &mut self.transfer;
        before.delivery_id = first_said(before.delivery_id, now.delivery_id);
        before.delivery_tag = first_said(before.delivery_tag.take(), now.delivery_tag);
        before.message_format = first_said(before.message_format, now.message_format);
        before.settled = settled_by(before.settled, now.settled);
        before.more = now.more;
        before.rcv_settle_mode = first_said(before.rcv_settle_mode, now.rcv_settle_mode);
        before.state = last_said(before.state.take(), now.state);
    }

    /// A delivery with its first part: `DeliveryIdIsNone` and `DeliveryTagIsNone` where that has no such field, in this order.
    pub fn start(alloc: Global, transfer: Transfer, payload: Bytes) -> Result<Self, PartError>
        ensures { Starts result transfer payload }
    {
        if let Some(error) = lacks(&transfer) {
            return Err(error);
        }
        let size = counted(0, &payload);
        let mut payloads = Vec::new(alloc);
        push(&mut payloads, payload)?;
        Ok(IncompleteTransfer {
            transfer,
            payloads,
            size,
        })
    }

    /// Joins a part to it: `InconsistentFieldInMultiFrameDelivery` exactly where the part has a number, tag, format or mode other
    /// than that of the parts before it. An error changes nothing.
    pub fn try_append(&mut self, transfer: Transfer, payload: Bytes) -> Result<(), PartError>
        ensures { Appends result (seen self.old) (seen self.new) transfer payload }
    {
        if !agrees(&self.transfer, &transfer) {
            let_go(transfer);
            return Err(PartError::InconsistentFieldInMultiFrameDelivery);
        }
        let size = counted(self.size, &payload);
        push(&mut self.payloads, payload)?;
        self.size = size;
        self.join(transfer);
        Ok(())
    }

    /// Whether the Transfer is of this delivery: its tag is absent, or the same.
    pub fn is_same_delivery_as(&self, transfer: &Transfer) -> bool
        ensures { result ≡ is_same_delivery (seen self.now).transfer transfer.now }
    {
        agree_tags(&self.transfer.delivery_tag, &transfer.delivery_tag)
    }

    /// What its parts say together, lent.
    pub fn transfer(&self) -> &Transfer
        ensures { result.now ≡ (seen self.now).transfer }
    {
        &self.transfer
    }

    /// How many bytes its parts have, up to 2^64 - 1.
    pub fn accumulated_payload_size(&self) -> u64
        ensures { result ≡ (seen self.now).size }
    {
        self.size
    }

    /// What its parts say together, and the bytes of each, in order.
    pub fn into_parts(self) -> (Transfer, Vec<Bytes>)
        ensures { (result.0 ≡ (seen self).transfer) × (result.1.items ≡ (seen self).payloads) }
    {
        let IncompleteTransfer {
            transfer,
            payloads,
            size: _,
        } = self;
        (transfer, payloads)
    }
}
