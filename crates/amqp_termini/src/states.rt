//! The states of deliveries (OASIS AMQP 1.0, part 3, section 3.4.1 and following).
ghost use Rattle.std.specs.Prelude.{◌≡◌, OnOk};
ghost use Rattle.amqp_composites.specs.amqp_fields.Left.{left};
ghost use Rattle.amqp_composites.specs.amqp_fields.Fields.{Gives, MakesItems, trimmed};
ghost use Rattle.amqp_termini.specs.States.{received_of, received_fields, accepted_of, accepted_fields, rejected_of, rejected_fields, IsRejectedValid, released_of, released_fields, modified_of, modified_fields, IsModifiedValid, declared_of, declared_fields};

use amqp_composites::amqp_data::{Binary, ValueList};
use amqp_composites::amqp_fields::{BaseError, FieldMap, FieldWriter, Fields, TryClone};
use amqp_composites::error::Error;
use std::alloc::{AllocError, Global};

/// A part of the delivery has come (part 3, section 3.4.1).
#[derive(Debug, Drop, PartialEq, Eq)]
pub struct Received {
    /// The section of the message up to which it has come.
    pub section_number: u32,
    /// The bytes of that section which have come.
    pub section_offset: u64,
}

impl TryClone for Received {
    fn try_clone(&self, _alloc: Global) -> Result<Self, AllocError> {
        Ok(Received {
            section_number: self.section_number,
            section_offset: self.section_offset,
        })
    }
}

#[tactic(auto, unfolding(crate::specs::States::received_of))]
pub(crate) fn read_received(alloc: Global, mut fields: Fields) -> Result<Received, BaseError>
    ensures { Gives result (received_of (left fields)) }
{
    let section_number = fields.required(alloc)?;
    let section_offset = fields.required(alloc)?;
    fields.end()?;
    Ok(Received {
        section_number,
        section_offset,
    })
}

pub(crate) fn received_list(alloc: Global, body: &Received) -> Result<ValueList, BaseError>
    ensures { MakesItems (λ l. l) result (trimmed (received_fields body.now)) }
{
    let mut fields = FieldWriter::new(alloc);
    fields.required(&body.section_number)?;
    fields.required(&body.section_offset)?;
    Ok(fields.finish())
}

/// The delivery is taken (part 3, section 3.4.2).
#[derive(Debug, Drop, PartialEq, Eq)]
pub struct Accepted {}

impl TryClone for Accepted {
    fn try_clone(&self, _alloc: Global) -> Result<Self, AllocError> {
        Ok(Accepted {})
    }
}

#[tactic(auto, unfolding(crate::specs::States::accepted_of))]
pub(crate) fn read_accepted(_alloc: Global, fields: Fields) -> Result<Accepted, BaseError>
    ensures { Gives result (accepted_of (left fields)) }
{
    fields.end()?;
    Ok(Accepted {})
}

pub(crate) fn accepted_list(alloc: Global, _body: &Accepted) -> Result<ValueList, BaseError>
    ensures { MakesItems (λ l. l) result (trimmed (accepted_fields _body.now)) }
{
    let fields = FieldWriter::new(alloc);
    Ok(fields.finish())
}

/// The delivery is invalid (part 3, section 3.4.3).
#[derive(Debug, Drop, PartialEq, Eq)]
pub struct Rejected {
    /// Why it is.
    pub error: Option<Error>,
}

impl TryClone for Rejected {
    fn try_clone(&self, alloc: Global) -> Result<Self, AllocError> {
        let error = self.error.try_clone(alloc)?;
        Ok(Rejected { error })
    }
}

#[tactic(auto, unfolding(crate::specs::States::rejected_of))]
pub(crate) fn read_rejected(alloc: Global, mut fields: Fields) -> Result<Rejected, BaseError>
    ensures { Gives result (rejected_of (left fields)) }
{
    let error = fields.optional(alloc)?;
    fields.end()?;
    Ok(Rejected { error })
}

pub(crate) fn rejected_list(alloc: Global, body: &Rejected) -> Result<ValueList, BaseError>
    ensures list { MakesItems (λ l. l) result (trimmed (rejected_fields body.now)) }
    ensures valid { OnOk result (IsRejectedValid body.now) }
{
    let mut fields = FieldWriter::new(alloc);
    fields.optional(&body.error)?;
    Ok(fields.finish())
}

/// The delivery is not taken, and may be sent anew (part 3, section 3.4.4).
#[derive(Debug, Drop, PartialEq, Eq)]
pub struct Released {}

impl TryClone for Released {
    fn try_clone(&self, _alloc: Global) -> Result<Self, AllocError> {
        Ok(Released {})
    }
}

#[tactic(auto, unfolding(crate::specs::States::released_of))]
pub(crate) fn read_released(_alloc: Global, fields: Fields) -> Result<Released, BaseError>
    ensures { Gives result (released_of (left fields)) }
{
    fields.end()?;
    Ok(Released {})
}

pub(crate) fn released_list(alloc: Global, _body: &Released) -> Result<ValueList, BaseError>
    ensures { MakesItems (λ l. l) result (trimmed (released_fields _body.now)) }
{
    let fields = FieldWriter::new(alloc);
    Ok(fields.finish())
}

/// The delivery is not taken, and is to be changed before it is sent anew (part 3, section 3.4.5).
#[derive(Debug, Drop, PartialEq, Eq)]
pub struct Modified {
    /// Whether it counts as a failed delivery.
    pub delivery_failed: Option<bool>,
    /// Whether it must not be sent here again.
    pub undeliverable_here: Option<bool>,
    /// Annotations that are joined to those of the message.
    pub message_annotations: Option<FieldMap>,
}

impl TryClone for Modified {
    fn try_clone(&self, alloc: Global) -> Result<Self, AllocError> {
        let message_annotations = self.message_annotations.try_clone(alloc)?;
        Ok(Modified {
            delivery_failed: self.delivery_failed,
            undeliverable_here: self.undeliverable_here,
            message_annotations,
        })
    }
}

#[tactic(auto, unfolding(crate::specs::States::modified_of))]
pub(crate) fn read_modified(alloc: Global, mut fields: Fields) -> Result<Modified, BaseError>
    ensures { Gives result (modified_of (left fields)) }
{
    let delivery_failed = fields.optional(alloc)?;
    let undeliverable_here = fields.optional(alloc)?;
    let message_annotations = fields.optional(alloc)?;
    fields.end()?;
    Ok(Modified {
        delivery_failed,
        undeliverable_here,
        message_annotations,
    })
}

pub(crate) fn modified_list(alloc: Global, body: &Modified) -> Result<ValueList, BaseError>
    ensures list { MakesItems (λ l. l) result (trimmed (modified_fields body.now)) }
    ensures valid { OnOk result (IsModifiedValid body.now) }
{
    let mut fields = FieldWriter::new(alloc);
    fields.optional(&body.delivery_failed)?;
    fields.optional(&body.undeliverable_here)?;
    fields.optional(&body.message_annotations)?;
    Ok(fields.finish())
}

/// A transaction is declared (part 4, section 4.5.5).
#[derive(Debug, Drop, PartialEq, Eq)]
pub struct Declared {
    /// The number of the transaction.
    pub txn_id: Binary,
}

impl TryClone for Declared {
    fn try_clone(&self, alloc: Global) -> Result<Self, AllocError> {
        let txn_id = self.txn_id.try_clone(alloc)?;
        Ok(Declared { txn_id })
    }
}

#[tactic(auto, unfolding(crate::specs::States::declared_of))]
pub(crate) fn read_declared(alloc: Global, mut fields: Fields) -> Result<Declared, BaseError>
    ensures { Gives result (declared_of (left fields)) }
{
    let txn_id = fields.required(alloc)?;
    fields.end()?;
    Ok(Declared { txn_id })
}

pub(crate) fn declared_list(alloc: Global, body: &Declared) -> Result<ValueList, BaseError>
    ensures { MakesItems (λ l. l) result (trimmed (declared_fields body.now)) }
{
    let mut fields = FieldWriter::new(alloc);
    fields.required(&body.txn_id)?;
    Ok(fields.finish())
}
