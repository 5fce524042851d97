//! States of deliveries within transactions (OASIS AMQP 1.0, part 4, section 4.5.8).
ghost use Rattle.std.specs.Prelude.{◌≡◌, OnOk};
ghost use Rattle.amqp_composites.specs.amqp_fields.Left.{left};
ghost use Rattle.amqp_composites.specs.amqp_fields.Fields.{Gives, MakesItems, trimmed};
ghost use Rattle.amqp_termini.specs.Transactional.{transactional_state_of, transactional_state_fields, IsTransactionalStateValid};

use crate::outcome::Outcome;
use amqp_composites::amqp_data::{Binary, ValueList};
use amqp_composites::amqp_fields::{BaseError, FieldWriter, Fields, TryClone};
use std::alloc::{AllocError, Global};

/// The state of a delivery within a transaction (part 4, section 4.5.8).
#[derive(Debug, Drop, PartialEq, Eq)]
pub struct TransactionalState {
    /// The number of the transaction.
    pub txn_id: Binary,
    /// What the delivery becomes if the transaction ends well.
    pub outcome: Option<Outcome>,
}

impl TryClone for TransactionalState {
    fn try_clone(&self, alloc: Global) -> Result<Self, AllocError> {
        let txn_id = self.txn_id.try_clone(alloc)?;
        let outcome = self.outcome.try_clone(alloc)?;
        Ok(TransactionalState { txn_id, outcome })
    }
}

#[tactic(auto, unfolding(crate::specs::Transactional::transactional_state_of))]
pub(crate) fn read_transactional_state(
    alloc: Global,
    mut fields: Fields,
) -> Result<TransactionalState, BaseError>
    ensures { Gives result (transactional_state_of (left fields)) }
{
    let txn_id = fields.required(alloc)?;
    let outcome = fields.optional(alloc)?;
    fields.end()?;
    Ok(TransactionalState { txn_id, outcome })
}

pub(crate) fn transactional_state_list(
    alloc: Global,
    body: &TransactionalState,
) -> Result<ValueList, BaseError>
    ensures list { MakesItems (λ l. l) result (trimmed (transactional_state_fields body.now)) }
    ensures valid { OnOk result (IsTransactionalStateValid body.now) }
{
    let mut fields = FieldWriter::new(alloc);
    fields.required(&body.txn_id)?;
    fields.optional(&body.outcome)?;
    Ok(fields.finish())
}
