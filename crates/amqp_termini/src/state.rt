//! The states of deliveries (OASIS AMQP 1.0, part 3, section 3.4).
ghost use Rattle.std.specs.Prelude.{◌≡◌};
ghost use Rattle.amqp_composites.specs.amqp_data.View.{view};
ghost use Rattle.amqp_composites.specs.amqp_fields.Fields.{Gives, Makes};
ghost use Rattle.amqp_termini.specs.declared.state.DeliveryState.TheVariants as v;
ghost use Rattle.amqp_termini.specs.State.{state_in, of_state, IsStateValid, state_again};

use crate::states::{
    Accepted, Declared, Modified, Received, Rejected, Released, accepted_list, declared_list,
    modified_list, read_accepted, read_declared, read_modified, read_received, read_rejected,
    read_released, received_list, rejected_list, released_list,
};
use crate::transactional::{
    TransactionalState, read_transactional_state, transactional_state_list,
};
use amqp_composites::amqp_data::Value;
use amqp_composites::amqp_fields::{BaseError, Field, TryClone};
use amqp_composites::described::{list_value, read_list};
use amqp_composites::kind::CompositeKind;
use std::alloc::{AllocError, Global};

/// The state of a delivery.
#[derive(Debug, Drop, PartialEq, Eq)]
pub enum DeliveryState {
    /// A part of the delivery has come.
    Received(Received),
    /// The delivery is taken.
    Accepted(Accepted),
    /// The delivery is invalid.
    Rejected(Rejected),
    /// The delivery is not taken, and may be sent anew.
    Released(Released),
    /// The delivery is not taken, and is to be changed before it is sent anew.
    Modified(Modified),
    /// A transaction is declared.
    Declared(Declared),
    /// The state of a delivery within a transaction.
    TransactionalState(TransactionalState),
}

impl TryClone for DeliveryState {
    fn try_clone(&self, alloc: Global) -> Result<Self, AllocError> {
        match self {
            DeliveryState::Received(body) => Ok(DeliveryState::Received(body.try_clone(alloc)?)),
            DeliveryState::Accepted(body) => Ok(DeliveryState::Accepted(body.try_clone(alloc)?)),
            DeliveryState::Rejected(body) => Ok(DeliveryState::Rejected(body.try_clone(alloc)?)),
            DeliveryState::Released(body) => Ok(DeliveryState::Released(body.try_clone(alloc)?)),
            DeliveryState::Modified(body) => Ok(DeliveryState::Modified(body.try_clone(alloc)?)),
            DeliveryState::Declared(body) => Ok(DeliveryState::Declared(body.try_clone(alloc)?)),
            DeliveryState::TransactionalState(body) => Ok(DeliveryState::TransactionalState(
                body.try_clone(alloc)?,
            )),
        }
    }
}

impl Field for DeliveryState {
    ghost reads = { state_in };

    ghost writes = { of_state };

    ghost valid = { IsStateValid };

    fn from_value(alloc: Global, value: Value) -> Result<Self, BaseError> {
        let (kind, fields) = read_list(value)?;
        match kind {
            CompositeKind::Received => Ok(DeliveryState::Received(read_received(alloc, fields)?)),
            CompositeKind::Accepted => Ok(DeliveryState::Accepted(read_accepted(alloc, fields)?)),
            CompositeKind::Rejected => Ok(DeliveryState::Rejected(read_rejected(alloc, fields)?)),
            CompositeKind::Released => Ok(DeliveryState::Released(read_released(alloc, fields)?)),
            CompositeKind::Modified => Ok(DeliveryState::Modified(read_modified(alloc, fields)?)),
            CompositeKind::Declared => Ok(DeliveryState::Declared(read_declared(alloc, fields)?)),
            CompositeKind::TransactionalState => Ok(DeliveryState::TransactionalState(
                read_transactional_state(alloc, fields)?,
            )),
            _ => Err(BaseError::Decode),
        }
    }

    fn to_value(&self, alloc: Global) -> Result<Value, BaseError> {
        match self {
            DeliveryState::Received(body) => {
                let fields = received_list(alloc, body)?;
                list_value(alloc, CompositeKind::Received, fields)
            }
            DeliveryState::Accepted(body) => {
                let fields = accepted_list(alloc, body)?;
                list_value(alloc, CompositeKind::Accepted, fields)
            }
            DeliveryState::Rejected(body) => {
                let fields = rejected_list(alloc, body)?;
                list_value(alloc, CompositeKind::Rejected, fields)
            }
            DeliveryState::Released(body) => {
                let fields = released_list(alloc, body)?;
                list_value(alloc, CompositeKind::Released, fields)
            }
            DeliveryState::Modified(body) => {
                let fields = modified_list(alloc, body)?;
                list_value(alloc, CompositeKind::Modified, fields)
            }
            DeliveryState::Declared(body) => {
                let fields = declared_list(alloc, body)?;
                list_value(alloc, CompositeKind::Declared, fields)
            }
            DeliveryState::TransactionalState(body) => {
                let fields = transactional_state_list(alloc, body)?;
                list_value(alloc, CompositeKind::TransactionalState, fields)
            }
        }
    }

    ghost again = { state_again };

    ghost there = { elim [ v.Received x ↦ tt | v.Accepted x ↦ tt | v.Rejected x ↦ tt | v.Released x ↦ tt | v.Modified x ↦ tt | v.Declared x ↦ tt | v.TransactionalState x ↦ tt ] };
}
