//! The outcomes of deliveries (OASIS AMQP 1.0, part 3, section 3.4).
ghost use Rattle.std.specs.Prelude.{◌≡◌, IsErrAnd};
ghost use Rattle.amqp_composites.specs.amqp_data.View.{view};
ghost use Rattle.amqp_composites.specs.amqp_fields.Fields.{Gives, Makes};
ghost use Rattle.amqp_termini.specs.declared.outcome.Outcome.TheVariants as v;
ghost use Rattle.amqp_termini.specs.OutcomeState.{state_of_outcome, outcome_of_state};
ghost use Rattle.amqp_termini.specs.Outcome.{outcome_in, of_outcome, IsOutcomeValid, outcome_again, IsNotAccepted, MatchAccepted};

use crate::state::DeliveryState;
use crate::states::{
    Accepted, Declared, Modified, Rejected, Released, accepted_list, declared_list, modified_list,
    read_accepted, read_declared, read_modified, read_rejected, read_released, rejected_list,
    released_list,
};
use amqp_composites::amqp_data::Value;
use amqp_composites::amqp_fields::{BaseError, Field, TryClone};
use amqp_composites::described::{list_value, read_list};
use amqp_composites::kind::CompositeKind;
use std::alloc::{AllocError, Global};

/// What becomes of a delivery.
#[derive(Debug, Drop, PartialEq, Eq)]
pub enum Outcome {
    /// The delivery is taken.
    Accepted(Accepted),
    /// The delivery is invalid.
    Rejected(Rejected),
    /// The delivery is not taken, and may be sent anew.
    Released(Released),
    /// The delivery is not taken, and is to be changed before it is sent anew.
    Modified(Modified),
    /// A transaction is declared.
    Declared(Declared),
}

impl Outcome {
    /// The acceptance, or the error that `op` makes of any other outcome.
    pub fn accepted_or_else<F: FnOnce(Outcome) -> E, E>(self, op: F) -> Result<Accepted, E>
        requires { IsNotAccepted self → F.pre op self }
        ensures { MatchAccepted self (λ x. result ≡ Ok x) (λ other. IsErrAnd result (F.post op other)) }
    {
        match self {
            Outcome::Accepted(body) => Ok(body),
            other => Err(op(other)),
        }
    }
}

impl TryClone for Outcome {
    fn try_clone(&self, alloc: Global) -> Result<Self, AllocError> {
        match self {
            Outcome::Accepted(body) => Ok(Outcome::Accepted(body.try_clone(alloc)?)),
            Outcome::Rejected(body) => Ok(Outcome::Rejected(body.try_clone(alloc)?)),
            Outcome::Released(body) => Ok(Outcome::Released(body.try_clone(alloc)?)),
            Outcome::Modified(body) => Ok(Outcome::Modified(body.try_clone(alloc)?)),
            Outcome::Declared(body) => Ok(Outcome::Declared(body.try_clone(alloc)?)),
        }
    }
}

impl From<Outcome> for DeliveryState {
    ghost from_gives = { λ x state. state ≡ state_of_outcome x };

    fn from(outcome: Outcome) -> Self {
        match outcome {
            Outcome::Accepted(body) => DeliveryState::Accepted(body),
            Outcome::Rejected(body) => DeliveryState::Rejected(body),
            Outcome::Released(body) => DeliveryState::Released(body),
            Outcome::Modified(body) => DeliveryState::Modified(body),
            Outcome::Declared(body) => DeliveryState::Declared(body),
        }
    }
}

/// The error is the state itself, where it is no outcome.
impl TryFrom<DeliveryState> for Outcome {
    type Error = DeliveryState;

    ghost try_from_gives = { λ state r. r ≡ outcome_of_state state };

    fn try_from(state: DeliveryState) -> Result<Self, DeliveryState> {
        match state {
            DeliveryState::Accepted(body) => Ok(Outcome::Accepted(body)),
            DeliveryState::Rejected(body) => Ok(Outcome::Rejected(body)),
            DeliveryState::Released(body) => Ok(Outcome::Released(body)),
            DeliveryState::Modified(body) => Ok(Outcome::Modified(body)),
            DeliveryState::Declared(body) => Ok(Outcome::Declared(body)),
            other => Err(other),
        }
    }
}

impl Field for Outcome {
    ghost reads = { outcome_in };

    ghost writes = { of_outcome };

    ghost valid = { IsOutcomeValid };

    fn from_value(alloc: Global, value: Value) -> Result<Self, BaseError> {
        let (kind, fields) = read_list(value)?;
        match kind {
            CompositeKind::Accepted => Ok(Outcome::Accepted(read_accepted(alloc, fields)?)),
            CompositeKind::Rejected => Ok(Outcome::Rejected(read_rejected(alloc, fields)?)),
            CompositeKind::Released => Ok(Outcome::Released(read_released(alloc, fields)?)),
            CompositeKind::Modified => Ok(Outcome::Modified(read_modified(alloc, fields)?)),
            CompositeKind::Declared => Ok(Outcome::Declared(read_declared(alloc, fields)?)),
            _ => Err(BaseError::Decode),
        }
    }

    fn to_value(&self, alloc: Global) -> Result<Value, BaseError> {
        match self {
            Outcome::Accepted(body) => {
                let fields = accepted_list(alloc, body)?;
                list_value(alloc, CompositeKind::Accepted, fields)
            }
            Outcome::Rejected(body) => {
                let fields = rejected_list(alloc, body)?;
                list_value(alloc, CompositeKind::Rejected, fields)
            }
            Outcome::Released(body) => {
                let fields = released_list(alloc, body)?;
                list_value(alloc, CompositeKind::Released, fields)
            }
            Outcome::Modified(body) => {
                let fields = modified_list(alloc, body)?;
                list_value(alloc, CompositeKind::Modified, fields)
            }
            Outcome::Declared(body) => {
                let fields = declared_list(alloc, body)?;
                list_value(alloc, CompositeKind::Declared, fields)
            }
        }
    }

    ghost again = { outcome_again };

    ghost there = { elim [ v.Accepted x ↦ tt | v.Rejected x ↦ tt | v.Released x ↦ tt | v.Modified x ↦ tt | v.Declared x ↦ tt ] };
}
