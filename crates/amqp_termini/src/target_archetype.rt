//! The targets of links (OASIS AMQP 1.0, part 2, section 2.7.3).
ghost use Rattle.std.specs.Prelude.{◌≡◌};
ghost use Rattle.amqp_composites.specs.amqp_data.View.{view};
ghost use Rattle.amqp_composites.specs.amqp_fields.Fields.{Gives, Makes};
ghost use Rattle.amqp_termini.specs.declared.target_archetype.TargetArchetype.TheVariants as v;
ghost use Rattle.amqp_termini.specs.TargetArchetype.{archetype_in, of_archetype, IsArchetypeValid, archetype_again};

use crate::target::{
    Coordinator, Target, coordinator_list, read_coordinator, read_target, target_list,
};
use amqp_composites::amqp_data::Value;
use amqp_composites::amqp_fields::{BaseError, Field, TryClone};
use amqp_composites::described::{list_value, read_list};
use amqp_composites::kind::CompositeKind;
use std::alloc::{AllocError, Global};

/// What a link sends to.
#[derive(Debug, Drop, PartialEq, Eq)]
pub enum TargetArchetype {
    /// Where the messages of a link go.
    Target(Target),
    /// The coordinator of transactions, as a target.
    Coordinator(Coordinator),
}

impl TryClone for TargetArchetype {
    fn try_clone(&self, alloc: Global) -> Result<Self, AllocError> {
        match self {
            TargetArchetype::Target(body) => Ok(TargetArchetype::Target(body.try_clone(alloc)?)),
            TargetArchetype::Coordinator(body) => Ok(TargetArchetype::Coordinator(body.try_clone(
                alloc,
            )?)),
        }
    }
}

impl Field for TargetArchetype {
    ghost reads = { archetype_in };

    ghost writes = { of_archetype };

    ghost valid = { IsArchetypeValid };

    fn from_value(alloc: Global, value: Value) -> Result<Self, BaseError> {
        let (kind, fields) = read_list(value)?;
        match kind {
            CompositeKind::Target => Ok(TargetArchetype::Target(read_target(alloc, fields)?)),
            CompositeKind::Coordinator => Ok(TargetArchetype::Coordinator(read_coordinator(
                alloc, fields,
            )?)),
            _ => Err(BaseError::Decode),
        }
    }

    fn to_value(&self, alloc: Global) -> Result<Value, BaseError> {
        match self {
            TargetArchetype::Target(body) => {
                let fields = target_list(alloc, body)?;
                list_value(alloc, CompositeKind::Target, fields)
            }
            TargetArchetype::Coordinator(body) => {
                let fields = coordinator_list(alloc, body)?;
                list_value(alloc, CompositeKind::Coordinator, fields)
            }
        }
    }

    ghost again = { archetype_again };

    ghost there = { elim [ v.Target x ↦ tt | v.Coordinator x ↦ tt ] };
}
