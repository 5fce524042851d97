//! Sources (OASIS AMQP 1.0, part 3, section 3.5.3).
ghost use Rattle.std.specs.Prelude.{◌≡◌, OnOk};
ghost use Rattle.amqp_composites.specs.amqp_fields.Left.{left};
ghost use Rattle.amqp_composites.specs.amqp_fields.Fields.{Gives, MakesItems, trimmed};
ghost use Rattle.amqp_termini.specs.Source.{source_of, source_fields, source_in, of_source, IsSourceValid, source_again};

use crate::outcome::Outcome;
use crate::session_end::session_end;
use amqp_composites::amqp_data::{Symbol, SymbolList, Text, Value, ValueList};
use amqp_composites::amqp_fields::{BaseError, Field, FieldMap, FieldWriter, Fields, TryClone};
use amqp_composites::described::{list_value, read_list};
use amqp_composites::kind::CompositeKind;
use std::alloc::{AllocError, Global};

/// Where the messages of a link come from (part 3, section 3.5.3).
#[derive(Debug, Drop, PartialEq, Eq)]
pub struct Source {
    /// The node.
    pub address: Option<Text>,
    /// What of the terminus outlives it: 0 nothing, 1 configuration, 2 the unsettled state too. The default is `0`.
    pub durable: u32,
    /// When the terminus begins to expire. The default is `session-end`.
    pub expiry_policy: Symbol,
    /// How long an expiring terminus is kept, in seconds. The default is `0`.
    pub timeout: u32,
    /// Whether the peer is to make the node. The default is `false`.
    pub dynamic: bool,
    /// Properties of a node that is to be made.
    pub dynamic_node_properties: Option<FieldMap>,
    /// How messages go to several links.
    pub distribution_mode: Option<Symbol>,
    /// Which messages come.
    pub filter: Option<FieldMap>,
    /// What a delivery becomes that is settled without a state.
    pub default_outcome: Option<Outcome>,
    /// The outcomes that can be chosen.
    pub outcomes: Option<SymbolList>,
    /// The extensions that are supported or desired.
    pub capabilities: Option<SymbolList>,
}

impl TryClone for Source {
    fn try_clone(&self, alloc: Global) -> Result<Self, AllocError> {
        let address = self.address.try_clone(alloc)?;
        let expiry_policy = self.expiry_policy.try_clone(alloc)?;
        let dynamic_node_properties = self.dynamic_node_properties.try_clone(alloc)?;
        let distribution_mode = self.distribution_mode.try_clone(alloc)?;
        let filter = self.filter.try_clone(alloc)?;
        let default_outcome = self.default_outcome.try_clone(alloc)?;
        let outcomes = self.outcomes.try_clone(alloc)?;
        let capabilities = self.capabilities.try_clone(alloc)?;
        Ok(Source {
            address,
            durable: self.durable,
            expiry_policy,
            timeout: self.timeout,
            dynamic: self.dynamic,
            dynamic_node_properties,
            distribution_mode,
            filter,
            default_outcome,
            outcomes,
            capabilities,
        })
    }
}

#[tactic(auto, unfolding(crate::specs::Source::source_of))]
pub(crate) fn read_source(alloc: Global, mut fields: Fields) -> Result<Source, BaseError>
    ensures { Gives result (source_of (left fields)) }
{
    let address = fields.optional(alloc)?;
    let durable = fields.or_default(alloc, 0)?;
    let session_end = session_end(alloc)?;
    let expiry_policy = fields.or_default(alloc, session_end)?;
    let timeout = fields.or_default(alloc, 0)?;
    let dynamic = fields.or_default(alloc, false)?;
    let dynamic_node_properties = fields.optional(alloc)?;
    let distribution_mode = fields.optional(alloc)?;
    let filter = fields.optional(alloc)?;
    let default_outcome = fields.optional(alloc)?;
    let outcomes = fields.optional(alloc)?;
    let capabilities = fields.optional(alloc)?;
    fields.end()?;
    Ok(Source {
        address,
        durable,
        expiry_policy,
        timeout,
        dynamic,
        dynamic_node_properties,
        distribution_mode,
        filter,
        default_outcome,
        outcomes,
        capabilities,
    })
}

pub(crate) fn source_list(alloc: Global, body: &Source) -> Result<ValueList, BaseError>
    ensures list { MakesItems (λ l. l) result (trimmed (source_fields body.now)) }
    ensures valid { OnOk result (IsSourceValid body.now) }
{
    let mut fields = FieldWriter::new(alloc);
    fields.optional(&body.address)?;
    fields.unless_default(&body.durable, &0)?;
    fields.unless_default(&body.expiry_policy, &session_end(alloc)?)?;
    fields.unless_default(&body.timeout, &0)?;
    fields.unless_default(&body.dynamic, &false)?;
    fields.optional(&body.dynamic_node_properties)?;
    fields.optional(&body.distribution_mode)?;
    fields.optional(&body.filter)?;
    fields.optional(&body.default_outcome)?;
    fields.optional(&body.outcomes)?;
    fields.optional(&body.capabilities)?;
    Ok(fields.finish())
}

impl Field for Source {
    ghost reads = { source_in };

    ghost writes = { of_source };

    ghost valid = { IsSourceValid };

    fn from_value(alloc: Global, value: Value) -> Result<Self, BaseError> {
        let (kind, fields) = read_list(value)?;
        match kind {
            CompositeKind::Source => read_source(alloc, fields),
            _ => Err(BaseError::Decode),
        }
    }

    fn to_value(&self, alloc: Global) -> Result<Value, BaseError> {
        let fields = source_list(alloc, self)?;
        list_value(alloc, CompositeKind::Source, fields)
    }

    ghost again = { source_again };

    ghost there = { λ x. tt };
}
