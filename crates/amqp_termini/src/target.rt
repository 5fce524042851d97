//! Targets (OASIS AMQP 1.0, part 3, section 3.5.4 and following).
ghost use Rattle.std.specs.Prelude.{◌≡◌, OnOk};
ghost use Rattle.amqp_composites.specs.amqp_fields.Left.{left};
ghost use Rattle.amqp_composites.specs.amqp_fields.Fields.{Gives, MakesItems, trimmed};
ghost use Rattle.amqp_termini.specs.Target.{target_of, target_fields, IsTargetValid, coordinator_of, coordinator_fields};

use crate::session_end::session_end;
use amqp_composites::amqp_data::{Symbol, SymbolList, Text, ValueList};
use amqp_composites::amqp_fields::{BaseError, FieldMap, FieldWriter, Fields, TryClone};
use std::alloc::{AllocError, Global};

/// Where the messages of a link go (part 3, section 3.5.4).
#[derive(Debug, Drop, PartialEq, Eq)]
pub struct Target {
    /// The node.
    pub address: Option<Text>,
    /// What of the terminus outlives it: 0 nothing, 1 configuration, 2 the unsettled state too. The default is `0`.
    pub durable: u32,
    /// When the terminus begins to expire. The default is `session-end`.
    pub expiry_policy: Symbol,
    /// How long an expiring terminus is kept, in seconds. The default is `0`.
    pub timeout: u32,
    /// Whether the peer is to make the node. The default is `false`.
    pub dynamic: bool,
    /// Properties of a node that is to be made.
    pub dynamic_node_properties: Option<FieldMap>,
    /// The extensions that are supported or desired.
    pub capabilities: Option<SymbolList>,
}

impl TryClone for Target {
    fn try_clone(&self, alloc: Global) -> Result<Self, AllocError> {
        let address = self.address.try_clone(alloc)?;
        let expiry_policy = self.expiry_policy.try_clone(alloc)?;
        let dynamic_node_properties = self.dynamic_node_properties.try_clone(alloc)?;
        let capabilities = self.capabilities.try_clone(alloc)?;
        Ok(Target {
            address,
            durable: self.durable,
            expiry_policy,
            timeout: self.timeout,
            dynamic: self.dynamic,
            dynamic_node_properties,
            capabilities,
        })
    }
}

#[tactic(auto, unfolding(crate::specs::Target::target_of))]
pub(crate) fn read_target(alloc: Global, mut fields: Fields) -> Result<Target, BaseError>
    ensures { Gives result (target_of (left fields)) }
{
    let address = fields.optional(alloc)?;
    let durable = fields.or_default(alloc, 0)?;
    let session_end = session_end(alloc)?;
    let expiry_policy = fields.or_default(alloc, session_end)?;
    let timeout = fields.or_default(alloc, 0)?;
    let dynamic = fields.or_default(alloc, false)?;
    let dynamic_node_properties = fields.optional(alloc)?;
    let capabilities = fields.optional(alloc)?;
    fields.end()?;
    Ok(Target {
        address,
        durable,
        expiry_policy,
        timeout,
        dynamic,
        dynamic_node_properties,
        capabilities,
    })
}

pub(crate) fn target_list(alloc: Global, body: &Target) -> Result<ValueList, BaseError>
    ensures list { MakesItems (λ l. l) result (trimmed (target_fields body.now)) }
    ensures valid { OnOk result (IsTargetValid body.now) }
{
    let mut fields = FieldWriter::new(alloc);
    fields.optional(&body.address)?;
    fields.unless_default(&body.durable, &0)?;
    fields.unless_default(&body.expiry_policy, &session_end(alloc)?)?;
    fields.unless_default(&body.timeout, &0)?;
    fields.unless_default(&body.dynamic, &false)?;
    fields.optional(&body.dynamic_node_properties)?;
    fields.optional(&body.capabilities)?;
    Ok(fields.finish())
}

/// The coordinator of transactions, as a target (part 4, section 4.5.1).
#[derive(Debug, Drop, PartialEq, Eq)]
pub struct Coordinator {
    /// The capabilities of the coordinator.
    pub capabilities: Option<SymbolList>,
}

impl TryClone for Coordinator {
    fn try_clone(&self, alloc: Global) -> Result<Self, AllocError> {
        let capabilities = self.capabilities.try_clone(alloc)?;
        Ok(Coordinator { capabilities })
    }
}

#[tactic(auto, unfolding(crate::specs::Target::coordinator_of))]
pub(crate) fn read_coordinator(alloc: Global, mut fields: Fields) -> Result<Coordinator, BaseError>
    ensures { Gives result (coordinator_of (left fields)) }
{
    let capabilities = fields.optional(alloc)?;
    fields.end()?;
    Ok(Coordinator { capabilities })
}

pub(crate) fn coordinator_list(alloc: Global, body: &Coordinator) -> Result<ValueList, BaseError>
    ensures { MakesItems (λ l. l) result (trimmed (coordinator_fields body.now)) }
{
    let mut fields = FieldWriter::new(alloc);
    fields.optional(&body.capabilities)?;
    Ok(fields.finish())
}
