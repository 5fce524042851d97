//! Attach (OASIS AMQP 1.0, part 2, section 2.7.3).
ghost use Rattle.std.specs.Prelude.{◌≡◌, OnOk};
ghost use Rattle.amqp_composites.specs.amqp_fields.Left.{left};
ghost use Rattle.amqp_composites.specs.amqp_fields.Fields.{Gives, MakesItems, trimmed, behind};
ghost use Rattle.amqp_performatives.specs.Attach.{link_of, ends_of, limits_of, attach_of, attach_fields, IsAttachValid, nonzero};

use amqp_composites::amqp_data::{SymbolList, Text, ValueList};
use amqp_composites::amqp_fields::{BaseError, FieldMap, FieldWriter, Fields};
use amqp_composites::modes::{ReceiverSettleMode, Role, SenderSettleMode};
use amqp_termini::source::Source;
use amqp_termini::target_archetype::TargetArchetype;
use amqp_termini::unsettled::UnsettledMap;
use std::alloc::Global;

/// The attach of a link (part 2, section 2.7.3).
#[derive(Debug, Drop)]
pub struct Attach {
    /// The name of the link.
    pub name: Text,
    /// The handle of the link in the session.
    pub handle: u32,
    /// Which role the end has.
    pub role: Role,
    /// When the sender settles. The default is `SenderSettleMode::Mixed`.
    pub snd_settle_mode: SenderSettleMode,
    /// When the receiver settles. The default is `ReceiverSettleMode::First`.
    pub rcv_settle_mode: ReceiverSettleMode,
    /// Where the messages come from.
    pub source: Option<Source>,
    /// Where the messages go.
    pub target: Option<TargetArchetype>,
    /// The deliveries that are not settled.
    pub unsettled: Option<UnsettledMap>,
    /// Whether deliveries are left out of `unsettled`. The default is `false`.
    pub incomplete_unsettled: bool,
    /// Where the sender's delivery-count begins.
    pub initial_delivery_count: Option<u32>,
    /// The largest message, in bytes.
    pub max_message_size: Option<u64>,
    /// The extensions that the end supports.
    pub offered_capabilities: Option<SymbolList>,
    /// The extensions that the end uses where the peer has them.
    pub desired_capabilities: Option<SymbolList>,
    /// Properties of the link.
    pub properties: Option<FieldMap>,
}

/// What the first fields say of the link.
#[derive(Drop)]
struct LinkPart {
    name: Text,
    handle: u32,
    role: Role,
    snd_settle_mode: SenderSettleMode,
    rcv_settle_mode: ReceiverSettleMode,
}

/// What the next fields say of its ends.
#[derive(Drop)]
struct EndsPart {
    source: Option<Source>,
    target: Option<TargetArchetype>,
    unsettled: Option<UnsettledMap>,
    incomplete_unsettled: bool,
}

/// What the last fields say of its limits.
#[derive(Drop)]
struct LimitsPart {
    initial_delivery_count: Option<u32>,
    max_message_size: Option<u64>,
    offered_capabilities: Option<SymbolList>,
    desired_capabilities: Option<SymbolList>,
    properties: Option<FieldMap>,
}

#[tactic(auto, unfolding(crate::specs::Attach::link_of))]
fn read_link(alloc: Global, fields: &mut Fields) -> Result<LinkPart, BaseError>
    ensures value { Gives result (link_of (left fields.old)) }
    ensures rest { OnOk result (left fields.new ≡ behind 5 (left fields.old)) }
{
    let name = fields.required(alloc)?;
    let handle = fields.required(alloc)?;
    let role = fields.required(alloc)?;
    let snd_settle_mode = fields.or_default(alloc, SenderSettleMode::Mixed)?;
    let rcv_settle_mode = fields.or_default(alloc, ReceiverSettleMode::First)?;
    Ok(LinkPart {
        name,
        handle,
        role,
        snd_settle_mode,
        rcv_settle_mode,
    })
}

#[tactic(auto, unfolding(crate::specs::Attach::ends_of))]
fn read_ends(alloc: Global, fields: &mut Fields) -> Result<EndsPart, BaseError>
    ensures value { Gives result (ends_of (left fields.old)) }
    ensures rest { OnOk result (left fields.new ≡ behind 4 (left fields.old)) }
{
    let source = fields.optional(alloc)?;
    let target = fields.optional(alloc)?;
    let unsettled = fields.optional(alloc)?;
    let incomplete_unsettled = fields.or_default(alloc, false)?;
    Ok(EndsPart {
        source,
        target,
        unsettled,
        incomplete_unsettled,
    })
}

#[tactic(auto, unfolding(crate::specs::Attach::limits_of))]
fn read_limits(alloc: Global, fields: &mut Fields) -> Result<LimitsPart, BaseError>
    ensures value { Gives result (limits_of (left fields.old)) }
    ensures rest { OnOk result (left fields.new ≡ behind 5 (left fields.old)) }
{
    let initial_delivery_count = fields.optional(alloc)?;
    let max_message_size = fields.optional(alloc)?;
    let offered_capabilities = fields.optional(alloc)?;
    let desired_capabilities = fields.optional(alloc)?;
    let properties = fields.optional(alloc)?;
    Ok(LimitsPart {
        initial_delivery_count,
        max_message_size,
        offered_capabilities,
        desired_capabilities,
        properties,
    })
}

#[tactic(auto, unfolding(crate::specs::Attach::attach_of))]
pub(crate) fn read_attach(alloc: Global, mut fields: Fields) -> Result<Attach, BaseError>
    ensures { Gives result (attach_of (left fields)) }
{
    let link = read_link(alloc, &mut fields)?;
    let ends = read_ends(alloc, &mut fields)?;
    let limits = read_limits(alloc, &mut fields)?;
    fields.end()?;
    Ok(Attach {
        name: link.name,
        handle: link.handle,
        role: link.role,
        snd_settle_mode: link.snd_settle_mode,
        rcv_settle_mode: link.rcv_settle_mode,
        source: ends.source,
        target: ends.target,
        unsettled: ends.unsettled,
        incomplete_unsettled: ends.incomplete_unsettled,
        initial_delivery_count: limits.initial_delivery_count,
        max_message_size: limits.max_message_size,
        offered_capabilities: limits.offered_capabilities,
        desired_capabilities: limits.desired_capabilities,
        properties: limits.properties,
    })
}

/// A largest message size: 0 says that there is none (section 2.7.3).
fn nonzero(size: Option<u64>) -> Option<u64>
    ensures { result ≡ nonzero size }
{
    match size {
        Some(0) => None,
        other => other,
    }
}

/// The fields of an Attach without the nulls at the end; the one error is want of memory.
pub fn attach_list(alloc: Global, body: &Attach) -> Result<ValueList, BaseError>
    ensures list { MakesItems (λ l. l) result (trimmed (attach_fields body.now)) }
    ensures valid { OnOk result (IsAttachValid body.now) }
{
    let mut fields = FieldWriter::new(alloc);
    fields.required(&body.name)?;
    fields.required(&body.handle)?;
    fields.required(&body.role)?;
    fields.unless_default(&body.snd_settle_mode, &SenderSettleMode::Mixed)?;
    fields.unless_default(&body.rcv_settle_mode, &ReceiverSettleMode::First)?;
    fields.optional(&body.source)?;
    fields.optional(&body.target)?;
    fields.optional(&body.unsettled)?;
    fields.unless_default(&body.incomplete_unsettled, &false)?;
    fields.optional(&body.initial_delivery_count)?;
    fields.optional(&nonzero(body.max_message_size))?;
    fields.optional(&body.offered_capabilities)?;
    fields.optional(&body.desired_capabilities)?;
    fields.optional(&body.properties)?;
    Ok(fields.finish())
}
