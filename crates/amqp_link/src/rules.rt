//! What is refused in an Attach (OASIS AMQP 1.0, part 2, sections 2.6.3 and 2.7.3, and part 3, sections 3.5.1 to 3.5.4).
ghost use Rattle.std.specs.Prelude.{◌≡◌, ◌&&◌, ◌||◌, false, true};
ghost use Rattle.amqp_link.specs.Rules.{is_coordinator, is_dynamic_source, is_dynamic_target, is_stray_source, is_stray_target, is_other_mode, first_fault, sender_termini, receiver_termini, sender_fault, receiver_fault, fault_of};

use crate::error::AttachFault;
use amqp_composites::modes::{Role, SenderSettleMode};
use amqp_frames::amqp_performatives::attach::Attach;
use amqp_frames::amqp_termini::source::Source;
use amqp_frames::amqp_termini::target_archetype::TargetArchetype;

fn is_coordinator(target: &Option<TargetArchetype>) -> bool
    ensures { result ≡ is_coordinator target.now }
{
    matches!(target, Some(TargetArchetype::Coordinator(_)))
}

fn is_dynamic_source(named: bool, source: &Option<Source>) -> bool
    ensures { result ≡ is_dynamic_source named source.now }
{
    match source {
        Some(source) => source.dynamic && source.address.is_some() == named,
        None => false,
    }
}

fn is_dynamic_target(named: bool, target: &Option<TargetArchetype>) -> bool
    ensures { result ≡ is_dynamic_target named target.now }
{
    match target {
        Some(TargetArchetype::Target(target)) => {
            target.dynamic && target.address.is_some() == named
        }
        Some(TargetArchetype::Coordinator(_)) => false,
        None => false,
    }
}

fn is_stray_source(source: &Option<Source>) -> bool
    ensures { result ≡ is_stray_source source.now }
{
    match source {
        Some(source) => !source.dynamic && source.dynamic_node_properties.is_some(),
        None => false,
    }
}

fn is_stray_target(target: &Option<TargetArchetype>) -> bool
    ensures { result ≡ is_stray_target target.now }
{
    match target {
        Some(TargetArchetype::Target(target)) => {
            !target.dynamic && target.dynamic_node_properties.is_some()
        }
        Some(TargetArchetype::Coordinator(_)) => false,
        None => false,
    }
}

/// Whether a terminus that is not to be made has properties of its node.
fn is_stray(attach: &Attach) -> bool
    ensures { result ≡ (is_stray_source attach.now.source || is_stray_target attach.now.target) }
{
    is_stray_source(&attach.source) || is_stray_target(&attach.target)
}

fn is_other_mode(own: SenderSettleMode, peer: SenderSettleMode) -> bool
    ensures { result ≡ is_other_mode own peer }
{
    match own {
        SenderSettleMode::Mixed => false,
        SenderSettleMode::Unsettled | SenderSettleMode::Settled => own.number() != peer.number(),
    }
}

fn sender_termini(accepts: bool, attach: &Attach) -> Option<AttachFault>
    ensures { result ≡ sender_termini accepts attach.now }
{
    if is_dynamic_target(false, &attach.target) {
        return Some(AttachFault::TargetAddressIsNoneWhenDynamicIsTrue);
    }
    if accepts && is_dynamic_source(true, &attach.source) {
        return Some(AttachFault::SourceAddressIsSomeWhenDynamicIsTrue);
    }
    if is_stray(attach) {
        return Some(AttachFault::DynamicNodePropertiesIsSomeWhenDynamicIsFalse);
    }
    None
}

fn receiver_termini(accepts: bool, attach: &Attach) -> Option<AttachFault>
    ensures { result ≡ receiver_termini accepts attach.now }
{
    if accepts && is_dynamic_target(true, &attach.target) {
        return Some(AttachFault::TargetAddressIsSomeWhenDynamicIsTrue);
    }
    if !accepts && is_dynamic_source(false, &attach.source) {
        return Some(AttachFault::SourceAddressIsNoneWhenDynamicIsTrue);
    }
    if is_stray(attach) {
        return Some(AttachFault::DynamicNodePropertiesIsSomeWhenDynamicIsFalse);
    }
    None
}

fn sender_fault(
    accepts: bool,
    verify: bool,
    mode: SenderSettleMode,
    attach: &Attach,
) -> Option<AttachFault>
    ensures { result ≡ sender_fault accepts verify mode attach.now }
{
    if is_coordinator(&attach.target) {
        return Some(AttachFault::CoordinatorIsNotImplemented);
    }
    if attach.target.is_none() {
        return Some(AttachFault::IncomingTargetIsNone);
    }
    if is_other_mode(mode, attach.snd_settle_mode) {
        return Some(AttachFault::SndSettleModeNotSupported);
    }
    if verify {
        return sender_termini(accepts, attach);
    }
    None
}

fn receiver_fault(accepts: bool, verify: bool, attach: &Attach) -> Option<AttachFault>
    ensures { result ≡ receiver_fault accepts verify attach.now }
{
    if is_coordinator(&attach.target) {
        return Some(AttachFault::CoordinatorIsNotImplemented);
    }
    if attach.source.is_none() {
        return Some(AttachFault::IncomingSourceIsNone);
    }
    if attach.initial_delivery_count.is_none() {
        return Some(AttachFault::InitialDeliveryCountIsNone);
    }
    if verify {
        return receiver_termini(accepts, attach);
    }
    None
}

/// What an end of that role and mode refuses first in the peer's Attach: `accepts` says whether it answers that with its own,
/// `verify` whether it looks at the addresses of termini that are to be made.
pub(crate) fn fault_of(
    role: Role,
    accepts: bool,
    verify: bool,
    mode: SenderSettleMode,
    attach: &Attach,
) -> Option<AttachFault>
    ensures { result ≡ fault_of role accepts verify mode attach.now }
{
    match role {
        Role::Sender => sender_fault(accepts, verify, mode, attach),
        Role::Receiver => receiver_fault(accepts, verify, attach),
    }
}
