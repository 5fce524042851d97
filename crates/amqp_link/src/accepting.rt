//! What an end answers an Attach with (OASIS AMQP 1.0, part 2, sections 2.6.3 and 2.7.3).
ghost use Rattle.std.specs.Prelude.{◌≡◌, Some, None, IfOk};
ghost use Rattle.amqp_link.specs.Link.{seen, lesser, size_of, accepting, without_terminus};
ghost use Rattle.amqp_link.specs.Accept.{other_role, named_source, named_target, echoed_as, echoed, is_made_source, is_made_target, is_asked_for_node, or_refused, accept_fault, accepted};
ghost use Rattle.amqp_link.specs.declared.error.AttachFault.TheVariants as fault;

use crate::endpoint::{LinkEndpoint, LinkPhase};
use crate::error::AttachFault;
use crate::rules::fault_of;
use crate::settings::AcceptSettings;
use amqp_composites::modes::Role;
use amqp_data::Text;
use amqp_frames::amqp_performatives::attach::Attach;
use amqp_frames::amqp_termini::source::Source;
use amqp_frames::amqp_termini::target_archetype::TargetArchetype;
use std::alloc::{AllocError, Global};

fn other_role(role: Role) -> Role
    ensures { result ≡ other_role role }
{
    match role {
        Role::Sender => Role::Receiver,
        Role::Receiver => Role::Sender,
    }
}

/// The source, with the address where this end makes it.
fn named_source(address: Option<Text>, source: Option<Source>) -> Option<Source>
    ensures { result ≡ named_source address source }
{
    let mut source = source?;
    if source.dynamic {
        source.address = address;
    }
    Some(source)
}

/// The target, with the address where this end makes it.
fn named_target(address: Option<Text>, target: Option<TargetArchetype>) -> Option<TargetArchetype>
    ensures { result ≡ named_target address target }
{
    match target? {
        TargetArchetype::Target(target) => {
            let mut target = target;
            if target.dynamic {
                target.address = address;
            }
            Some(TargetArchetype::Target(target))
        }
        TargetArchetype::Coordinator(coordinator) => Some(TargetArchetype::Coordinator(
            coordinator,
        )),
    }
}

/// The answering Attach of a sender.
fn echoed_by_sender(settings: AcceptSettings, handle: u32, attach: Attach) -> Attach
    ensures { result ≡ echoed_as Role.Sender settings handle attach }
{
    Attach {
        name: attach.name,
        handle,
        role: Role::Sender,
        snd_settle_mode: attach.snd_settle_mode,
        rcv_settle_mode: attach.rcv_settle_mode,
        source: named_source(settings.dynamic_address, attach.source),
        target: attach.target,
        unsettled: None,
        incomplete_unsettled: false,
        initial_delivery_count: Some(settings.initial_delivery_count),
        max_message_size: settings.max_message_size,
        offered_capabilities: None,
        desired_capabilities: None,
        properties: None,
    }
}

/// The answering Attach of a receiver.
fn echoed_by_receiver(settings: AcceptSettings, handle: u32, attach: Attach) -> Attach
    ensures { result ≡ echoed_as Role.Receiver settings handle attach }
{
    Attach {
        name: attach.name,
        handle,
        role: Role::Receiver,
        snd_settle_mode: attach.snd_settle_mode,
        rcv_settle_mode: attach.rcv_settle_mode,
        source: attach.source,
        target: named_target(settings.dynamic_address, attach.target),
        unsettled: None,
        incomplete_unsettled: false,
        initial_delivery_count: None,
        max_message_size: settings.max_message_size,
        offered_capabilities: None,
        desired_capabilities: None,
        properties: None,
    }
}

fn echoed(settings: AcceptSettings, handle: u32, attach: Attach) -> Attach
    ensures { result ≡ echoed settings handle attach }
{
    match attach.role {
        Role::Sender => echoed_by_receiver(settings, handle, attach),
        Role::Receiver => echoed_by_sender(settings, handle, attach),
    }
}

fn is_made_source(source: &Option<Source>) -> bool
    ensures { result ≡ is_made_source source.now }
{
    match source {
        Some(source) => source.dynamic,
        None => false,
    }
}

fn is_made_target(target: &Option<TargetArchetype>) -> bool
    ensures { result ≡ is_made_target target.now }
{
    match target {
        Some(TargetArchetype::Target(target)) => target.dynamic,
        Some(TargetArchetype::Coordinator(_)) => false,
        None => false,
    }
}

/// Whether an end of that role is asked to make its node.
fn is_asked_for_node(role: Role, attach: &Attach) -> bool
    ensures { result ≡ is_asked_for_node role attach.now }
{
    match role {
        Role::Sender => is_made_source(&attach.source),
        Role::Receiver => is_made_target(&attach.target),
    }
}

fn accept_fault(settings: &AcceptSettings, attach: &Attach) -> Option<AttachFault>
    ensures { result ≡ accept_fault settings.now attach.now }
{
    let role = other_role(attach.role);
    if let Some(fault) = fault_of(role, true, true, attach.snd_settle_mode, attach) {
        return Some(fault);
    }
    if settings.dynamic_address.is_none() && is_asked_for_node(role, attach) {
        return Some(AttachFault::DynamicRefused);
    }
    None
}

fn without_terminus(own: Attach) -> Attach
    ensures { result ≡ without_terminus own.role own }
{
    let mut own = own;
    match own.role {
        Role::Sender => own.source = None,
        Role::Receiver => own.target = None,
    }
    own
}

impl LinkEndpoint {
    fn refusing(
        alloc: Global,
        fault: AttachFault,
        size: u64,
        own: Attach,
    ) -> Result<Self, AllocError>
        ensures { IfOk result (λ s. seen s ≡ accepting (Some fault) size own) }
    {
        let own = without_terminus(own);
        let mut link = LinkEndpoint::new(alloc, own, true, true, size)?;
        link.refuse(fault)?;
        Ok(link)
    }

    fn accepting(alloc: Global, size: u64, own: Attach) -> Result<Self, AllocError>
        ensures { IfOk result (λ s. seen s ≡ accepting None size own) }
    {
        let mut link = LinkEndpoint::new(alloc, own, true, true, size)?;
        link.phase = LinkPhase::Attached;
        link.is_made = true;
        Ok(link)
    }

    /// A link that the peer has attached: the answering Attach is to be written, and where the link is refused a closing Detach
    /// behind it. The one error is want of memory.
    pub fn accept(
        alloc: Global,
        settings: AcceptSettings,
        handle: u32,
        attach: Attach,
    ) -> Result<Self, AllocError>
        ensures { IfOk result (λ s. seen s ≡ accepted settings handle attach) }
    {
        let fault = accept_fault(&settings, &attach);
        let size = attach.max_message_size.unwrap_or(0);
        let own = echoed(settings, handle, attach);
        match fault {
            Some(fault) => LinkEndpoint::refusing(alloc, fault, size, own),
            None => LinkEndpoint::accepting(alloc, size, own),
        }
    }
}
