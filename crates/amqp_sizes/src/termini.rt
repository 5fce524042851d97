//! Errors, states of deliveries, sources and targets (OASIS AMQP 1.0, part 2, section 2.8.14, part 3, sections 3.4 and 3.5, and part 4,
//! section 4.5).
ghost use Rattle.std.specs.Prelude.{◌≡◌, ◌≤◌, codes};
ghost use Rattle.std.specs.Str.{bytes_eq};
ghost use Rattle.amqp_composites.specs.declared.kind.CompositeKind.TheVariants as kind;
ghost use Rattle.amqp_composites.specs.Described.{composite};
ghost use Rattle.amqp_composites.specs.Error.{of_error};
ghost use Rattle.amqp_termini.specs.Outcome.{of_outcome};
ghost use Rattle.amqp_termini.specs.Source.{of_source};
ghost use Rattle.amqp_termini.specs.State.{of_state};
ghost use Rattle.amqp_termini.specs.States.{received_fields, rejected_fields, modified_fields, declared_fields};
ghost use Rattle.amqp_termini.specs.TargetArchetype.{of_archetype};
ghost use Rattle.amqp_termini.specs.Target.{target_fields, coordinator_fields};
ghost use Rattle.amqp_termini.specs.Transactional.{transactional_state_fields};
ghost use Rattle.amqp_sizes.specs.Taken.{Takes};

use crate::composite::{composite_size, inner};
use crate::slot::{Measured, optional, required, unless};
use amqp_composites::Error;
use amqp_data::Symbol;
use amqp_fields::Defaulted;
use amqp_termini::{
    Coordinator, Declared, DeliveryState, Modified, Outcome, Received, Rejected, Source, Target,
    TargetArchetype, TransactionalState,
};

fn error_size(error: &Error, levels: u8) -> Option<u64>
    requires { levels ≤ 32 }
    ensures { Takes result levels (of_error error.now) }
{
    let within = inner(levels);
    let fields = [
        required(&error.condition, within),
        optional(&error.description, within),
        optional(&error.info, within),
    ];
    composite_size(&fields, levels)
}

impl Measured for Error {
    fn size(&self, levels: u8) -> Option<u64> {
        error_size(self, levels)
    }
}

fn received_size(state: &Received, levels: u8) -> Option<u64>
    requires { levels ≤ 32 }
    ensures { Takes result levels (composite kind.Received (received_fields state.now)) }
{
    let within = inner(levels);
    let fields = [
        required(&state.section_number, within),
        required(&state.section_offset, within),
    ];
    composite_size(&fields, levels)
}

fn rejected_size(state: &Rejected, levels: u8) -> Option<u64>
    requires { levels ≤ 32 }
    ensures { Takes result levels (composite kind.Rejected (rejected_fields state.now)) }
{
    let fields = [optional(&state.error, inner(levels))];
    composite_size(&fields, levels)
}

fn modified_size(state: &Modified, levels: u8) -> Option<u64>
    requires { levels ≤ 32 }
    ensures { Takes result levels (composite kind.Modified (modified_fields state.now)) }
{
    let within = inner(levels);
    let fields = [
        optional(&state.delivery_failed, within),
        optional(&state.undeliverable_here, within),
        optional(&state.message_annotations, within),
    ];
    composite_size(&fields, levels)
}

fn declared_size(state: &Declared, levels: u8) -> Option<u64>
    requires { levels ≤ 32 }
    ensures { Takes result levels (composite kind.Declared (declared_fields state.now)) }
{
    let fields = [required(&state.txn_id, inner(levels))];
    composite_size(&fields, levels)
}

fn transactional_size(state: &TransactionalState, levels: u8) -> Option<u64>
    requires { levels ≤ 32 }
    ensures { Takes result levels (composite kind.TransactionalState (transactional_state_fields state.now)) }
{
    let within = inner(levels);
    let fields = [
        required(&state.txn_id, within),
        optional(&state.outcome, within),
    ];
    composite_size(&fields, levels)
}

fn outcome_size(outcome: &Outcome, levels: u8) -> Option<u64>
    requires { levels ≤ 32 }
    ensures { Takes result levels (of_outcome outcome.now) }
{
    match outcome {
        Outcome::Accepted(_) => composite_size(&[], levels),
        Outcome::Rejected(state) => rejected_size(state, levels),
        Outcome::Released(_) => composite_size(&[], levels),
        Outcome::Modified(state) => modified_size(state, levels),
        Outcome::Declared(state) => declared_size(state, levels),
    }
}

impl Measured for Outcome {
    fn size(&self, levels: u8) -> Option<u64> {
        outcome_size(self, levels)
    }
}

fn delivery_state_size(state: &DeliveryState, levels: u8) -> Option<u64>
    requires { levels ≤ 32 }
    ensures { Takes result levels (of_state state.now) }
{
    match state {
        DeliveryState::Received(said) => received_size(said, levels),
        DeliveryState::Accepted(_) => composite_size(&[], levels),
        DeliveryState::Rejected(said) => rejected_size(said, levels),
        DeliveryState::Released(_) => composite_size(&[], levels),
        DeliveryState::Modified(said) => modified_size(said, levels),
        DeliveryState::Declared(said) => declared_size(said, levels),
        DeliveryState::TransactionalState(said) => transactional_size(said, levels),
    }
}

impl Measured for DeliveryState {
    fn size(&self, levels: u8) -> Option<u64> {
        delivery_state_size(self, levels)
    }
}

/// Whether it is the default of expiry policies (part 3, section 3.5.6).
fn is_session_end(policy: &Symbol) -> bool
    ensures { result ≡ bytes_eq policy.now (codes "session-end") }
{
    policy.as_slice() == b"session-end".as_slice()
}

fn source_size(source: &Source, levels: u8) -> Option<u64>
    requires { levels ≤ 32 }
    ensures { Takes result levels (of_source source.now) }
{
    let within = inner(levels);
    let fields = [
        optional(&source.address, within),
        unless(source.durable.is(&0), &source.durable, within),
        unless(
            is_session_end(&source.expiry_policy),
            &source.expiry_policy,
            within,
        ),
        unless(source.timeout.is(&0), &source.timeout, within),
        unless(source.dynamic.is(&false), &source.dynamic, within),
        optional(&source.dynamic_node_properties, within),
        optional(&source.distribution_mode, within),
        optional(&source.filter, within),
        optional(&source.default_outcome, within),
        optional(&source.outcomes, within),
        optional(&source.capabilities, within),
    ];
    composite_size(&fields, levels)
}

impl Measured for Source {
    fn size(&self, levels: u8) -> Option<u64> {
        source_size(self, levels)
    }
}

fn target_size(target: &Target, levels: u8) -> Option<u64>
    requires { levels ≤ 32 }
    ensures { Takes result levels (composite kind.Target (target_fields target.now)) }
{
    let within = inner(levels);
    let fields = [
        optional(&target.address, within),
        unless(target.durable.is(&0), &target.durable, within),
        unless(
            is_session_end(&target.expiry_policy),
            &target.expiry_policy,
            within,
        ),
        unless(target.timeout.is(&0), &target.timeout, within),
        unless(target.dynamic.is(&false), &target.dynamic, within),
        optional(&target.dynamic_node_properties, within),
        optional(&target.capabilities, within),
    ];
    composite_size(&fields, levels)
}

fn coordinator_size(coordinator: &Coordinator, levels: u8) -> Option<u64>
    requires { levels ≤ 32 }
    ensures { Takes result levels (composite kind.Coordinator (coordinator_fields coordinator.now)) }
{
    let fields = [optional(&coordinator.capabilities, inner(levels))];
    composite_size(&fields, levels)
}

fn archetype_size(archetype: &TargetArchetype, levels: u8) -> Option<u64>
    requires { levels ≤ 32 }
    ensures { Takes result levels (of_archetype archetype.now) }
{
    match archetype {
        TargetArchetype::Target(target) => target_size(target, levels),
        TargetArchetype::Coordinator(coordinator) => coordinator_size(coordinator, levels),
    }
}

impl Measured for TargetArchetype {
    fn size(&self, levels: u8) -> Option<u64> {
        archetype_size(self, levels)
    }
}
