//! Copies and equality of the states of deliveries (OASIS AMQP 1.0, part 3, section 3.4).
ghost use Rattle.std.specs.Prelude.{◌≡◌, ◌&&◌, IfOk};
ghost use Rattle.std.specs.Bool.{Decides};
ghost use Rattle.amqp_data.specs.View.{view, pairs_view};
ghost use Rattle.amqp_data.specs.Same.{same, same_pairs};
ghost use Rattle.amqp_delivery.specs.States.{IsPlain, is_plain};

use amqp_data::{Entry, Text};
use amqp_termini::amqp_composites::error::Error;
use amqp_termini::amqp_fields::FieldMap;
use amqp_termini::{
    Accepted, Declared, DeliveryState, Modified, Outcome, Received, Rejected, Released,
    TransactionalState,
};
use std::alloc::{AllocError, Global};

/// A copy of a state; the one error is want of memory. One without an error, a map or a number of a transaction takes none.
pub fn copy_state(alloc: Global, state: &DeliveryState) -> Result<DeliveryState, AllocError>
    ensures { IfOk result (λ s. s ≡ state.now) }
{
    match state {
        DeliveryState::Received(body) => Ok(DeliveryState::Received(Received {
            section_number: body.section_number,
            section_offset: body.section_offset,
        })),
        DeliveryState::Accepted(_) => Ok(DeliveryState::Accepted(Accepted {})),
        DeliveryState::Rejected(body) => {
            Ok(DeliveryState::Rejected(copy_rejected(alloc, body)?))
        }
        DeliveryState::Released(_) => Ok(DeliveryState::Released(Released {})),
        DeliveryState::Modified(body) => {
            Ok(DeliveryState::Modified(copy_modified(alloc, body)?))
        }
        DeliveryState::Declared(body) => {
            Ok(DeliveryState::Declared(copy_declared(alloc, body)?))
        }
        DeliveryState::TransactionalState(body) => Ok(DeliveryState::TransactionalState(
            copy_transactional(alloc, body)?,
        )),
    }
}

fn copy_rejected(alloc: Global, body: &Rejected) -> Result<Rejected, AllocError>
    ensures { IfOk result (λ s. s ≡ body.now) }
{
    let error = match &body.error {
        Some(error) => Some(copy_error(alloc, error)?),
        None => None,
    };
    Ok(Rejected { error })
}

fn copy_modified(alloc: Global, body: &Modified) -> Result<Modified, AllocError>
    ensures { IfOk result (λ s. s ≡ body.now) }
{
    let message_annotations = copy_map_or_none(alloc, &body.message_annotations)?;
    Ok(Modified {
        delivery_failed: body.delivery_failed,
        undeliverable_here: body.undeliverable_here,
        message_annotations,
    })
}

fn copy_declared(alloc: Global, body: &Declared) -> Result<Declared, AllocError>
    ensures { IfOk result (λ s. s ≡ body.now) }
{
    let txn_id = body.txn_id.try_clone(alloc)?;
    Ok(Declared { txn_id })
}

fn copy_transactional(
    alloc: Global,
    body: &TransactionalState,
) -> Result<TransactionalState, AllocError>
    ensures { IfOk result (λ s. s ≡ body.now) }
{
    let txn_id = body.txn_id.try_clone(alloc)?;
    let outcome = match &body.outcome {
        Some(outcome) => Some(copy_outcome(alloc, outcome)?),
        None => None,
    };
    Ok(TransactionalState { txn_id, outcome })
}

fn copy_outcome(alloc: Global, outcome: &Outcome) -> Result<Outcome, AllocError>
    ensures { IfOk result (λ o. o ≡ outcome.now) }
{
    match outcome {
        Outcome::Accepted(_) => Ok(Outcome::Accepted(Accepted {})),
        Outcome::Rejected(body) => Ok(Outcome::Rejected(copy_rejected(alloc, body)?)),
        Outcome::Released(_) => Ok(Outcome::Released(Released {})),
        Outcome::Modified(body) => Ok(Outcome::Modified(copy_modified(alloc, body)?)),
        Outcome::Declared(body) => Ok(Outcome::Declared(copy_declared(alloc, body)?)),
    }
}

fn copy_error(alloc: Global, error: &Error) -> Result<Error, AllocError>
    ensures { IfOk result (λ e. e ≡ error.now) }
{
    let condition = error.condition.try_clone(alloc)?;
    let description = copy_text_or_none(alloc, &error.description)?;
    let info = copy_map_or_none(alloc, &error.info)?;
    Ok(Error {
        condition,
        description,
        info,
    })
}

fn copy_text_or_none(alloc: Global, text: &Option<Text>) -> Result<Option<Text>, AllocError>
    ensures { IfOk result (λ t. t ≡ text.now) }
{
    match text {
        Some(text) => Ok(Some(text.try_clone(alloc)?)),
        None => Ok(None),
    }
}

fn copy_map_or_none(alloc: Global, map: &Option<FieldMap>) -> Result<Option<FieldMap>, AllocError>
    ensures { IfOk result (λ m. m ≡ map.now) }
{
    match map {
        Some(map) => Ok(Some(copy_map(alloc, map)?)),
        None => Ok(None),
    }
}

fn copy_map(alloc: Global, map: &FieldMap) -> Result<FieldMap, AllocError>
    ensures { IfOk result (λ m. m ≡ map.now) }
{
    let copy = map.as_map().try_clone(alloc)?;
    FieldMap::new(copy).ok_or(AllocError)
}

/// Whether a state is Accepted or Released, which hold nothing.
pub(crate) fn is_plain(state: &DeliveryState) -> bool
    ensures { result ≡ is_plain state.now }
{
    matches!(
        state,
        DeliveryState::Accepted(_) | DeliveryState::Released(_)
    )
}

/// A copy of Accepted or Released, without memory.
pub(crate) fn plain_copy(state: &DeliveryState) -> DeliveryState
    requires { IsPlain state.now }
    ensures { result ≡ state.now }
{
    match state {
        DeliveryState::Accepted(_) => DeliveryState::Accepted(Accepted {}),
        DeliveryState::Released(_) => DeliveryState::Released(Released {}),
        _ => unreachable!(),
    }
}

/// Whether two states are the same; takes no memory.
pub fn same_state(left: &DeliveryState, right: &DeliveryState) -> bool
    ensures { Decides result (left.now ≡ right.now) }
{
    match left {
        DeliveryState::Received(a) => {
            if let DeliveryState::Received(b) = right {
                a.section_number == b.section_number && a.section_offset == b.section_offset
            } else {
                false
            }
        }
        DeliveryState::Accepted(_) => matches!(right, DeliveryState::Accepted(_)),
        DeliveryState::Rejected(a) => {
            if let DeliveryState::Rejected(b) = right {
                same_rejected(a, b)
            } else {
                false
            }
        }
        DeliveryState::Released(_) => matches!(right, DeliveryState::Released(_)),
        DeliveryState::Modified(a) => {
            if let DeliveryState::Modified(b) = right {
                same_modified(a, b)
            } else {
                false
            }
        }
        DeliveryState::Declared(a) => {
            if let DeliveryState::Declared(b) = right {
                same_declared(a, b)
            } else {
                false
            }
        }
        DeliveryState::TransactionalState(a) => {
            if let DeliveryState::TransactionalState(b) = right {
                same_transactional(a, b)
            } else {
                false
            }
        }
    }
}

fn same_rejected(left: &Rejected, right: &Rejected) -> bool
    ensures { Decides result (left.now ≡ right.now) }
{
    match &left.error {
        Some(a) => if let Some(b) = &right.error {
            same_error(a, b)
        } else {
            false
        },
        None => right.error.is_none(),
    }
}

fn same_modified(left: &Modified, right: &Modified) -> bool
    ensures { Decides result (left.now ≡ right.now) }
{
    same_flag(left.delivery_failed, right.delivery_failed)
        && same_flag(left.undeliverable_here, right.undeliverable_here)
        && same_map_or_none(&left.message_annotations, &right.message_annotations)
}

fn same_declared(left: &Declared, right: &Declared) -> bool
    ensures { Decides result (left.now ≡ right.now) }
{
    left.txn_id.as_slice() == right.txn_id.as_slice()
}

fn same_transactional(left: &TransactionalState, right: &TransactionalState) -> bool
    ensures { Decides result (left.now ≡ right.now) }
{
    left.txn_id.as_slice() == right.txn_id.as_slice()
        && same_outcome_or_none(&left.outcome, &right.outcome)
}

fn same_outcome_or_none(left: &Option<Outcome>, right: &Option<Outcome>) -> bool
    ensures { Decides result (left.now ≡ right.now) }
{
    match left {
        Some(a) => if let Some(b) = right {
            same_outcome(a, b)
        } else {
            false
        },
        None => right.is_none(),
    }
}

fn same_outcome(left: &Outcome, right: &Outcome) -> bool
    ensures { Decides result (left.now ≡ right.now) }
{
    match left {
        Outcome::Accepted(_) => matches!(right, Outcome::Accepted(_)),
        Outcome::Rejected(a) => {
            if let Outcome::Rejected(b) = right {
                same_rejected(a, b)
            } else {
                false
            }
        }
        Outcome::Released(_) => matches!(right, Outcome::Released(_)),
        Outcome::Modified(a) => {
            if let Outcome::Modified(b) = right {
                same_modified(a, b)
            } else {
                false
            }
        }
        Outcome::Declared(a) => {
            if let Outcome::Declared(b) = right {
                same_declared(a, b)
            } else {
                false
            }
        }
    }
}

fn same_error(left: &Error, right: &Error) -> bool
    ensures { Decides result (left.now ≡ right.now) }
{
    left.condition.as_slice() == right.condition.as_slice()
        && same_text_or_none(&left.description, &right.description)
        && same_map_or_none(&left.info, &right.info)
}

fn same_text_or_none(left: &Option<Text>, right: &Option<Text>) -> bool
    ensures { Decides result (left.now ≡ right.now) }
{
    match left {
        Some(a) => if let Some(b) = right {
            a.as_bytes() == b.as_bytes()
        } else {
            false
        },
        None => right.is_none(),
    }
}

fn same_flag(left: Option<bool>, right: Option<bool>) -> bool
    ensures { Decides result (left ≡ right) }
{
    match left {
        Some(a) => if let Some(b) = right { a == b } else { false },
        None => right.is_none(),
    }
}

fn same_map_or_none(left: &Option<FieldMap>, right: &Option<FieldMap>) -> bool
    ensures { Decides result (left.now ≡ right.now) }
{
    match left {
        Some(a) => if let Some(b) = right {
            same_map(a, b)
        } else {
            false
        },
        None => right.is_none(),
    }
}

#[tactic(auto, using(crate::proofs::Alike::same_pairs_decides))]
fn same_map(left: &FieldMap, right: &FieldMap) -> bool
    ensures { Decides result (left.now ≡ right.now) }
{
    same_entries(left.as_map().entries(), right.as_map().entries())
}

fn same_entries(left: &[Entry], right: &[Entry]) -> bool
    ensures { result ≡ same_pairs (pairs_view left.now) (pairs_view right.now) }
{
    if left.len() != right.len() {
        return false;
    }
    for i in 0..left.len() {
        if !same_entry(&left[i], &right[i]) {
            return false;
        }
    }
    true
}

fn same_entry(left: &Entry, right: &Entry) -> bool
    ensures { result ≡ (same (view left.now.key) (view right.now.key) && same (view left.now.value) (view right.now.value)) }
{
    left.key == right.key && left.value == right.value
}
