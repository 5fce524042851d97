//! The states that end deliveries (OASIS AMQP 1.0, part 3, section 3.4).
ghost use Rattle.std.specs.Prelude.{◌≡◌};
ghost use Rattle.amqp_termini.specs.declared.terminal_state.TerminalDeliveryState.TheVariants as v;
ghost use Rattle.amqp_termini.specs.TerminalState.{state_of_terminal, terminal_of_state};

use crate::state::DeliveryState;
use crate::states::{Accepted, Modified, Rejected, Released};
use amqp_composites::amqp_fields::TryClone;
use std::alloc::{AllocError, Global};

/// A state in which a delivery ends.
#[derive(Debug, Drop, PartialEq, Eq)]
pub enum TerminalDeliveryState {
    /// The delivery is taken.
    Accepted(Accepted),
    /// The delivery is invalid.
    Rejected(Rejected),
    /// The delivery is not taken, and may be sent anew.
    Released(Released),
    /// The delivery is not taken, and is to be changed before it is sent anew.
    Modified(Modified),
}

impl TryClone for TerminalDeliveryState {
    fn try_clone(&self, alloc: Global) -> Result<Self, AllocError> {
        match self {
            TerminalDeliveryState::Accepted(body) => Ok(TerminalDeliveryState::Accepted(
                body.try_clone(alloc)?,
            )),
            TerminalDeliveryState::Rejected(body) => Ok(TerminalDeliveryState::Rejected(
                body.try_clone(alloc)?,
            )),
            TerminalDeliveryState::Released(body) => Ok(TerminalDeliveryState::Released(
                body.try_clone(alloc)?,
            )),
            TerminalDeliveryState::Modified(body) => Ok(TerminalDeliveryState::Modified(
                body.try_clone(alloc)?,
            )),
        }
    }
}

impl From<Accepted> for TerminalDeliveryState {
    ghost from_gives = { λ x state. state ≡ v.Accepted x };

    fn from(body: Accepted) -> Self {
        TerminalDeliveryState::Accepted(body)
    }
}

impl From<Rejected> for TerminalDeliveryState {
    ghost from_gives = { λ x state. state ≡ v.Rejected x };

    fn from(body: Rejected) -> Self {
        TerminalDeliveryState::Rejected(body)
    }
}

impl From<Released> for TerminalDeliveryState {
    ghost from_gives = { λ x state. state ≡ v.Released x };

    fn from(body: Released) -> Self {
        TerminalDeliveryState::Released(body)
    }
}

impl From<Modified> for TerminalDeliveryState {
    ghost from_gives = { λ x state. state ≡ v.Modified x };

    fn from(body: Modified) -> Self {
        TerminalDeliveryState::Modified(body)
    }
}

impl From<TerminalDeliveryState> for DeliveryState {
    ghost from_gives = { λ x state. state ≡ state_of_terminal x };

    fn from(state: TerminalDeliveryState) -> Self {
        match state {
            TerminalDeliveryState::Accepted(body) => DeliveryState::Accepted(body),
            TerminalDeliveryState::Rejected(body) => DeliveryState::Rejected(body),
            TerminalDeliveryState::Released(body) => DeliveryState::Released(body),
            TerminalDeliveryState::Modified(body) => DeliveryState::Modified(body),
        }
    }
}

/// The error is the state itself, where it ends no delivery.
impl TryFrom<DeliveryState> for TerminalDeliveryState {
    type Error = DeliveryState;

    ghost try_from_gives = { λ state r. r ≡ terminal_of_state state };

    fn try_from(state: DeliveryState) -> Result<Self, DeliveryState> {
        match state {
            DeliveryState::Accepted(body) => Ok(TerminalDeliveryState::Accepted(body)),
            DeliveryState::Rejected(body) => Ok(TerminalDeliveryState::Rejected(body)),
            DeliveryState::Released(body) => Ok(TerminalDeliveryState::Released(body)),
            DeliveryState::Modified(body) => Ok(TerminalDeliveryState::Modified(body)),
            other => Err(other),
        }
    }
}
