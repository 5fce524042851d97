//! What is written is read again as the same, and equality tells exactly whether two are the same.
ghost use Rattle.std.specs.Prelude.{◌≡◌, ◌↔◌, IsTrue, List, Ok};
ghost use Rattle.amqp_termini.specs.declared.outcome.Outcome.{Outcome};
ghost use Rattle.amqp_termini.specs.declared.source.Source.{Source};
ghost use Rattle.amqp_termini.specs.declared.state.DeliveryState.{DeliveryState};
ghost use Rattle.amqp_termini.specs.declared.target.Target.{Target};
ghost use Rattle.amqp_termini.specs.declared.target_archetype.TargetArchetype.{TargetArchetype};
ghost use Rattle.amqp_termini.specs.declared.terminal_state.TerminalDeliveryState.{TerminalDeliveryState};
ghost use Rattle.amqp_termini.specs.declared.unsettled.UnsettledDelivery.{UnsettledDelivery};
ghost use Rattle.amqp_termini.specs.OutcomeState.{state_of_outcome, outcome_of_state};
ghost use Rattle.amqp_termini.specs.TerminalState.{state_of_terminal, terminal_of_state};

use crate::outcome::Outcome;
use crate::source::Source;
use crate::state::DeliveryState;
use crate::target::Target;
use crate::target_archetype::TargetArchetype;
use crate::terminal_state::TerminalDeliveryState;
use crate::unsettled::UnsettledMap;

/// A state that ends a delivery, taken as a state, is the same again as one that ends a delivery.
pub fn terminal_state_is_the_same_again()
    ensures { (x : TerminalDeliveryState) → terminal_of_state (state_of_terminal x) ≡ Ok x }
{}

/// An outcome, taken as a state, is the same outcome again.
pub fn outcome_is_the_same_again()
    ensures { (x : Outcome) → outcome_of_state (state_of_outcome x) ≡ Ok x }
{}

/// Two states, outcomes, termini and maps of deliveries are equal exactly where they are the same.
pub fn equal_is_the_same()
    ensures outcomes { (x y : Outcome) → IsTrue (⟦<Outcome as PartialEq>⟧.eq x y) ↔ (x ≡ y) }
    ensures states { (x y : DeliveryState) → IsTrue (⟦<DeliveryState as PartialEq>⟧.eq x y) ↔ (x ≡ y) }
    ensures terminal_states { (x y : TerminalDeliveryState) → IsTrue (⟦<TerminalDeliveryState as PartialEq>⟧.eq x y) ↔ (x ≡ y) }
    ensures sources { (x y : Source) → IsTrue (⟦<Source as PartialEq>⟧.eq x y) ↔ (x ≡ y) }
    ensures targets { (x y : Target) → IsTrue (⟦<Target as PartialEq>⟧.eq x y) ↔ (x ≡ y) }
    ensures archetypes { (x y : TargetArchetype) → IsTrue (⟦<TargetArchetype as PartialEq>⟧.eq x y) ↔ (x ≡ y) }
    ensures unsettled { (x y : List UnsettledDelivery) → IsTrue (⟦<UnsettledMap as PartialEq>⟧.eq x y) ↔ (x ≡ y) }
{}
