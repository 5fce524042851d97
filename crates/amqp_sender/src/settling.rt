//! What becomes of the deliveries of a sender (OASIS AMQP 1.0, part 2, sections 2.6.12 and 2.7.6, and part 3, section 3.4).
ghost use Rattle.std.specs.Prelude.{◌≡◌, ◌<◌, is_some, slice_get, slice_set, true, IfOk, OnOk, OnErr};
ghost use Rattle.std.specs.Option.{option_map};
ghost use Rattle.amqp_link.specs.Link as link;
ghost use Rattle.amqp_sender.specs.Sender.{seen};
ghost use Rattle.amqp_sender.specs.Settling.{settlement_of, is_terminal, place_of, settled, saying_settled, echoed, is_second, outcome_read, disposition_read, unsettled_answer, answer_for, outcome_at, TellsOutcome, is_known};

use crate::error::SendError;
use crate::sender::{DeliveryToken, OutcomePoll, Sender, Settlement};
use amqp_composites::modes::{ReceiverSettleMode, Role};
use amqp_data::Binary;
use amqp_delivery::copy_state;
use amqp_link::amqp_frames::{CoveredDelivery, LinkFrame};
use amqp_link::amqp_performatives::disposition::Disposition;
use amqp_link::{LinkStateError, copied};
use amqp_termini::{Accepted, DeliveryState, Outcome, Released};
use std::alloc::{AllocError, Global};

/// What a delivery comes to that is settled in that state.
fn settlement_of(state: Option<DeliveryState>) -> Settlement
    ensures { result ≡ settlement_of state }
{
    match state {
        Some(DeliveryState::Accepted(body)) => Settlement::Settled(Outcome::Accepted(body)),
        Some(DeliveryState::Rejected(body)) => Settlement::Settled(Outcome::Rejected(body)),
        Some(DeliveryState::Released(body)) => Settlement::Settled(Outcome::Released(body)),
        Some(DeliveryState::Modified(body)) => Settlement::Settled(Outcome::Modified(body)),
        Some(DeliveryState::Declared(body)) => Settlement::Settled(Outcome::Declared(body)),
        Some(DeliveryState::TransactionalState(body)) => {
            drop(body);
            Settlement::Illegal
        }
        Some(DeliveryState::Received(_)) | None => Settlement::NonTerminal,
    }
}

/// Whether a delivery ends in that state.
fn is_terminal(state: &Option<DeliveryState>) -> bool
    ensures { result ≡ is_terminal state.now }
{
    match state {
        Some(DeliveryState::Received(_) | DeliveryState::TransactionalState(_)) | None => false,
        Some(
            DeliveryState::Accepted(_)
            | DeliveryState::Rejected(_)
            | DeliveryState::Released(_)
            | DeliveryState::Modified(_)
            | DeliveryState::Declared(_),
        ) => true,
    }
}

/// A copy of what there is.
fn copied_state(
    alloc: Global,
    state: &Option<DeliveryState>,
) -> Result<Option<DeliveryState>, AllocError>
    ensures { IfOk result (λ copy. copy ≡ state.now) }
{
    match state {
        Some(state) => {
            let copy = copy_state(alloc, state)?;
            Ok(Some(copy))
        }
        None => Ok(None),
    }
}

/// A copy; Accepted and Released take no memory.
fn copied_outcome(alloc: Global, outcome: &Outcome) -> Result<Outcome, AllocError>
    ensures { IfOk result (λ copy. copy ≡ outcome.now) }
{
    match outcome {
        Outcome::Accepted(_) => Ok(Outcome::Accepted(Accepted {})),
        Outcome::Released(_) => Ok(Outcome::Released(Released {})),
        Outcome::Rejected(_) | Outcome::Modified(_) | Outcome::Declared(_) => copied(
            alloc, outcome,
        ),
    }
}

fn is_second(mode: ReceiverSettleMode) -> bool
    ensures { result ≡ is_second mode }
{
    matches!(mode, ReceiverSettleMode::Second)
}

/// Writes down what a delivery has come to.
fn set(settlements: &mut [Settlement], place: usize, settlement: Settlement)
    ensures { settlements.new ≡ slice_set settlements.old place settlement }
{
    if place < settlements.len() {
        settlements[place] = settlement;
    }
}

impl Sender {
    /// Settles the delivery of that tag, if there is one that is not settled.
    fn settle(&mut self, tag: &Binary, settlement: Settlement)
        ensures state { seen self.new ≡ settled tag.now settlement (seen self.old) }
        ensures room { link.spare self.new.link ≡ link.spare self.old.link }
    {
        if let Some(place) = self.unsettled.swap_remove(tag) {
            set(&mut self.settlements, place, settlement);
        }
    }

    /// Tells the receiver that the delivery is settled here too.
    fn say_settled(&mut self, number: u32, state: Option<DeliveryState>)
        requires { 0 < link.spare self.old.link }
        ensures { seen self.new ≡ saying_settled number state (seen self.old) }
    {
        let disposition = Disposition {
            role: Role::Sender,
            first: number,
            last: None,
            settled: true,
            state,
            batchable: false,
        };
        let covered = Vec::new(self.alloc);
        self.link.say(LinkFrame::Disposition(disposition, covered));
    }

    fn echo(&mut self, number: u32, state: Option<DeliveryState>)
        requires { 0 < link.spare self.old.link }
        ensures { seen self.new ≡ echoed (is_some (seen self.old).link.stop_reason) number state (seen self.old) }
    {
        if self.link.stop_reason().is_none() {
            self.say_settled(number, state);
        }
    }

    fn settle_second(
        &mut self,
        covered: CoveredDelivery,
        state: Option<DeliveryState>,
    ) -> Result<(), AllocError>
        ensures ok { OnOk result (seen self.new ≡ outcome_read true covered state (seen self.old)) }
        ensures err { OnErr result (seen self.new ≡ seen self.old) }
    {
        let copy = copied_state(self.alloc, &state)?;
        self.link.make_room(1)?;
        self.settle(&covered.delivery_tag, settlement_of(state));
        self.echo(covered.delivery_id, copy);
        Ok(())
    }

    fn is_unsettled(&self, tag: &Binary) -> bool
        ensures { result ≡ is_some (place_of tag.now (seen self.now)) }
    {
        self.unsettled.get(tag).is_some()
    }

    /// The delivery of that tag, if it is not settled.
    pub fn token_of(&self, tag: &Binary) -> Option<DeliveryToken>
        ensures { option_map (λ token. token.place) result ≡ place_of tag.now (seen self.now) }
    {
        match self.unsettled.get(tag) {
            Some(place) => Some(DeliveryToken { place: *place }),
            None => None,
        }
    }

    /// A Disposition of the receiver was read that covers this delivery of the link, with that state. The first that settles the
    /// delivery counts, or in `ReceiverSettleMode::Second` the first with a state in which a delivery ends: then this end settles it
    /// too, and a settled Disposition is to be written.
    pub fn on_disposition(
        &mut self,
        covered: CoveredDelivery,
        settled: bool,
        state: Option<DeliveryState>,
    ) -> Result<(), AllocError>
        ensures ok { OnOk result (seen self.new ≡ disposition_read covered settled state (seen self.old)) }
        ensures err { OnErr result (seen self.new ≡ seen self.old) }
    {
        if settled {
            self.settle(&covered.delivery_tag, settlement_of(state));
            return Ok(());
        }
        let mode = self.link.terms().rcv_settle_mode;
        if is_second(mode) && is_terminal(&state) && self.is_unsettled(&covered.delivery_tag) {
            return self.settle_second(covered, state);
        }
        Ok(())
    }

    fn unsettled_answer(&self) -> Result<OutcomePoll, SendError>
        ensures { TellsOutcome result (unsettled_answer (link.settlement_refusal (seen self.now).link)) }
    {
        match self.link.settlement_refusal()? {
            Some(error) => Err(SendError::LinkStateError(error)),
            None => Ok(OutcomePoll::Pending),
        }
    }

    /// The outcome of a delivery, the same each time; a delivery that was sent settled is accepted. `NonTerminalDeliveryState` and
    /// `IllegalDeliveryState` come where it was settled without an outcome, `LinkStateError` where none comes any more.
    pub fn outcome(&self, token: &DeliveryToken) -> Result<OutcomePoll, SendError>
        ensures { TellsOutcome result (outcome_at token.now.place (seen self.now)) }
    {
        match self.settlements.get(token.place) {
            Some(Settlement::Settled(outcome)) => {
                let outcome = copied_outcome(self.alloc, outcome)?;
                Ok(OutcomePoll::Ready(outcome))
            }
            Some(Settlement::NonTerminal) => Err(SendError::NonTerminalDeliveryState),
            Some(Settlement::Illegal) => Err(SendError::IllegalDeliveryState),
            Some(Settlement::Unsettled) => self.unsettled_answer(),
            None => Err(SendError::LinkStateError(LinkStateError::IllegalState)),
        }
    }

    /// Whether it is known what has become of a delivery. Takes no memory.
    pub fn is_settled(&self, token: &DeliveryToken) -> bool
        ensures { result ≡ is_known (slice_get (seen self.now).settlements token.now.place) }
    {
        match self.settlements.get(token.place) {
            Some(Settlement::Unsettled) => false,
            Some(Settlement::Settled(_) | Settlement::NonTerminal | Settlement::Illegal) => true,
            None => true,
        }
    }
}
