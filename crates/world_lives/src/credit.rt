//! What a sender hears of its session, and what comes of it between two ends.
ghost use Rattle.world_lives.specs.WordsCarry.Carrying.{AgreedCreditCarries};
ghost use Rattle.world_lives.specs.WordsCarry.Hearing.{FlowsAreHeard};

/// The Flows that a sender hears are the first of those on the peer's handle that its session hands over, each once and
/// in order, as long as that handle leads to the sender and no other does, and where none of them was on its way.
pub fn flows_are_heard()
    ensures { FlowsAreHeard }
{}

/// A receiver of the one end and a sender of the other that stand at two moments, each with its session, go on by moves,
/// as `credit_is_carried` of `outcomes` says; but what the sender hears is no premise: a handle of the peer leads to
/// it, as no other does, and the peer is quiet.
pub fn agreed_credit_carries()
    ensures { AgreedCreditCarries }
{}
