//! What follows of the contracts, over the whole life of a session.
ghost use Rattle.std.specs.Prelude.{◌≡◌, ℕ, List, Option};
ghost use Rattle.amqp_composites.specs.declared.error.Error.{Error as AmqpError};
ghost use Rattle.amqp_frames.specs.declared.shared.IncomingSession.{IncomingSession};
ghost use Rattle.amqp_frames.specs.declared.shared.LinkFrame.{LinkFrame};
ghost use Rattle.amqp_frames.specs.declared.shared.SessionStopReason.{SessionStopReason};
ghost use Rattle.amqp_parts.specs.declared.part.Part.{Part};
ghost use Rattle.amqp_session.specs.declared.session.SessionState.{SessionState};
ghost use Rattle.amqp_session.specs.declared.settings.SessionSettings.{SessionSettings};
ghost use Rattle.amqp_session.specs.Begin.{begun, accepted};
ghost use Rattle.amqp_session.specs.Ends.{end_asked, attach_refused, stopped};
ghost use Rattle.amqp_session.specs.Frames.{heard, told_in};
ghost use Rattle.amqp_session.specs.Hold.{released};
ghost use Rattle.amqp_session.specs.Laws.{IsTidy, Releases, Splits};
ghost use Rattle.amqp_session.specs.State.{State, Framed};

/// At every moment nothing waits that the peer can take, and at most `max(1, window / 2) - 1` Transfers that were read are not
/// reported: so it is as a session is begun or accepted, and each call keeps it.
#[tactic(auto, using(crate::proofs::Tidy::begun_tidy, crate::proofs::Tidy::accepted_tidy, crate::proofs::Tidy::heard_tidy, crate::proofs::Tidy::told_in_tidy, crate::proofs::Tidy::end_tidy, crate::proofs::Tidy::refused_tidy, crate::proofs::Tidy::stopped_tidy))]
pub fn holds_nothing_back()
    ensures begun { (x : SessionSettings) (channel : ℕ) → IsTidy (begun x channel) }
    ensures accepted { (x : SessionSettings) (channel : ℕ) (incoming : IncomingSession) → IsTidy (accepted x channel incoming) }
    ensures heard { (x : Framed) (s : State) → IsTidy s → IsTidy (heard x s).state }
    ensures told { (phase : SessionState) (x : LinkFrame) (s : State) → IsTidy s → IsTidy (told_in phase x s).state }
    ensures ended { (phase : SessionState) (e : Option AmqpError) (s : State) → IsTidy s → IsTidy (end_asked phase e s).state }
    ensures refused { (phase : SessionState) (s : State) → IsTidy s → IsTidy (attach_refused phase s).state }
    ensures stopped { (phase : SessionState) (why : SessionStopReason) (s : State) → IsTidy s → IsTidy (stopped phase why s) }
{}

/// What waits is written in order, in the parts into which each delivery is split with its number in it, never more of them than the
/// peer can take; parts and deliveries have consecutive numbers modulo 2^32, and links are told of each delivery that has begun.
#[tactic(auto, using(crate::proofs::Order::released_order, crate::proofs::Order::all_split))]
pub fn writes_in_order()
    ensures parts { (frame : ℕ) (n : ℕ) (held : List Part) → (parts : List Part) × Splits frame n held parts }
    ensures released { (s : State) → Releases s (released s) }
{}
