//! What follows of the contracts, over the whole life of a connection's sessions.
ghost use Rattle.std.specs.Prelude.{◌≡◌, ℕ, false, List, Option};
ghost use Rattle.amqp_calls.specs.declared.call.SessionNumbers.{SessionNumbers};
ghost use Rattle.amqp_frames.specs.declared.shared.ConnectionStopReason.{ConnectionStopReason};
ghost use Rattle.amqp_frames.specs.declared.shared.IncomingSession.{IncomingSession};
ghost use Rattle.amqp_session.specs.declared.error.BeginError.{BeginError};
ghost use Rattle.amqp_session.specs.State.{Framed};
ghost use Rattle.amqp_sessions.specs.Calls.{begins, begun, awaiting, accepted, ended};
ghost use Rattle.amqp_sessions.specs.Frames.{refused, heard};
ghost use Rattle.amqp_sessions.specs.Laws.{AnswersAtMostOne, FreesAtMostOne, AllWaitForEnd, NoEndWaits};
ghost use Rattle.amqp_sessions.specs.State.{State, none_begun, handed_out};
ghost use Rattle.amqp_sessions.specs.Stops.{concluded};

/// A frame that is read brings one answer at most, and only that which it means: a call is answered `session` only where this end has
/// sent its Begin and the frame is the peer's, and an `end` is answered `ended` only where this end has sent its End and the frame is
/// the peer's End, with no error in it.
#[tactic(auto, using(crate::proofs::Meant::answers_at_most_one))]
pub fn answers_what_is_meant()
    ensures { (x : Framed) (s : State) → AnswersAtMostOne x s }
{}

/// A frame that is read frees one channel of this end at most: that of its session, where the frame is the peer's End, and this end's
/// was sent before or is written now.
#[tactic(auto, using(crate::proofs::Freed::frees_at_most_one))]
pub fn frees_what_is_ended()
    ensures { (x : Framed) (s : State) → FreesAtMostOne x s }
{}

/// At every moment before the connection stops, an `end` waits only where this end has sent its End and the peer has not answered it:
/// so it is where no session was begun, and each call and each frame keeps it.
pub fn waits_for_the_end_of_the_peer()
    ensures none { AllWaitForEnd none_begun }
    ensures begun { (name : ℕ) (x : SessionNumbers) (channel limit : ℕ) (s : State) → AllWaitForEnd s → AllWaitForEnd (begun name x channel limit s) }
    ensures awaiting { (name : ℕ) (x : SessionNumbers) (s : State) → AllWaitForEnd s → AllWaitForEnd (awaiting name x s) }
    ensures accepted { (name : ℕ) (x : SessionNumbers) (channel limit : ℕ) (incoming : IncomingSession) (s : State) → AllWaitForEnd s → AllWaitForEnd (accepted name x channel limit incoming s) }
    ensures refused { (name : ℕ) (e : BeginError) (s : State) → AllWaitForEnd s → AllWaitForEnd (refused name e s) }
    ensures ended { (name session : ℕ) (condition : Option (List ℕ)) (s : State) → AllWaitForEnd s → AllWaitForEnd (ended name session condition s) }
    ensures heard { (x : Framed) (s : State) → AllWaitForEnd s → AllWaitForEnd (heard x s) }
    ensures handed_out { (name : ℕ) (s : State) → AllWaitForEnd s → AllWaitForEnd (handed_out name s) }
{}

/// Where the connection has stopped no `end` and no `begin` waits.
pub fn waits_no_more()
    ensures end { (why : ConnectionStopReason) (s : State) → NoEndWaits (concluded why s) }
    ensures begin { (why : ConnectionStopReason) (s : State) (name : ℕ) → begins name (concluded why s).waiting ≡ false }
{}
