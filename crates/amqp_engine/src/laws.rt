//! What follows of the contracts, over the whole life of a connection.
ghost use Rattle.std.specs.Prelude.{◌≡◌, ℕ, nat_eq, Bool, List, [], ◌∷◌, Option, None, Some, Result, Ok, ◌<◌, ◌≤◌, ◌+◌, ◌↔◌, true, false};
ghost use Rattle.std.specs.Map.{lookup};
ghost use Rattle.amqp_wire.specs.Events.{wrote_of};
ghost use Rattle.amqp_transport.specs.Wire.{Wire};
ghost use Rattle.amqp_engine.specs.declared.connection.EndKind.{EndKind};
ghost use Rattle.amqp_engine.specs.Calls.{OpensTo, Steps, Sends};
ghost use Rattle.amqp_transport.specs.amqp_frames.Session.{of_session};
ghost use Rattle.amqp_transport.specs.declared.frames.Frame.{Frame};
ghost use Rattle.amqp_engine.specs.Channels.{first_free, taken_up_to, is_among, named_in};
ghost use Rattle.amqp_engine.specs.Faults.{OwesTooMuch};
ghost use Rattle.amqp_engine.specs.Limits.{handle_of};
ghost use Rattle.amqp_engine.specs.Outcomes.{Stepped, HasClosed, IsHanded};
ghost use Rattle.amqp_engine.specs.Phases.{is_open, is_stopped};
ghost use Rattle.amqp_engine.specs.declared.engine.EngineStep.{EngineStep};
ghost use Rattle.amqp_engine.specs.declared.engine.EngineStep.TheVariants as step;
ghost use Rattle.amqp_engine.specs.declared.phase.Phase.TheVariants as p;
ghost use Rattle.amqp_engine.specs.declared.phase.Rejection.TheVariants as rejection;
ghost use Rattle.amqp_engine.specs.declared.error.Error.{Error};
ghost use Rattle.amqp_composites.specs.declared.error.Error.{Error as AmqpError};
ghost use Rattle.amqp_engine.specs.State.{State, closing, close_frame};
ghost use Rattle.amqp_engine.specs.Heard.{IsReason};
ghost use Rattle.amqp_engine.specs.Sentence.{Ran, Has, IsCalm, IsLimited, History, grown, begun, IsSentence};

use amqp_wire::link::Link;

/// What was written is at every moment the front of: what was queued before, Open, frames of sessions and empty frames, at most
/// one Close, and nothing after it; no frame is above the limit that is told. The frames that were given, joined with what is
/// left, are the bytes that were read. Where the reason of the stop is the peer's, its Close was the last frame, for that error.
/// Each frame that was queued spells what it holds, and the limits of what is read and written are those of both ends' Opens.
pub fn says_a_sentence<L: Link>()
    ensures start { (before arrived : List ℕ) (w : Wire L) (end : EndKind) (s : State L) → OpensTo w end (Ok s) → w.codec.output ≡ before → w.codec.input ≡ arrived → Has before arrived s (begun end) }
    ensures goes_on { (before arrived : List ℕ) (old new : State L) (h : History) (ran : Ran L.Link old new) → Has before arrived old h → Has before arrived new (grown h ran) }
    ensures written { (before arrived : List ℕ) (s : State L) (h : History) → Has before arrived s h → IsSentence s.settings.largest_written before (wrote_of h.events) }
    ensures reason { (before arrived : List ℕ) (s : State L) (h : History) → Has before arrived s h → IsReason s.reason h.given }
{}

/// A transport that keeps no error makes an engine that keeps none, until the transport has ended it.
pub fn keeps_no_error<L: Link>()
    ensures start { (w : Wire L) (end : EndKind) (s : State L) → OpensTo w end (Ok s) → w.kept ≡ None → IsCalm s }
    ensures goes_on { (old new : State L) → Ran L.Link old new → IsCalm old → IsCalm new }
{}

/// `Pending` comes only where no heartbeat was due and the link answered in this call that nothing is there. `Stopped` comes
/// exactly where the connection had stopped, unless what is queued could not be written. `Worked` and a refusal come only where a
/// frame was given or queued, and an error of the transport has its cause in this call. No frame that an end owes is too large.
pub fn tells_of_its_call<L: Link>()
    ensures step { (at : ℕ) (old new : State L) (result : Result EngineStep Error) → Steps L.Link at old result new → Stepped L.Link at old result new }
    ensures stopped { (at : ℕ) (old new : State L) (answer : EngineStep) → Steps L.Link at old (Ok answer) new → (answer ≡ step.Stopped) ↔ (is_stopped old.phase ≡ true) }
    ensures close { (old new : State L) (y : Option AmqpError) (result : Result Unit Error) → Sends old (close_frame y) (closing old y) result new → HasClosed L.Link old y result new }
    ensures owed { (s : State L) → IsLimited s → OwesTooMuch s → ⊥ }
{}

/// The lowest free channel is above the highest exactly where the sessions on channels up to the highest number one more than it.
pub fn counts_sessions()
    ensures { (highest : ℕ) (seats : List Bool) → (highest < first_free seats) ↔ (taken_up_to (highest + 1) seats ≡ highest + 1) }
{}

/// A Begin of this end is answered once (part 2, section 2.5.1): where one that names a channel of this end leaves the connection open,
/// that channel was not answered before, and is from then on through all that is read. No frame of a session above the highest channel
/// leaves it open (section 2.7.1).
pub fn answers_once<L: Link>()
    ensures first { (old new : State L) (x : Frame) (channel : ℕ) → is_open old.phase ≡ true → named_in x.body ≡ Some channel → IsHanded old (x ∷ []) new → is_open new.phase ≡ true → (is_among channel old.channels.answered ≡ false) × (is_among channel new.channels.answered ≡ true) }
    ensures stays { (old new : State L) (given : List Frame) (channel : ℕ) → IsHanded old given new → is_among channel old.channels.answered ≡ true → is_among channel new.channels.answered ≡ true }
    ensures within { (old new : State L) (x : Frame) → is_open old.phase ≡ true → of_session x.body ≡ true → IsHanded old (x ∷ []) new → is_open new.phase ≡ true → x.channel ≤ old.settings.channel_max }
{}

/// A handle of the peer is not above the handle-max that this end has announced for it (part 2, section 2.7.2): no Attach, Flow, Transfer or
/// Detach with a higher one leaves the connection open, and where its channel has a session it is closed for a framing error.
pub fn keeps_to_handles<L: Link>()
    ensures within { (old new : State L) (x : Frame) (highest handle : ℕ) → is_open old.phase ≡ true → lookup (nat_eq x.channel) old.channels.limits.highest ≡ Some highest → handle_of x.body ≡ Some handle → IsHanded old (x ∷ []) new → is_open new.phase ≡ true → handle ≤ highest }
    ensures closes { (old new : State L) (x : Frame) (highest handle : ℕ) → is_open old.phase ≡ true → x.channel ≤ old.settings.channel_max → is_among x.channel old.channels.remotes ≡ true → lookup (nat_eq x.channel) old.channels.limits.highest ≡ Some highest → handle_of x.body ≡ Some handle → highest < handle → IsHanded old (x ∷ []) new → new.phase ≡ p.Rejected rejection.FramingError }
{}
