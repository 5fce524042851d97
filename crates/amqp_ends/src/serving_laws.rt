//! Laws over an end and the sessions above it (OASIS AMQP 1.0, part 2, section 2.5).
ghost use Rattle.std.specs.Prelude.{◌≡◌, ℕ, List, [], ◌∷◌, ◌++◌, true, Some, Result};
ghost use Rattle.amqp_frames.specs.declared.shared.IncomingSession.{IncomingSession};
ghost use Rattle.amqp_transport.specs.declared.frames.Frame.{Frame};
ghost use Rattle.amqp_peer.specs.amqp_words.declared.call.Call.{Call};
ghost use Rattle.amqp_peer.specs.declared.peer.PeerKind.{PeerKind};
ghost use Rattle.amqp_peer.specs.Frames.{asking, sessions_of, others_of};
ghost use Rattle.amqp_engine.specs.declared.error.AllocSessionError.{AllocSessionError};
ghost use Rattle.amqp_peer.specs.Handed.{HandsOn, HandsLast, Sent};
ghost use Rattle.amqp_peer.specs.Hearing.{hears_in, waiting_in, IsOpenIn};
ghost use Rattle.amqp_peer.specs.History.{Local, Made, Polled, given_in, moment_in};
ghost use Rattle.amqp_peer.specs.Passing.{TakesIncoming, TakesSession, AllocatesLate, freed_in, IsHeldAlone};
ghost use Rattle.amqp_peer.specs.Peering.{Peering, Has, fresh, with_link_of};
ghost use Rattle.amqp_peer.specs.Runs.{Stepped};
ghost use Rattle.amqp_ends.specs.Streams.{Carries, IsUpTo, on_channel, Serves};

use amqp_wire::link::Link;

/// An end serves its sessions from the start, and goes on to serve them in each call, each poll and each step, where a frame is
/// handed up, where one is given to it while it is open or hears no more, and where a channel is taken or given back, its replies are
/// taken out, or bytes come to its link. So what its sessions were handed are the first frames of sessions that it was given, and what
/// it queued are the first that they gave. On each channel of the peer, what they were handed and then what waits are the first frames of
/// sessions that were read there, but for those that ask for one, and all of them while the connection hears.
pub fn ends_serve_their_sessions<L: Link>()
    ensures begins { (link : L) (kind : PeerKind) → Serves (fresh link kind) [] [] [] [] }
    ensures looks { (at : ℕ) (p : Peering L) (asked heard gave : List Frame) (h : List Local)
        → Serves p asked heard gave h → Serves p asked heard gave (Polled at ∷ h) }
    ensures calls { (at name : ℕ) (call : Call) (old new : Peering L) (asked heard gave : List Frame) (h : List Local) (k : Stepped L.Link old (Made at name call) new)
        → Serves old asked heard gave h → Serves new asked heard gave (k.events ++ Made at name call ∷ h) }
    ensures polls { (at : ℕ) (old new : Peering L) (asked heard gave : List Frame) (h : List Local) (k : Stepped L.Link old (Polled at) new)
        → Serves old asked heard gave h → Serves new asked heard gave (k.events ++ Polled at ∷ h) }
    ensures goes_on { (at : ℕ) (old new : Peering L) (asked heard gave : List Frame) (h : List Local) (k : HandsOn L.Link at old new)
        → moment_in h ≡ at → Serves old asked heard gave h → Serves new asked heard gave (k.0.run.events ++ h) }
    ensures rests { (at : ℕ) (old new : Peering L) (asked heard gave : List Frame) (h : List Local) (k : HandsLast L.Link at old new)
        → moment_in h ≡ at → Serves old asked heard gave h → Serves new asked heard gave (k.0.run.events ++ h) }
    ensures hands { (x : Frame) (old new : Peering L) (asked heard gave : List Frame) (h : List Local)
        → TakesIncoming old.held (Some x) new.held → (Has old h → Has new h)
        → Serves old asked heard gave h → Serves new asked (heard ++ x ∷ []) gave h }
    ensures asks { (y : IncomingSession) (old new : Peering L) (asked heard gave : List Frame) (h : List Local)
        → TakesSession old.held (Some y) new.held → (Has old h → Has new h)
        → Serves old asked heard gave h → Serves new (asked ++ asking y ∷ []) heard gave h }
    ensures sends { (x : Frame) (old new : Peering L) (asked heard gave : List Frame) (h : List Local) (k : Sent L.Link x old new)
        → (hears_in old.held ≡ true → IsOpenIn old.held)
        → Serves old asked heard gave h → Serves new asked heard (gave ++ x ∷ []) (k.events ++ h) }
    ensures seats { (result : Result ℕ AllocSessionError) (old new : Peering L) (asked heard gave : List Frame) (h : List Local)
        → AllocatesLate old.held result new.held → IsHeldAlone old new
        → Serves old asked heard gave h → Serves new asked heard gave h }
    ensures frees { (channel : ℕ) (old : Peering L) (asked heard gave : List Frame) (h : List Local)
        → Serves old asked heard gave h → Serves (record old { held = freed_in old.held channel }) asked heard gave h }
    ensures tells { (old : Peering L) (asked heard gave : List Frame) (h : List Local)
        → Serves old asked heard gave h → Serves (record old { replies = [] }) asked heard gave h }
    ensures links { (old : Peering L) (link : L) (asked heard gave : List Frame) (h : List Local)
        → Serves old asked heard gave h → Serves (with_link_of old link) asked heard gave h }
    ensures by_channel { (channel : ℕ) (p : Peering L) (asked heard gave : List Frame) (h : List Local)
        → Serves p asked heard gave h
        → IsUpTo (hears_in p.held) (on_channel channel heard ++ on_channel channel (waiting_in p.held)) (on_channel channel (others_of (sessions_of (given_in h)))) }
    ensures carries { (p : Peering L) (asked heard gave : List Frame) (h : List Local)
        → Serves p asked heard gave h → Carries asked heard gave h }
{}
