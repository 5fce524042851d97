//! What an end promises over its whole life, whatever bytes the other end sends.
ghost use Rattle.std.specs.Prelude.{List, []};
ghost use Rattle.amqp_peer.specs.declared.peer.PeerKind.{PeerKind};
ghost use Rattle.amqp_peer.specs.Beats.{AllBeats};
ghost use Rattle.amqp_peer.specs.Causes.{AllCaused, IsTied};
ghost use Rattle.amqp_peer.specs.Gated.{IsGated};
ghost use Rattle.amqp_peer.specs.History.{Local, made_in, replied_in, read_in, wrote_in};
ghost use Rattle.amqp_peer.specs.Peering.{Peering, Has, fresh};
ghost use Rattle.amqp_peer.specs.Replies.{AreReplies};
ghost use Rattle.amqp_peer.specs.Said.{HasSaid};

use amqp_wire::link::Link;

/// An end begins with an empty history, and a history that an end has says what it did. Its replies are those of its calls, in order,
/// and each has its cause in what happened before. What it wrote is a conversation: the SASL layer alone until the check has passed,
/// and behind its header Open, frames, and at most one Close. The frames that it took in and queued are those of the bytes. Its Close
/// has its cause, and each of its empty frames was due.
pub fn ends_keep_their_promises<L: Link>()
    ensures begins { (link : L) (kind : PeerKind) → Has (fresh link kind) [] }
    ensures replies { (p : Peering L) (h : List Local) → Has p h → AreReplies (made_in h) (replied_in h) }
    ensures causes { (p : Peering L) (h : List Local) → Has p h → AllCaused h }
    ensures writes { (p : Peering L) (h : List Local) → Has p h → IsGated (made_in h) (wrote_in h) (read_in h) }
    ensures frames { (p : Peering L) (h : List Local) → Has p h → IsTied h }
    ensures says { (p : Peering L) (h : List Local) → Has p h → HasSaid h }
    ensures beats { (p : Peering L) (h : List Local) → Has p h → AllBeats h }
{}
