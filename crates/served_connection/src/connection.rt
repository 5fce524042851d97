//! Runs over a link, and what they leave in its bytes.
ghost use Rattle.std.specs.Prelude.{◌≡◌, ◌≤◌, codes};
ghost use Rattle.amqp_served.specs.Count.{IsUnwritten};
ghost use Rattle.amqp_serve.specs.Endings.{HasFault, IsSound, ServedAndTold};
ghost use Rattle.amqp_serve.specs.Ran.{Connected};
ghost use Rattle.amqp_peer.specs.declared.peer.PeerKind.{PeerKind};
ghost use Rattle.served_connection.specs.ServeLaws.History.{IsFresh};
ghost use Rattle.served_connection.specs.Bytes.{Served, Sent};

use amqp_end::End;
use amqp_net::WaitLink;
use amqp_served::Ending;
use amqp_wire::source::Sink;
use std::sync::Wait;

/// Accepts a connection with ANONYMOUS at a listener on which no call was made, its sessions and its links, and accepts every
/// message. When the peer has closed the connection it writes `messages N`, how many messages came. Every moment is 0.
pub fn serve_on<R: Wait + AllocGlobal, L: WaitLink, K: Sink>(
    rt: &R,
    end: &mut End<L>,
    sink: &mut K,
) -> Ending
    ensures done { result ≡ Ending.Done → ServedAndTold L.Link end.old end.new (K.written sink.old) (K.written sink.new) }
    ensures bytes { (first : L) (kind : PeerKind) → IsFresh first kind end.old → result ≡ Ending.Done →
        Served L.Link first end.old end.new (K.written sink.old) (K.written sink.new) }
    ensures sound { result ≡ Ending.Done → IsSound L.Link end.new }
    ensures usage { ¬ (result ≡ Ending.Usage) }
    ensures unwritten { IsUnwritten result → K.written sink.new ≡ K.written sink.old }
    ensures read_fault { result ≡ Ending.ReadFault → HasFault L.Link end.new }
    ensures peer_fault { result ≡ Ending.PeerFault → IsSound L.Link end.new }
    ensures later { K.faults sink.old ≤ K.faults sink.new }
{
    amqp_serve::serve_on(rt, end, sink)
}

/// Opens a connection with ANONYMOUS at a client on which no call was made, sends so many messages, each the string `m`, waits for
/// the outcome of each, closes the link, ends the session and closes the connection. Every moment is 0.
pub fn connect_on<R: Wait + AllocGlobal, L: WaitLink>(
    rt: &R,
    end: &mut End<L>,
    count: u32,
) -> Ending
    ensures done { result ≡ Ending.Done → Connected L.Link end.old end.new (codes "m") count }
    ensures bytes { (first : L) (kind : PeerKind) → IsFresh first kind end.old → result ≡ Ending.Done →
        Sent L.Link first end.old end.new (codes "m") count }
    ensures sound { result ≡ Ending.Done → IsSound L.Link end.new }
    ensures usage { ¬ (result ≡ Ending.Usage) }
    ensures read_fault { result ≡ Ending.ReadFault → HasFault L.Link end.new }
    ensures peer_fault { result ≡ Ending.PeerFault → IsSound L.Link end.new }
{
    amqp_serve::connect_on(rt, end, count)
}
