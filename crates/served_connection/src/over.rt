//! The same over a link for which there is no end yet.
ghost use Rattle.std.specs.Prelude.{◌≡◌, ◌≤◌, codes};
ghost use Rattle.amqp_served.specs.Count.{IsUnwritten};
ghost use Rattle.served_connection.specs.Bytes.{HasServed, HasSent};

use crate::connection::{connect_on, serve_on};
use amqp_end::End;
use amqp_net::WaitLink;
use amqp_served::Ending;
use amqp_wire::source::Sink;
use std::sync::Wait;

/// Serves the connection that comes over the link, as `serve_on` does.
pub fn serve_over<R: Wait + AllocGlobal, L: WaitLink, K: Sink>(
    rt: &R,
    link: L,
    sink: &mut K,
) -> Ending
    ensures done { result ≡ Ending.Done → HasServed L.Link link (K.written sink.old) (K.written sink.new) }
    ensures usage { ¬ (result ≡ Ending.Usage) }
    ensures unwritten { IsUnwritten result → K.written sink.new ≡ K.written sink.old }
    ensures later { K.faults sink.old ≤ K.faults sink.new }
{
    match End::listener(rt.alloc(), link) {
        Ok(mut end) => serve_on(rt, &mut end, sink),
        Err(_) => Ending::Memory,
    }
}

/// Opens a connection over the link and sends so many messages, as `connect_on` does.
pub fn connect_over<R: Wait + AllocGlobal, L: WaitLink>(rt: &R, link: L, count: u32) -> Ending
    ensures done { result ≡ Ending.Done → HasSent L.Link link (codes "m") count }
    ensures usage { ¬ (result ≡ Ending.Usage) }
{
    match End::client(rt.alloc(), link) {
        Ok(mut end) => connect_on(rt, &mut end, count),
        Err(_) => Ending::Memory,
    }
}
