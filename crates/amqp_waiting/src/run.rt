//! The commands that wait for a peer.
ghost use Rattle.std.specs.Prelude.{◌≡◌, ◌≤◌};
ghost use Rattle.amqp_served.specs.Count.{IsUnwritten, WritesCount};
ghost use Rattle.amqp_serve.specs.Endings.{IsFailure};
ghost use Rattle.amqp_waiting_words.specs.Command.{asked};
ghost use Rattle.amqp_waiting.specs.Commands.{HasWritten, HasUrl, IsQuiet};
ghost use Rattle.amqp_waiting.specs.Sockets.{ServedOne, SentOne, HasPassed};

use amqp_clients::{ending_of_io, receive, send};
use amqp_net::{SocketLink, SocketListener};
use amqp_served::Ending;
use amqp_waiting_words::Command;
use amqp_wire::link::Link;
use amqp_wire::source::Sink;
use amqp_wire::status::Status;
use served_connection::{connect_over, serve_over};
use std::net::{Ipv4Addr, Net, SocketAddr, SocketAddrV4};
use std::random::RandomSource;
use std::rt::Clock;
use std::sync::Wait;

fn ending_of_status(status: Status) -> Ending
    ensures { IsFailure result }
{
    match status {
        Status::Memory => Ending::Memory,
        _ => Ending::WriteFault,
    }
}

/// Accepts one connection and serves it.
pub fn serve<R: Net + Wait + AllocGlobal, K: Sink>(
    rt: &R,
    mut listener: SocketListener,
    sink: &mut K,
) -> Ending
    ensures done { result ≡ Ending.Done → WritesCount (K.written sink.old) (K.written sink.new) }
    ensures passed { result ≡ Ending.Done → ServedOne ⟦<SocketLink as Link>⟧ (K.written sink.old) (K.written sink.new) }
    ensures usage { ¬ (result ≡ Ending.Usage) }
    ensures unwritten { IsUnwritten result → K.written sink.new ≡ K.written sink.old }
    ensures later { K.faults sink.old ≤ K.faults sink.new }
{
    match listener.accept(rt) {
        Ok(link) => serve_over(rt, link, sink),
        Err(status) => ending_of_status(status),
    }
}

fn listen<R: Net + Wait + AllocGlobal, K: Sink>(rt: &R, port: u16, sink: &mut K) -> Ending
    ensures done { result ≡ Ending.Done → WritesCount (K.written sink.old) (K.written sink.new) }
    ensures passed { result ≡ Ending.Done → ServedOne ⟦<SocketLink as Link>⟧ (K.written sink.old) (K.written sink.new) }
    ensures usage { ¬ (result ≡ Ending.Usage) }
    ensures unwritten { IsUnwritten result → K.written sink.new ≡ K.written sink.old }
    ensures later { K.faults sink.old ≤ K.faults sink.new }
{
    match SocketListener::bind(rt, port) {
        Ok(listener) => serve(rt, listener, sink),
        Err(status) => ending_of_status(status),
    }
}

/// Connects to a port of the loopback, and sends so many messages.
pub fn connect<R: Net + Wait + AllocGlobal>(rt: &R, port: u16, count: u32) -> Ending
    ensures usage { ¬ (result ≡ Ending.Usage) }
    ensures passed { result ≡ Ending.Done → SentOne ⟦<SocketLink as Link>⟧ count }
{
    let address = SocketAddr::V4(SocketAddrV4::new(Ipv4Addr::LOCALHOST, port));
    match SocketLink::connect(rt, address, None) {
        Ok(link) => connect_over(rt, link, count),
        Err(error) => ending_of_io(&error),
    }
}

/// Does what a command asks for. Where `is_shown` says so, clients tell on standard error how many messages were sent or received, once
/// a second.
pub fn run_waiting<R: Net + Wait + AllocGlobal + Clock + RandomSource + Eprint, K: Sink>(
    rt: &R,
    command: &Command<'_>,
    is_shown: bool,
    sink: &mut K,
) -> Ending
    ensures done { result ≡ Ending.Done → HasWritten (asked command.now) (K.written sink.old) (K.written sink.new) }
    ensures passed { result ≡ Ending.Done → HasPassed ⟦<SocketLink as Link>⟧ (asked command.now) (K.written sink.old) (K.written sink.new) }
    ensures usage { result ≡ Ending.Usage → HasUrl (asked command.now) }
    ensures quiet { IsQuiet (asked command.now) → K.written sink.new ≡ K.written sink.old }
    ensures later { K.faults sink.old ≤ K.faults sink.new }
{
    match command {
        Command::Listen { port } => listen(rt, *port, sink),
        Command::Connect { port, count } => connect(rt, *port, *count),
        Command::Send {
            url,
            address,
            messages,
            options,
        } => send(rt, url, address, messages, options, is_shown),
        Command::Receive {
            url,
            address,
            count,
            options,
        } => receive(rt, url, address, *count, options, is_shown, sink),
    }
}
