//! Clients of the peer that a URL names.
ghost use Rattle.std.specs.Prelude.{◌≡◌, ◌≤◌, ◌↔◌, IfOk};
ghost use Rattle.amqp_serve.specs.Endings.{IsFailure};
ghost use Rattle.amqp_clients.specs.Clients.{IsClient, HasSentTexts, HasReceived};
ghost use Rattle.amqp_clients.specs.Delivered.{WritesLines};
ghost use Rattle.amqp_clients.specs.Peers.{IsMisuse};

use crate::address::{AddressError, connect_to, host_of, profile, read_url};
use crate::progress::{Counted, Progress};
use crate::receiving::{ReceiveFailure, receive_on};
use crate::report::report_failure;
use crate::sending::send_on;
use amqp_end::End;
use amqp_net::SocketLink;
use amqp_serve::{Failure, ending_done, ending_of};
use amqp_served::{Clocked, Ending};
use amqp_text::Text;
use amqp_waiting_words::Options;
use amqp_wire::link::Link;
use amqp_wire::source::Sink;
use sasl_gate::SaslProfile;
use std::io;
use std::net::Net;
use std::random::RandomSource;
use std::rt::Clock;
use std::sync::Wait;
use std::time::Duration;

/// How long a wait takes at most where the clock is looked at, in milliseconds.
const TICK: u64 = 100;

/// How a command ends whose socket could not be made: `Memory`, `TimedOut`, or `WriteFault` for any other error.
pub fn ending_of_io(error: &io::Error) -> Ending
    ensures { IsFailure result }
{
    match error.kind() {
        io::ErrorKind::OutOfMemory => Ending::Memory,
        io::ErrorKind::TimedOut => Ending::TimedOut,
        _ => Ending::WriteFault,
    }
}

/// A client over a socket to the peer of a URL, with what it is to say of itself.
struct Dialled<'a, R: Clock + Eprint> {
    end: End<SocketLink>,
    moments: Counted<'a, R>,
    host: Option<Text>,
    sasl: Option<SaslProfile>,
}

fn ending_of_address(error: &AddressError) -> Ending
    ensures done { ¬ (result ≡ Ending.Done) }
    ensures usage { (result ≡ Ending.Usage) ↔ IsMisuse error.now }
{
    match error {
        AddressError::Memory => Ending::Memory,
        AddressError::Url | AddressError::NoUser => Ending::Usage,
        AddressError::Random => Ending::ReadFault,
        AddressError::Connect(error) => ending_of_io(error),
    }
}

#[tactic(auto, using(crate::proofs::Owned::client_over))]
fn dial<'a, R: Net + AllocGlobal + Clock + RandomSource + Eprint>(
    rt: &'a R,
    url: &str,
    options: &Options,
    is_shown: bool,
) -> Result<Dialled<'a, R>, AddressError>
    ensures client { IfOk result (λ dialled. IsClient dialled.end) }
{
    let alloc = rt.alloc();
    let url = read_url(alloc, url)?;
    let sasl = profile(rt, alloc, &url, options)?;
    let host = host_of(alloc, &url)?;
    let clock = match Clocked::start(rt, options.timeout.map(|s| s.saturating_mul(1_000))) {
        Ok(clock) => clock,
        Err(error) => return Err(AddressError::Connect(error)),
    };
    let mut link = connect_to(rt, &url, options.timeout.map(|s| Duration::from_secs(s)))?;
    link.set_limit(Some(Duration::from_millis(TICK)));
    match End::client(alloc, link) {
        Ok(end) => Ok(Dialled {
            end,
            moments: Counted::new(rt, clock, is_shown),
            host,
            sasl,
        }),
        Err(_) => Err(AddressError::Memory),
    }
}

fn fail<R: AllocGlobal + Eprint>(
    rt: &R,
    end: &End<SocketLink>,
    what: &str,
    failure: Failure,
) -> Ending
    ensures { IsFailure result }
{
    report_failure(rt, rt.alloc(), end, what, &failure);
    ending_of(end, &failure)
}

/// How a run ends that has sent its messages, of which the peer has refused so many.
fn ending_of_sent(end: &End<SocketLink>, refused: u64) -> Ending
    ensures done { result ≡ Ending.Done → refused ≡ 0 }
{
    if refused == 0 {
        return ending_done(end);
    }
    Ending::PeerFault
}

/// Sends these texts to an address at the peer of a URL, each as a message, and waits for the outcome of each (OASIS AMQP 1.0, part 2,
/// section 2.6.14; part 3, section 3.4). `Done` where each was accepted, `PeerFault` where one was not; `Usage` where the URL, or the user
/// that the mechanism asks for, is at fault; else how the socket, the peer or the time limit of the options (seconds) has ended it.
#[tactic(auto, using(crate::proofs::Owned::has_sent))]
pub fn send<R: Net + Wait + AllocGlobal + Clock + RandomSource + Eprint>(
    rt: &R,
    url: &str,
    address: &str,
    messages: &[Text],
    options: &Options,
    is_shown: bool,
) -> Ending
    ensures done { result ≡ Ending.Done → HasSentTexts ⟦<SocketLink as Link>⟧ messages.now }
{
    let Dialled {
        mut end,
        mut moments,
        host,
        sasl,
    } = match dial(rt, url, options, is_shown) {
        Ok(dialled) => dialled,
        Err(error) => {
            let _ = eprintln!(rt; "send: {error}");
            return ending_of_address(&error);
        }
    };
    let sent = send_on(rt, &mut end, &mut moments, host, sasl, address, messages);
    moments.clear();
    match sent {
        Ok(refused) => ending_of_sent(&end, refused),
        Err(failure) => fail(rt, &end, "send", failure),
    }
}

/// Receives so many messages from an address at the peer of a URL, writes a line of each, and accepts it (OASIS AMQP 1.0, part 2, section
/// 2.6.12; part 3, section 3.4). `Done` where `count` lines were written; `Usage` where the URL, or the user that the mechanism asks for, is at
/// fault; `WriteFault` where a line could not be written; else how the socket, the peer or the time limit of the options (seconds) has ended it.
#[tactic(auto, using(crate::proofs::Deliveries::lines_of, crate::proofs::Owned::has_received))]
pub fn receive<R: Net + Wait + AllocGlobal + Clock + RandomSource + Eprint, K: Sink>(
    rt: &R,
    url: &str,
    address: &str,
    count: u32,
    options: &Options,
    is_shown: bool,
    sink: &mut K,
) -> Ending
    ensures done { result ≡ Ending.Done → WritesLines count (K.written sink.old) (K.written sink.new) }
    ensures client { result ≡ Ending.Done → HasReceived ⟦<SocketLink as Link>⟧ count (K.written sink.old) (K.written sink.new) }
    ensures later { K.faults sink.old ≤ K.faults sink.new }
{
    let Dialled {
        mut end,
        mut moments,
        host,
        sasl,
    } = match dial(rt, url, options, is_shown) {
        Ok(dialled) => dialled,
        Err(error) => {
            let _ = eprintln!(rt; "receive: {error}");
            return ending_of_address(&error);
        }
    };
    let received = receive_on(rt, &mut end, &mut moments, host, sasl, address, count, sink);
    moments.clear();
    match received {
        Ok(()) => ending_done(&end),
        Err(failure) => fail_receive(rt, &end, failure),
    }
}

fn fail_receive<R: AllocGlobal + Eprint>(
    rt: &R,
    end: &End<SocketLink>,
    failure: ReceiveFailure,
) -> Ending
    ensures { IsFailure result }
{
    match failure.into_failure() {
        Some(failure) => fail(rt, end, "receive", failure),
        None => Ending::WriteFault,
    }
}
