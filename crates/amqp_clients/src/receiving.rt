//! `receive`: messages from an address.
ghost use Rattle.std.specs.Prelude.{◌≡◌, ◌≤◌, ◌<◌, [], ◌∷◌, ◌++◌, true, option_map, flat_map, OnOk, IfOk, IfErr};
ghost use Rattle.list_laws.specs.Told.{Gains};
ghost use Rattle.amqp_shown.specs.Bytes.{escaped};
ghost use Rattle.amqp_serve.specs.Answers.{IsHonest};
ghost use Rattle.amqp_serve.specs.Ran.{RanOn};
ghost use Rattle.amqp_clients.specs.Bodies.{value_line, body_text, link_line, line_in};
ghost use Rattle.amqp_clients.specs.Delivered.{Gave, GaveMessage, IsLine, AcceptedBy, Got, GotAll, Received, IsCause, failure_in};

use crate::progress::Progress;
use crate::session::enter;
use amqp_calls::{LinkReply, Reply};
use amqp_data::Value;
use amqp_end::End;
use amqp_messages::Body;
use amqp_net::WaitLink;
use amqp_serve::Failure;
use amqp_serve::asking::{ask_now, forget, is_error};
use amqp_serve::connecting::{leave, settle, wait_since};
use amqp_served::{Moments, Names};
use amqp_served_calls::{CREDIT, accept_delivery, receiver, recv, set_credit};
use amqp_shown::bytes::push_escaped;
use amqp_shown::value::push_value;
use amqp_streams::outside::{WriteError, write_all};
use amqp_text::{Binary, Text};
use amqp_wire::source::Sink;
use sasl_gate::SaslProfile;
use std::alloc::{AllocError, Global};
use std::sync::Wait;

/// Why `receive` goes no further.
pub enum ReceiveFailure {
    /// The sink failed.
    Sink,
    /// The end goes no further.
    End(Failure),
}

// A failure is let go by a call, so that no caller sees the parts of an answer.
impl Drop for ReceiveFailure {
    fn drop(self) {
        match self {
            ReceiveFailure::Sink => {}
            ReceiveFailure::End(failure) => drop(failure),
        }
    }
}

impl ReceiveFailure {
    /// Why the end goes no further; none where it was the sink that failed.
    pub fn into_failure(self) -> Option<Failure>
        ensures { result ≡ failure_in self }
    {
        match self {
            ReceiveFailure::Sink => None,
            ReceiveFailure::End(failure) => Some(failure),
        }
    }
}

impl From<Failure> for ReceiveFailure {
    ghost use Rattle.std.specs.Prelude.{◌≡◌};
    ghost use Rattle.amqp_clients.specs.declared.receiving.ReceiveFailure.TheVariants.{End};

    ghost from_gives = { λ f r. r ≡ End f };

    fn from(failure: Failure) -> Self {
        ReceiveFailure::End(failure)
    }
}

impl From<AllocError> for ReceiveFailure {
    ghost use Rattle.std.specs.Prelude.{◌≡◌};
    ghost use Rattle.amqp_serve.specs.declared.failure.Failure.TheVariants.{Memory};
    ghost use Rattle.amqp_clients.specs.declared.receiving.ReceiveFailure.TheVariants.{End};

    ghost from_gives = { λ _ r. r ≡ End Memory };

    fn from(_error: AllocError) -> Self {
        ReceiveFailure::End(Failure::Memory)
    }
}

/// Adds a string as text, with escapes for what is no text; any other value as it is shown.
#[tactic(auto, unfolding(crate::specs::Bodies::value_line))]
fn push_value_line(alloc: Global, out: &mut Vec<u8>, value: &Value) -> Result<(), AllocError>
    ensures { OnOk result (out.new.items ≡ out.old.items ++ value_line value.now) }
{
    match value {
        Value::String(text) => push_escaped(out, true, text.as_bytes()),
        _ => push_value(alloc, out, value),
    }
}

/// Adds bytes as text, with escapes for what is no text.
fn push_pieces(out: &mut Vec<u8>, pieces: &[Binary]) -> Result<(), AllocError>
    ensures { OnOk result (out.new.items ≡ out.old.items ++ flat_map (escaped true) pieces.now) }
{
    for piece in pieces {
        push_escaped(out, true, piece.as_slice())?;
    }
    Ok(())
}

/// Adds what a message holds.
fn push_body(alloc: Global, out: &mut Vec<u8>, body: &Body) -> Result<(), AllocError>
    ensures { OnOk result (out.new.items ≡ out.old.items ++ body_text body.now) }
{
    match body {
        Body::Value(value) => push_value_line(alloc, out, value),
        Body::Data(pieces) => {
            push_escaped(out, true, pieces.first.as_slice())?;
            push_pieces(out, pieces.rest.as_slice())
        }
        Body::Sequence(_) => {
            out.extend_from_slice(b"sequence")?;
            Ok(())
        }
        Body::Empty => Ok(()),
    }
}

/// The line of what a message holds; the one error is want of memory.
fn body_line(alloc: Global, body: &Body) -> Result<Vec<u8>, AllocError>
    ensures { IfOk result (λ line. line.items ≡ body_text body.now ++ 10 ∷ []) }
{
    let mut out = Vec::new(alloc);
    push_body(alloc, &mut out, body)?;
    out.push(b'\n')?;
    Ok(out)
}

fn line_at(alloc: Global, reply: &LinkReply) -> Result<Option<Vec<u8>>, AllocError>
    ensures { IfOk result (λ line. option_map (λ v. v.items) line ≡ link_line reply.now) }
{
    match reply {
        LinkReply::Delivery { message, .. } => {
            let line = body_line(alloc, &message.body)?;
            Ok(Some(line))
        }
        _ => Ok(None),
    }
}

/// The line of a message, where the answer gives one; the one error is want of memory.
fn line_of(alloc: Global, reply: &Reply) -> Result<Option<Vec<u8>>, AllocError>
    ensures { IfOk result (λ line. option_map (λ v. v.items) line ≡ line_in reply.now) }
{
    match reply {
        Reply::Connection(_) | Reply::Session(_) => Ok(None),
        Reply::Link(reply) => line_at(alloc, reply),
    }
}

/// Writes a line.
fn write_line<K: Sink>(sink: &mut K, line: &[u8]) -> Result<(), ReceiveFailure>
    ensures wrote { OnOk result (Gains (K.written sink.old) (K.written sink.new) line.now) }
    ensures later { K.faults sink.old ≤ K.faults sink.new }
    ensures cause { IfErr result (IsCause (K.faults sink.old) (K.faults sink.new)) }
{
    match write_all(sink, line) {
        Ok(()) => Ok(()),
        Err(WriteError::Failed) => Err(ReceiveFailure::Sink),
        Err(WriteError::Memory) => Err(ReceiveFailure::End(Failure::Memory)),
    }
}

/// Puts the line of a message there, where the answer gives one; whether it does. An error is a failure.
fn take_line(alloc: Global, reply: Reply, line: &mut Vec<u8>) -> Result<bool, Failure>
    ensures line { IfOk result (λ found. IsLine reply line.new.items found) }
    ensures honest { IfErr result IsHonest }
{
    if let Some(found) = line_of(alloc, &reply)? {
        *line = found;
        return Ok(true);
    }
    if is_error(&reply) {
        return Err(Failure::Answer(reply));
    }
    Ok(false)
}

/// Asks for a message, and puts its line there; whether one is there.
#[tactic(auto, using(amqp_serve::proofs::Runs::ran_asked_now))]
fn ask_line<L: WaitLink, M: Moments>(
    alloc: Global,
    end: &mut End<L>,
    moments: &mut M,
    name: u64,
    link: u64,
    line: &mut Vec<u8>,
) -> Result<bool, Failure>
    ensures gave { IfOk result (λ found. Gave L.Link end.old end.new link name line.new.items found) }
    ensures honest { IfErr result IsHonest }
{
    let Some(reply) = ask_now(end, moments, name, recv(link))? else {
        return Ok(false);
    };
    let found = take_line(alloc, reply, line)?;
    Ok(found)
}

/// Asks for a message, and puts its line there; whether one is there. Where none is, goes on until more has come.
#[tactic(auto, using(amqp_serve::proofs::Runs::ran_on))]
fn line_now<L: WaitLink, M: Moments>(
    alloc: Global,
    end: &mut End<L>,
    moments: &mut M,
    name: u64,
    link: u64,
    line: &mut Vec<u8>,
) -> Result<bool, Failure>
    ensures gave { IfOk result (λ found. Gave L.Link end.old end.new link name line.new.items found) }
    ensures honest { IfErr result IsHonest }
{
    let reads = end.link_ref().reads();
    if ask_line(alloc, end, moments, name, link, line)? {
        return Ok(true);
    }
    wait_since(end, moments, reads)?;
    Ok(false)
}

/// The line of a message, and the name of the call that gave it.
#[derive(Drop)]
struct Given {
    name: u64,
    line: Vec<u8>,
}

/// Waits for the next message.
#[tactic(auto, using(amqp_serve::proofs::Runs::ran_none, amqp_serve::proofs::Runs::ran_on, crate::proofs::Deliveries::gave_on))]
fn next_line<R: Wait, L: WaitLink, M: Moments>(
    rt: &R,
    alloc: Global,
    end: &mut End<L>,
    moments: &mut M,
    names: &mut Names,
    link: u64,
) -> Result<Given, Failure>
    ensures gave { IfOk result (λ given. GaveMessage L.Link end.old end.new link given.name given.line.items) }
    ensures honest { IfErr result IsHonest }
{
    let mut line = Vec::new(alloc);
    for _ in rt.forever() {
        let name = names.give();
        if line_now(alloc, end, moments, name, link, &mut line)? {
            return Ok(Given { name, line });
        }
    }
    unreachable!()
}

/// Accepts a message, which no later call names.
#[tactic(auto, using(crate::proofs::Deliveries::accepted_by))]
fn accept<L: WaitLink, M: Moments>(
    alloc: Global,
    end: &mut End<L>,
    moments: &mut M,
    name: u64,
    link: u64,
    delivery: u64,
) -> Result<(), Failure>
    ensures accepted { OnOk result (AcceptedBy L.Link end.old end.new link delivery) }
    ensures honest { IfErr result IsHonest }
{
    let call = accept_delivery(alloc, link, delivery)?;
    ask_now(end, moments, name, call)?;
    forget(end, delivery);
    Ok(())
}

/// Waits for the next message, writes its line, and accepts it.
#[tactic(auto, using(crate::proofs::Deliveries::got_by))]
fn receive_one<R: Wait + AllocGlobal, L: WaitLink, M: Progress, K: Sink>(
    rt: &R,
    end: &mut End<L>,
    moments: &mut M,
    names: &mut Names,
    link: u64,
    sink: &mut K,
) -> Result<(), ReceiveFailure>
    ensures got { OnOk result (Got L.Link end.old end.new link (K.written sink.old) (K.written sink.new)) }
    ensures later { K.faults sink.old ≤ K.faults sink.new }
    ensures cause { IfErr result (IsCause (K.faults sink.old) (K.faults sink.new)) }
{
    let given = next_line(rt, rt.alloc(), end, moments, names, link)?;
    moments.clear();
    write_line(sink, given.line.as_slice())?;
    accept(rt.alloc(), end, moments, names.give(), link, given.name)?;
    moments.count();
    Ok(())
}

/// Gives credit for the next messages where none is left: none is where so many came as credit is given for. Why a link takes none is
/// told by the call that then asks for a message.
#[tactic(auto, using(amqp_serve::proofs::Runs::ran_none, amqp_serve::proofs::Runs::ran_asked_now))]
fn give_credit<L: WaitLink, M: Moments>(
    end: &mut End<L>,
    moments: &mut M,
    names: &mut Names,
    link: u64,
    came: u32,
    count: u32,
) -> Result<(), Failure>
    requires { came < count }
    ensures ran { OnOk result (RanOn L.Link end.old end.new) }
    ensures honest { IfErr result IsHonest }
{
    if came % CREDIT != 0 {
        return Ok(());
    }
    let credit = (count - came).min(CREDIT);
    ask_now(end, moments, names.give(), set_credit(link, credit))?;
    Ok(())
}

/// Receives so many messages.
#[tactic(auto, using(crate::proofs::Deliveries::got_none, crate::proofs::Deliveries::got_more))]
fn receive_all<R: Wait + AllocGlobal, L: WaitLink, M: Progress, K: Sink>(
    rt: &R,
    end: &mut End<L>,
    moments: &mut M,
    names: &mut Names,
    link: u64,
    count: u32,
    sink: &mut K,
) -> Result<(), ReceiveFailure>
    ensures got { OnOk result (GotAll L.Link end.old link (K.written sink.old) count end.new (K.written sink.new)) }
    ensures later { K.faults sink.old ≤ K.faults sink.new }
    ensures cause { IfErr result (IsCause (K.faults sink.old) (K.faults sink.new)) }
{
    for came in 0..count {
        give_credit(end, moments, names, link, came, count)?;
        match receive_one(rt, end, moments, names, link, sink) {
            Ok(()) => {}
            Err(failure) => return Err(failure),
        }
    }
    Ok(())
}

/// Attaches a receiver to the address; the name of the link.
fn attach<R: Wait + AllocGlobal, L: WaitLink, M: Moments>(
    rt: &R,
    end: &mut End<L>,
    moments: &mut M,
    names: &mut Names,
    session: u64,
    address: &str,
) -> Result<u64, Failure>
    ensures attached { OnOk result (RanOn L.Link end.old end.new) }
    ensures honest { IfErr result IsHonest }
{
    let call = receiver(rt.alloc(), session, address)?;
    let link = names.give();
    settle(rt, end, moments, link, call)?;
    Ok(link)
}

/// Opens the connection, receives so many messages, each of which is written as a line and then accepted, and closes it.
#[tactic(auto, using(crate::proofs::Deliveries::received_by))]
pub fn receive_on<R: Wait + AllocGlobal, L: WaitLink, M: Progress, K: Sink>(
    rt: &R,
    end: &mut End<L>,
    moments: &mut M,
    host: Option<Text>,
    sasl: Option<SaslProfile>,
    address: &str,
    count: u32,
    sink: &mut K,
) -> Result<(), ReceiveFailure>
    ensures received { OnOk result (Received L.Link end.old end.new count (K.written sink.old) (K.written sink.new)) }
    ensures later { K.faults sink.old ≤ K.faults sink.new }
    ensures cause { IfErr result (IsCause (K.faults sink.old) (K.faults sink.new)) }
{
    let mut names = Names::new();
    let session = enter(rt, end, moments, &mut names, host, sasl)?;
    let link = attach(rt, end, moments, &mut names, session, address)?;
    receive_all(rt, end, moments, &mut names, link, count, sink)?;
    leave(rt, end, moments, &mut names, session, link)?;
    Ok(())
}
