//! A client that sends messages.
ghost use Rattle.std.specs.Prelude.{◌≡◌, codes, OnOk, IfOk, IfErr};
ghost use Rattle.amqp_serve.specs.Answers.{IsHonest};
ghost use Rattle.amqp_serve.specs.Endings.{IsSound, HasFault};
ghost use Rattle.amqp_serve.specs.Ran.{RanOn, Tried, SentBy, Settled, SentAll, Left, ConnectedWith, Connected};
ghost use Rattle.amqp_served_calls.specs.Calls.{send_call};

use crate::answers::{is_closing, is_outcome, is_sent};
use crate::asking::{ask, ask_now, forget, go_on_since, granted};
use crate::failure::{Failure, ending_done, ending_of};
use amqp_calls::{Call, Reply, Sendable};
use amqp_end::End;
use amqp_net::WaitLink;
use amqp_served::{Ending, Moments, Names, Still};
use amqp_served_calls::{
    begin, close, close_link, end as end_session, message_of, open, outcome, send, sender,
};
use sasl_gate::SaslProfile;
use std::alloc::Global;
use std::sync::Wait;

/// The address to which `connect_on` sends.
const ADDRESS: &str = "amqp_run";

/// What `connect_on` sends.
const MESSAGE: &str = "m";

/// Makes a call that sends a message; whether it was sent at once.
#[tactic(auto, using(crate::proofs::Runs::sent_now, crate::proofs::Runs::ran_asked_now))]
fn try_send<L: WaitLink, M: Moments>(
    end: &mut End<L>,
    moments: &mut M,
    name: u64,
    call: Call,
) -> Result<bool, Failure>
    ensures sent { IfOk result (λ sent. Tried L.Link end.old end.new name call sent) }
    ensures honest { IfErr result IsHonest }
{
    let answer = ask_now(end, moments, name, call)?;
    let Some(reply) = granted(answer)? else {
        return Ok(false);
    };
    if is_sent(&reply) {
        return Ok(true);
    }
    Err(Failure::Unexpected)
}

/// Goes on behind a call that was answered at once, as `go_on_since` does.
#[tactic(auto, using(crate::proofs::Runs::ran_silently))]
pub fn wait_since<L: WaitLink, M: Moments>(
    end: &mut End<L>,
    moments: &mut M,
    reads: u64,
) -> Result<(), Failure>
    ensures ran { OnOk result (RanOn L.Link end.old end.new) }
    ensures honest { IfErr result IsHonest }
{
    go_on_since(end, moments, reads)?;
    Ok(())
}

/// Makes a call that sends a message; whether it was sent at once. Where it was not, goes on until more has come.
#[tactic(auto, using(crate::proofs::Runs::ran_on))]
fn send_now<L: WaitLink, M: Moments>(
    end: &mut End<L>,
    moments: &mut M,
    name: u64,
    link: u64,
    message: &Sendable,
) -> Result<bool, Failure>
    ensures sent { IfOk result (λ sent. Tried L.Link end.old end.new name (send_call link message.now) sent) }
    ensures honest { IfErr result IsHonest }
{
    let reads = end.link_ref().reads();
    let call = send(link, message)?;
    if try_send(end, moments, name, call)? {
        return Ok(true);
    }
    wait_since(end, moments, reads)?;
    Ok(false)
}

/// Sends a message as soon as there is credit for it, and gives the name of the call that sent it.
#[tactic(auto, using(crate::proofs::Runs::ran_none, crate::proofs::Runs::ran_on, crate::proofs::Runs::sent_on))]
fn send_one<R: Wait, L: WaitLink, M: Moments>(
    rt: &R,
    end: &mut End<L>,
    moments: &mut M,
    names: &mut Names,
    link: u64,
    message: &Sendable,
) -> Result<u64, Failure>
    ensures sent { IfOk result (λ name. SentBy L.Link end.old end.new name (send_call link message.now)) }
    ensures honest { IfErr result IsHonest }
{
    for _ in rt.forever() {
        let name = names.give();
        if send_now(end, moments, name, link, message)? {
            return Ok(name);
        }
    }
    unreachable!()
}

/// Sends a message, waits for its outcome, and gives the answer that says it. Behind it the end does not know the message any more.
#[tactic(auto, using(crate::proofs::Runs::settled_by, crate::proofs::Runs::settled_on))]
pub fn send_and_settle<R: Wait, L: WaitLink, M: Moments>(
    rt: &R,
    end: &mut End<L>,
    moments: &mut M,
    names: &mut Names,
    link: u64,
    message: &Sendable,
) -> Result<Reply, Failure>
    ensures settled { IfOk result (λ reply. Settled L.Link end.old end.new link message.now reply) }
    ensures honest { IfErr result IsHonest }
{
    let sent = send_one(rt, end, moments, names, link, message)?;
    let reply = ask(rt, end, moments, names.give(), outcome(sent))?;
    if is_outcome(&reply) {
        forget(end, sent);
        return Ok(reply);
    }
    Err(Failure::Unexpected)
}

/// Makes a call, and waits until what it asks for was answered.
#[tactic(auto, using(crate::proofs::Runs::ran_answered))]
pub fn settle<R: Wait, L: WaitLink, M: Moments>(
    rt: &R,
    end: &mut End<L>,
    moments: &mut M,
    name: u64,
    call: Call,
) -> Result<(), Failure>
    ensures done { OnOk result (RanOn L.Link end.old end.new) }
    ensures honest { IfErr result IsHonest }
{
    ask(rt, end, moments, name, call)?;
    Ok(())
}

/// Closes the connection, and waits until the peer has closed it too.
#[tactic(auto, using(crate::proofs::Runs::left_by))]
fn close_connection<R: Wait, L: WaitLink, M: Moments>(
    rt: &R,
    end: &mut End<L>,
    moments: &mut M,
    name: u64,
) -> Result<(), Failure>
    ensures left { OnOk result (Left L.Link end.old end.new) }
    ensures honest { IfErr result IsHonest }
{
    let reply = ask(rt, end, moments, name, close())?;
    if is_closing(&reply) {
        return Ok(());
    }
    Err(Failure::Unexpected)
}

/// Closes the link, ends the session and closes the connection.
#[tactic(auto, using(crate::proofs::Runs::left_after))]
pub fn leave<R: Wait, L: WaitLink, M: Moments>(
    rt: &R,
    end: &mut End<L>,
    moments: &mut M,
    names: &mut Names,
    session: u64,
    link: u64,
) -> Result<(), Failure>
    ensures left { OnOk result (Left L.Link end.old end.new) }
    ensures honest { IfErr result IsHonest }
{
    settle(rt, end, moments, names.give(), close_link(link))?;
    settle(rt, end, moments, names.give(), end_session(session))?;
    close_connection(rt, end, moments, names.give())?;
    Ok(())
}

/// Opens the connection with ANONYMOUS and begins a session; the name of the session.
#[tactic(auto, using(crate::proofs::Runs::ran_on))]
fn enter<R: Wait, L: WaitLink, M: Moments>(
    rt: &R,
    alloc: Global,
    end: &mut End<L>,
    moments: &mut M,
    names: &mut Names,
) -> Result<u64, Failure>
    ensures entered { OnOk result (RanOn L.Link end.old end.new) }
    ensures honest { IfErr result IsHonest }
{
    let call = open(alloc, None, None, Some(SaslProfile::Anonymous))?;
    settle(rt, end, moments, names.give(), call)?;
    let session = names.give();
    settle(rt, end, moments, session, begin())?;
    Ok(session)
}

/// Attaches a sender; the name of the link.
fn attach<R: Wait, L: WaitLink, M: Moments>(
    rt: &R,
    alloc: Global,
    end: &mut End<L>,
    moments: &mut M,
    names: &mut Names,
    session: u64,
) -> Result<u64, Failure>
    ensures attached { OnOk result (RanOn L.Link end.old end.new) }
    ensures honest { IfErr result IsHonest }
{
    let call = sender(alloc, session, ADDRESS)?;
    let link = names.give();
    settle(rt, end, moments, link, call)?;
    Ok(link)
}

/// Sends so many messages, and waits for the outcome of each.
#[tactic(auto, using(crate::proofs::Runs::all_none, crate::proofs::Runs::all_more))]
fn send_many<R: Wait, L: WaitLink, M: Moments>(
    rt: &R,
    end: &mut End<L>,
    moments: &mut M,
    names: &mut Names,
    link: u64,
    message: &Sendable,
    count: u32,
) -> Result<(), Failure>
    ensures sent { OnOk result (SentAll L.Link end.old link message.now count end.new) }
    ensures honest { IfErr result IsHonest }
{
    for _number in 0..count {
        send_and_settle(rt, end, moments, names, link, message)?;
    }
    Ok(())
}

/// Opens the connection, begins a session and attaches a sender, sends so many messages, and closes all of it.
#[tactic(auto, using(crate::proofs::Runs::connected_by))]
fn connect<R: Wait + AllocGlobal, L: WaitLink>(
    rt: &R,
    end: &mut End<L>,
    message: &Sendable,
    count: u32,
) -> Result<(), Failure>
    ensures connected { OnOk result (ConnectedWith L.Link end.old end.new message.now count) }
    ensures honest { IfErr result IsHonest }
{
    let mut moments = Still;
    let mut names = Names::new();
    let session = enter(rt, rt.alloc(), end, &mut moments, &mut names)?;
    let link = attach(rt, rt.alloc(), end, &mut moments, &mut names, session)?;
    send_many(rt, end, &mut moments, &mut names, link, message, count)?;
    leave(rt, end, &mut moments, &mut names, session, link)
}

/// The same with the message `m`.
#[tactic(auto, using(crate::proofs::Runs::connected_text))]
fn connect_with_m<R: Wait + AllocGlobal, L: WaitLink>(
    rt: &R,
    end: &mut End<L>,
    count: u32,
) -> Result<(), Failure>
    ensures connected { OnOk result (Connected L.Link end.old end.new (codes "m") count) }
    ensures honest { IfErr result IsHonest }
{
    let Some(message) = message_of(rt.alloc(), MESSAGE)? else {
        return Err(Failure::Over);
    };
    connect(rt, end, &message, count)
}

/// Opens a connection with ANONYMOUS at a client on which no call was made, sends so many messages, each the string `m`, waits for
/// the outcome of each, closes the link, ends the session and closes the connection. Every moment is 0.
pub fn connect_on<R: Wait + AllocGlobal, L: WaitLink>(
    rt: &R,
    end: &mut End<L>,
    count: u32,
) -> Ending
    ensures done { result ≡ Ending.Done → Connected L.Link end.old end.new (codes "m") count }
    ensures sound { result ≡ Ending.Done → IsSound L.Link end.new }
    ensures usage { ¬ (result ≡ Ending.Usage) }
    ensures read_fault { result ≡ Ending.ReadFault → HasFault L.Link end.new }
    ensures peer_fault { result ≡ Ending.PeerFault → IsSound L.Link end.new }
{
    match connect_with_m(rt, end, count) {
        Ok(()) => ending_done(end),
        Err(failure) => ending_of(end, &failure),
    }
}
