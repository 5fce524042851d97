//! A listener that accepts every message.
ghost use Rattle.std.specs.Prelude.{◌≡◌, ◌≤◌, ◌↔◌, Some, OnOk, IfOk, IfErr, IfSome, IsTrue};
ghost use Rattle.amqp_end.specs.Asks.{MayAsk};
ghost use Rattle.amqp_served.specs.Count.{count_text, IsUnwritten};
ghost use Rattle.amqp_served_news.specs.News.{news_of_lem};
ghost use Rattle.amqp_served.specs.Served.{counted};
ghost use Rattle.amqp_serve.specs.Acts.{call_for};
ghost use Rattle.amqp_serve.specs.Answers.{counted_all};
ghost use Rattle.amqp_serve.specs.Endings.{HasFault, IsFailure, IsSound, WasServed, ServedAndTold, Lined};
ghost use Rattle.amqp_serve.specs.Ran.{Called, Heard, IsClosed, RanSilently};

use crate::asking::{forget, go_on, let_go, take_replies};
use crate::failure::{Failure, check_link, ending_of};
use amqp_calls::{Call, NamedReply};
use amqp_end::End;
use amqp_frames::ConnectionStopReason;
use amqp_net::WaitLink;
use amqp_served::count::{count_line, write_text};
use amqp_served::{Act, Ending, Names, News, Served, Still};
use amqp_served_calls::{accept, accept_delivery, accept_link, accept_session, recv};
use amqp_served_news::news_of;
use amqp_wire::source::Sink;
use std::alloc::{AllocError, Global};
use std::sync::Wait;

/// The call of an act, where it has one; the one error is want of memory.
fn call_of(alloc: Global, act: Act) -> Result<Option<Call>, AllocError>
    ensures { IfOk result (λ call. call ≡ call_for act) }
{
    match act {
        Act::AcceptConnection => {
            let call = accept(alloc)?;
            Ok(Some(call))
        }
        Act::AcceptSession => Ok(Some(accept_session())),
        Act::AcceptLink(session) => Ok(Some(accept_link(session))),
        Act::Settle(receiver, delivery) => {
            let call = accept_delivery(alloc, receiver, delivery)?;
            Ok(Some(call))
        }
        Act::Receive(receiver) => Ok(Some(recv(receiver))),
        Act::Wait | Act::Finish => Ok(None),
    }
}

/// Takes in an answer. An error is a failure.
fn hear(served: &mut Served, act: Act, named: NamedReply) -> Result<(), Failure>
    ensures messages { OnOk result (served.new.messages ≡ counted (news_of_lem named.reply) served.old.messages) }
    ensures owed { OnOk result (served.new.owed ≡ counted (news_of_lem named.reply) served.old.owed) }
{
    let NamedReply { name, reply } = named;
    let news = news_of(&reply);
    if news == News::Fault {
        return Err(Failure::Answer(reply));
    }
    served.hear(act, name, news)?;
    Ok(())
}

/// Takes in answers, in order.
#[tactic(auto, using(crate::proofs::Runs::counted_more))]
fn hear_list(served: &mut Served, act: Act, replies: Vec<NamedReply>) -> Result<(), Failure>
    ensures messages { OnOk result (served.new.messages ≡ counted_all replies.items served.old.messages) }
    ensures owed { OnOk result (served.new.owed ≡ counted_all replies.items served.old.owed) }
{
    for named in replies {
        hear(served, act, named)?;
    }
    Ok(())
}

/// Takes in the answers that are there.
#[tactic(auto, using(crate::proofs::Runs::heard_took))]
fn hear_all<L: WaitLink>(end: &mut End<L>, served: &mut Served, act: Act) -> Result<(), Failure>
    ensures { OnOk result (Heard L.Link end.old end.new served.old served.new) }
{
    let replies = take_replies(end);
    hear_list(served, act, replies)
}

/// Whether the peer has closed the connection without an error.
fn is_closed<L: WaitLink>(end: &End<L>) -> bool
    ensures { IsTrue result ↔ IsClosed end.now }
{
    match end.stop_reason() {
        Some(ConnectionStopReason::RemoteClosed) => true,
        _ => false,
    }
}

/// Waits for more, and takes in the answers.
#[tactic(auto, using(crate::proofs::Runs::heard_behind))]
fn wait_more<L: WaitLink>(end: &mut End<L>, served: &mut Served) -> Result<(), Failure>
    ensures { OnOk result (Heard L.Link end.old end.new served.old served.new) }
{
    go_on(end, &mut Still)?;
    served.waited();
    hear_all(end, served, Act::Wait)?;
    Ok(())
}

/// Waits for more, unless the connection is closed.
#[tactic(auto, using(crate::proofs::Runs::heard_kept))]
fn wait<L: WaitLink>(end: &mut End<L>, served: &mut Served) -> Result<(), Failure>
    ensures { OnOk result (Heard L.Link end.old end.new served.old served.new) }
{
    if is_closed(end) {
        served.close();
        return Ok(());
    }
    wait_more(end, served)
}

/// Makes a call.
#[tactic(auto, using(crate::proofs::Runs::called_by))]
fn call_at<L: WaitLink>(end: &mut End<L>, name: u64, call: Call) -> Result<(), Failure>
    requires { MayAsk end.old name call }
    ensures { OnOk result (Called L.Link end.old end.new name call) }
{
    match end.call(0, name, call) {
        Ok(()) => Ok(()),
        Err(_) => Err(Failure::Memory),
    }
}

/// More may have come where reads have given bytes since there were so many.
fn look_again<L: WaitLink>(end: &End<L>, served: &mut Served, reads: u64)
    ensures messages { served.new.messages ≡ served.old.messages }
    ensures owed { served.new.owed ≡ served.old.owed }
{
    if end.link_ref().reads() != reads {
        served.waited();
    }
}

/// Forgets the delivery that was accepted, which no later call names.
#[tactic(auto, using(crate::proofs::Runs::silent_none))]
fn forget_settled<L: WaitLink>(end: &mut End<L>, act: Act)
    ensures { RanSilently L.Link end.old end.new }
{
    if let Act::Settle(_, delivery) = act {
        forget(end, delivery);
    }
}

/// Makes the call of an act, and takes in the answers. Where bytes were read behind the answer, more may be there than it says.
#[tactic(auto, using(crate::proofs::Runs::heard_called))]
fn make<L: WaitLink>(
    end: &mut End<L>,
    served: &mut Served,
    act: Act,
    name: u64,
    call: Call,
) -> Result<(), Failure>
    requires may { MayAsk end.old name call }
    requires of_act { Some call ≡ call_for act }
    ensures { OnOk result (Heard L.Link end.old end.new served.old served.new) }
{
    let reads = end.link_ref().reads();
    served.made(act, name);
    call_at(end, name, call)?;
    hear_all(end, served, act)?;
    look_again(end, served, reads);
    Ok(())
}

/// Passes over an act whose call may not be made, since what it is for has ended. Without some acts there is nothing to be served.
#[tactic(auto, using(crate::proofs::Runs::heard_kept))]
fn pass_over<L: WaitLink>(end: &End<L>, served: &mut Served, act: Act) -> Result<(), Failure>
    ensures { OnOk result (Heard L.Link end.now end.now served.old served.new) }
{
    match act {
        Act::AcceptConnection | Act::AcceptSession | Act::Settle(_, _) => Err(Failure::Over),
        Act::AcceptLink(_) | Act::Receive(_) | Act::Wait | Act::Finish => {
            served.passed_over(act);
            Ok(())
        }
    }
}

/// Makes the call of an act, and forgets what it has settled.
#[tactic(auto, using(crate::proofs::Runs::heard_before))]
fn make_once<L: WaitLink>(
    end: &mut End<L>,
    served: &mut Served,
    act: Act,
    name: u64,
    call: Call,
) -> Result<(), Failure>
    requires may { MayAsk end.old name call }
    requires of_act { Some call ≡ call_for act }
    ensures { OnOk result (Heard L.Link end.old end.new served.old served.new) }
{
    make(end, served, act, name, call)?;
    forget_settled(end, act);
    Ok(())
}

/// Makes the call of an act, or passes over it where what it is for has ended.
fn try_act<L: WaitLink>(
    end: &mut End<L>,
    served: &mut Served,
    act: Act,
    name: u64,
    call: Call,
) -> Result<(), Failure>
    requires { Some call ≡ call_for act }
    ensures { OnOk result (Heard L.Link end.old end.new served.old served.new) }
{
    if end.may_call(name, &call) {
        return make_once(end, served, act, name, call);
    }
    let_go(call);
    pass_over(end, served, act)
}

/// Makes the call of an act, or waits.
fn do_act<L: WaitLink>(
    alloc: Global,
    end: &mut End<L>,
    served: &mut Served,
    names: &mut Names,
    act: Act,
) -> Result<(), Failure>
    ensures { OnOk result (Heard L.Link end.old end.new served.old served.new) }
{
    match call_of(alloc, act)? {
        Some(call) => try_act(end, served, act, names.give(), call),
        None => wait(end, served),
    }
}

/// How many messages came, once the peer has closed the connection and each of them was accepted.
fn finished<L: WaitLink>(end: &End<L>, served: &Served, act: Act) -> Result<Option<u64>, Failure>
    ensures closed { IfOk result (λ count. IfSome count (λ _. IsClosed end.now)) }
    ensures settled { IfOk result (λ count. IfSome count (λ _. served.now.owed ≡ 0)) }
    ensures count { IfOk result (λ count. IfSome count (λ n. n ≡ served.now.messages)) }
{
    if act != Act::Finish || !is_closed(end) {
        return Ok(None);
    }
    if served.is_settled() {
        return Ok(Some(served.messages()));
    }
    Err(Failure::Over)
}

/// Serves the connection until the peer has closed it; how many messages came.
#[tactic(auto, using(crate::proofs::Runs::heard_kept, crate::proofs::Runs::heard_then, crate::proofs::Runs::served_by))]
fn serve_all<R: Wait + AllocGlobal, L: WaitLink>(rt: &R, end: &mut End<L>) -> Result<u64, Failure>
    ensures { IfOk result (λ count. WasServed L.Link end.old end.new count) }
{
    let alloc = rt.alloc();
    let mut names = Names::new();
    let mut served = Served::new(alloc);
    for _ in rt.forever() {
        let act = served.next_act();
        if let Some(count) = finished(end, &served, act)? {
            return Ok(count);
        }
        do_act(alloc, end, &mut served, &mut names, act)?;
    }
    unreachable!()
}

/// The line of how many messages came, where the link has counted no fault.
fn line_for<L: WaitLink>(alloc: Global, end: &End<L>, count: u64) -> Result<Vec<u8>, Ending>
    ensures line { IfOk result (λ text. text.items ≡ count_text count) }
    ensures sound { OnOk result (IsSound L.Link end.now) }
    ensures failure { IfErr result IsFailure }
    ensures read_fault { IfErr result (λ ending. ending ≡ Ending.ReadFault → HasFault L.Link end.now) }
    ensures peer { IfErr result (λ ending. ¬ (ending ≡ Ending.PeerFault)) }
{
    check_link(end)?;
    match count_line(alloc, count) {
        Ok(line) => Ok(line),
        Err(_) => Err(Ending::Memory),
    }
}

/// Serves the connection; the line of how many messages came, or how the run ends that has none.
fn line_of<R: Wait + AllocGlobal, L: WaitLink>(rt: &R, end: &mut End<L>) -> Result<Vec<u8>, Ending>
    ensures line { IfOk result (λ text. Lined L.Link end.old end.new text.items) }
    ensures sound { OnOk result (IsSound L.Link end.new) }
    ensures failure { IfErr result IsFailure }
    ensures read_fault { IfErr result (λ ending. ending ≡ Ending.ReadFault → HasFault L.Link end.new) }
    ensures peer_fault { IfErr result (λ ending. ending ≡ Ending.PeerFault → IsSound L.Link end.new) }
{
    match serve_all(rt, end) {
        Ok(count) => line_for(rt.alloc(), end, count),
        Err(failure) => Err(ending_of(end, &failure)),
    }
}

/// Accepts a connection with ANONYMOUS at a listener on which no call was made, its sessions and its links, and accepts every
/// message. When the peer has closed the connection it writes `messages N`, how many messages came. Every moment is 0.
pub fn serve_on<R: Wait + AllocGlobal, L: WaitLink, K: Sink>(
    rt: &R,
    end: &mut End<L>,
    sink: &mut K,
) -> Ending
    ensures done { result ≡ Ending.Done → ServedAndTold L.Link end.old end.new (K.written sink.old) (K.written sink.new) }
    ensures sound { result ≡ Ending.Done → IsSound L.Link end.new }
    ensures usage { ¬ (result ≡ Ending.Usage) }
    ensures unwritten { IsUnwritten result → K.written sink.new ≡ K.written sink.old }
    ensures read_fault { result ≡ Ending.ReadFault → HasFault L.Link end.new }
    ensures peer_fault { result ≡ Ending.PeerFault → IsSound L.Link end.new }
    ensures later { K.faults sink.old ≤ K.faults sink.new }
{
    match line_of(rt, end) {
        Ok(line) => write_text(sink, line.as_slice()),
        Err(ending) => ending,
    }
}
