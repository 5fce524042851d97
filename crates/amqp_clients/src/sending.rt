//! `send`: messages to an address.
ghost use Rattle.std.specs.Prelude.{◌≡◌, ◌+◌, ◌<◌, if◌then◌else◌, OnOk, IfOk, IfErr};
ghost use Rattle.amqp_serve.specs.Answers.{IsHonest};
ghost use Rattle.amqp_serve.specs.Ran.{RanOn};
ghost use Rattle.amqp_clients.specs.Delivered.{is_acceptance, is_accepted_at, is_accepted, DeliveredOne, Delivered, SentAndLeft};

use crate::progress::Progress;
use crate::report::report;
use crate::session::enter;
use amqp_calls::{LinkReply, Reply};
use amqp_end::End;
use amqp_net::WaitLink;
use amqp_serve::Failure;
use amqp_serve::connecting::{leave, send_and_settle, settle};
use amqp_served::{Moments, Names};
use amqp_served_calls::{message_of, sender};
use amqp_termini::Outcome;
use amqp_text::Text;
use sasl_gate::SaslProfile;
use std::sync::Wait;

fn is_acceptance(outcome: &Outcome) -> bool
    ensures { result ≡ is_acceptance outcome.now }
{
    match outcome {
        Outcome::Accepted(_) => true,
        _ => false,
    }
}

fn is_accepted_at(reply: &LinkReply) -> bool
    ensures { result ≡ is_accepted_at reply.now }
{
    match reply {
        LinkReply::Outcome(outcome) => is_acceptance(outcome),
        _ => false,
    }
}

/// Whether an answer says that the peer has accepted a message.
fn is_accepted(reply: &Reply) -> bool
    ensures { result ≡ is_accepted reply.now }
{
    match reply {
        Reply::Connection(_) | Reply::Session(_) => false,
        Reply::Link(reply) => is_accepted_at(reply),
    }
}

/// Sends a message, and waits for its outcome; whether the peer has accepted it. Where it has not, that is told on standard error.
fn send_text<R: Wait + AllocGlobal + Eprint, L: WaitLink, M: Progress>(
    rt: &R,
    end: &mut End<L>,
    moments: &mut M,
    names: &mut Names,
    link: u64,
    text: &Text,
) -> Result<bool, Failure>
    ensures delivered { IfOk result (λ accepted. DeliveredOne L.Link end.old end.new text.now (if accepted then 0 else 1)) }
    ensures honest { IfErr result IsHonest }
{
    let Some(message) = message_of(rt.alloc(), text.as_str())? else {
        return Err(Failure::Over);
    };
    let outcome = send_and_settle(rt, end, moments, names, link, &message)?;
    moments.count();
    if is_accepted(&outcome) {
        return Ok(true);
    }
    moments.clear();
    report(rt, rt.alloc(), "not accepted", &outcome);
    Ok(false)
}

/// How many messages were refused, with one more that was accepted or not.
fn counted(refused: u64, accepted: bool) -> u64
    requires { refused < 18446744073709551615 }
    ensures { result ≡ refused + (if accepted then 0 else 1) }
{
    if accepted { refused } else { refused + 1 }
}

/// Sends the messages one after another; how many of them the peer has not accepted, of which each is told on standard error.
#[tactic(auto, using(crate::proofs::Deliveries::delivered_none))]
fn send_all<R: Wait + AllocGlobal + Eprint, L: WaitLink, M: Progress>(
    rt: &R,
    end: &mut End<L>,
    moments: &mut M,
    names: &mut Names,
    link: u64,
    messages: &[Text],
) -> Result<u64, Failure>
    ensures delivered { IfOk result (λ refused. Delivered L.Link end.old messages.now refused end.new) }
    ensures honest { IfErr result IsHonest }
{
    let mut refused = 0;
    for text in messages {
        let accepted = send_text(rt, end, moments, names, link, text)?;
        refused = counted(refused, accepted);
    }
    Ok(refused)
}

/// Attaches a sender to the address; the name of the link.
fn attach<R: Wait + AllocGlobal, L: WaitLink, M: Moments>(
    rt: &R,
    end: &mut End<L>,
    moments: &mut M,
    names: &mut Names,
    session: u64,
    address: &str,
) -> Result<u64, Failure>
    ensures attached { OnOk result (RanOn L.Link end.old end.new) }
    ensures honest { IfErr result IsHonest }
{
    let call = sender(rt.alloc(), session, address)?;
    let link = names.give();
    settle(rt, end, moments, link, call)?;
    Ok(link)
}

/// Opens the connection, sends the messages, and closes it; how many messages the peer has not accepted.
#[tactic(auto, using(crate::proofs::Deliveries::sent_and_left))]
pub fn send_on<R: Wait + AllocGlobal + Eprint, L: WaitLink, M: Progress>(
    rt: &R,
    end: &mut End<L>,
    moments: &mut M,
    host: Option<Text>,
    sasl: Option<SaslProfile>,
    address: &str,
    messages: &[Text],
) -> Result<u64, Failure>
    ensures delivered { IfOk result (λ refused. SentAndLeft L.Link end.old end.new messages.now refused) }
    ensures honest { IfErr result IsHonest }
{
    let mut names = Names::new();
    let session = enter(rt, end, moments, &mut names, host, sasl)?;
    let link = attach(rt, end, moments, &mut names, session, address)?;
    let refused = send_all(rt, end, moments, &mut names, link, messages)?;
    leave(rt, end, moments, &mut names, session, link)?;
    Ok(refused)
}
