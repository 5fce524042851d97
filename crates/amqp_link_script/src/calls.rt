//! The calls for links that a word and its arguments say.
//!
//! | word and arguments | the call |
//! |---|---|
//! | `sender S name=T target=T source=T snd=M rcv=R max=N count=N dynamic=yes` | the client attaches a sender on the session S |
//! | `receiver S name=T source=T target=T snd=M rcv=R max=N credit=C auto=yes dynamic=yes` | the client attaches a receiver |
//! | `accept_link S max=N credit=C auto=yes count=N dyn=T` | the listener accepts the first link that waits, or the next |
//! | `send L MSG settled=B batchable=yes timeout=N` | sends a message at the sender L; with a time it waits for credit and outcome |
//! | `outcome P` | asks what has become of the message that the step P sent |
//! | `recv L` | asks the receiver L for the next message |
//! | `dispose L STATE D,D` | gives the deliveries of the steps D, one or more, the state in which they end |
//! | `set_credit L N`, `credit L` | gives credit, or asks for it |
//! | `credit_mode L C` | sets when the receiver L gives credit |
//! | `auto L B` | sets whether the receiver L accepts each delivery as it gives it |
//! | `drain L` | asks the sender to use up its credit |
//! | `send_properties L` | tells the sender how the link stands |
//! | `disposer L` | makes a disposer of the deliveries of the receiver L |
//! | `disposer_accept X D`, `disposer_release X D` | accepts or releases the delivery of the step D by the disposer X |
//! | `on_detach L` | waits for the peer's Detach of the link L |
//! | `detach L error=T timeout=N`, `close_link L error=T` | detaches or closes it; T, if there, is the condition of an error |
//! | `abandon L` | closes it, and waits for no answer |
//!
//! S, L, P, D and X are positions of steps, from 0, below 2^64. `name` is there at each `sender` and `receiver`. M is `unsettled`,
//! `settled` or `mixed`, as where it is left out; R is `first`, as where it is left out, or `second`. `max` (bytes, else no limit) is
//! below 2^64, `timeout` (milliseconds, else for ever) too, `count` (else 0) and credit below 2^32. C is `manual`, or how much credit is given again and again, 200 where it is
//! left out. With `auto` a receiver accepts each delivery as it gives it. `dynamic` asks for a node that is made; `dyn` is the address of such nodes. B is `yes` or `no`. MSG is `text:T`, a message
//! with one string, or `hex:H`, the bytes of a message in hexadecimal digits. STATE is `accepted`, `released`, `rejected` or
//! `rejected:T` with the condition of an error, `modified` or `modified:` with `f` (failed), `u` (undeliverable here) or `fu`.
ghost use Rattle.std.specs.Prelude.{◌≡◌};
ghost use Rattle.amqp_script.specs.Fields.{Says};
ghost use Rattle.amqp_script.specs.Words.{words_left};
ghost use Rattle.amqp_link_script.specs.Names.{one_name_in};
ghost use Rattle.amqp_link_script.specs.Partings.{on_detach_call_in, detach_call_in, close_call_in, abandon_call_in};
ghost use Rattle.amqp_link_script.specs.Calls.{sender_call_in, receiver_call_in, accept_call_in, written_of, written_in, sending_of, send_call_in, outcome_call_in, recv_call_in, credit_call_in, dispose_of, dispose_call_in, set_credit_of, set_credit_call_in, call_in};

use crate::disposals::{names, state};
use crate::keys::{LinkKey, flag, has_only, optional_choice, timeout, ulong};
use crate::partings::{abandon_call, close_call, detach_call, on_detach_call};
use crate::regulating::{
    auto_call, credit_mode_call, dispose_by_call, disposer_call, regulating_call,
};
use crate::settings::{accept, receiver, sender};
use crate::words::LinkWord;
use amqp_link_words::{Disposal, LinkCall, Regulation, Sendable};
use amqp_script::script::fields::uint;
use amqp_script::script::line_error::LineError;
use amqp_script::script::words::Words;
use bytes::Bytes;
use std::alloc::Global;

const SEND_KEYS: [LinkKey; 3] = [LinkKey::Settled, LinkKey::Batchable, LinkKey::Timeout];

#[tactic(auto, unfolding(crate::specs::Calls::sender_call_in))]
fn sender_call(alloc: Global, arguments: Words<'_>) -> Result<LinkCall, LineError>
    ensures { Says (sender_call_in (words_left arguments.entry)) result }
{
    let mut arguments = arguments;
    let Some(session) = arguments.next() else {
        return Err(LineError::Outside);
    };
    let session = ulong(session)?;
    let settings = sender(alloc, arguments)?;
    Ok(LinkCall::Sender { session, settings })
}

#[tactic(auto, unfolding(crate::specs::Calls::receiver_call_in))]
fn receiver_call(alloc: Global, arguments: Words<'_>) -> Result<LinkCall, LineError>
    ensures { Says (receiver_call_in (words_left arguments.entry)) result }
{
    let mut arguments = arguments;
    let Some(session) = arguments.next() else {
        return Err(LineError::Outside);
    };
    let session = ulong(session)?;
    let settings = receiver(alloc, arguments)?;
    Ok(LinkCall::Receiver { session, settings })
}

#[tactic(auto, unfolding(crate::specs::Calls::accept_call_in))]
fn accept_call(alloc: Global, arguments: Words<'_>) -> Result<LinkCall, LineError>
    ensures { Says (accept_call_in (words_left arguments.entry)) result }
{
    let mut arguments = arguments;
    let Some(session) = arguments.next() else {
        return Err(LineError::Outside);
    };
    let session = ulong(session)?;
    let (settings, credit_mode, auto_accept) = accept(alloc, arguments)?;
    Ok(LinkCall::Accept {
        session,
        settings,
        credit_mode,
        auto_accept,
    })
}

#[tactic(auto, unfolding(crate::specs::Calls::written_of))]
fn written_fields(
    alloc: Global,
    message: &[u8],
    arguments: Words<'_>,
) -> Result<Sendable, LineError>
    ensures { Says (written_of message.now (words_left arguments.entry)) result }
{
    let settled = optional_choice(arguments, LinkKey::Settled)?;
    let batchable = flag(arguments, LinkKey::Batchable)?;
    let payload = Bytes::copy_from_slice(alloc, message)?;
    Ok(Sendable {
        payload,
        has_body: true,
        settled,
        batchable,
    })
}

/// A message as it is written, and how it is sent.
fn written(alloc: Global, message: &[u8], arguments: Words<'_>) -> Result<Sendable, LineError>
    ensures { Says (written_in message.now (words_left arguments.entry)) result }
{
    if !has_only(&SEND_KEYS, arguments) {
        return Err(LineError::Outside);
    }
    written_fields(alloc, message, arguments)
}

/// The call that sends a message, with a time or without.
fn sending(link: u64, message: Sendable, timeout: Option<u64>) -> LinkCall
    ensures { result ≡ sending_of link message timeout }
{
    match timeout {
        Some(timeout) => LinkCall::SendTimed {
            link,
            message,
            timeout,
        },
        None => LinkCall::Send { link, message },
    }
}

#[tactic(auto, unfolding(crate::specs::Calls::send_call_in))]
fn send_call(alloc: Global, arguments: Words<'_>) -> Result<LinkCall, LineError>
    ensures { Says (send_call_in (words_left arguments.entry)) result }
{
    let mut arguments = arguments;
    let (Some(link), Some(message)) = (arguments.next(), arguments.next()) else {
        return Err(LineError::Outside);
    };
    let link = ulong(link)?;
    let message = written(alloc, message, arguments)?;
    let timeout = timeout(arguments)?;
    Ok(sending(link, message, timeout))
}

/// The one name that the arguments are.
pub(crate) fn one_name(arguments: Words<'_>) -> Result<u64, LineError>
    ensures { Says (one_name_in (words_left arguments.entry)) result }
{
    let mut arguments = arguments;
    let Some(name) = arguments.next() else {
        return Err(LineError::Outside);
    };
    if arguments.next().is_some() {
        return Err(LineError::Outside);
    }
    ulong(name)
}

#[tactic(auto, unfolding(crate::specs::Calls::outcome_call_in))]
fn outcome_call(arguments: Words<'_>) -> Result<LinkCall, LineError>
    ensures { Says (outcome_call_in (words_left arguments.entry)) result }
{
    let send = one_name(arguments)?;
    Ok(LinkCall::Outcome { send })
}

#[tactic(auto, unfolding(crate::specs::Calls::recv_call_in))]
fn recv_call(arguments: Words<'_>) -> Result<LinkCall, LineError>
    ensures { Says (recv_call_in (words_left arguments.entry)) result }
{
    let link = one_name(arguments)?;
    Ok(LinkCall::Recv { link })
}

#[tactic(auto, unfolding(crate::specs::Calls::credit_call_in))]
fn credit_call(arguments: Words<'_>) -> Result<LinkCall, LineError>
    ensures { Says (credit_call_in (words_left arguments.entry)) result }
{
    let link = one_name(arguments)?;
    Ok(LinkCall::Credit { link })
}

#[tactic(auto, unfolding(crate::specs::Calls::dispose_of))]
fn disposing(
    alloc: Global,
    link: &[u8],
    word: &[u8],
    deliveries: &[u8],
) -> Result<LinkCall, LineError>
    ensures { Says (dispose_of link.now word.now deliveries.now) result }
{
    let link = ulong(link)?;
    let disposal = state(alloc, word)?;
    let deliveries = names(alloc, deliveries)?;
    Ok(LinkCall::Dispose {
        link,
        disposal,
        deliveries,
    })
}

fn dispose_call(alloc: Global, arguments: Words<'_>) -> Result<LinkCall, LineError>
    ensures { Says (dispose_call_in (words_left arguments.entry)) result }
{
    let mut arguments = arguments;
    let (Some(link), Some(state), Some(deliveries)) = (
        arguments.next(),
        arguments.next(),
        arguments.next(),
    ) else {
        return Err(LineError::Outside);
    };
    if arguments.next().is_some() {
        return Err(LineError::Outside);
    }
    disposing(alloc, link, state, deliveries)
}

#[tactic(auto, unfolding(crate::specs::Calls::set_credit_of))]
fn crediting(link: &[u8], credit: &[u8]) -> Result<LinkCall, LineError>
    ensures { Says (set_credit_of link.now credit.now) result }
{
    let link = ulong(link)?;
    let credit = uint(credit)?;
    Ok(LinkCall::SetCredit { link, credit })
}

fn set_credit_call(arguments: Words<'_>) -> Result<LinkCall, LineError>
    ensures { Says (set_credit_call_in (words_left arguments.entry)) result }
{
    let mut arguments = arguments;
    let (Some(link), Some(credit)) = (arguments.next(), arguments.next()) else {
        return Err(LineError::Outside);
    };
    if arguments.next().is_some() {
        return Err(LineError::Outside);
    }
    crediting(link, credit)
}

/// What a word of links and its arguments say. A message stands in the call as its argument is written.
pub fn call(alloc: Global, word: LinkWord, arguments: Words<'_>) -> Result<LinkCall, LineError>
    ensures { Says (call_in word (words_left arguments.entry)) result }
{
    match word {
        LinkWord::Sender => sender_call(alloc, arguments),
        LinkWord::Receiver => receiver_call(alloc, arguments),
        LinkWord::AcceptLink => accept_call(alloc, arguments),
        LinkWord::Send => send_call(alloc, arguments),
        LinkWord::Outcome => outcome_call(arguments),
        LinkWord::Recv => recv_call(arguments),
        LinkWord::Dispose => dispose_call(alloc, arguments),
        LinkWord::SetCredit => set_credit_call(arguments),
        LinkWord::Credit => credit_call(arguments),
        LinkWord::CreditMode => credit_mode_call(arguments),
        LinkWord::Auto => auto_call(arguments),
        LinkWord::Drain => regulating_call(arguments, Regulation::Drain),
        LinkWord::SendProperties => regulating_call(arguments, Regulation::Properties),
        LinkWord::Disposer => disposer_call(arguments),
        LinkWord::DisposerAccept => dispose_by_call(arguments, Disposal::Accepted),
        LinkWord::DisposerRelease => dispose_by_call(arguments, Disposal::Released),
        LinkWord::OnDetach => on_detach_call(arguments),
        LinkWord::Detach => detach_call(alloc, arguments),
        LinkWord::CloseLink => close_call(alloc, arguments),
        LinkWord::Abandon => abandon_call(arguments),
    }
}
