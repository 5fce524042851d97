//! The steps of the messages: one message at a time.
ghost use Rattle.std.specs.Prelude.{◌≡◌, ◌≤◌, ◌++◌, ◌∷◌, [], length, true, false, None, IfOk, OnOk};
ghost use Rattle.amqp_gen.specs.Steps.{message_steps, with_messages, bytes_of};

use crate::rule::{advanced, body_length, message};
use crate::step::{push, push_call};
use amqp_calls::{Act, Call, Step};
use amqp_link_words::{Disposal, LinkCall, NameList, Sendable};
use amqp_words::End;
use bytes::Bytes;
use std::alloc::{AllocError, Global};

/// The name of the sender, and of the receiver: the steps of the walk that attach and accept it.
const SENDER: u64 = 9;

const RECEIVER: u64 = 10;

/// The call that sends a message.
fn send(payload: Bytes) -> LinkCall
    ensures { result ≡ LinkCall.Send 9 (record { payload = payload; has_body = true; settled = None; batchable = false }) }
{
    LinkCall::Send {
        link: SENDER,
        message: Sendable {
            payload,
            has_body: true,
            settled: None,
            batchable: false,
        },
    }
}

/// The call that accepts the delivery that a call was given.
fn accept(alloc: Global, delivery: u64) -> Result<LinkCall, AllocError>
    ensures { IfOk result (λ c. c ≡ LinkCall.Dispose 10 Disposal.Accepted (delivery ∷ [])) }
{
    let mut deliveries = NameList::new(alloc);
    deliveries.push(delivery)?;
    Ok(LinkCall::Dispose {
        link: RECEIVER,
        disposal: Disposal::Accepted,
        deliveries,
    })
}

/// Adds the steps of one message: it is sent, received and accepted, and its outcome is asked.
fn push_message(alloc: Global, steps: &mut Vec<Step>, size: u16) -> Result<(), AllocError>
    ensures { OnOk result (steps.new.items ≡ steps.old.items ++ message_steps (length steps.old.items) size) }
{
    let sent = steps.len() as u64;
    let payload = message(alloc, size)?;
    push_call(steps, End::Client, Call::Link(send(payload)))?;
    push(steps, End::Listener, Act::TakeAll)?;
    push_call(
        steps,
        End::Listener,
        Call::Link(LinkCall::Recv { link: RECEIVER }),
    )?;
    let accept = accept(alloc, sent + 2)?;
    push_call(steps, End::Listener, Call::Link(accept))?;
    push(steps, End::Client, Act::TakeAll)?;
    push_call(
        steps,
        End::Client,
        Call::Link(LinkCall::Outcome { send: sent }),
    )
}

/// Adds the steps of that many messages, and tells how many bytes their bodies have together.
pub fn push_messages(
    alloc: Global,
    steps: &mut Vec<Step>,
    start: u64,
    count: u32,
) -> Result<u64, AllocError>
    requires { count ≤ 10000 }
    ensures steps { OnOk result (steps.new.items ≡ with_messages steps.old.items start count) }
    ensures bytes { IfOk result (λ b. b ≡ bytes_of start count) }
{
    let mut x = start;
    let mut bytes = 0u64;
    for number in 0..count {
        x = advanced(x);
        let size = body_length(x);
        push_message(alloc, steps, size)?;
        bytes += u64::from(size);
    }
    Ok(bytes)
}
