//! The steps by which two ends come to a link on which the client sends.
ghost use Rattle.std.specs.Prelude.{◌≡◌, ◌++◌, ◌∷◌, [], None, Some, true, false, IfOk, OnOk};
ghost use Rattle.amqp_gen.specs.Step.{step_of, connection_step, session_step, link_step};
ghost use Rattle.amqp_gen.specs.Walk.{settings_of, opened, accepted, numbers, sender_settings, accept_settings, attached, taken_on, walk, connected, begun, linked};

use crate::step::{push, push_call};
use amqp_calls::{Act, Call, SessionCall, SessionNumbers, Step};
use amqp_composites::modes::{ReceiverSettleMode, SenderSettleMode};
use amqp_delivery::CreditMode;
use amqp_link::AcceptSettings;
use amqp_link_words::LinkCall;
use amqp_sender::SenderSettings;
use amqp_text::Text;
use amqp_words::{Call as ConnectionCall, ConnectionSettings, End};
use std::alloc::{AllocError, Global};

/// The names of the steps that make the sessions: of the client, and of the listener.
const CLIENT_SESSION: u64 = 5;

const LISTENER_SESSION: u64 = 6;

/// What an end of that id says of itself.
fn settings(alloc: Global, id: &str) -> Result<ConnectionSettings, AllocError>
    ensures { IfOk result (λ s. s ≡ settings_of id.now) }
{
    let container_id = Text::from_str(alloc, id)?;
    Ok(ConnectionSettings {
        container_id,
        hostname: None,
        max_frame_size: 262_144,
        channel_max: 255,
        idle_time_out: None,
    })
}

/// The client opens the connection, with no SASL layer.
fn open(alloc: Global) -> Result<Call, AllocError>
    ensures { IfOk result (λ c. c ≡ Call.Connection opened) }
{
    let settings = settings(alloc, "c")?;
    Ok(Call::Connection(ConnectionCall::Open {
        settings,
        sasl_hostname: None,
        sasl: None,
    }))
}

/// The listener accepts it.
fn accept(alloc: Global) -> Result<Call, AllocError>
    ensures { IfOk result (λ c. c ≡ Call.Connection accepted) }
{
    let settings = settings(alloc, "l")?;
    Ok(Call::Connection(ConnectionCall::Accept {
        settings,
        sasl: None,
    }))
}

/// What an end says of its session.
fn numbers() -> SessionNumbers
    ensures { result ≡ numbers }
{
    SessionNumbers {
        next_outgoing_id: 0,
        incoming_window: 2_048,
        outgoing_window: 2_048,
        handle_max: 255,
    }
}

/// What the sender says of itself.
fn sender_settings(alloc: Global) -> Result<SenderSettings, AllocError>
    ensures { IfOk result (λ s. s ≡ sender_settings) }
{
    let name = Text::from_str(alloc, "s")?;
    let target = Text::from_str(alloc, "q1")?;
    Ok(SenderSettings {
        name,
        source: None,
        target: Some(target),
        dynamic: false,
        snd_settle_mode: SenderSettleMode::Mixed,
        rcv_settle_mode: ReceiverSettleMode::First,
        max_message_size: None,
        initial_delivery_count: 0,
        verify: true,
    })
}

/// The client attaches a sender.
fn attach(alloc: Global) -> Result<Call, AllocError>
    ensures { IfOk result (λ c. c ≡ Call.Link (LinkCall.Sender 5 sender_settings)) }
{
    let settings = sender_settings(alloc)?;
    Ok(Call::Link(LinkCall::Sender {
        session: CLIENT_SESSION,
        settings,
    }))
}

/// The listener accepts it, and gives credit again and again.
fn accept_link() -> Call
    ensures { result ≡ Call.Link attached }
{
    Call::Link(LinkCall::Accept {
        session: LISTENER_SESSION,
        settings: AcceptSettings {
            max_message_size: None,
            initial_delivery_count: 0,
            dynamic_address: None,
        },
        credit_mode: CreditMode::Auto(200),
        auto_accept: false,
    })
}

/// Adds that the listener, and then the client, takes all that the other has written.
fn push_takes(steps: &mut Vec<Step>) -> Result<(), AllocError>
    ensures { OnOk result (steps.new.items ≡ steps.old.items ++ taken_on) }
{
    push(steps, End::Listener, Act::TakeAll)?;
    push(steps, End::Client, Act::TakeAll)
}

/// Adds the steps by which the connection is opened.
fn push_connection(alloc: Global, steps: &mut Vec<Step>) -> Result<(), AllocError>
    ensures { OnOk result (steps.new.items ≡ steps.old.items ++ connected) }
{
    let open = open(alloc)?;
    let accept = accept(alloc)?;
    push_call(steps, End::Client, open)?;
    push_call(steps, End::Listener, accept)?;
    push(steps, End::Client, Act::TakeAll)?;
    push_takes(steps)
}

/// Adds those by which a session is begun.
fn push_session(steps: &mut Vec<Step>) -> Result<(), AllocError>
    ensures { OnOk result (steps.new.items ≡ steps.old.items ++ begun) }
{
    push_call(
        steps,
        End::Client,
        Call::Session(SessionCall::Begin(numbers())),
    )?;
    push_call(
        steps,
        End::Listener,
        Call::Session(SessionCall::Accept(numbers())),
    )?;
    push_takes(steps)
}

/// Adds those by which the link is attached.
fn push_link(alloc: Global, steps: &mut Vec<Step>) -> Result<(), AllocError>
    ensures { OnOk result (steps.new.items ≡ steps.old.items ++ linked) }
{
    let attach = attach(alloc)?;
    push_call(steps, End::Client, attach)?;
    push_call(steps, End::Listener, accept_link())?;
    push_takes(steps)
}

/// The steps by which both ends come to a link; the one error is want of memory.
pub fn walk(alloc: Global) -> Result<Vec<Step>, AllocError>
    ensures { IfOk result (λ steps. steps.items ≡ walk) }
{
    let mut steps = Vec::new(alloc);
    push_connection(alloc, &mut steps)?;
    push_session(&mut steps)?;
    push_link(alloc, &mut steps)?;
    Ok(steps)
}
