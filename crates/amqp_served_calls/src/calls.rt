//! The calls that a run makes.
ghost use Rattle.std.specs.Prelude.{◌≡◌, true, false, None, IfOk, IfSome};
ghost use Rattle.amqp_served_calls.specs.Calls.{settings_with, open_call, accept_call, close_call, own_numbers, begin_call, accept_session_call, end_call, sender_call, receiver_call, accept_link_call, string_message, IsStringMessage, send_call, outcome_call, recv_call, set_credit_call, accept_delivery_call, close_link_call};

use amqp_calls::{Call, Disposal, LinkCall, Sendable, SessionCall, SessionNumbers};
use amqp_composites::modes::{ReceiverSettleMode, SenderSettleMode};
use amqp_data::Value;
use amqp_delivery::CreditMode;
use amqp_fields::BaseError;
use amqp_link::AcceptSettings;
use amqp_link_words::{NameList, Parting};
use amqp_messages::{Body, Message, encode_message};
use amqp_opening::AcceptSasl;
use amqp_receiver::ReceiverSettings;
use amqp_sender::SenderSettings;
use amqp_text::{Binary, Text};
use amqp_words::{Call as ConnectionCall, ConnectionSettings};
use sasl_gate::SaslProfile;
use std::alloc::{AllocError, Global};

/// The largest frame that is taken, in bytes.
const MAX_FRAME_SIZE: u32 = 262_144;

/// The highest number of a channel.
const CHANNEL_MAX: u16 = 255;

/// How many transfers a session takes before it announces more, and how many it may send.
const WINDOW: u32 = 2_048;

/// The highest handle.
const HANDLE_MAX: u32 = 255;

/// How much credit a receiver gives again and again.
pub const CREDIT: u32 = 1_000;

fn settings(
    alloc: Global,
    id: &str,
    host: Option<Text>,
    idle_time_out: Option<u32>,
) -> Result<ConnectionSettings, AllocError>
    ensures { IfOk result (λ s. s ≡ record (settings_with host idle_time_out) { container_id = id.now }) }
{
    let container_id = Text::from_str(alloc, id)?;
    Ok(ConnectionSettings {
        container_id,
        hostname: host,
        max_frame_size: MAX_FRAME_SIZE,
        channel_max: CHANNEL_MAX,
        idle_time_out,
    })
}

/// The client opens the connection.
pub fn open(
    alloc: Global,
    host: Option<Text>,
    idle_time_out: Option<u32>,
    sasl: Option<SaslProfile>,
) -> Result<Call, AllocError>
    ensures { IfOk result (λ c. c ≡ open_call host idle_time_out sasl) }
{
    let settings = settings(alloc, "amqp_run", host, idle_time_out)?;
    Ok(Call::Connection(ConnectionCall::Open {
        settings,
        sasl_hostname: None,
        sasl,
    }))
}

/// The listener accepts it from anyone.
pub fn accept(alloc: Global) -> Result<Call, AllocError>
    ensures { IfOk result (λ c. c ≡ accept_call) }
{
    let settings = settings(alloc, "amqp_run", None, None)?;
    Ok(Call::Connection(ConnectionCall::Accept {
        settings,
        sasl: Some(AcceptSasl::Anonymous),
    }))
}

/// The connection is closed.
pub fn close() -> Call
    ensures { result ≡ close_call }
{
    Call::Connection(ConnectionCall::Close { error: None })
}

fn numbers() -> SessionNumbers
    ensures { result ≡ own_numbers }
{
    SessionNumbers {
        next_outgoing_id: 0,
        incoming_window: WINDOW,
        outgoing_window: WINDOW,
        handle_max: HANDLE_MAX,
    }
}

/// The client begins a session.
pub fn begin() -> Call
    ensures { result ≡ begin_call }
{
    Call::Session(SessionCall::Begin(numbers()))
}

/// The listener accepts one.
pub fn accept_session() -> Call
    ensures { result ≡ accept_session_call }
{
    Call::Session(SessionCall::Accept(numbers()))
}

/// The session is ended.
pub fn end(session: u64) -> Call
    ensures { result ≡ end_call session }
{
    Call::Session(SessionCall::End {
        session,
        error: None,
    })
}

/// The client attaches a sender to that address.
pub fn sender(alloc: Global, session: u64, address: &str) -> Result<Call, AllocError>
    ensures { IfOk result (λ c. c ≡ sender_call session address.now) }
{
    let name = Text::from_str(alloc, "amqp_run-sender")?;
    let target = Text::from_str(alloc, address)?;
    let settings = SenderSettings {
        name,
        source: None,
        target: Some(target),
        dynamic: false,
        snd_settle_mode: SenderSettleMode::Mixed,
        rcv_settle_mode: ReceiverSettleMode::First,
        max_message_size: None,
        initial_delivery_count: 0,
        verify: false,
    };
    Ok(Call::Link(LinkCall::Sender { session, settings }))
}

/// The client attaches a receiver to that address, which is given credit by calls alone.
pub fn receiver(alloc: Global, session: u64, address: &str) -> Result<Call, AllocError>
    ensures { IfOk result (λ c. c ≡ receiver_call session address.now) }
{
    let name = Text::from_str(alloc, "amqp_run-receiver")?;
    let source = Text::from_str(alloc, address)?;
    let settings = ReceiverSettings {
        name,
        source: Some(source),
        target: None,
        dynamic: false,
        snd_settle_mode: SenderSettleMode::Mixed,
        rcv_settle_mode: ReceiverSettleMode::First,
        max_message_size: None,
        credit_mode: CreditMode::Manual,
        auto_accept: false,
        verify: false,
    };
    Ok(Call::Link(LinkCall::Receiver { session, settings }))
}

/// The listener accepts a link, to which it gives credit again and again.
pub fn accept_link(session: u64) -> Call
    ensures { result ≡ accept_link_call session }
{
    Call::Link(LinkCall::Accept {
        session,
        settings: AcceptSettings {
            max_message_size: None,
            initial_delivery_count: 0,
            dynamic_address: None,
        },
        credit_mode: CreditMode::Auto(CREDIT),
        auto_accept: false,
    })
}

/// The bytes of a message with one string.
#[tactic(auto, unfolding(crate::specs::Calls::string_message))]
fn string_message(alloc: Global, text: &str) -> Result<Binary, BaseError>
    ensures { IfOk result (λ bytes. bytes ≡ string_message text.now) }
{
    let text = Text::from_str(alloc, text)?;
    let message = Message::new(Body::Value(Value::String(text)));
    encode_message(alloc, &message)
}

/// A message of these bytes, which has a body.
fn sendable(bytes: Binary) -> Result<Sendable, AllocError>
    ensures { IfOk result (λ m. m ≡ record { payload = bytes; has_body = true; settled = None; batchable = false }) }
{
    let payload = bytes.into_bytes()?;
    Ok(Sendable {
        payload,
        has_body: true,
        settled: None,
        batchable: false,
    })
}

/// A message with one string, in its bytes. None where the string has more bytes than a message can name. The one error is want of
/// memory.
pub fn message_of(alloc: Global, text: &str) -> Result<Option<Sendable>, AllocError>
    ensures { IfOk result (λ m. IfSome m (IsStringMessage text.now)) }
{
    match string_message(alloc, text) {
        Ok(bytes) => {
            let message = sendable(bytes)?;
            Ok(Some(message))
        }
        Err(BaseError::Memory(error)) => Err(error),
        Err(BaseError::Decode | BaseError::Size) => Ok(None),
    }
}

/// A message is sent.
pub fn send(link: u64, message: &Sendable) -> Result<Call, AllocError>
    ensures { IfOk result (λ c. c ≡ send_call link message.now) }
{
    let message = message.try_clone()?;
    Ok(Call::Link(LinkCall::Send { link, message }))
}

/// The outcome of the message that this call sent is asked for.
pub fn outcome(send: u64) -> Call
    ensures { result ≡ outcome_call send }
{
    Call::Link(LinkCall::Outcome { send })
}

/// The next message is asked for.
pub fn recv(link: u64) -> Call
    ensures { result ≡ recv_call link }
{
    Call::Link(LinkCall::Recv { link })
}

/// The sender is given so much credit.
pub fn set_credit(link: u64, credit: u32) -> Call
    ensures { result ≡ set_credit_call link credit }
{
    Call::Link(LinkCall::SetCredit { link, credit })
}

/// The delivery that this call gave is accepted.
pub fn accept_delivery(alloc: Global, link: u64, delivery: u64) -> Result<Call, AllocError>
    ensures { IfOk result (λ c. c ≡ accept_delivery_call link delivery) }
{
    let mut deliveries = NameList::new(alloc);
    deliveries.push(delivery)?;
    Ok(Call::Link(LinkCall::Dispose {
        link,
        disposal: Disposal::Accepted,
        deliveries,
    }))
}

/// The link is closed.
pub fn close_link(link: u64) -> Call
    ensures { result ≡ close_link_call link }
{
    Call::Link(LinkCall::Part {
        link,
        parting: Parting::Close { error: None },
    })
}
