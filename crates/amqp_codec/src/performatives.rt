//! Performatives that say what they must, and nothing more (OASIS AMQP 1.0, part 2, section 2.7): each other field is absent, or at
//! the standard's default where the type has one. Further fields are assigned, or given in front of `..open(..)`.
ghost use Rattle.std.specs.Prelude.{◌≡◌};
ghost use Rattle.amqp_codec.specs.Defaults.{default_open, default_begin, default_attach, default_flow, default_transfer, default_disposition, default_detach, default_end, default_close};

use amqp_composites::{ReceiverSettleMode, Role, SenderSettleMode};
use amqp_performatives::{Attach, Begin, Close, Detach, Disposition, End, Flow, Open, Transfer};
use amqp_text::Text;

/// An Open with that container-id: frames of any size, channels of any number, no idle time (section 2.7.1).
pub fn open(container_id: Text) -> Open
    ensures { result ≡ default_open container_id }
{
    Open {
        container_id,
        hostname: None,
        max_frame_size: u32::MAX,
        channel_max: u16::MAX,
        idle_time_out: None,
        outgoing_locales: None,
        incoming_locales: None,
        offered_capabilities: None,
        desired_capabilities: None,
        properties: None,
    }
}

/// A Begin that answers no other, with handles of any number (section 2.7.2).
pub fn begin(next_outgoing_id: u32, incoming_window: u32, outgoing_window: u32) -> Begin
    ensures { result ≡ default_begin next_outgoing_id incoming_window outgoing_window }
{
    Begin {
        remote_channel: None,
        next_outgoing_id,
        incoming_window,
        outgoing_window,
        handle_max: u32::MAX,
        offered_capabilities: None,
        desired_capabilities: None,
        properties: None,
    }
}

/// An Attach of a link with that name, without termini (section 2.7.3).
pub fn attach(name: Text, handle: u32, role: Role) -> Attach
    ensures { result ≡ default_attach name handle role }
{
    Attach {
        name,
        handle,
        role,
        snd_settle_mode: SenderSettleMode::Mixed,
        rcv_settle_mode: ReceiverSettleMode::First,
        source: None,
        target: None,
        unsettled: None,
        incomplete_unsettled: false,
        initial_delivery_count: None,
        max_message_size: None,
        offered_capabilities: None,
        desired_capabilities: None,
        properties: None,
    }
}

/// A Flow that speaks of the session alone (section 2.7.4).
pub fn flow(incoming_window: u32, next_outgoing_id: u32, outgoing_window: u32) -> Flow
    ensures { result ≡ default_flow incoming_window next_outgoing_id outgoing_window }
{
    Flow {
        next_incoming_id: None,
        incoming_window,
        next_outgoing_id,
        outgoing_window,
        handle: None,
        delivery_count: None,
        link_credit: None,
        available: None,
        drain: false,
        echo: false,
        properties: None,
    }
}

/// A Transfer on that link that goes on with a delivery: the first of a delivery must have a number and a tag (section 2.7.5).
pub fn transfer(handle: u32) -> Transfer
    ensures { result ≡ default_transfer handle }
{
    Transfer {
        handle,
        delivery_id: None,
        delivery_tag: None,
        message_format: None,
        settled: None,
        more: false,
        rcv_settle_mode: None,
        state: None,
        resume: false,
        aborted: false,
        batchable: false,
    }
}

/// A Disposition of that delivery alone, without a state and not settled (section 2.7.6).
pub fn disposition(role: Role, first: u32) -> Disposition
    ensures { result ≡ default_disposition role first }
{
    Disposition {
        role,
        first,
        last: None,
        settled: false,
        state: None,
        batchable: false,
    }
}

/// A Detach that closes no link, without an error (section 2.7.7).
pub fn detach(handle: u32) -> Detach
    ensures { result ≡ default_detach handle }
{
    Detach {
        handle,
        closed: false,
        error: None,
    }
}

/// An End without an error (section 2.7.8).
pub fn end() -> End
    ensures { result ≡ default_end }
{
    End { error: None }
}

/// A Close without an error (section 2.7.9).
pub fn close() -> Close
    ensures { result ≡ default_close }
{
    Close { error: None }
}
