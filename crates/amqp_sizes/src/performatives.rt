//! The performatives (OASIS AMQP 1.0, part 2, section 2.7).
ghost use Rattle.std.specs.Prelude.{◌≡◌};
ghost use Rattle.amqp_composites.specs.declared.kind.CompositeKind.TheVariants as kind;
ghost use Rattle.amqp_composites.specs.Described.{composite};
ghost use Rattle.amqp_performatives.specs.Attach.{attach_fields, nonzero};
ghost use Rattle.amqp_performatives.specs.Begin.{begin_fields};
ghost use Rattle.amqp_performatives.specs.Close.{close_fields};
ghost use Rattle.amqp_performatives.specs.Detach.{detach_fields};
ghost use Rattle.amqp_performatives.specs.Disposition.{disposition_fields};
ghost use Rattle.amqp_performatives.specs.End.{end_fields};
ghost use Rattle.amqp_performatives.specs.Flow.{flow_fields};
ghost use Rattle.amqp_performatives.specs.Open.{open_fields};
ghost use Rattle.amqp_performatives.specs.Transfer.{transfer_fields};
ghost use Rattle.amqp_sizes.specs.Taken.{Takes};

use crate::composite::composite_size;
use crate::slot::{optional, required, unless};
use amqp_composites::{ReceiverSettleMode, SenderSettleMode};
use amqp_fields::Defaulted;
use amqp_performatives::{Attach, Begin, Close, Detach, Disposition, End, Flow, Open, Transfer};

/// How deep a performative may be nested: its fields 32 levels deep, their list and its descriptor.
const LEVELS: u8 = 34;

/// How deep its fields may be.
const FIELD_LEVELS: u8 = 32;

pub(crate) fn open_size(body: &Open) -> Option<u64>
    ensures { Takes result 34 (composite kind.Open (open_fields body.now)) }
{
    let fields = [
        required(&body.container_id, FIELD_LEVELS),
        optional(&body.hostname, FIELD_LEVELS),
        unless(
            body.max_frame_size.is(&u32::MAX),
            &body.max_frame_size,
            FIELD_LEVELS,
        ),
        unless(
            body.channel_max.is(&u16::MAX),
            &body.channel_max,
            FIELD_LEVELS,
        ),
        optional(&body.idle_time_out, FIELD_LEVELS),
        optional(&body.outgoing_locales, FIELD_LEVELS),
        optional(&body.incoming_locales, FIELD_LEVELS),
        optional(&body.offered_capabilities, FIELD_LEVELS),
        optional(&body.desired_capabilities, FIELD_LEVELS),
        optional(&body.properties, FIELD_LEVELS),
    ];
    composite_size(&fields, LEVELS)
}

pub(crate) fn begin_size(body: &Begin) -> Option<u64>
    ensures { Takes result 34 (composite kind.Begin (begin_fields body.now)) }
{
    let fields = [
        optional(&body.remote_channel, FIELD_LEVELS),
        required(&body.next_outgoing_id, FIELD_LEVELS),
        required(&body.incoming_window, FIELD_LEVELS),
        required(&body.outgoing_window, FIELD_LEVELS),
        unless(
            body.handle_max.is(&u32::MAX),
            &body.handle_max,
            FIELD_LEVELS,
        ),
        optional(&body.offered_capabilities, FIELD_LEVELS),
        optional(&body.desired_capabilities, FIELD_LEVELS),
        optional(&body.properties, FIELD_LEVELS),
    ];
    composite_size(&fields, LEVELS)
}

/// A largest message size: 0 says that there is none (section 2.7.3).
fn nonzero(size: Option<u64>) -> Option<u64>
    ensures { result ≡ nonzero size }
{
    match size {
        Some(0) => None,
        other => other,
    }
}

pub(crate) fn attach_size(body: &Attach) -> Option<u64>
    ensures { Takes result 34 (composite kind.Attach (attach_fields body.now)) }
{
    let fields = [
        required(&body.name, FIELD_LEVELS),
        required(&body.handle, FIELD_LEVELS),
        required(&body.role, FIELD_LEVELS),
        unless(
            body.snd_settle_mode.is(&SenderSettleMode::Mixed),
            &body.snd_settle_mode,
            FIELD_LEVELS,
        ),
        unless(
            body.rcv_settle_mode.is(&ReceiverSettleMode::First),
            &body.rcv_settle_mode,
            FIELD_LEVELS,
        ),
        optional(&body.source, FIELD_LEVELS),
        optional(&body.target, FIELD_LEVELS),
        optional(&body.unsettled, FIELD_LEVELS),
        unless(
            body.incomplete_unsettled.is(&false),
            &body.incomplete_unsettled,
            FIELD_LEVELS,
        ),
        optional(&body.initial_delivery_count, FIELD_LEVELS),
        optional(&nonzero(body.max_message_size), FIELD_LEVELS),
        optional(&body.offered_capabilities, FIELD_LEVELS),
        optional(&body.desired_capabilities, FIELD_LEVELS),
        optional(&body.properties, FIELD_LEVELS),
    ];
    composite_size(&fields, LEVELS)
}

pub(crate) fn flow_size(body: &Flow) -> Option<u64>
    ensures { Takes result 34 (composite kind.Flow (flow_fields body.now)) }
{
    let fields = [
        optional(&body.next_incoming_id, FIELD_LEVELS),
        required(&body.incoming_window, FIELD_LEVELS),
        required(&body.next_outgoing_id, FIELD_LEVELS),
        required(&body.outgoing_window, FIELD_LEVELS),
        optional(&body.handle, FIELD_LEVELS),
        optional(&body.delivery_count, FIELD_LEVELS),
        optional(&body.link_credit, FIELD_LEVELS),
        optional(&body.available, FIELD_LEVELS),
        unless(body.drain.is(&false), &body.drain, FIELD_LEVELS),
        unless(body.echo.is(&false), &body.echo, FIELD_LEVELS),
        optional(&body.properties, FIELD_LEVELS),
    ];
    composite_size(&fields, LEVELS)
}

pub(crate) fn transfer_size(body: &Transfer) -> Option<u64>
    ensures { Takes result 34 (composite kind.Transfer (transfer_fields body.now)) }
{
    let fields = [
        required(&body.handle, FIELD_LEVELS),
        optional(&body.delivery_id, FIELD_LEVELS),
        optional(&body.delivery_tag, FIELD_LEVELS),
        optional(&body.message_format, FIELD_LEVELS),
        optional(&body.settled, FIELD_LEVELS),
        unless(body.more.is(&false), &body.more, FIELD_LEVELS),
        optional(&body.rcv_settle_mode, FIELD_LEVELS),
        optional(&body.state, FIELD_LEVELS),
        unless(body.resume.is(&false), &body.resume, FIELD_LEVELS),
        unless(body.aborted.is(&false), &body.aborted, FIELD_LEVELS),
        unless(body.batchable.is(&false), &body.batchable, FIELD_LEVELS),
    ];
    composite_size(&fields, LEVELS)
}

pub(crate) fn disposition_size(body: &Disposition) -> Option<u64>
    ensures { Takes result 34 (composite kind.Disposition (disposition_fields body.now)) }
{
    let fields = [
        required(&body.role, FIELD_LEVELS),
        required(&body.first, FIELD_LEVELS),
        optional(&body.last, FIELD_LEVELS),
        unless(body.settled.is(&false), &body.settled, FIELD_LEVELS),
        optional(&body.state, FIELD_LEVELS),
        unless(body.batchable.is(&false), &body.batchable, FIELD_LEVELS),
    ];
    composite_size(&fields, LEVELS)
}

pub(crate) fn detach_size(body: &Detach) -> Option<u64>
    ensures { Takes result 34 (composite kind.Detach (detach_fields body.now)) }
{
    let fields = [
        required(&body.handle, FIELD_LEVELS),
        unless(body.closed.is(&false), &body.closed, FIELD_LEVELS),
        optional(&body.error, FIELD_LEVELS),
    ];
    composite_size(&fields, LEVELS)
}

pub(crate) fn end_size(body: &End) -> Option<u64>
    ensures { Takes result 34 (composite kind.End (end_fields body.now)) }
{
    let fields = [optional(&body.error, FIELD_LEVELS)];
    composite_size(&fields, LEVELS)
}

pub(crate) fn close_size(body: &Close) -> Option<u64>
    ensures { Takes result 34 (composite kind.Close (close_fields body.now)) }
{
    let fields = [optional(&body.error, FIELD_LEVELS)];
    composite_size(&fields, LEVELS)
}
