//! Whether two entries are the same. By hand, since contracts see an entry without the room of its orders.
ghost use Rattle.std.specs.Prelude.{◌≡◌};
ghost use Rattle.std.specs.Bool.{Decides};
ghost use Rattle.amqp_delivery.specs.Step.{reply_of};

use crate::entry::HistoryEntry;
use amqp_composites::modes::ReceiverSettleMode;
use amqp_delivery::{
    BookCall, BookReply, CreditMode, DeliveryInfo, DisposerView, Order, same_state,
};

fn is_same_bytes(left: &[u8], right: &[u8]) -> bool
    ensures { Decides result (left.now ≡ right.now) }
{
    left == right
}

fn is_same_order(left: &Order, right: &Order) -> bool
    ensures { Decides result (left.now ≡ right.now) }
{
    match left {
        Order::Disposition {
            first,
            last,
            settled,
            state,
        } => {
            if let Order::Disposition {
                first: f,
                last: l,
                settled: s,
                state: t,
            } = right
            {
                *first == *f && *last == *l && *settled == *s && same_state(state, t)
            } else {
                false
            }
        }
        Order::Flow {
            delivery_count,
            credit,
        } => {
            if let Order::Flow {
                delivery_count: d,
                credit: c,
            } = right
            {
                *delivery_count == *d && *credit == *c
            } else {
                false
            }
        }
    }
}

fn is_same_orders(left: &[Order], right: &[Order]) -> bool
    ensures { Decides result (left.now ≡ right.now) }
{
    if left.len() != right.len() {
        return false;
    }
    for i in 0..left.len() {
        if !is_same_order(&left[i], &right[i]) {
            return false;
        }
    }
    true
}

fn is_same_mode(left: ReceiverSettleMode, right: ReceiverSettleMode) -> bool
    ensures { Decides result (left ≡ right) }
{
    match left {
        ReceiverSettleMode::First => matches!(right, ReceiverSettleMode::First),
        ReceiverSettleMode::Second => matches!(right, ReceiverSettleMode::Second),
    }
}

fn is_same_credit_mode(left: CreditMode, right: CreditMode) -> bool
    ensures { Decides result (left ≡ right) }
{
    match left {
        CreditMode::Manual => matches!(right, CreditMode::Manual),
        CreditMode::Auto(credit) => {
            if let CreditMode::Auto(other) = right {
                credit == other
            } else {
                false
            }
        }
    }
}

fn is_same_option_mode(left: Option<ReceiverSettleMode>, right: Option<ReceiverSettleMode>) -> bool
    ensures { Decides result (left ≡ right) }
{
    match left {
        None => right.is_none(),
        Some(mode) => {
            if let Some(other) = right {
                is_same_mode(mode, other)
            } else {
                false
            }
        }
    }
}

fn is_same_view(left: &DisposerView, right: &DisposerView) -> bool
    ensures { Decides result (left.now ≡ right.now) }
{
    left.attachment == right.attachment
        && is_same_mode(left.mode, right.mode)
        && is_same_credit_mode(left.credit_mode, right.credit_mode)
        && left.handle == right.handle
}

fn is_same_info(left: &DeliveryInfo, right: &DeliveryInfo) -> bool
    ensures { Decides result (left.now ≡ right.now) }
{
    left.delivery_id == right.delivery_id
        && is_same_bytes(left.delivery_tag.as_slice(), right.delivery_tag.as_slice())
        && is_same_option_mode(left.rcv_settle_mode, right.rcv_settle_mode)
}

fn is_same_call(left: &BookCall, right: &BookCall) -> bool
    ensures { Decides result (left.now ≡ right.now) }
{
    match left {
        BookCall::Register(info) => {
            if let BookCall::Register(other) = right {
                is_same_info(info, other)
            } else {
                false
            }
        }
        BookCall::Accept(view, info) => {
            if let BookCall::Accept(v, other) = right {
                is_same_view(view, v) && is_same_info(info, other)
            } else {
                false
            }
        }
        BookCall::Release(view, info) => {
            if let BookCall::Release(v, other) = right {
                is_same_view(view, v) && is_same_info(info, other)
            } else {
                false
            }
        }
        BookCall::TakeOrders => matches!(right, BookCall::TakeOrders),
    }
}

fn is_same_reply(left: &BookReply, right: &BookReply) -> bool
    ensures { Decides result (reply_of left.now ≡ reply_of right.now) }
{
    match left {
        BookReply::Done { found, refilled } => {
            if let BookReply::Done {
                found: f,
                refilled: r,
            } = right
            {
                *found == *f && *refilled == *r
            } else {
                false
            }
        }
        BookReply::Taken(orders) => {
            if let BookReply::Taken(others) = right {
                is_same_orders(orders.as_slice(), others.as_slice())
            } else {
                false
            }
        }
        BookReply::Stale => matches!(right, BookReply::Stale),
    }
}

/// Whether the entries are the same: the seat, the call, and the reply with its orders.
pub fn is_same_entry(left: &HistoryEntry, right: &HistoryEntry) -> bool
    ensures { Decides result (left.now ≡ right.now) }
{
    left.seat == right.seat
        && is_same_call(&left.call, &right.call)
        && is_same_reply(&left.reply, &right.reply)
}
