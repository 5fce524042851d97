//! How entries, receipts and orders are written.
use amqp_delivery::{BookCall, BookReply, DeliveryInfo, Order};
use book_history::{HistoryEntry, Receipt};
use std::alloc::{AllocError, Global};

/// Adds a word and the number of a delivery.
fn push_call(
    alloc: Global,
    text: &mut String,
    word: &str,
    info: &DeliveryInfo,
) -> Result<(), AllocError> {
    let number = info.delivery_id;
    let part = format!(in alloc; "{word} {number}")?;
    text.push_str(part.as_str())
}

/// Adds a reply.
fn push_reply(alloc: Global, text: &mut String, reply: &BookReply) -> Result<(), AllocError> {
    match reply {
        BookReply::Done { found, refilled } => {
            let found = *found;
            let end = if *refilled { " refilled" } else { "" };
            let part = format!(in alloc; ": done {found}{end}")?;
            text.push_str(part.as_str())
        }
        BookReply::Taken(orders) => {
            let count = orders.len();
            let part = format!(in alloc; ": taken {count}")?;
            text.push_str(part.as_str())
        }
        BookReply::Stale => text.push_str(": stale"),
    }
}

/// Adds an entry: its seat, its call and its reply.
pub fn push_entry(
    alloc: Global,
    text: &mut String,
    entry: &HistoryEntry,
) -> Result<(), AllocError> {
    let seat = entry.seat;
    let part = format!(in alloc; "seat {seat} ")?;
    text.push_str(part.as_str())?;
    match &entry.call {
        BookCall::Register(info) => push_call(alloc, text, "register", info)?,
        BookCall::Accept(_, info) => push_call(alloc, text, "accept", info)?,
        BookCall::Release(_, info) => push_call(alloc, text, "release", info)?,
        BookCall::TakeOrders => text.push_str("orders")?,
    }
    push_reply(alloc, text, &entry.reply)
}

/// Adds a receipt: its place and its entry.
pub fn push_receipt(alloc: Global, text: &mut String, receipt: &Receipt) -> Result<(), AllocError> {
    let place = receipt.place;
    let part = format!(in alloc; "place {place}, ")?;
    text.push_str(part.as_str())?;
    push_entry(alloc, text, &receipt.entry)
}

/// Adds an order, in a line of its own.
fn push_order(alloc: Global, text: &mut String, order: &Order) -> Result<(), AllocError> {
    let line = match order {
        Order::Disposition {
            first,
            last,
            settled,
            state: _,
        } => {
            let (first, last) = (*first, *last);
            let end = if *settled { " settled" } else { "" };
            format!(in alloc; "disposition {first} {last}{end}\n")?
        }
        Order::Flow {
            delivery_count,
            credit,
        } => {
            let (count, credit) = (*delivery_count, *credit);
            format!(in alloc; "flow {count} {credit}\n")?
        }
    };
    text.push_str(line.as_str())
}

/// Adds orders, a line each.
pub fn push_orders(alloc: Global, text: &mut String, orders: &[Order]) -> Result<(), AllocError> {
    for order in orders {
        push_order(alloc, text, order)?;
    }
    Ok(())
}
