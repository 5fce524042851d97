//! What a history counts.
ghost use Rattle.std.specs.Prelude.{◌≡◌, ◌+◌, ◌≤◌, min};
ghost use Rattle.book_history.specs.Counts.{accepts, accept_count, settles, settled_count, handed_in, handed_count, settled_in};

use crate::entry::HistoryEntry;
use crate::history::History;
use amqp_delivery::{BookCall, BookReply, BookState, Order};

/// How many entries of a history accept a delivery.
pub fn count_accepts(entries: &[HistoryEntry]) -> usize
    ensures { result ≡ accept_count entries.now }
{
    let mut count = 0;
    for entry in entries {
        count += accepted(entry);
    }
    count
}

/// 1 for a call that accepts a delivery, else 0.
fn accepted(entry: &HistoryEntry) -> usize
    ensures { result ≡ accepts entry.now.call }
{
    match entry.call {
        BookCall::Accept(..) => 1,
        BookCall::Register(..) | BookCall::Release(..) | BookCall::TakeOrders => 0,
    }
}

/// How many of the orders are settled Dispositions.
pub fn count_settled(orders: &[Order]) -> usize
    ensures { result ≡ settled_count orders.now }
{
    let mut count = 0;
    for order in orders {
        count += settled(order);
    }
    count
}

/// 1 for a settled Disposition, else 0.
fn settled(order: &Order) -> usize
    ensures { result ≡ settles order.now }
{
    match order {
        Order::Disposition { settled, .. } => usize::from(*settled),
        Order::Flow { .. } => 0,
    }
}

/// How many settled Dispositions a history ordered: those that its takings of orders handed out, and those that the book
/// has left. It counts up to the greatest number of its type.
pub fn count_settled_in(history: &History, left: &BookState) -> u64
    ensures { result ≡ min (settled_in history.now.events left.now.book) 18446744073709551615 }
{
    let mut count = 0u64;
    for entry in history.entries() {
        count = count.saturating_add(handed(entry));
    }
    count.saturating_add(count_settled(left.orders().as_slice()) as u64)
}

/// How many settled Dispositions an entry handed out.
fn handed(entry: &HistoryEntry) -> u64
    ensures { result ≡ handed_in entry.now.reply }
{
    match &entry.reply {
        BookReply::Taken(orders) => count_settled(orders.as_slice()) as u64,
        BookReply::Done { .. } | BookReply::Stale => 0,
    }
}
