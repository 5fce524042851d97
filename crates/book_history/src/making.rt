//! A call of a book that is written down.
ghost use Rattle.std.specs.Prelude.{◌≡◌, OnOk, OnErr, IfOk};
ghost use Rattle.amqp_delivery.specs.Step.{step, reply_of};
ghost use Rattle.book_history.specs.History.{IsBare, event_of};
ghost use Rattle.book_history.specs.Receipts.{HandsOut};

use crate::entry::HistoryEntry;
use amqp_delivery::{BookCall, BookReply, BookState, OrderList};
use amqp_termini::{Accepted, DeliveryState, Released};
use std::alloc::{AllocError, Global};

/// What a call made: its entry for the history, for the seat and for the caller, and the orders that a taking of
/// orders hands out.
#[derive(Drop)]
pub struct Made {
    /// For the history.
    pub entered: HistoryEntry,
    /// For the seat, which keeps it.
    pub kept: HistoryEntry,
    /// For the caller.
    pub answered: HistoryEntry,
    /// The orders of `TakeOrders`; none with other calls.
    pub orders: OrderList,
}

/// A reply in as many copies as a call needs.
#[derive(Drop)]
struct Replies {
    entered: BookReply,
    kept: BookReply,
    answered: BookReply,
    orders: OrderList,
}

/// Makes the call on the book; the one error is want of memory, which leaves the book as it was.
fn apply(alloc: Global, book: &mut BookState, call: &BookCall) -> Result<Replies, AllocError>
    ensures book { OnOk result (book.new.book ≡ (step book.old.book call.now).book) }
    ensures entered { IfOk result (λ a. reply_of a.entered ≡ (step book.old.book call.now).reply) }
    ensures kept { IfOk result (λ a. reply_of a.kept ≡ (step book.old.book call.now).reply) }
    ensures answered { IfOk result (λ a. reply_of a.answered ≡ (step book.old.book call.now).reply) }
    ensures orders { IfOk result (λ a. HandsOut call.now (step book.old.book call.now).reply a.orders.list) }
    ensures memory { OnErr result (book.new.book ≡ book.old.book) }
{
    match call {
        BookCall::Register(info) => {
            let info = info.try_clone(alloc)?;
            let reply = book.register(info)?;
            Ok(in_copies(alloc, reply))
        }
        BookCall::Accept(view, info) => {
            book.reserve(1)?;
            let reply = book.dispose(view, info, DeliveryState::Accepted(Accepted {}));
            Ok(in_copies(alloc, reply))
        }
        BookCall::Release(view, info) => {
            book.reserve(1)?;
            let reply = book.dispose(view, info, DeliveryState::Released(Released {}));
            Ok(in_copies(alloc, reply))
        }
        BookCall::TakeOrders => take(alloc, book),
    }
}

/// Takes the orders, with three copies of them.
fn take(alloc: Global, book: &mut BookState) -> Result<Replies, AllocError>
    ensures book { OnOk result (book.new.book ≡ (step book.old.book BookCall.TakeOrders).book) }
    ensures entered { IfOk result (λ a. reply_of a.entered ≡ (step book.old.book BookCall.TakeOrders).reply) }
    ensures kept { IfOk result (λ a. reply_of a.kept ≡ (step book.old.book BookCall.TakeOrders).reply) }
    ensures answered { IfOk result (λ a. reply_of a.answered ≡ (step book.old.book BookCall.TakeOrders).reply) }
    ensures orders { IfOk result (λ a. HandsOut BookCall.TakeOrders (step book.old.book BookCall.TakeOrders).reply a.orders.list) }
    ensures memory { OnErr result (book.new.book ≡ book.old.book) }
{
    let entered = BookReply::Taken(book.orders().try_clone(alloc)?);
    let kept = BookReply::Taken(book.orders().try_clone(alloc)?);
    let answered = BookReply::Taken(book.orders().try_clone(alloc)?);
    let orders = book.take_orders();
    Ok(Replies {
        entered,
        kept,
        answered,
        orders,
    })
}

/// A reply without orders, which is copied without memory.
fn in_copies(alloc: Global, reply: BookReply) -> Replies
    requires { IsBare reply }
    ensures entered { reply_of result.entered ≡ reply_of reply }
    ensures kept { reply_of result.kept ≡ reply_of reply }
    ensures answered { reply_of result.answered ≡ reply_of reply }
{
    Replies {
        kept: bare(&reply),
        answered: bare(&reply),
        entered: reply,
        orders: OrderList::new(alloc),
    }
}

fn bare(reply: &BookReply) -> BookReply
    requires { IsBare reply.now }
    ensures { result ≡ reply.now }
{
    match reply {
        BookReply::Done { found, refilled } => BookReply::Done {
            found: *found,
            refilled: *refilled,
        },
        BookReply::Stale => BookReply::Stale,
        BookReply::Taken(_) => unreachable!(),
    }
}

/// Makes a call of a seat on the book, and says what it made. The one error is want of memory, which leaves the book
/// as it was: all copies are made before the change.
pub fn make_call(
    alloc: Global,
    book: &mut BookState,
    seat: u32,
    call: &BookCall,
) -> Result<Made, AllocError>
    ensures book { OnOk result (book.new.book ≡ (step book.old.book call.now).book) }
    ensures entered { IfOk result (λ m. m.entered ≡ event_of seat book.old.book call.now) }
    ensures kept { IfOk result (λ m. m.kept ≡ event_of seat book.old.book call.now) }
    ensures answered { IfOk result (λ m. m.answered ≡ event_of seat book.old.book call.now) }
    ensures orders { IfOk result (λ m. HandsOut call.now (step book.old.book call.now).reply m.orders.list) }
    ensures memory { OnErr result (book.new.book ≡ book.old.book) }
{
    let entered = call.try_clone(alloc)?;
    let kept = call.try_clone(alloc)?;
    let answered = call.try_clone(alloc)?;
    let replies = apply(alloc, book, call)?;
    Ok(Made {
        entered: HistoryEntry {
            seat,
            call: entered,
            reply: replies.entered,
        },
        kept: HistoryEntry {
            seat,
            call: kept,
            reply: replies.kept,
        },
        answered: HistoryEntry {
            seat,
            call: answered,
            reply: replies.answered,
        },
        orders: replies.orders,
    })
}
