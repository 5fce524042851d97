//! The calls, and what comes of them.
ghost use Rattle.std.specs.Prelude.{◌≡◌, ℕ, ◌<◌, ◌≤◌, ◌∷◌, [], length, slice_get, Some};
ghost use Rattle.amqp_delivery.specs.Book.{view_of};
ghost use Rattle.book_lock.specs.Seats.{new_seat};

use amqp_composites::modes::ReceiverSettleMode;
use amqp_data::Binary;
use amqp_delivery::{BookState, CreditMode, DeliveryInfo};
use book_history::Receipt;
use book_lock::{TicketDesk, TicketError, TicketName, TicketSeat};
use std::alloc::{AllocError, Global};
use std::marker::Brand;
use std::sync::Wait;

/// Adds what a call came to.
fn tell(
    alloc: Global,
    text: &mut String,
    answer: Result<Receipt, TicketError>,
) -> Result<(), AllocError> {
    let line = match answer {
        Ok(receipt) => {
            let place = receipt.place;
            format!(in alloc; "place {place}\n")?
        }
        Err(TicketError::Full { ticket }) => format!(in alloc; "full {ticket}\n")?,
        Err(TicketError::Memory(error)) => return Err(error),
    };
    text.push_str(line.as_str())?;
    Ok(())
}

/// The delivery of the calls.
fn delivery(alloc: Global) -> Result<DeliveryInfo, AllocError> {
    let tag = Binary::from_slice(alloc, b"\0\0\0\x07")?;
    Ok(DeliveryInfo::new(7, tag, None))
}

/// Three calls of a seat.
fn three_calls<L: TicketName, R: Wait>(
    rt: &R,
    alloc: Global,
    desk: &TicketDesk<L>,
    seat: &mut TicketSeat<L>,
    text: &mut String,
) -> Result<(), AllocError>
    requires { seat.old.table ≡ desk.now.table.shared.table_id }
    ensures table { seat.new.table ≡ seat.old.table }
    ensures number { seat.new.number ≡ seat.old.number }
{
    let info = delivery(alloc)?;
    let copy = info.try_clone(alloc)?;
    let answer = seat.register(rt, desk, copy);
    tell(alloc, text, answer)?;
    let answer = seat.accept(rt, desk, &info);
    tell(alloc, text, answer)?;
    let answer = seat.accept(rt, desk, &info);
    tell(alloc, text, answer)
}

/// The orders are taken; what is told are the place, and how many orders were handed out.
fn take<L: TicketName, R: Wait>(
    rt: &R,
    alloc: Global,
    desk: &TicketDesk<L>,
    seat: &mut TicketSeat<L>,
    text: &mut String,
) -> Result<(), AllocError>
    requires { seat.old.table ≡ desk.now.table.shared.table_id }
    ensures table { seat.new.table ≡ seat.old.table }
    ensures number { seat.new.number ≡ seat.old.number }
{
    match seat.take_orders(rt, desk) {
        Ok((receipt, orders)) => {
            tell(alloc, text, Ok(receipt))?;
            let count = orders.len();
            let line = format!(in alloc; "orders {count}\n")?;
            text.push_str(line.as_str())
        }
        Err(error) => tell(alloc, text, Err(error)),
    }
}

/// Each call of a seat, and its orders.
fn each_call<L: TicketName, R: Wait>(
    rt: &R,
    alloc: Global,
    desk: &TicketDesk<L>,
    seat: &mut TicketSeat<L>,
    text: &mut String,
) -> Result<(), AllocError>
    requires { seat.old.table ≡ desk.now.table.shared.table_id }
    ensures table { seat.new.table ≡ seat.old.table }
    ensures number { seat.new.number ≡ seat.old.number }
{
    let info = delivery(alloc)?;
    let copy = info.try_clone(alloc)?;
    let answer = seat.register(rt, desk, copy);
    tell(alloc, text, answer)?;
    let answer = seat.release(rt, desk, &info);
    tell(alloc, text, answer)?;
    take(rt, alloc, desk, seat, text)?;
    let answer = seat.accept(rt, desk, &info);
    tell(alloc, text, answer)?;
    take(rt, alloc, desk, seat, text)
}

/// What a seat does that is alone at its desk.
#[derive(Clone, Copy)]
enum Plan {
    /// It registers a delivery, accepts it, and asks for a third call.
    Three,
    /// It makes each call, and takes orders twice.
    Each,
}

impl Plan {
    /// How many calls the desk is for.
    fn calls(self) -> u64
        ensures { result ≤ 4294967296 }
    {
        match self {
            Plan::Three => 2,
            Plan::Each => 5,
        }
    }
}

/// The calls of a seat that is alone.
fn calls_alone<L: TicketName, R: Wait>(
    rt: &R,
    alloc: Global,
    desk: &TicketDesk<L>,
    seat: &mut TicketSeat<L>,
    text: &mut String,
    plan: Plan,
) -> Result<(), AllocError>
    requires { seat.old.table ≡ desk.now.table.shared.table_id }
    ensures table { seat.new.table ≡ seat.old.table }
    ensures number { seat.new.number ≡ seat.old.number }
{
    match plan {
        Plan::Three => three_calls(rt, alloc, desk, seat, text),
        Plan::Each => each_call(rt, alloc, desk, seat, text),
    }
}

/// A seat registers the delivery; another takes in its note, and accepts the delivery.
fn noted_calls<L: TicketName, R: Wait>(
    rt: &R,
    alloc: Global,
    desk: &TicketDesk<L>,
    first: &mut TicketSeat<L>,
    second: &mut TicketSeat<L>,
    text: &mut String,
) -> Result<(), AllocError>
    requires first { first.old.table ≡ desk.now.table.shared.table_id }
    requires second { second.old.table ≡ desk.now.table.shared.table_id }
    ensures first_table { first.new.table ≡ first.old.table }
    ensures first_number { first.new.number ≡ first.old.number }
    ensures second_table { second.new.table ≡ second.old.table }
    ensures second_number { second.new.number ≡ second.old.number }
{
    let info = delivery(alloc)?;
    let copy = info.try_clone(alloc)?;
    let answer = first.register(rt, desk, copy);
    tell(alloc, text, answer)?;
    let note = first.note(desk);
    second.meet(desk, note);
    let answer = second.accept(rt, desk, &info);
    tell(alloc, text, answer)
}

/// A desk with one seat, for the calls of its plan.
fn row<L: TicketName, R: Wait>(
    rt: &R,
    alloc: Global,
    book: BookState,
    plan: Plan,
) -> Result<String, AllocError>
    requires { book.book ≡ L.book }
{
    let (desk, mut seats) = match TicketDesk::<L>::new(alloc, book, 1, plan.calls()) {
        Ok(made) => made,
        Err(_) => return Err(AllocError),
    };
    let Some(mut seat) = seats.pop() else {
        return Err(AllocError);
    };
    let mut text = String::new(alloc);
    calls_alone(rt, alloc, &desk, &mut seat, &mut text, plan)?;
    let seats = vec![in alloc; seat]?;
    let (book, history) = desk.close(seats);
    drop(book);
    let entries = history.len();
    let line = format!(in alloc; "closed with {entries} entries\n")?;
    text.push_str(line.as_str())?;
    Ok(text)
}

/// A desk for two calls, with two seats, of which one writes the other a note.
fn noted_row<L: TicketName, R: Wait>(
    rt: &R,
    alloc: Global,
    book: BookState,
) -> Result<String, AllocError>
    requires { book.book ≡ L.book }
{
    let (desk, mut seats) = match TicketDesk::<L>::new(alloc, book, 2, 2) {
        Ok(made) => made,
        Err(_) => return Err(AllocError),
    };
    let Some(mut second) = seats.pop() else {
        return Err(AllocError);
    };
    let Some(mut first) = seats.pop() else {
        return Err(AllocError);
    };
    let mut text = String::new(alloc);
    noted_calls(rt, alloc, &desk, &mut first, &mut second, &mut text)?;
    let seats = vec![in alloc; first, second]?;
    let (book, history) = desk.close(seats);
    drop(book);
    let entries = history.len();
    let line = format!(in alloc; "closed with {entries} entries\n")?;
    text.push_str(line.as_str())?;
    Ok(text)
}

/// An empty book.
fn book(alloc: Global) -> BookState {
    BookState::new(alloc, ReceiverSettleMode::First, CreditMode::Manual, 0)
}

/// What the calls come to, a line each.
pub fn run<R: Wait>(rt: &R, alloc: Global) -> Result<String, AllocError> {
    let mut text = row::<Brand, R>(rt, alloc, book(alloc), Plan::Three)?;
    let noted = noted_row::<Brand, R>(rt, alloc, book(alloc))?;
    text.push_str(noted.as_str())?;
    let all = row::<Brand, R>(rt, alloc, book(alloc), Plan::Each)?;
    text.push_str(all.as_str())?;
    Ok(text)
}
