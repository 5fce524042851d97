//! The calls of a case, and what is written of their answers.
//!
//! Of each call the receipt is written, `place PLACE, ENTRY`, where an entry is `seat SEAT CALL: REPLY`; of a taking of orders also
//! `disposition FIRST LAST` for each order, with `settled` where it is; of a receipt that is changed by hand the receipt as it was. When
//! the calls are made, the desk is closed: `closed` and each entry of the history in a line, or `differs` with the receipt, and
//! `there: ENTRY` or `there: none`.
ghost use Rattle.std.specs.Prelude.{◌≡◌, ◌<◌, ◌≤◌, ◌^◌, length, vec_len};

use crate::change::{Change, info_of};
use crate::error::CaseError;
use crate::line::{Deed, Line, read_desk, read_lines};
use crate::show::{push_entry, push_orders, push_receipt};
use amqp_delivery::BookState;
use amqp_threads::error::DeskError;
use amqp_threads::{Desk, DeskName, DeskSeat, SeatList};
use book_history::{History, Receipt};
use std::alloc::{AllocError, Global};
use std::marker::Brand;
use std::sync::Wait;
use std::sync::ledger::Blank;

/// The error of a call, none of which but closing differs.
fn case_error(error: DeskError) -> CaseError {
    match error {
        DeskError::Memory(error) => CaseError::Memory(error),
        DeskError::Differs {
            receipt: _,
            entry: _,
        } => CaseError::Malformed,
    }
}

/// Adds what a call answered.
fn tell(
    alloc: Global,
    text: &mut String,
    answer: Result<Receipt, DeskError>,
) -> Result<(), CaseError> {
    match answer {
        Ok(receipt) => {
            push_receipt(alloc, text, &receipt)?;
            text.push('\n')?;
            Ok(())
        }
        Err(error) => Err(case_error(error)),
    }
}

/// The orders are taken.
fn take<L: DeskName, R: Wait>(
    rt: &R,
    alloc: Global,
    desk: &Desk<L>,
    seat: &mut DeskSeat<L>,
    text: &mut String,
) -> Result<(), CaseError> {
    match seat.take_orders(rt, desk) {
        Ok((receipt, orders)) => {
            tell(alloc, text, Ok(receipt))?;
            push_orders(alloc, text, orders.as_slice())?;
            Ok(())
        }
        Err(error) => Err(case_error(error)),
    }
}

/// A receipt of the seat is changed by hand.
fn change_receipt<L: DeskName>(
    alloc: Global,
    seat: &mut DeskSeat<L>,
    index: usize,
    change: Change,
    text: &mut String,
) -> Result<(), CaseError> {
    if index >= seat.receipts().len() {
        return Err(CaseError::Malformed);
    }
    let mut copy = seat.receipts()[index].try_clone(alloc)?;
    change.make(alloc, &mut copy)?;
    let old = seat.replace_receipt(index, copy);
    tell(alloc, text, Ok(old))
}

/// The first two receipts of the seat change places.
fn swap<L: DeskName>(alloc: Global, seat: &mut DeskSeat<L>) -> Result<(), CaseError> {
    if seat.receipts().len() < 2 {
        return Err(CaseError::Malformed);
    }
    let copy = seat.receipts()[0].try_clone(alloc)?;
    let second = seat.replace_receipt(1, copy);
    drop(seat.replace_receipt(0, second));
    Ok(())
}

/// What a line asks of a seat.
fn seat_line<L: DeskName, R: Wait>(
    rt: &R,
    alloc: Global,
    desk: &Desk<L>,
    seat: &mut DeskSeat<L>,
    deed: Deed,
    text: &mut String,
) -> Result<(), CaseError> {
    let answer = match deed {
        Deed::Register(number) => seat.register(rt, desk, info_of(alloc, number)?),
        Deed::Accept(number) => seat.accept(rt, desk, &info_of(alloc, number)?),
        Deed::Release(number) => seat.release(rt, desk, &info_of(alloc, number)?),
        Deed::TakeOrders => return take(rt, alloc, desk, seat, text),
        Deed::Change { index, change } => return change_receipt(alloc, seat, index, change, text),
        Deed::Swap => return swap(alloc, seat),
    };
    tell(alloc, text, answer)
}

/// The lines of a case.
fn lines_of<L: DeskName, R: Wait>(
    rt: &R,
    alloc: Global,
    desk: &Desk<L>,
    seats: &mut Vec<DeskSeat<L>>,
    lines: &[Line],
    text: &mut String,
) -> Result<(), CaseError>
    ensures { vec_len seats.new ≡ vec_len seats.old }
{
    for line in lines {
        if line.seat >= seats.len() {
            return Err(CaseError::Malformed);
        }
        seat_line(rt, alloc, desk, &mut seats[line.seat], line.deed, text)?;
    }
    Ok(())
}

/// Adds what closing the desk came to.
fn tell_closed(
    alloc: Global,
    text: &mut String,
    closed: Result<(BookState, History), DeskError>,
) -> Result<(), CaseError> {
    match closed {
        Ok((book, history)) => {
            drop(book);
            text.push_str("closed\n")?;
            for entry in history.entries() {
                push_entry(alloc, text, entry)?;
                text.push('\n')?;
            }
            Ok(())
        }
        Err(DeskError::Memory(error)) => Err(CaseError::Memory(error)),
        Err(DeskError::Differs { receipt, entry }) => {
            text.push_str("differs ")?;
            push_receipt(alloc, text, &receipt)?;
            text.push_str("\nthere: ")?;
            match entry {
                Some(entry) => push_entry(alloc, text, &entry)?,
                None => text.push_str("none")?,
            }
            text.push('\n')?;
            Ok(())
        }
    }
}

/// A case at a desk with so many seats.
fn case_at<L: DeskName, R: Wait>(
    rt: &R,
    alloc: Global,
    blank: Blank,
    book: BookState,
    count: usize,
    lines: &[Line],
) -> Result<String, CaseError>
    requires name { blank.name ≡ L.name }
    requires parts { blank.parts ≡ L.parts }
    requires one_each { blank.parts ≡ count }
    requires some { 0 < count }
    requires few { count ≤ 2 ^ 32 }
    requires book { book.book ≡ L.book }
{
    let (desk, seats) = match Desk::<L>::new(alloc, blank, book, count) {
        Ok(made) => made,
        Err(error) => return Err(case_error(error)),
    };
    let mut seats = seats.into_vec();
    let mut text = String::new(alloc);
    lines_of(rt, alloc, &desk, &mut seats, lines, &mut text)?;
    let closed = desk.close(alloc, SeatList::new(seats));
    tell_closed(alloc, &mut text, closed)?;
    Ok(text)
}

/// A case at a desk of its own with so many seats.
fn case_of<R: Wait>(
    rt: &R,
    alloc: Global,
    book: BookState,
    count: usize,
    lines: &[Line],
) -> Result<String, CaseError>
    requires some { 0 < count }
    requires few { count ≤ 2 ^ 32 }
{
    let blank = Blank::new(count as u64);
    case_at::<Brand, R>(rt, alloc, blank, book, count, lines)
}

/// What is written of the calls of a case.
pub fn answers<R: Wait>(rt: &R, alloc: Global, given: &str) -> Result<String, CaseError> {
    let Some((first, rest)) = given.split_once('\n') else {
        return Err(CaseError::Malformed);
    };
    let (count, book) = read_desk(alloc, first)?;
    let lines = read_lines(alloc, rest)?;
    case_of(rt, alloc, book, count, lines.as_slice())
}
