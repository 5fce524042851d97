//! The lines of a case.
//!
//! The first line, `SEATS MODE`, makes the desk: so many seats, and a book of the settle mode `first` or `second` that gives credit by
//! calls alone. In the lines behind it SEAT is the number of a seat, from 0, and a delivery has the tag of its number in four bytes.
//!
//! | line | what the seat does |
//! |---|---|
//! | `SEAT register NUMBER` | registers the delivery |
//! | `SEAT accept NUMBER`, `SEAT release NUMBER` | disposes of it |
//! | `SEAT orders` | takes the orders |
//! | `SEAT change INDEX place PLACE` | has the place of its receipt with that index, from 0, changed by hand |
//! | `SEAT change INDEX seat SEAT` | has its number of the seat changed |
//! | `SEAT change INDEX found FOUND` | has its reply changed, to that of a disposal |
//! | `SEAT change INDEX register NUMBER` | has its call changed, to a registration |
//! | `SEAT swap` | has its first two receipts change places |
ghost use Rattle.std.specs.Prelude.{◌<◌, IfOk};

use crate::change::Change;
use crate::error::CaseError;
use amqp_composites::modes::ReceiverSettleMode;
use amqp_delivery::{BookState, CreditMode};
use std::alloc::{AllocError, Global};

/// What a seat does, or what is done to its receipts.
#[derive(Clone, Copy)]
pub enum Deed {
    /// It registers the delivery with this number.
    Register(u32),
    /// It accepts the delivery with this number.
    Accept(u32),
    /// It releases the delivery with this number.
    Release(u32),
    /// It takes the orders.
    TakeOrders,
    /// One of its receipts is changed by hand.
    Change {
        /// The index of the receipt, from 0.
        index: usize,
        /// What is changed.
        change: Change,
    },
    /// Its first two receipts change places.
    Swap,
}

/// A line of a case: the number of a seat, and what it does.
#[derive(Clone, Copy)]
pub struct Line {
    /// The number of the seat, from 0.
    pub seat: usize,
    /// What it does.
    pub deed: Deed,
}

/// A number.
fn number(word: &str) -> Result<u32, CaseError> {
    match word.parse::<u32>() {
        Ok(number) => Ok(number),
        Err(_) => Err(CaseError::Malformed),
    }
}

/// How many seats a desk has.
fn read_count(word: &str) -> Result<usize, CaseError>
    ensures some { IfOk result (λ count. 0 < count) }
    ensures few { IfOk result (λ count. count < 4294967296) }
{
    match number(word)? {
        0 => Err(CaseError::Malformed),
        count => Ok(count as usize),
    }
}

/// The settle mode of a book.
fn read_mode(word: &str) -> Result<ReceiverSettleMode, CaseError> {
    match word {
        "first" => Ok(ReceiverSettleMode::First),
        "second" => Ok(ReceiverSettleMode::Second),
        _ => Err(CaseError::Malformed),
    }
}

/// The number of seats and the book of a first line.
pub fn read_desk(alloc: Global, line: &str) -> Result<(usize, BookState), CaseError>
    ensures some { IfOk result (λ desk. 0 < desk.0) }
    ensures few { IfOk result (λ desk. desk.0 < 4294967296) }
{
    let Some((count, mode)) = line.split_once(' ') else {
        return Err(CaseError::Malformed);
    };
    let count = read_count(count)?;
    let mode = read_mode(mode)?;
    Ok((count, BookState::new(alloc, mode, CreditMode::Manual, 0)))
}

/// How a receipt is changed: `INDEX WHAT TO`.
fn read_change(words: &str) -> Result<Deed, CaseError> {
    let Some((index, rest)) = words.split_once(' ') else {
        return Err(CaseError::Malformed);
    };
    let Some((what, to)) = rest.split_once(' ') else {
        return Err(CaseError::Malformed);
    };
    let index = number(index)? as usize;
    let to = number(to)?;
    let change = match what {
        "place" => Change::Place(u64::from(to)),
        "seat" => Change::Seat(to),
        "found" => Change::Found(to),
        "register" => Change::Register(to),
        _ => return Err(CaseError::Malformed),
    };
    Ok(Deed::Change { index, change })
}

/// What a seat does.
fn read_deed(words: &str) -> Result<Deed, CaseError> {
    let Some((word, rest)) = words.split_once(' ') else {
        return match words {
            "orders" => Ok(Deed::TakeOrders),
            "swap" => Ok(Deed::Swap),
            _ => Err(CaseError::Malformed),
        };
    };
    match word {
        "register" => Ok(Deed::Register(number(rest)?)),
        "accept" => Ok(Deed::Accept(number(rest)?)),
        "release" => Ok(Deed::Release(number(rest)?)),
        "change" => read_change(rest),
        _ => Err(CaseError::Malformed),
    }
}

/// A line of a seat.
fn read_line(line: &str) -> Result<Line, CaseError> {
    let Some((seat, words)) = line.split_once(' ') else {
        return Err(CaseError::Malformed);
    };
    let seat = number(seat)? as usize;
    let deed = read_deed(words)?;
    Ok(Line { seat, deed })
}

/// The lines behind the first.
pub fn read_lines(alloc: Global, text: &str) -> Result<Vec<Line>, CaseError> {
    let mut lines = Vec::new(alloc);
    for line in text.lines() {
        lines.push(read_line(line)?).map_err(AllocError::from)?;
    }
    Ok(lines)
}
