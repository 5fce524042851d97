//! The ticket desk.
ghost use Rattle.std.specs.Prelude.{◌≡◌, ◌≤◌, ◌<◌, ◌^◌, ◌+◌, ◌-◌, ℕ, false, [], length, slice_get, Some, IfOk, IfErr, alloc_error};
ghost use Rattle.amqp_delivery.specs.Book.{view_of};
ghost use Rattle.book_lock.specs.Begins.{from};
ghost use Rattle.book_lock.specs.Calls.{Idle};
ghost use Rattle.book_lock.specs.Seats.{new_seat};

use crate::error::TicketError;
use crate::rule::{InTurns, TicketView};
use crate::seat::TicketSeat;
use crate::steps::{Lock, Place, split};
use crate::ticket_book::{TicketBook, TicketName};
use amqp_delivery::{BookState, DisposerView};
use atomic_table::Table;
use std::alloc::{AllocError, Global};

/// A book that threads share by turns, with the history of the calls made on it.
#[derive(Drop)]
pub struct TicketDesk<L: TicketName> {
    pub(crate) table: Table<Option<TicketBook<L>>, TicketView, usize, InTurns<L>, Global>,
    calls: u64,
    ghost words: { table.shared.table_id.words ≡ 2 },
    ghost slots: { table.shared.table_id.slots ≡ 1 },
    ghost few: { calls ≤ 4294967296 },
}

#[tactic(auto, using(crate::proofs::Opening::opens))]
/// The table of a lock with this book at home, and the first place at it, with so many numbers.
fn table_of<L: TicketName>(
    alloc: Global,
    book: BookState,
    seats: usize,
) -> Result<
    (
        Table<Option<TicketBook<L>>, TicketView, usize, InTurns<L>, Global>,
        Place<L>,
    ),
    TicketError,
>
    requires book { book.book ≡ L.book }
    ensures words { IfOk result (λ r. r.0.shared.table_id.words ≡ 2) }
    ensures slots { IfOk result (λ r. r.0.shared.table_id.slots ≡ 1) }
    ensures seats { IfOk result (λ r. r.0.shared.key ≡ seats) }
    ensures table { IfOk result (λ r. r.1.table_id ≡ r.0.shared.table_id) }
    ensures idle { IfOk result (λ r. Idle r.1.me) }
    ensures front { IfOk result (λ r. r.1.me.0.front ≡ []) }
    ensures numbers { IfOk result (λ r. r.1.me.0.numbers ≡ from 0 seats) }
    ensures told { IfOk result (λ r. r.1.me.0.told_numbers ≡ []) }
    ensures memory { IfErr result (λ e. e ≡ TicketError.Memory alloc_error) }
{
    let mut slots = Vec::new(alloc);
    slots
        .push(Some(TicketBook::new(alloc, book)))
        .map_err(AllocError::from)?;
    match Table::new(alloc, &[0, 0], slots, &seats) {
        Ok(made) => Ok(made),
        Err(refused) => {
            drop(refused);
            Err(TicketError::Memory(AllocError))
        }
    }
}

impl<L: TicketName> TicketDesk<L> {
    /// A desk for the book that `L` names, which allows so many calls, with so many seats; the k-th of them has the number k,
    /// from 0, and the view of that book. The one error is want of memory.
    pub fn new(
        alloc: Global,
        book: BookState,
        seats: usize,
        calls: u64,
    ) -> Result<(TicketDesk<L>, Vec<TicketSeat<L>>), TicketError>
        requires book { book.book ≡ L.book }
        requires few { seats ≤ 2 ^ 32 }
        requires few_calls { calls ≤ 4294967296 }
        ensures calls { IfOk result (λ r. r.0.calls ≡ calls) }
        ensures count { IfOk result (λ r. length r.1.items ≡ seats) }
        ensures numbers { IfOk result (λ r. r.0.table.shared.key ≡ seats) }
        ensures seats { IfOk result (λ r. (k : ℕ) → k < seats → slice_get r.1.items k ≡ Some (new_seat (view_of book.book 0) k r.0.table.shared.table_id)) }
        ensures memory { IfErr result (λ e. e ≡ TicketError.Memory alloc_error) }
    {
        let view = book.view(0);
        let (table, mut first) = table_of::<L>(alloc, book, seats)?;
        let seats = seats_of(alloc, view, &table.shared, &mut first, seats)?;
        Ok((TicketDesk { table, calls }, seats))
    }

    /// The table of the lock.
    pub(crate) fn into_table(
        self,
    ) -> Table<Option<TicketBook<L>>, TicketView, usize, InTurns<L>, Global>
        ensures table { result.shared.table_id ≡ self.table.shared.table_id }
        ensures numbers { result.shared.key ≡ self.table.shared.key }
        ensures words { result.shared.table_id.words ≡ 2 }
        ensures slots { result.shared.table_id.slots ≡ 1 }
    {
        let TicketDesk { table, calls: _ } = self;
        table
    }

    /// The number of calls that the desk allows.
    pub fn calls(&self) -> u64
        ensures { result ≡ self.now.calls }
    {
        self.calls
    }
}

/// The seat with this number, which has seen nothing yet.
fn next_seat<L: TicketName>(
    alloc: Global,
    view: DisposerView,
    lock: &Lock<L>,
    first: &mut Place<L>,
    number: usize,
    count: usize,
) -> TicketSeat<L>
    requires table { first.old.table_id ≡ lock.now.table_id }
    requires words { lock.now.table_id.words ≡ 2 }
    requires idle { first.old.me.0.turn ≡ false }
    requires front { first.old.me.0.front ≡ [] }
    requires numbers { first.old.me.0.numbers ≡ from number (count - number) }
    requires told { first.old.me.0.told_numbers ≡ [] }
    requires some { number < count }
    requires few { count ≤ 2 ^ 32 }
    ensures seat { result ≡ new_seat view number lock.now.table_id }
    ensures table { first.new.table_id ≡ first.old.table_id }
    ensures idle { first.new.me.0.turn ≡ false }
    ensures front { first.new.me.0.front ≡ [] }
    ensures numbers { first.new.me.0.numbers ≡ from (number + 1) (count - (number + 1)) }
    ensures told { first.new.me.0.told_numbers ≡ [] }
{
    let place = split(lock, first);
    TicketSeat::new(alloc, number as u32, view, place)
}

/// Seats that have seen nothing yet.
fn seats_of<L: TicketName>(
    alloc: Global,
    view: DisposerView,
    lock: &Lock<L>,
    first: &mut Place<L>,
    count: usize,
) -> Result<Vec<TicketSeat<L>>, TicketError>
    requires table { first.old.table_id ≡ lock.now.table_id }
    requires words { lock.now.table_id.words ≡ 2 }
    requires idle { first.old.me.0.turn ≡ false }
    requires front { first.old.me.0.front ≡ [] }
    requires numbers { first.old.me.0.numbers ≡ from 0 count }
    requires told { first.old.me.0.told_numbers ≡ [] }
    requires few { count ≤ 2 ^ 32 }
    ensures count { IfOk result (λ r. length r.items ≡ count) }
    ensures seats { IfOk result (λ r. (k : ℕ) → k < count → slice_get r.items k ≡ Some (new_seat view k lock.now.table_id)) }
    ensures memory { IfErr result (λ e. e ≡ TicketError.Memory alloc_error) }
{
    let mut seats = Vec::new(alloc);
    for number in 0..count {
        let seat = next_seat(alloc, view, lock, first, number, count);
        seats.push(seat).map_err(AllocError::from)?;
    }
    Ok(seats)
}
