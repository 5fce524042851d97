//! How a desk is closed.
ghost use Rattle.std.specs.Prelude.{◌≡◌, ℕ, ◌<◌, ◌≤◌, ◌⊎◌, ◌∷◌, ◌++◌, [], vec_len};
ghost use Rattle.book_history.specs.History.{Replays};
ghost use Rattle.book_lock.specs.Begins.{Begins, Follows, IsAmong, of_seat};
ghost use Rattle.book_lock.specs.Calls.{Idle};
ghost use Rattle.book_lock.specs.Seats.{AllAt, AllHere, AllOwn, AllSeen, HasOwn, numbers_of};

use crate::desk::TicketDesk;
use crate::rule::{InTurns, TicketView};
use crate::seat::TicketSeat;
use crate::steps::{Lock, Place, join, see};
use crate::ticket_book::{TicketBook, TicketName};
use amqp_delivery::BookState;
use atomic_table::Table;
use book_history::History;
use std::alloc::Global;

/// Takes in what a seat has seen, and its number.
fn meet<L: TicketName>(lock: &Lock<L>, place: &mut Place<L>, seat: TicketSeat<L>)
    requires table { place.old.table_id ≡ lock.now.table_id }
    requires words { lock.now.table_id.words ≡ 2 }
    requires idle { Idle place.old.me }
    requires other { seat.table ≡ lock.now.table_id }
    ensures table { place.new.table_id ≡ place.old.table_id }
    ensures idle { Idle place.new.me }
    ensures numbers { place.new.me.0.numbers ≡ place.old.me.0.numbers ++ seat.number ∷ [] }
    ensures follows { Follows place.old.me.0.front place.old.me.0.numbers place.new.me.0.front }
    ensures own { HasOwn seat.number seat.receipts place.new.me.0.front }
    ensures seen { Begins seat.front place.new.me.0.front }
{
    join(lock, place, seat.into_place());
    see(lock, place);
}

/// Takes in what all seats have seen, and their numbers.
fn meet_all<L: TicketName>(lock: &Lock<L>, place: &mut Place<L>, mut seats: Vec<TicketSeat<L>>)
    requires table { place.old.table_id ≡ lock.now.table_id }
    requires words { lock.now.table_id.words ≡ 2 }
    requires idle { Idle place.old.me }
    requires others { AllAt lock.now.table_id seats.items }
    ensures table { place.new.table_id ≡ place.old.table_id }
    ensures idle { Idle place.new.me }
    ensures numbers { (n : ℕ) → IsAmong n place.old.me.0.numbers ⊎ IsAmong n (numbers_of seats.items) → IsAmong n place.new.me.0.numbers }
    ensures follows { Follows place.old.me.0.front place.old.me.0.numbers place.new.me.0.front }
    ensures own { AllOwn place.new.me.0.front seats.items }
    ensures seen { AllSeen place.new.me.0.front seats.items }
{
    while let Some(seat) = seats.pop() {
        meet(lock, place, seat);
    }
}

/// The book out of its slot, where the place has all numbers, so that no seat has the turn.
fn book_of<L: TicketName>(
    table: Table<Option<TicketBook<L>>, TicketView, usize, InTurns<L>, Global>,
    place: Place<L>,
) -> TicketBook<L>
    requires table { place.table_id ≡ table.shared.table_id }
    requires slots { table.shared.table_id.slots ≡ 1 }
    requires idle { Idle place.me }
    requires all { (n : ℕ) → n < table.shared.key → IsAmong n place.me.0.numbers }
    ensures follows { Follows place.me.0.front place.me.0.numbers result.history }
    ensures others { (n : ℕ) → table.shared.key ≤ n → of_seat n result.history ≡ [] }
{
    let mut closed = table.close_with(place);
    let slot = closed.take(0);
    closed.free();
    match slot {
        Some(book) => book,
        None => unreachable!(),
    }
}

impl<L: TicketName> TicketDesk<L> {
    /// Gives back the book with its history. All seats are handed in, in any order; what each has seen begins that history, the calls of
    /// each stand in it, each once, and no others do.
    ///
    /// It takes no turn and no memory.
    pub fn close(self, mut seats: Vec<TicketSeat<L>>) -> (BookState, History)
        requires some { 0 < vec_len seats }
        requires tables { AllAt self.table.shared.table_id seats.items }
        requires all { AllHere self.table.shared.key seats.items }
        ensures replay { Replays L.book result.1.events result.0.book }
        ensures own { AllOwn result.1.events seats.items }
        ensures seen { AllSeen result.1.events seats.items }
        ensures others { (n : ℕ) → self.table.shared.key ≤ n → of_seat n result.1.events ≡ [] }
    {
        let table = self.into_table();
        let Some(seat) = seats.pop() else {
            unreachable!()
        };
        let mut place = seat.into_place();
        meet_all(&table.shared, &mut place, seats);
        book_of(table, place).into_parts()
    }
}
