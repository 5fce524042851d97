//! The steps of a seat on the lock.
ghost use Rattle.std.specs.Prelude.{◌≡◌, ℕ, ◌+◌, ◌<◌, true, false, [], ◌∷◌, Some, MatchBool};
ghost use Rattle.book_lock.specs.Begins.{from, IsAmong};
ghost use Rattle.book_lock.specs.Rule.{first_of, informed, newcomer, numbered, rest_of};
ghost use Rattle.book_lock.specs.Plays.{waiting, in_turn, after_turn, seeing};
ghost use Rattle.book_lock.specs.Calls.{Turns, Sees, Meets, Holds};
ghost use Rattle.book_lock.specs.Tickets.{Held};

use crate::rule::{
    Advances, Draws, InTurns, Looks, Meets as Meeting, Notes, Numbers, Sees as Seeing, Tells,
    TicketView,
};
use crate::ticket_book::{TicketBook, TicketName};
use atomic_table::{Seat, Shared};

/// A table of the lock.
pub(crate) type Lock<L> = Shared<Option<TicketBook<L>>, TicketView, usize, InTurns<L>>;

/// A place at it.
pub(crate) type Place<L> = Seat<Option<TicketBook<L>>, TicketView>;

/// Draws a ticket, if the next one is this.
pub(crate) fn draw<L: TicketName>(lock: &Lock<L>, place: &mut Place<L>, next: u64) -> bool
    requires table { place.old.table_id ≡ lock.now.table_id }
    requires words { lock.now.table_id.words ≡ 2 }
    requires few { next < 4294967296 }
    requires idle { (place.old.me.0.waits ≡ false) × (place.old.me.0.turn ≡ false) }
    ensures table { place.new.table_id ≡ place.old.table_id }
    ensures id { place.new.id ≡ place.old.id }
    ensures me { MatchBool result (place.new.me ≡ (waiting place.old.me.0 next, place.old.me.1)) (place.new.me ≡ place.old.me) }
{
    let found = lock.compare_exchange::<Draws>(place, 0, next, next + 1);
    found == next
}

/// Looks which number is served. Where it is the seat's, its turn begins, and it holds the book.
pub(crate) fn look<L: TicketName>(lock: &Lock<L>, place: &mut Place<L>, ticket: u64) -> bool
    requires table { place.old.table_id ≡ lock.now.table_id }
    requires words { lock.now.table_id.words ≡ 2 }
    requires waits { (place.old.me.0.waits ≡ true) × (place.old.me.0.turn ≡ false) }
    requires ticket { place.old.me.0.ticket ≡ ticket }
    requires number { (n : ℕ) × IsAmong n place.old.me.0.numbers }
    ensures table { place.new.table_id ≡ place.old.table_id }
    ensures id { place.new.id ≡ place.old.id }
    ensures me { MatchBool result (Turns place.old.me place.new.me) (place.new.me ≡ place.old.me) }
{
    let found = lock.load::<Looks>(place, 1);
    found == ticket
}

/// Puts the book back as it is held, and serves the next number.
pub(crate) fn advance<L: TicketName>(lock: &Lock<L>, place: &mut Place<L>, ticket: u64)
    requires table { place.old.table_id ≡ lock.now.table_id }
    requires words { lock.now.table_id.words ≡ 2 }
    requires few { ticket < 4294967296 }
    requires turn { place.old.me.0.turn ≡ true }
    requires ticket { place.old.me.0.ticket ≡ ticket }
    requires holds { Holds place.old.me }
    ensures table { place.new.table_id ≡ place.old.table_id }
    ensures id { place.new.id ≡ place.old.id }
    ensures me { (x : Held) → place.old.me.1 ≡ (0, Some x) ∷ [] → place.new.me ≡ (after_turn place.old.me.0 x.history, []) }
{
    lock.store::<Advances>(place, 1, ticket + 1);
}

/// Sees the history so far, which begins with all that was seen before, and with all that the seat was told of.
pub(crate) fn see<L: TicketName>(lock: &Lock<L>, place: &mut Place<L>)
    requires table { place.old.table_id ≡ lock.now.table_id }
    requires words { lock.now.table_id.words ≡ 2 }
    ensures table { place.new.table_id ≡ place.old.table_id }
    ensures id { place.new.id ≡ place.old.id }
    ensures me { Sees place.old.me place.new.me }
{
    lock.load::<Seeing>(place, 0);
}

/// Sees what it was told, where that is longer than what it has seen.
pub(crate) fn compare<L: TicketName>(lock: &Lock<L>, place: &mut Place<L>)
    requires table { place.old.table_id ≡ lock.now.table_id }
    requires words { lock.now.table_id.words ≡ 2 }
    requires idle { place.old.me.0.turn ≡ false }
    ensures table { place.new.table_id ≡ place.old.table_id }
    ensures id { place.new.id ≡ place.old.id }
    ensures me { Meets place.old.me place.new.me }
{
    lock.load::<Meeting>(place, 0);
}

/// The place of a new seat, which has seen as much, and takes the first of the numbers.
pub(crate) fn split<L: TicketName>(lock: &Lock<L>, place: &mut Place<L>) -> Place<L>
    requires table { place.old.table_id ≡ lock.now.table_id }
    requires words { lock.now.table_id.words ≡ 2 }
    requires idle { place.old.me.0.turn ≡ false }
    requires numbers { (k : ℕ) × (m : ℕ) × (place.old.me.0.numbers ≡ from k m) }
    requires told { place.old.me.0.told_numbers ≡ [] }
    ensures table { place.new.table_id ≡ place.old.table_id }
    ensures id { place.new.id ≡ place.old.id }
    ensures me { place.new.me ≡ (numbered place.old.me.0 (rest_of place.old.me.0.numbers), place.old.me.1) }
    ensures other_table { result.table_id ≡ place.old.table_id }
    ensures other { result.me ≡ (newcomer place.old.me.0.front (first_of place.old.me.0.numbers), []) }
{
    lock.split_seat::<Numbers>(place)
}

/// The place of a note, which has seen as much, and has no number.
pub(crate) fn copy<L: TicketName>(lock: &Lock<L>, place: &mut Place<L>) -> Place<L>
    requires table { place.old.table_id ≡ lock.now.table_id }
    requires words { lock.now.table_id.words ≡ 2 }
    requires idle { place.old.me.0.turn ≡ false }
    ensures table { place.new.table_id ≡ place.old.table_id }
    ensures id { place.new.id ≡ place.old.id }
    ensures me { place.new.me ≡ place.old.me }
    ensures other_table { result.table_id ≡ place.old.table_id }
    ensures other { result.me ≡ (newcomer place.old.me.0.front [], []) }
{
    lock.split_seat::<Notes>(place)
}

/// Tells a place what another has seen, and gives it the numbers of the other.
pub(crate) fn join<L: TicketName>(lock: &Lock<L>, place: &mut Place<L>, other: Place<L>)
    requires table { place.old.table_id ≡ lock.now.table_id }
    requires words { lock.now.table_id.words ≡ 2 }
    requires idle { place.old.me.0.turn ≡ false }
    requires other_table { other.table_id ≡ lock.now.table_id }
    requires other { other.me.1 ≡ [] }
    requires other_idle { other.me.0.turn ≡ false }
    ensures table { place.new.table_id ≡ place.old.table_id }
    ensures id { place.new.id ≡ place.old.id }
    ensures me { place.new.me ≡ (informed place.old.me.0 other.me.0, place.old.me.1) }
{
    lock.join_seat::<Tells>(place, other);
}
