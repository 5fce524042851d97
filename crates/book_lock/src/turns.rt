//! A ticket, the wait for its turn, and the turn.
ghost use Rattle.std.specs.Prelude.{◌≡◌, ℕ, ◌+◌, ◌<◌, ◌≤◌, ◌++◌, ◌∷◌, true, false, [], length, MatchResult, IfOk, OnOk, IfErr, OnErr, Some, None};
ghost use Rattle.book_history.specs.Receipts.{IsOf, HandsOut};
ghost use Rattle.book_lock.specs.Begins.{IsAmong};
ghost use Rattle.book_lock.specs.Plays.{waiting, after_turn};
ghost use Rattle.book_lock.specs.Calls.{Turns, Begun, Idle, Taken, Passed};
ghost use Rattle.book_lock.specs.Seats.{IsFull, IsLegal};

use crate::error::TicketError;
use crate::steps::{Lock, Place, advance, draw, look};
use crate::ticket_book::{Answered, TicketBook, TicketName};
use amqp_delivery::BookCall;
use std::alloc::{AllocError, Global};
use std::sync::Wait;
use std::thread;

/// Draws a ticket below `calls`. The error is the next ticket, where that is none.
pub(crate) fn draw_ticket<L: TicketName, R: Wait>(
    rt: &R,
    lock: &Lock<L>,
    place: &mut Place<L>,
    calls: u64,
) -> Result<u64, u64>
    requires table { place.old.table_id ≡ lock.now.table_id }
    requires words { lock.now.table_id.words ≡ 2 }
    requires few { calls ≤ 4294967296 }
    requires idle { (place.old.me.0.waits ≡ false) × (place.old.me.0.turn ≡ false) }
    ensures table { place.new.table_id ≡ place.old.table_id }
    ensures id { place.new.id ≡ place.old.id }
    ensures me { MatchResult result
        (λ t. (t < calls) × (place.new.me ≡ (waiting place.old.me.0 t, place.old.me.1)))
        (λ t. (calls ≤ t) × (place.new.me ≡ place.old.me)) }
{
    for _ in rt.forever() {
        let next = lock.peek(0);
        if next >= calls {
            return Err(next);
        }
        if draw(lock, place, next) {
            return Ok(next);
        }
    }
    unreachable!()
}

/// Waits until the ticket is served.
pub(crate) fn wait_turn<L: TicketName, R: Wait>(
    rt: &R,
    lock: &Lock<L>,
    place: &mut Place<L>,
    ticket: u64,
)
    requires table { place.old.table_id ≡ lock.now.table_id }
    requires words { lock.now.table_id.words ≡ 2 }
    requires waits { (place.old.me.0.waits ≡ true) × (place.old.me.0.turn ≡ false) }
    requires ticket { place.old.me.0.ticket ≡ ticket }
    requires number { (n : ℕ) × IsAmong n place.old.me.0.numbers }
    ensures table { place.new.table_id ≡ place.old.table_id }
    ensures id { place.new.id ≡ place.old.id }
    ensures me { Turns place.old.me place.new.me }
{
    for _ in rt.forever() {
        if look(lock, place, ticket) {
            return;
        }
        thread::yield_now();
    }
    unreachable!()
}

/// The book, out of its slot.
pub(crate) fn take_out<L: TicketName>(lock: &Lock<L>, place: &mut Place<L>) -> TicketBook<L>
    requires table { place.old.table_id ≡ lock.now.table_id }
    requires begun { Begun place.old.me }
    ensures table { place.new.table_id ≡ place.old.table_id }
    ensures id { place.new.id ≡ place.old.id }
    ensures book { result.history ≡ place.old.me.0.front }
    ensures me { place.new.me ≡ (place.old.me.0, (0, None) ∷ []) }
{
    match lock.exchange(place, 0, None) {
        Some(book) => book,
        None => unreachable!(),
    }
}

/// Puts the book into its slot.
pub(crate) fn put_in<L: TicketName>(lock: &Lock<L>, place: &mut Place<L>, book: TicketBook<L>)
    requires table { place.old.table_id ≡ lock.now.table_id }
    requires out { place.old.me.1 ≡ (0, None) ∷ [] }
    ensures table { place.new.table_id ≡ place.old.table_id }
    ensures id { place.new.id ≡ place.old.id }
    ensures me { place.new.me ≡ (place.old.me.0, (0, Some book) ∷ []) }
{
    let empty = lock.exchange(place, 0, Some(book));
    drop(empty);
}

/// Makes a call in the turn, and ends the turn. Want of memory adds no entry.
pub(crate) fn take_turn<L: TicketName>(
    alloc: Global,
    lock: &Lock<L>,
    place: &mut Place<L>,
    ticket: u64,
    seat: u32,
    call: &BookCall,
) -> Result<Answered, AllocError>
    requires table { place.old.table_id ≡ lock.now.table_id }
    requires words { lock.now.table_id.words ≡ 2 }
    requires few { ticket < 4294967296 }
    requires turn { place.old.me.0.turn ≡ true }
    requires ticket { place.old.me.0.ticket ≡ ticket }
    requires begun { Begun place.old.me }
    requires short { length place.old.me.0.front ≤ ticket }
    requires number { IsAmong seat place.old.me.0.numbers }
    ensures table { place.new.table_id ≡ place.old.table_id }
    ensures id { place.new.id ≡ place.old.id }
    ensures grown { IfOk result (λ r. place.new.me ≡ (after_turn place.old.me.0 (place.old.me.0.front ++ r.receipt.entry ∷ []), [])) }
    ensures place { IfOk result (λ r. r.receipt.place ≡ length place.old.me.0.front) }
    ensures call { IfOk result (λ r. IsOf seat call.now r.receipt) }
    ensures both { IfOk result (λ r. r.kept ≡ r.receipt) }
    ensures orders { IfOk result (λ r. HandsOut call.now r.receipt.entry.reply r.orders.list) }
    ensures legal { OnOk result (IsLegal L.book place.new.me.0.front) }
    ensures memory { OnErr result (place.new.me ≡ (after_turn place.old.me.0 place.old.me.0.front, [])) }
{
    let mut book = take_out(lock, place);
    let answered = book.make(alloc, seat, call);
    put_in(lock, place, book);
    advance(lock, place, ticket);
    answered
}

#[tactic(auto, using(crate::proofs::Beginning::begins_same))]
/// A whole turn: draws a ticket below `calls`, waits until it is served, and makes the call.
pub(crate) fn run_turn<L: TicketName, R: Wait>(
    rt: &R,
    alloc: Global,
    lock: &Lock<L>,
    place: &mut Place<L>,
    calls: u64,
    seat: u32,
    call: &BookCall,
) -> Result<Answered, TicketError>
    requires table { place.old.table_id ≡ lock.now.table_id }
    requires words { lock.now.table_id.words ≡ 2 }
    requires few { calls ≤ 4294967296 }
    requires idle { Idle place.old.me }
    requires number { IsAmong seat place.old.me.0.numbers }
    ensures table { place.new.table_id ≡ place.old.table_id }
    ensures id { place.new.id ≡ place.old.id }
    ensures taken { IfOk result (λ r. Taken place.old.me place.new.me r.receipt) }
    ensures within { IfOk result (λ r. r.receipt.place < calls) }
    ensures call { IfOk result (λ r. IsOf seat call.now r.receipt) }
    ensures both { IfOk result (λ r. r.kept ≡ r.receipt) }
    ensures orders { IfOk result (λ r. HandsOut call.now r.receipt.entry.reply r.orders.list) }
    ensures legal { OnOk result (IsLegal L.book place.new.me.0.front) }
    ensures passed { OnErr result (Passed place.old.me place.new.me) }
    ensures full { IfErr result (IsFull calls) }
{
    let ticket = match draw_ticket(rt, lock, place, calls) {
        Ok(ticket) => ticket,
        Err(ticket) => return Err(TicketError::Full { ticket }),
    };
    wait_turn(rt, lock, place, ticket);
    match take_turn(alloc, lock, place, ticket, seat, call) {
        Ok(answered) => Ok(answered),
        Err(error) => Err(TicketError::Memory(error)),
    }
}
