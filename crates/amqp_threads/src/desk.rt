//! The desk: made, and closed.
ghost use Rattle.std.specs.Prelude.{◌≡◌, ℕ, ◌+◌, ◌^◌, ◌<◌, ◌≤◌, ◌∷◌, ◌++◌, [], length, slice_get, Some, OnOk, IfOk, IfErr, alloc_error, vec_len};
ghost use Rattle.std.specs.Option.{option_copied};
ghost use Rattle.amqp_delivery.specs.Book.{view_of};
ghost use Rattle.book_history.specs.History.{Replays};
ghost use Rattle.book_history.specs.Receipts.{Stand};
ghost use Rattle.amqp_threads.specs.Seats.{new_seat, calls_of, Seat};
ghost use Rattle.amqp_threads.specs.Closing.{Differing, DiffersAt, FailsIn, MayFail, IsDiffers};

use crate::error::DeskError;
use crate::locked::{DeskName, Locked};
use crate::seat::{DeskSeat, SeatList};
use amqp_delivery::{BookState, DisposerView};
use book_history::same::is_same_entry;
use book_history::{History, HistoryEntry, Receipt};
use std::alloc::{AllocError, Global};
use std::sync::ledger::{Blank, Share};
use std::sync::{Mutex, MutexGuard, Wait};

/// A book that threads share, with the history of the calls made on it, under one lock.
#[derive(Drop)]
pub struct Desk<L: DeskName> {
    locked: Mutex<Locked<L>>,
}

/// What a desk gives back that is closed.
#[derive(Drop)]
pub struct Closed {
    /// The book.
    pub book: BookState,
    /// All calls made on it.
    pub history: History,
    /// Whether every receipt of the seats stands in the history. The error is want of memory, or names a receipt that a seat keeps
    /// and that does not, with the entry at its place, if the history has one there.
    pub outcome: Result<(), DeskError>,
}

impl<L: DeskName> Desk<L> {
    /// A desk for the book that `L` names, with so many seats; the k-th of them has the number k, from 0, and the view of
    /// that book. The one error is want of memory.
    pub fn new(
        alloc: Global,
        blank: Blank,
        book: BookState,
        seats: usize,
    ) -> Result<(Desk<L>, SeatList<L>), DeskError>
        requires name { blank.name ≡ L.name }
        requires parts { blank.parts ≡ L.parts }
        requires one_each { blank.parts ≡ seats }
        requires some { 0 < seats }
        requires few { seats ≤ 2 ^ 32 }
        requires book { book.book ≡ L.book }
        ensures count { IfOk result (λ r. length r.1 ≡ seats) }
        ensures seats { IfOk result (λ r. (k : ℕ) → k < seats → slice_get r.1 k ≡ Some (new_seat (view_of book.book 0) k)) }
        ensures memory { IfErr result (λ e. e ≡ DeskError.Memory alloc_error) }
    {
        let view = book.view(0);
        let (locked, all) = Locked::new(alloc, blank, book);
        let seats = seats_of(alloc, view, all, seats)?;
        let desk = Desk {
            locked: Mutex::new(locked),
        };
        Ok((desk, seats))
    }

    /// Waits for the lock.
    pub(crate) fn lock<R: Wait>(&self, rt: &R) -> MutexGuard<'_, Locked<L>> {
        self.locked.lock(rt)
    }

    /// Gives back the book with its history, and says whether every receipt of the seats stands in that history. All seats are
    /// handed in.
    pub fn close_with_history(self, alloc: Global, seats: SeatList<L>) -> Closed
        requires all { length seats ≡ L.parts }
        requires some { 0 < length seats }
        ensures replay { Replays L.book result.history.events result.book.book }
        ensures calls { length result.history.events ≡ calls_of seats }
        ensures stand { OnOk result.outcome ((k : ℕ) (s : Seat) → slice_get seats k ≡ Some s → Stand 0 result.history.events s.receipts) }
        ensures differs { IfErr result.outcome (FailsIn result.history.events seats) }
    {
        let locked = self.locked.into_inner();
        let outcome = check_seats(alloc, locked.history(), seats.as_slice());
        let (book, history) = locked.close(whole(seats.into_vec()));
        Closed {
            book,
            history,
            outcome,
        }
    }

    /// Gives back the book with its history, in which every receipt of the seats stands. All seats are handed in.
    ///
    /// The error is want of memory, or names a receipt that a seat keeps and that does not stand in the history.
    pub fn close(self, alloc: Global, seats: SeatList<L>) -> Result<(BookState, History), DeskError>
        requires all { length seats ≡ L.parts }
        requires some { 0 < length seats }
        ensures replay { IfOk result (λ r. Replays L.book r.1.events r.0.book) }
        ensures calls { IfOk result (λ r. length r.1.events ≡ calls_of seats) }
        ensures stand { IfOk result (λ r. (k : ℕ) (s : Seat) → slice_get seats k ≡ Some s → Stand 0 r.1.events s.receipts) }
        ensures differs { IfErr result (MayFail L.book seats) }
    {
        let Closed {
            book,
            history,
            outcome,
        } = self.close_with_history(alloc, seats);
        match outcome {
            Ok(()) => Ok((book, history)),
            Err(error) => Err(error),
        }
    }
}

/// Seats with one part of the ledger each.
fn seats_of<L: DeskName>(
    alloc: Global,
    view: DisposerView,
    mut all: Share<L>,
    count: usize,
) -> Result<SeatList<L>, DeskError>
    requires parts { all.parts ≡ count }
    requires amount { all.amount ≡ 0 }
    requires few { count ≤ 2 ^ 32 }
    ensures count { IfOk result (λ r. length r ≡ count) }
    ensures seats { IfOk result (λ r. (k : ℕ) → k < count → slice_get r k ≡ Some (new_seat view k)) }
    ensures memory { IfErr result (λ e. e ≡ DeskError.Memory alloc_error) }
{
    let mut seats = Vec::new(alloc);
    for number in 0..count {
        let share = all.split_off(1, 0);
        seats
            .push(DeskSeat::new(alloc, number as u32, view, share))
            .map_err(AllocError::from)?;
    }
    Ok(SeatList::new(seats))
}

/// The shares of all seats together.
#[tactic(auto, using(crate::proofs::Counting::calls_push))]
fn whole<L: DeskName>(mut seats: Vec<DeskSeat<L>>) -> Share<L>
    requires { 0 < vec_len seats }
    ensures parts { result.parts ≡ vec_len seats }
    ensures amount { result.amount ≡ calls_of seats.items }
{
    let mut all = seats.pop().unwrap().into_share();
    while let Some(seat) = seats.pop() {
        all.merge(seat.into_share());
    }
    all
}

/// Whether the receipts of all seats stand in the history.
fn check_seats<L: DeskName>(
    alloc: Global,
    history: &History,
    seats: &[DeskSeat<L>],
) -> Result<(), DeskError>
    ensures stand { OnOk result ((k : ℕ) (s : Seat) → slice_get seats.now k ≡ Some s → Stand 0 history.now.events s.receipts) }
    ensures differs { IfErr result (FailsIn history.now.events seats.now) }
{
    for seat in seats {
        match check_seat(alloc, history, seat.receipts()) {
            Ok(()) => {}
            Err(error) => return Err(error),
        }
    }
    Ok(())
}

/// Whether the receipts of a seat stand in the history, at places that rise.
#[tactic(auto, using(crate::proofs::Closing::is_differing, std::proofs::lemmas::Option::slice_get_read))]
fn check_seat(alloc: Global, history: &History, receipts: &[Receipt]) -> Result<(), DeskError>
    ensures stand { OnOk result (Stand 0 history.now.events receipts.now) }
    ensures differs { IfErr result (Differing history.now.events receipts.now) }
{
    let mut low = 0;
    for receipt in receipts {
        low = check_one(alloc, history, receipt, low)?;
    }
    Ok(())
}

/// The place after the receipt's, if the receipt stands in the history, and not below `low`.
fn check_one(
    alloc: Global,
    history: &History,
    receipt: &Receipt,
    low: u64,
) -> Result<u64, DeskError>
    ensures stand { IfOk result (λ n. (low ≤ receipt.now.place)
        × (slice_get history.now.events receipt.now.place ≡ Some receipt.now.entry) × (n ≡ receipt.now.place + 1)) }
    ensures differs { IfErr result (DiffersAt history.now.events receipt.now low) }
{
    let entry = history.entries().get(receipt.place as usize);
    if let Some(found) = entry {
        if receipt.place >= low && is_same_entry(found, &receipt.entry) {
            return Ok(receipt.place + 1);
        }
    }
    Err(differs(alloc, receipt, entry))
}

fn differs(alloc: Global, receipt: &Receipt, entry: Option<&HistoryEntry>) -> DeskError
    ensures { IsDiffers receipt.now (option_copied entry.entry) result }
{
    match copies(alloc, receipt, entry) {
        Ok((receipt, entry)) => DeskError::Differs { receipt, entry },
        Err(error) => DeskError::Memory(error),
    }
}

fn copies(
    alloc: Global,
    receipt: &Receipt,
    entry: Option<&HistoryEntry>,
) -> Result<(Receipt, Option<HistoryEntry>), AllocError>
    ensures { IfOk result (λ r. (r.0 ≡ receipt.now) × (r.1 ≡ option_copied entry.entry)) }
{
    let copy = receipt.try_clone(alloc)?;
    match entry {
        None => Ok((copy, None)),
        Some(entry) => {
            let entry = entry.try_clone(alloc)?;
            Ok((copy, Some(entry)))
        }
    }
}
