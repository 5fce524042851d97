//! What lies under the lock.
ghost use Rattle.std.specs.Prelude.{◌≡◌, ℕ, ◌+◌, ◌<◌, ◌∷◌, ◌++◌, [], length, OnOk, OnErr, IfOk};
ghost use Rattle.book_history.specs.History.{Replays, event_of};
ghost use Rattle.book_history.specs.Receipts.{IsOf, HandsOut};

use amqp_delivery::{BookCall, BookState, OrderList};
use book_history::{History, Receipt, make_call};
use std::alloc::{AllocError, Global};
use std::marker::{Brand, Model};
use std::sync::ledger::{Blank, Book as Ledgered, Ledger, Share};

/// Names a desk: a ledger of its calls, and the book that is handed in.
pub trait DeskName: Ledger {
    ghost use Rattle.amqp_delivery.specs.Book.{Book};

    /// The book that is handed in.
    ghost book: { Book };
}

impl DeskName for Brand {
    ghost use Rattle.amqp_threads.specs.Names.{no_book};

    ghost book = { no_book };
}

/// What a call at a desk answers: its receipt for the seat and for the caller, and the orders that were handed out.
#[derive(Drop)]
pub(crate) struct Answered {
    /// The receipt, for the seat.
    pub(crate) kept: Receipt,
    /// The same, for the caller.
    pub(crate) receipt: Receipt,
    /// The orders.
    pub(crate) orders: OrderList,
}

/// A book, with the history that leads to it, and a ledger with a unit for each call.
#[derive(Drop)]
pub(crate) struct Locked<L: DeskName> {
    book: BookState,
    history: History,
    calls: Ledgered<L>,
}

impl<L: DeskName> Model for Locked<L> {
    ghost use Rattle.std.specs.Prelude.{◌≡◌, length};
    ghost use Rattle.book_history.specs.History.{Replays};
    ghost use Rattle.amqp_threads.specs.Seats.{Locked as Kept};

    ghost Value = { Kept };

    ghost use Rattle.std.specs.Coded.{codes};
    ghost use Rattle.amqp_fields.specs.contracts.map.FieldMap as map;

    ghost coded = { Prim.hlevel (codes, map.the_row.coded) };

    ghost view = { λ a. record { book = a.book.book; history = a.history.events; total = a.calls.total } };

    ghost invariant = { λ a. Replays L.book a.history.events a.book.book × (length a.history.events ≡ a.calls.total) };
}

impl<L: DeskName> Locked<L> {
    /// The book with no history, and all shares of its ledger.
    pub(crate) fn new(alloc: Global, blank: Blank, book: BookState) -> (Locked<L>, Share<L>)
        requires name { blank.name ≡ L.name }
        requires parts { blank.parts ≡ L.parts }
        requires book { book.book ≡ L.book }
        ensures locked { result.0 ≡ record { book = L.book; history = []; total = 0 } }
        ensures all { (result.1.parts ≡ L.parts) × (result.1.amount ≡ 0) }
    {
        let (calls, all) = blank.open::<L>();
        let history = History::new(alloc);
        (
            Locked {
                book,
                history,
                calls,
            },
            all,
        )
    }

    /// The history.
    pub(crate) fn history(&self) -> &History
        ensures { result.now.events ≡ self.now.history }
    {
        &self.history
    }

    /// The book and its history, which has as many entries as all shares count.
    pub(crate) fn close(self, mut all: Share<L>) -> (BookState, History)
        requires { all.parts ≡ L.parts }
        ensures replay { Replays L.book result.1.events result.0.book }
        ensures calls { length result.1.events ≡ all.amount }
        ensures same { result.1.events ≡ self.history }
    {
        let Locked {
            book,
            history,
            mut calls,
        } = self;
        calls.audit(&mut all);
        (book, history)
    }

    /// Makes a call of a seat: one step of the book, one entry, one unit of the ledger. The one error is want of memory,
    /// which leaves all as it was.
    #[tactic(auto, using(book_history::proofs::Replaying::replays_call, book_history::proofs::Replaying::replays_same))]
    pub(crate) fn make(
        &mut self,
        alloc: Global,
        seat: u32,
        call: &BookCall,
        mine: &mut Share<L>,
    ) -> Result<Answered, AllocError>
        requires { 0 < mine.old.parts }
        ensures grown { IfOk result (λ r. self.new.history ≡ self.old.history ++ r.receipt.entry ∷ []) }
        ensures entry { IfOk result (λ r. r.receipt.entry ≡ event_of seat self.old.book call.now) }
        ensures place { IfOk result (λ r. r.receipt.place ≡ length self.old.history) }
        ensures call { IfOk result (λ r. IsOf seat call.now r.receipt) }
        ensures both { IfOk result (λ r. r.kept ≡ r.receipt) }
        ensures orders { IfOk result (λ r. HandsOut call.now r.receipt.entry.reply r.orders.list) }
        ensures counted { OnOk result (mine.new.amount ≡ mine.old.amount + 1) }
        ensures parts { mine.new.parts ≡ mine.old.parts }
        ensures memory { OnErr result ((self.new ≡ self.old) × (mine.new.amount ≡ mine.old.amount)) }
    {
        self.history.reserve_one()?;
        let made = make_call(alloc, &mut self.book, seat, call)?;
        let place = self.history.len() as u64;
        self.history.push(made.entered);
        self.calls.add(mine, 1);
        Ok(Answered {
            kept: Receipt {
                place,
                entry: made.kept,
            },
            receipt: Receipt {
                place,
                entry: made.answered,
            },
            orders: made.orders,
        })
    }
}
