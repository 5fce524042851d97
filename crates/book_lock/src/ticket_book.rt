//! What lies in the slot.
ghost use Rattle.std.specs.Prelude.{◌≡◌, ◌+◌, ◌≤◌, ◌++◌, ◌∷◌, [], length, IfOk, OnOk, OnErr};
ghost use Rattle.book_history.specs.History.{Replays, event_of};
ghost use Rattle.book_history.specs.Receipts.{IsOf, HandsOut};
ghost use Rattle.book_lock.specs.Begins.{Begins};
ghost use Rattle.book_lock.specs.Calls.{IsWorkOf};
ghost use Rattle.book_lock.specs.Seats.{IsLegal};

use amqp_delivery::{BookCall, BookState, OrderList};
use book_history::{History, HistoryEntry, Receipt, make_call};
use std::alloc::{AllocError, Global};
use std::marker::{Brand, Model, PhantomData};

/// Names a desk by the book that is handed in.
pub trait TicketName {
    ghost use Rattle.amqp_delivery.specs.Book.{Book};

    /// The book that is handed in.
    ghost book: { Book };
}

impl TicketName for Brand {
    ghost use Rattle.book_lock.specs.Tickets.{no_book};

    ghost book = { no_book };
}

/// A book, with the history that leads to it.
#[derive(Drop)]
pub(crate) struct TicketBook<L: TicketName> {
    book: BookState,
    history: History,
    of: PhantomData<L>,
}

impl<L: TicketName> Model for TicketBook<L> {
    ghost use Rattle.book_history.specs.History.{Replays};
    ghost use Rattle.book_lock.specs.Tickets.{Held};

    ghost Value = { Held };

    ghost use Rattle.std.specs.Coded.{codes};
    ghost use Rattle.amqp_fields.specs.contracts.map.FieldMap as map;

    ghost coded = { Prim.hlevel (codes, map.the_row.coded) };

    ghost view = { λ a. record { book = a.book.book; history = a.history.events } };

    ghost invariant = { λ a. Replays L.book a.history.events a.book.book };
}

/// What a call in a turn answers.
#[derive(Drop)]
pub(crate) struct Answered {
    /// The receipt, for the seat.
    pub(crate) kept: Receipt,
    /// The same, for the caller.
    pub(crate) receipt: Receipt,
    /// The orders.
    pub(crate) orders: OrderList,
}

impl<L: TicketName> TicketBook<L> {
    /// The book with no history.
    pub(crate) fn new(alloc: Global, book: BookState) -> Self
        requires { book.book ≡ L.book }
        ensures { result ≡ record { book = L.book; history = [] } }
    {
        TicketBook {
            book,
            history: History::new(alloc),
            of: PhantomData,
        }
    }

    /// The book and its history.
    pub(crate) fn into_parts(self) -> (BookState, History)
        ensures replay { Replays L.book result.1.events result.0.book }
        ensures same { result.1.events ≡ self.history }
    {
        let TicketBook {
            book,
            history,
            of: _,
        } = self;
        (book, history)
    }

    /// Makes a call of a seat: one step of the book, one entry. The one error is want of memory, which leaves all as it was.
    #[tactic(auto, using(book_history::proofs::Replaying::replays_call, book_history::proofs::Replaying::replays_same, crate::proofs::Beginning::begins_same, crate::proofs::Beginning::begins_one))]
    pub(crate) fn make(
        &mut self,
        alloc: Global,
        seat: u32,
        call: &BookCall,
    ) -> Result<Answered, AllocError>
        ensures grown { IfOk result (λ r. self.new.history ≡ self.old.history ++ r.receipt.entry ∷ []) }
        ensures entry { IfOk result (λ r. r.receipt.entry ≡ event_of seat self.old.book call.now) }
        ensures place { IfOk result (λ r. r.receipt.place ≡ length self.old.history) }
        ensures call { IfOk result (λ r. IsOf seat call.now r.receipt) }
        ensures both { IfOk result (λ r. r.kept ≡ r.receipt) }
        ensures orders { IfOk result (λ r. HandsOut call.now r.receipt.entry.reply r.orders.list) }
        ensures goes_on { Begins self.old.history self.new.history }
        ensures work { IsWorkOf seat self.old.history self.new.history }
        ensures one { length self.new.history ≤ length self.old.history + 1 }
        ensures legal { OnOk result (IsLegal L.book self.new.history) }
        ensures memory { OnErr result (self.new ≡ self.old) }
    {
        self.history.reserve_one()?;
        let made = make_call(alloc, &mut self.book, seat, call)?;
        let place = self.history.len() as u64;
        self.history.push(made.entered);
        Ok(Answered {
            kept: Receipt {
                place,
                entry: made.kept,
            },
            receipt: Receipt {
                place,
                entry: made.answered,
            },
            orders: made.orders,
        })
    }
}
