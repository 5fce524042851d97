//! The rule of the lock.
use crate::ticket_book::{TicketBook, TicketName};
use atomic_table::{Join, Play, Split, TableRule};
use book_history::HistoryEntry;
use std::collections::LinkedList;
use std::marker::PhantomData;

/// What a seat knows. No value of it is made.
pub struct TicketView {
    /// Whether it has a ticket that is drawn and not spent.
    pub waits: bool,
    /// The ticket.
    pub ticket: u64,
    /// Whether it holds the book.
    pub turn: bool,
    /// A beginning of the history, which it has seen.
    pub front: LinkedList<HistoryEntry>,
    /// Another, which it was told of.
    pub told: LinkedList<HistoryEntry>,
    /// The numbers with which it makes calls.
    pub numbers: LinkedList<u64>,
    /// Those of a seat that it was told of.
    pub told_numbers: LinkedList<u64>,
}

/// The rule. It is told how many numbers there are, which the first seat has.
pub(crate) struct InTurns<L: TicketName> {
    of: PhantomData<L>,
}

impl<L: TicketName> TableRule<Option<TicketBook<L>>, TicketView, usize> for InTurns<L> {
    ghost use Rattle.book_lock.specs.Begins.{from};
    ghost use Rattle.book_lock.specs.Rule.{Kept, newcomer};
    ghost use Rattle.std.specs.Prelude.{[]};

    ghost holds = { λ k s. Kept k s };

    ghost first = { λ k. newcomer [] (from 0 k) };
}

/// A ticket is drawn where the word is the number given.
pub(crate) struct Draws;

impl<L: TicketName> Play<Option<TicketBook<L>>, TicketView> for Draws {
    ghost use Rattle.book_lock.specs.Plays.{Drawn};

    ghost then = { Drawn };
}

/// The number that is served is read; where it is the seat's ticket, its turn begins.
pub(crate) struct Looks;

impl<L: TicketName> Play<Option<TicketBook<L>>, TicketView> for Looks {
    ghost use Rattle.book_lock.specs.Plays.{Looked};

    ghost then = { Looked };
}

/// The book is put back, and the next number is served.
pub(crate) struct Advances;

impl<L: TicketName> Play<Option<TicketBook<L>>, TicketView> for Advances {
    ghost use Rattle.book_lock.specs.Plays.{Advanced};

    ghost then = { Advanced };
}

/// The history so far is seen.
pub(crate) struct Sees;

impl<L: TicketName> Play<Option<TicketBook<L>>, TicketView> for Sees {
    ghost use Rattle.book_lock.specs.Plays.{Seen};

    ghost then = { Seen };
}

/// Another is met: what was seen is then the longer of what both had seen.
pub(crate) struct Meets;

impl<L: TicketName> Play<Option<TicketBook<L>>, TicketView> for Meets {
    ghost use Rattle.book_lock.specs.Plays.{Met};

    ghost then = { Met };
}

/// Another seat is made, which has seen as much, and takes the first number.
pub(crate) struct Numbers;

impl Split<TicketView> for Numbers {
    ghost use Rattle.book_lock.specs.Rule.{first_of, newcomer, numbered, rest_of};

    ghost left = { λ v. numbered v (rest_of v.numbers) };

    ghost right = { λ v. newcomer v.front (first_of v.numbers) };
}

/// A note is made, which has seen as much, and has no number.
pub(crate) struct Notes;

impl Split<TicketView> for Notes {
    ghost use Rattle.book_lock.specs.Rule.{newcomer, numbered};
    ghost use Rattle.std.specs.Prelude.{[]};

    ghost left = { λ v. numbered v v.numbers };

    ghost right = { λ v. newcomer v.front [] };
}

/// A seat is told what a note, or another seat, has seen.
pub(crate) struct Tells;

impl Join<TicketView> for Tells {
    ghost use Rattle.book_lock.specs.Rule.{informed, newcomer};
    ghost use Rattle.std.specs.Prelude.{[]};

    ghost both = { informed };

    ghost spent = { newcomer [] [] };
}
