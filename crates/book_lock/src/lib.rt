//! A ticketed lock for the book of a receiver (OASIS AMQP 1.0, part 2, sections 2.6.7 to 2.6.12).
//!
//! Each call draws a ticket, waits until its number is served, takes the book out of its slot, makes its call, puts the book
//! back with one entry more in its history, and serves the next number. All calls have one history; each seat has seen a
//! beginning of it, in which its own calls stand, each once. Seats tell each other by notes what they have seen. It is not promised that a
//! call returns, or which seat comes first.
#![tactic(auto)]

pub use desk::TicketDesk;
pub use error::TicketError;
pub use note::TicketNote;
pub use seat::TicketSeat;
pub use ticket_book::TicketName;

mod closing;
pub mod desk;
pub mod error;
pub mod note;
pub mod rule;
pub mod seat;
mod steps;
pub mod ticket_book;
mod turns;
