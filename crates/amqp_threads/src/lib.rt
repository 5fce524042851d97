//! A desk at which threads share the book of a receiver (OASIS AMQP 1.0, part 2, sections 2.6.7 to 2.6.12).
//!
//! The book lies under one lock, with the history of all calls made on it. Each thread has a seat, which makes calls and
//! keeps their receipts. Whoever closes the desk hands in all seats, and has the book back with a history that leads to
//! it, in which each receipt stands.
#![tactic(auto)]

pub use desk::{Closed, Desk};
pub use error::DeskError;
pub use locked::DeskName;
pub use seat::{DeskSeat, SeatList};

pub mod desk;
pub mod error;
mod locked;
pub mod seat;
