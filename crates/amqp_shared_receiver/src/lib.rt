//! A receiver whose deliveries are settled apart from it, by disposers in other threads for instance: its book is taken, and the frames that
//! the book orders are written by the receiver (OASIS AMQP 1.0, part 2, sections 2.6.7 and 2.6.12).
#![tactic(auto)]

pub use amqp_receiver;
pub use shared::SharedReceiver;

mod hearing;
mod parting;
mod receiving;
mod settling;
pub mod shared;
