//! The settlement book of a receiver: which deliveries are unsettled, what was said of them, and when credit is due again
//! (OASIS AMQP 1.0, part 2, sections 2.6.7 to 2.6.12).
#![tactic(auto)]

pub use book::BookState;
pub use calls::{BookCall, BookReply};
pub use info::{CreditMode, DeliveryInfo, DisposerView};
pub use orders::{Order, OrderList};
pub use ranges::Range;
pub use run::is_consecutive;
pub use states::{copy_state, same_state};
pub use steps::Steps;

pub mod book;
pub mod calls;
mod copies;
pub mod entry;
pub mod info;
pub mod orders;
pub mod ranges;
pub mod run;
mod search;
pub mod states;
pub mod steps;
