//! Deliveries in parts: how one is split over frames, and how it is joined from them (OASIS AMQP 1.0, part 2, section 2.6.14).
#![tactic(auto)]

pub use incomplete::{IncompleteTransfer, PartError};
pub use part::{Part, let_go};
pub use splitting::{Cut, first_part, split};

pub mod incomplete;
pub mod laws;
pub mod part;
mod room;
pub mod splitting;
