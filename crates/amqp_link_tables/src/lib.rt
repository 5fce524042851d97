//! The links of one session, by handles, by names and by delivery numbers (OASIS AMQP 1.0, part 2, sections 2.6.2, 2.6.4 and 2.8.9).
#![tactic(auto)]

pub use deliveries::{Delivered, DeliveryTable};
pub use error::AllocLinkError;
pub use table::LinkTable;

pub mod deliveries;
pub mod error;
pub mod handles;
pub mod laws;
pub mod table;
