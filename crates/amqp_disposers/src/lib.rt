//! Workers in threads that accept the deliveries of one book, which they share at a desk, under one lock or by turns with
//! tickets (OASIS AMQP 1.0, part 2, section 2.6.12).
//!
//! So many deliveries are registered, and each worker accepts all of them. What is written are the calls and the settled
//! deliveries of the one history that the desk gives back.
#![tactic(auto)]

pub use ending::Ending;
pub use gate::{Gate, OpenGate};
pub use run::run_disposers;

pub mod counts;
pub mod deliveries;
pub mod ending;
pub mod gate;
pub mod run;
pub mod tickets;
pub mod workers;
