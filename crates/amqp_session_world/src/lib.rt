//! Two ends with sessions and links in memory, driven by steps; `laws`: which answers of an end are of its connection, and what
//! answered them (OASIS AMQP 1.0, part 2, section 2.4).
#![tactic(auto)]

pub use world::SessionWorld;

pub mod laws;
pub mod pairs;
mod turns;
pub mod world;
