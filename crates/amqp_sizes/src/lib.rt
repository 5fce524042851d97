//! How many bytes performatives and bodies of frames take (OASIS AMQP 1.0, part 2, sections 2.3.2 and 2.7), told without writing them.
#![tactic(auto)]

pub use body::{body_size, performative_size};

pub mod body;
mod composite;
mod maps;
mod performatives;
mod scalars;
mod slot;
mod termini;
