//! Two ends that share only the bytes moved between them, steps and traces.
#![tactic(auto)]

pub use world::{World, WorldError};

mod both;
pub mod world;
