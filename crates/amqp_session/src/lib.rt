//! One session endpoint of a connection (OASIS AMQP 1.0, part 2, section 2.5).
#![tactic(auto)]

pub use error::{BeginError, Error, Fault};
pub use session::{LeftDelivery, LinkInput, Session, SessionState};
pub use settings::SessionSettings;
pub use windows::Windows;

mod copies;
mod ending;
pub mod error;
mod hearing;
pub mod laws;
mod links;
mod sending;
pub mod session;
pub mod settings;
pub mod windows;
