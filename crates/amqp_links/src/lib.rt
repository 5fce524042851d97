//! All links of an end: by the calls that made them, by the sessions that they are on, and by what those hand to them (OASIS AMQP 1.0,
//! part 2, section 2.6).
#![tactic(auto)]

pub use links::{GivenDelivery, KeptDisposer, Links, SentDelivery};
pub use output::LinksOutput;
pub use timed::{Awaited, TimedCall, Timer};

mod accepting;
mod attaching;
mod calling;
mod disposers;
mod forgetting;
mod hearing;
mod leaving;
pub mod links;
mod numbering;
pub mod output;
mod regulating;
mod settling;
mod stopping;
mod taking;
pub mod timed;
mod timing;
