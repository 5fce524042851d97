//! One end of a link with the calls that wait at it (OASIS AMQP 1.0, part 2, section 2.6).
#![tactic(auto)]

pub use amqp_link_words;
pub use amqp_link_words::amqp_receiver;
pub use called::CalledLink;
pub use leave::{Leaving, PartKind, WaitingPart};
pub use side::LinkSide;

mod answering;
pub mod called;
mod disposers;
mod hearing;
pub mod leave;
mod parting;
mod receiving;
mod regulating;
mod replies;
mod sending;
pub mod side;
