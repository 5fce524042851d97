//! What the links of one session share: their handles and names, the calls that attach and accept, the Attaches of the peer that wait,
//! and the end of the session (OASIS AMQP 1.0, part 2, sections 2.5 and 2.6).
#![tactic(auto)]

pub use amqp_session;
pub use inputs::InputQueue;
pub use place::{Claim, SessionLinks, WaitingAccept};

mod claiming;
mod incoming;
pub mod inputs;
mod numbers;
pub mod place;
mod standing;
