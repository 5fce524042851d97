//! Ends over links that can be waited for: one that serves a connection, and clients.
#![tactic(auto)]

pub use answers::{AnswerKind, kind_of};
pub use connecting::connect_on;
pub use failure::{Failure, ending_done, ending_of};
pub use serving::serve_on;

pub mod answers;
pub mod asking;
pub mod connecting;
pub mod failure;
pub mod serving;
