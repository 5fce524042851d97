//! The words of an end: what it is asked, what it answers, and the steps and traces of two ends.
#![tactic(auto)]

pub use amqp_opening::AcceptSasl;
pub use call::{Call, ConnectionSettings};
pub use open_error::OpenError;
pub use reply::{NamedReply, Reply, ReplyList};
pub use step::{Act, End, Step, StepList};
pub use trace::{Entry, EntryList, Trace};

pub mod call;
pub mod copies;
pub mod open_error;
pub mod reply;
pub mod step;
pub mod trace;
