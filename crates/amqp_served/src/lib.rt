//! What becomes of a connection that is served, what is done next, and how a run over a socket ends.
#![tactic(auto)]

pub use ending::Ending;
pub use moments::{Clocked, Moments, Still};
pub use names::Names;
pub use news::News;
pub use served::{Act, Served};

pub mod count;
pub mod ending;
pub mod moments;
pub mod names;
pub mod news;
pub mod served;
