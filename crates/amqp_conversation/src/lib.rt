//! What an end of a connection said, as lines of text: the protocol headers and the frames in a stream of its bytes, in order.
#![tactic(auto)]

pub mod decode;
pub mod said;
mod why;
