//! A script beside what its ends said: the lines of the script, the replies of its trace, and the headers and frames of both ends,
//! as lines of text and as a picture.
#![tactic(auto)]

pub mod hidden;
pub mod laws;
pub mod layout;
pub mod lines;
pub mod picture;
pub mod show;
pub mod told;
pub mod voice;
