//! Files of cases: their names, their lines and blocks, how they write bytes and texts, and what is said of each file.
#![tactic(auto)]

pub use block::{Block, read_block};
pub use folder::names;
pub use line::{Case, is_comment, read_case};
pub use notation::{NotationError, read_bytes};
pub use pattern::has_lines;
pub use tally::Tally;

pub mod block;
pub mod folder;
pub mod line;
pub mod notation;
pub mod pattern;
pub mod tally;
