//! Messages that are made by a rule, sent one at a time over two ends in memory, and what came of them.
#![tactic(auto)]

pub use command::{asked, run_command};
pub use run::{GenRun, LONGEST_RUN, run_gen};

pub mod command;
pub mod rule;
pub mod run;
pub mod step;
pub mod steps;
pub mod tally;
pub mod walk;
