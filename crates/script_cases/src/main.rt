//! Scripts of two ends, and the texts that come of them.
//!
//! Each file `NAME.scripts` of the folder has cases: a heading `= NAME`, the lines of a script, a line `->`, and the text that
//! `amqp_run world` writes of it, or the line of its status. In that text a line `..` stands for any lines, and `..` in a line
//! for any characters. What stands before the first heading says nothing. For each file the program writes each case that
//! came otherwise, with what came, and then how many of its cases are the same.
#![tactic(auto)]

pub mod outcome;
pub mod run;

use crate::run::run_folder;
use std::io;

fn main(rt: HostRuntime) -> io::Result<()> {
    run_folder(&rt)
}
