//! Scripts and the texts of their traces, and what is shown of both.
//!
//! Each file `NAME.shows` of the folder has cases: a heading `= NAME`, the lines of a script, a line `--`, the text of a trace, a
//! line `->`, and what `amqp_show` shows of both. What stands before the first heading says nothing. For each file the program
//! writes each case that came otherwise, with what came, and then how many of its cases are the same.
#![tactic(auto)]

pub mod outcome;
pub mod run;

use crate::run::run_folder;
use std::io;

fn main(rt: HostRuntime) -> io::Result<()> {
    run_folder(&rt)
}
