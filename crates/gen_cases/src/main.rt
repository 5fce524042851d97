//! Messages that are made by a rule, and what is written of them.
//!
//! Each file `NAME.gens` of the folder has cases: a heading `= NAME`, a line with the words behind the program's name, a line `->`, and
//! what is written, or `none` where the words ask for no such run. What stands before the first heading says nothing. For each file
//! the program writes each case that came otherwise, with what came, and then how many of its cases are the same.
#![tactic(auto)]

pub mod outcome;
pub mod run;

use crate::run::run_folder;
use std::io;

fn main(rt: HostRuntime) -> io::Result<()> {
    run_folder(&rt)
}
