//! Settlement books, and what they answer.
//!
//! Each file `NAME.books` of the folder has cases: a heading `= NAME`, a line that makes a book, lines of calls, a line `->`, and
//! what is answered (`line` and `answer` say how both are written). What stands before the first heading says nothing. For each
//! file the program writes each case that came otherwise, with what came, and then how many of its cases are the same.
#![tactic(auto)]

pub mod answer;
pub mod error;
pub mod find;
pub mod line;
pub mod run;
pub mod states;

use crate::run::run_folder;
use std::io;

fn main(rt: HostRuntime) -> io::Result<()> {
    run_folder(&rt)
}
