//! Runs of disposers, and what they write.
//!
//! Each file `NAME.disposers` of the folder has cases: a heading `= NAME`, a line `DELIVERIES WORKERS`, a line `->`, and what is
//! written. Behind the two numbers may stand `ticket`: then the workers take their turns by tickets, else they share the book under
//! one lock. Behind that may stand `in turns`: then the workers 1 and 2 are held at their second call until a call of the other was
//! answered, and the last line is `in turns`, or `alone` where one of them was held too long. For each file the program writes each
//! case that came otherwise, with what came, and then how many of its cases are the same.
#![tactic(auto)]

pub mod answer;
pub mod run;
pub mod turns;

use crate::run::run_folder;
use std::io;

fn main(rt: HostRuntime) -> io::Result<()> {
    run_folder(&rt)
}
