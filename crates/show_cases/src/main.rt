//! Bytes of a connection, and the lines that they are shown as.
//!
//! Each file `NAME.decoded` of the folder has cases: a heading `= NAME`, bytes in hexadecimal, a line `->`, and what
//! `amqp_run decode` writes of them, with the line of its status behind it where that is not `Done`. What stands before the
//! first heading says nothing. For each file the program writes each case that came otherwise, with what came, and then how
//! many of its cases are the same.
#![tactic(auto)]

pub mod outcome;
pub mod run;

use crate::run::run_folder;
use std::io;

fn main(rt: HostRuntime) -> io::Result<()> {
    run_folder(&rt)
}
