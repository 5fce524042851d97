//! Desks at which seats share a settlement book under one lock, and how they are closed.
//!
//! Each file `NAME.desks` of the folder has cases: a heading `= NAME`, a line that makes the desk, lines of calls (`line` says how they
//! are written), a line `->`, and what is answered (`answer`). The calls are made one after another: what threads do at a desk is for the
//! crate disposer_cases. For each file the program writes each case that came otherwise, with what came, and then how many of its cases
//! are the same.
#![tactic(auto)]

pub mod answer;
pub mod change;
pub mod error;
pub mod line;
pub mod run;
pub mod show;

use crate::run::run_folder;
use std::io;

fn main(rt: HostRuntime) -> io::Result<()> {
    run_folder(&rt)
}
