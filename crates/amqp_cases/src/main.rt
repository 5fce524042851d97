//! Cases of the codec, from the files of the folder that this runs in.
//!
//! The end of a file's name tells what its lines are cases of (`kind.rt`); other files are left. For each file, each case that
//! does not come out as it says is written, and then how many of the file's cases are the same.
#![tactic(auto)]

pub mod came;
pub mod codec;
pub mod kind;
pub mod run;

use crate::run::run_folder;
use std::io;

fn main(rt: HostRuntime) -> io::Result<()> {
    run_folder(&rt)
}
